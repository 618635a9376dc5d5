//! What the statements of a commit make of the office with its book that the rows stand for. It has no code.
//!
//! - Spec `OnDomains`: what is made of what each domain sees of tables by domains; `Commits`: what a commit of a change
//!   writes of what a domain sees; `UnitWrites`: what the writers of units make of it; `EntryWrites`: what the writer of a
//!   template's entries makes of it
//! - Proof `DomainWrites`: what each statement by domains makes of what each domain sees
//! - Proofs `RoleCommits`, `PolicyCommits`, `LanguageCommits`, `TemplateCommits`, `UnitCommits`: what each commit makes of
//!   an office of one domain; `DomainCommits`: of the whole office
//! - Proofs `Team`, `Policy`, `Template`, `Units`, `PlannedUnits`, `AddedSuggestions`, `LastSuggestions`, `VotesWritten`,
//!   `States`: what becomes of each table; `Changed`: the tables that stay
//! - Proofs `EntriesWritten`, `StayingUnits`, `PlansCover`: a template whose entries and units that stay aren't written
#![tactic(auto)]
