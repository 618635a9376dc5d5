//! Every statement on an office's tables but those that look at a file that nobody knows yet, one function each, in a
//! module for each table, and its law beside it.
//!
//! - `records`, `team`, `policy`: one table each, which each form of an office's tables has
//! - `domains`, `domain_template`, `domain_languages`, `domain_units`, `domain_suggestions`, `domain_votes`, `vote_sums`,
//!   `tallies`: tables by domains, one each; in `vote_sums` the walk over all sums beside the votes that they are of
//! - `domain_queries`: the join that an export walks, and the obsolete units behind it
//! - `record_queries`: records, in the order in which the office took them, and by number with their contents
//! - `unit_rows`: the rows that a look at a unit shows
//! - `whole_office`: the rows of all tables without a column for a domain, read in one transaction
//! - `domain_office`: what a domain sees of those by domains
//! - `owners`: of which domain each row of a table is; `approval_counts`: how many units of each domain are approved
//! - `unit_walks`: units, suggestions and votes one at a time, each with what a test of it asks of other tables
//!
//! Specs: `Answers`, `DomainAnswers`, `UnitRows`, `Queries`, `Tables`, `RecordTable`, `RecordsInOrder`, `WholeOffice`, `Owners`, `SummedVotes`, `WalkedRows`, `ApprovalCounts` are what reads show; `Added`,
//! `Taken`, `Renewed`, `DomainCleared`, `DomainVotes` what becomes of rows; `Unrefused` which errors walks tell. A lemma about one table's texts stands in `proofs/` under the
//! table's name (`DomainUnitPuts`, `PolicySet`, `DomainUnitReads`); what INSERT, INSERT with ON CONFLICT, DELETE and UPDATE do to
//! any table of the office in `Additions`, `Upserts`, `Removals`, `Renewals`.
//!
//! A function takes a transaction that is open and leaves it open, but those of `domain_queries`,
//! `record_queries`, `owners`, `unit_walks`, `whole_office`, `look_up_domain`, `look_up_frame`, `walk_sums` and `walk_unsummed`. What is said of
//! values is said while the disk returns what was written. No read and no walk is refused over an office's tables (`ReadsUnread`): an error is
//! want of memory, a failure of the disk, or a limit on the steps of a query that was met.
#![tactic(auto)]

pub mod approval_counts;
pub mod domain_languages;
pub mod domain_office;
pub mod domain_queries;
pub mod domain_suggestions;
pub mod domain_template;
pub mod domain_units;
pub mod domain_votes;
pub mod domains;
pub mod owners;
pub mod policy;
pub mod record_queries;
pub mod records;
pub mod tallies;
pub mod team;
pub mod unit_rows;
pub mod unit_walks;
pub mod vote_sums;
pub mod whole_office;
