//! What the rows of the tables stand for: an office with its book. In tables without a column for a domain its one domain
//! is `main`; in tables by domains each domain is what such tables stand for, of the rows that it sees. And the same as a
//! function of all rows as reads of whole tables show them. It has no code.
//!
//! - Spec `Meaning`: the office of `main` alone, with its book; `Domains`: an office of all its domains, and the meaning of
//!   each form; `Values`: the value of a column; `Cells`: the row that is written for a value
//! - Specs `RowKeys`, `RowChanges`: what a schema asks of rows by the names of their tables, wherever these are, and what
//!   statements make of them
//! - Specs `Shown`, `OfficeShown`: what the rows that queries and reads of whole tables show stand for
//! - Spec `Written`: what the writing of a unit makes of rows; `Beginnings`, `BeginningRows`: what new tables are filled
//!   with
//! - Proofs: each file's first line says of which table or of which query it is
#![tactic(auto)]
