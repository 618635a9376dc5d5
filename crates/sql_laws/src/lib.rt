//! Lemmas for the tables of a database, whatever its schema: rows as a finite map, and what SQL statements make of
//! them. It has no code.
//!
//! - Specs `RowMaps`, `ApartRows`: rows as a finite map from a key; rows with rowids, no two the same
//! - Specs `PlainQueries`, `OrderedQueries`, `Upserts`: queries over one table, and INSERT with ON CONFLICT
//! - Proofs of the same names: what these come to
//! - Proofs `Columns`, `Comparisons`: what a column of a row holds, and how SQL compares
//! - Proofs `Writes`, `PutRows`, `RemovedRows`, `RenewedRows`: what INSERT and DELETE make of trees and maps
//! - Proofs `Transactions`, `KeptCommits`: what a crash leaves of a transaction, and which statements commit nothing
//! - Specs and proofs `DiskErrors`: which errors tell of the disk, and that each comes of a failure of it
#![tactic(auto)]
