//! Which of the layouts of an office's file a connection's tables are, whatever made them.
//!
//! What is said of values is said while the disk returns what was written.
//!
//! - `shapes`, `table_checks`, `table_shapes`, `office_tables`: the tables of each layout, told by constants, and the
//!   form of tables (`Form`)
//! - `rowids`: whether the rowids of each table are integers, no two the same
//! - `offices`: a transaction that tells whether a connection's tables are those, and of which form (`office_form`)
//!
//! The specs `Found` and `Looks` say what is asked of tables and told of them. `Shapes`, `Checks` and `Tables` are the
//! tables that constants tell, `RowidQueries` and `RisingRows` the queries on rowids.
#![tactic(auto)]

mod office_tables;
mod offices;
mod rowids;
mod shapes;
mod table_checks;
mod table_shapes;

pub use office_tables::Form;
pub use offices::office_form;
pub use rowids::integer_of;
