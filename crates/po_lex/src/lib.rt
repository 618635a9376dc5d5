//! Lines of PO text: which form each line is of, and what it says.
//!
//! - `lines`: the lines of a text, one by one
//! - `line`: a line, over slices of the source
//! - `forms`: the form of a line
//! - `pieces`: quoted pieces
//! - `scan`: bytes that stand as they are between quotes
//! - `white`: spaces and tabs at the ends of a text
//! - `fault`: why a text spells no catalogue
//!
//! Specs: `Lines` (the form of a line, or its fault), `Escapes` (the strings that quoted pieces stand for), `Reading`
//! (a value or a fault's kind, and what is white), `PlainTokens` (what tokens stand for), `Kinds` (the numbers of the kinds).
#![tactic(auto)]

mod fault;
mod forms;
mod line;
mod lines;
mod pieces;
mod scan;
mod white;

pub use fault::{FaultKind, PoFault};
pub use forms::is_comment_text;
pub use line::{Keyword, Line, Part, Token};
pub use lines::{Lines, first_line, lex};
pub use scan::bare_len;
pub use white::trim;
