//! Lines, catalogues, their canonical text, plural rules and checks: rows `DEED -> WANTED`.
//!
//! In a text, `{10}` is the byte 10, `{<57}` are the first 57 bytes of the text that was kept, and `{x*20}` is twenty times x, in
//! which `@` stands for the number of the turn, from 0. PO is a text whose lines have `; ` between them; a `;` ends its last line
//! where an LF does. Each WANTED is such a text too. `{;}` is a semicolon that ends no line, and `{ x }`
//! stands for itself.
//!
//!   text PO           keeps this text
//!   lex PO            the line and the number of the first fault that the lexer tells, or `none`
//!   lines PO          each line with its number, or with that of its fault
//!   say PO            the lexer's first fault in words
//!   fault PO          the line and the number of the fault that the reader tells, or `none`
//!   read PO           the entries as items, or the line and the number of the fault
//!   canon PO          the canonical text of the catalogue
//!
//!   entries PO        the entries of the rows below are those of this text
//!   entry ITEM; ..    and one more. Items are NAME=TEXT, in the order of no PO text: # #. #: #, msgctxt msgid msgid_plural msgstr,
//!                     `was` before a previous string's name, and `obsolete`
//!   made              how many entries the catalogue of these has, or `refused`; none are left
//!   one               the text of the last entry
//!   pushed            the text of all, one pushed after the other
//!   full COUNT        what comes of pushing two, the first again and the end, where the sink is full after so many bytes, how
//!                     often it failed and what it took
//!   write-fault NAME  its number and words
//!
//!   rule RULE         the rule of the rows below: how many forms it has, or its fault (`;` and `; ` stand for themselves)
//!   say-rule RULE     the fault of a rule in words
//!   index N           the form at N, or the fault there
//!   serves FORM       whether the form serves one number
//!   copy              the rule of the rows below is a copy
//!
//!   directives TEXT   those of a text, each with a bar behind it
//!   braces TEXT       the placeholders in braces of a text, likewise; brackets stand for braces, in TEXT and in WANTED
//!   findings          the forms of the last entry whose placeholders, and whose line ends, are found
//!   state CHECK..     the state that its forms give, under the enforced checks: placeholders, line-ends
mod checked;
mod deeds;
mod entries;
mod lexed;
mod rules;
mod stage;
mod texts;
mod told;
mod written;

pub(crate) use deeds::tell;
pub(crate) use stage::Stage;
pub(crate) use texts::means;
