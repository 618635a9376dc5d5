//! Names, limits, votes, streams and requests. A deed is words, and texts behind strokes.
//!
//!   name|TEXT -> X                       `refused`, or `taken` and the text of the name's copy
//!   lang|TEXT -> X                       the same of a language
//!   revision N -> X                      its number and the next one's
//!   accept-at N -> X                     its number
//!   below ROLE ROLE -> X                 whether the first has fewer rights
//!   comment|LINE.. -> X                  `refused`, or how many lines were taken
//!   votes -> X, vote NAME VALUE -> X     the votes of the rows so far, with this one: for, against or none
//!   refusal NAME -> X                    its number
//!   sink MOST|TEXT.. -> X                what each write comes to, at a sink that holds so much, and what it holds then
//!   source READS|TEXT -> X               what each read gives
//!   read|JSON -> X                       `malformed`, or the request's canonical text
//!   but|OLD|NEW -> X                     the same of the text of the last `read` row, with the new text for each old one
//!   cut N -> X                           the same of that text's first bytes
//!   act|JSON -> X                        `malformed`, or the text of the act that the text is of, without number and caller
//!   copy|JSON -> X                       the same of the request with a copy of its act on a unit
//!   fault NAME -> X                      its number and text
//!   keep STATUS|JSON|BODY -> X           the canonical text of the request; a copy of its record is kept, with this reply
//!   class|TEXT -> X                      how a request with this canonical text stands to the record that was kept last
//!
//! In a deed and in what it comes to `<U+1F>` stands for a character by its number, and `<1000*TEXT>` for a text so many
//! times.
mod book;
mod escapes;
mod limits;
mod requests;
mod stage;
mod streams;
mod told;
mod voting;

pub(crate) use escapes::means;
pub(crate) use stage::Stage;
pub(crate) use told::tell;
