//! Decisions on a unit, what callers see of it, and templates and texts of a language.
//!
//! A row is a deed and, behind ` -> `, what it comes to. A deed's words are parted by spaces, and its texts stand behind the
//! first `|`. A row that can't be read, or that memory is wanting for, is `unread`.
//!
//! Decisions:
//!
//!   by ROLE SUM MARK..                    who acts in the rows below, and under which policy: the sum of votes that accepts,
//!                                         and the marks reviews, guests, voting, placeholders
//!   unit STATE REVISION MARK..|FORM|..    the unit of the rows below, of the msgid `Hello`; its marks: obsolete, read-only,
//!                                         suggested (`Servus`, as number 20, by ann), crowded (that with 10,000 votes against
//!                                         it), plural (of the msgid `%d file`, which was another before)
//!   NAME SEEN ACT                         what NAME does, who has seen the revision SEEN, to the unit that the rows above left. An
//!                                         ACT is suggest NUMBER|FORM|.., for NUMBER, against NUMBER, unvote NUMBER,
//!                                         accept NUMBER, dismiss NUMBER, translate|FORM|.., comment|LINE|.., approve, send-back
//!   left                                  the numbers of the unit's suggestions, and its forms
//!
//! An act comes to a refusal, or to the unit's revision and state with what else the reply tells: `suggestion NUMBER SUM`,
//! `voted SUM`, `accepted SUM`; `with previous` is said of a unit that keeps a previous msgid. A decision that memory is
//! refused to is made once more: what comes of it then is told with `after want of memory`.
//!
//! Units, entries and forms:
//!
//!   shown STATE|FLAG                      what the copy of such a unit shows, whose msgid was another, and whose template entry has
//!                                         the flag
//!   flag TEXT|FLAG                        whether an entry with the flag has the other one
//!   empty|FORM|..                         whether all forms are empty, or some
//!
//! Templates and texts, where PO stands for the lines of a PO text with `; ` between them:
//!
//!   template|PO                           the template of the rows below
//!   units COUNT STATE REVISION MARK..|PO  the language's units in the rows below, each entry so many times; their mark: suggested
//!   then|PO                               what the next template makes of the units, which are those of the rows below
//!   load MARK..|PO                        the units that a language's text gives, likewise; the policy's mark: placeholders
//!   strip|PO                              the template of a text: how many entries, and of each its comments and flags, its msgid
//!                                         and its forms
//!
//! `then` and `load` come to the numbers of the reply and the first unit, or to `past a limit`.
mod decisions;
mod parts;
mod shown;
mod stage;
mod updates;
mod words;

use crate::words::{word, words_and_texts};
use shown::{tell_empty, tell_flag, tell_shown};
pub(crate) use stage::Stage;
use std::alloc::Global;
use updates::{put_template, put_units, tell_loaded, tell_planned, tell_stripped};

/// Tells what a deed comes to. None where it can't be read, or memory is wanting.
pub(crate) fn tell(alloc: Global, told: &mut String, stage: &mut Stage, deed: &str) -> Option<()> {
    let (words, texts) = words_and_texts(deed);
    let lines = texts.unwrap_or("");
    match word(words, 0) {
        "shown" => tell_shown(alloc, told, stage, words, lines),
        "flag" => tell_flag(alloc, told, words, lines),
        "empty" => tell_empty(alloc, told, lines),
        "template" => put_template(alloc, stage, lines),
        "units" => put_units(alloc, stage, words, lines),
        "then" => tell_planned(alloc, told, stage, lines),
        "load" => tell_loaded(alloc, told, stage, words, lines),
        "strip" => tell_stripped(alloc, told, lines),
        _ => decisions::tell(alloc, told, stage, words, texts),
    }
}
