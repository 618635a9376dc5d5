//! The lines of a comment that an act gives.
ghost use Rattle.std.specs.Prelude.{◌≡◌, ◌==◌, ◌||◌, ℕ, List, not, nat_lt, Some, None, true, if◌then◌else◌};
ghost use Rattle.std.specs.List.{list_all};
ghost use Rattle.po_lex.specs.Lines.{is_comment_text};
ghost use Rattle.units.specs.Limits as limits;

use crate::limits::{COMMENT_LIMIT, COMMENT_LINE_LIMIT};
use po_text::{Duplicate, Items, Text};
use std::alloc::AllocError;
use std::marker::Model;

/// At most 20 comment lines, each of at most 1,000 bytes, without line ends and without control characters but tabs.
/// (The lines are those of the GNU gettext manual, "The Format of PO Files"; the limits are this project's.)
#[derive(Drop, Debug)]
pub struct CommentLines {
    lines: Items<Text>,
}

impl Model for CommentLines {
    ghost Value = { List (List ℕ) };

    ghost view = { λ a. a.lines };

    ghost invariant = { λ a. limits.is_comment_lines a.lines ≡ true };
}

impl CommentLines {
    /// The lines as those of a comment, where they are such.
    pub fn try_new(lines: Items<Text>) -> Option<CommentLines>
        ensures { result ≡ (if limits.is_comment_lines lines then Some lines else None) }
    {
        if lines.as_slice().len() <= COMMENT_LIMIT && each_is_comment_line(lines.as_slice()) {
            Some(CommentLines { lines })
        } else {
            None
        }
    }

    /// The lines in their order.
    pub fn as_items(&self) -> &Items<Text>
        ensures value { result.now ≡ self.now }
        ensures fits { limits.is_comment_lines self.now ≡ true }
    {
        &self.lines
    }
}

impl Duplicate for CommentLines {
    fn duplicate(&self) -> Result<CommentLines, AllocError> {
        Ok(CommentLines {
            lines: self.lines.duplicate()?,
        })
    }
}

fn each_is_comment_line(lines: &[Text]) -> bool
    ensures { result ≡ list_all limits.is_comment_line lines.now }
{
    lines.iter().all(|line| is_comment_line(line.as_str()))
}

fn is_comment_line(line: &str) -> bool
    ensures { result ≡ limits.is_comment_line line.now }
{
    line.len() <= COMMENT_LINE_LIMIT && are_comment_bytes(line.as_bytes())
}

fn are_comment_bytes(bytes: &[u8]) -> bool
    ensures { result ≡ is_comment_text bytes.now }
{
    bytes.iter().all(|byte| is_comment_byte(*byte))
}

fn is_comment_byte(byte: u8) -> bool
    ensures { result ≡ ((byte == 9) || not (nat_lt byte 32)) }
{
    byte == b'\t' || !(byte < b' ')
}
