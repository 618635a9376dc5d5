//! The lines of records, written as their rows come.
ghost use Rattle.std.specs.Prelude.{◌≡◌};
ghost use Rattle.store_commands.specs.RecordLines.{TookLines, RefusedLine, lost_told, fault_told};

use crate::records::RecordsFault;
use byte_streams::ByteSink;
use commands::send_record;
use sql_decoding::head_in;
use sql_streams::RowSink;
use sqlite::Row;
use std::alloc::Global;
use store_sql::HandingFault;
use tables::Lost;

/// Writes the line of each record whose row it takes.
#[derive(Drop)]
pub(crate) struct RecordLines<'a, W: ByteSink> {
    alloc: Global,
    w: &'a mut W,
}

impl<'a, W: ByteSink> RecordLines<'a, W> {
    /// A sink that writes to this writer.
    pub(crate) fn new(alloc: Global, w: &'a mut W) -> RecordLines<'a, W>
        ensures same_reference { result.w.ghost_name ≡ w.entry.ghost_name }
        ensures same { result.w.now ≡ w.old }
    {
        RecordLines { alloc, w }
    }
}

/// What tables that failed are told as.
fn lost_fault(lost: Lost) -> RecordsFault
    ensures { result ≡ lost_told lost }
{
    match lost {
        Lost::Memory => RecordsFault::Memory,
        Lost::Disk => RecordsFault::Disk,
        Lost::Refused => RecordsFault::Refused,
    }
}

/// What it is told as that not all records were handed on.
pub(crate) fn handing_fault(fault: HandingFault<RecordsFault>) -> RecordsFault
    ensures { result ≡ fault_told fault }
{
    match fault {
        HandingFault::NoRecord => RecordsFault::NoRecord,
        HandingFault::NoTables(lost) => lost_fault(lost),
        HandingFault::NoSink(fault) => fault,
    }
}

impl<'a, W: ByteSink> RowSink for RecordLines<'a, W> {
    ghost use Rattle.store_commands.specs.LinesTaken.{took_no_lines, took_more_lines};

    type Refusal = RecordsFault;

    ghost Took = { λ a rows b. TookLines W.taken W.failed a.w rows b.w };

    ghost Refuses = { λ a row fault b. RefusedLine W.taken W.failed a.w row fault b.w };

    ghost none = { λ s. took_no_lines W.taken W.failed s.w };

    ghost more = { λ a b c xs ys one two. took_more_lines W.taken W.failed a.w b.w c.w xs ys one two };

    fn take(&mut self, row: &Row) -> Result<(), RecordsFault> {
        match head_in(self.alloc, row) {
            Ok(head) => match send_record(self.w, head.number, head.status) {
                Ok(()) => Ok(()),
                Err(_) => Err(RecordsFault::Device),
            },
            Err(failure) => Err(lost_fault(failure.lost)),
        }
    }
}
