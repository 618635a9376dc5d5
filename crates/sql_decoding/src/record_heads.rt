//! What is told of a record in the order of the records, as its row is read.
ghost use Rattle.std.specs.Prelude.{◌≡◌, true, IfOk, IfErr, OnOk};
ghost use Rattle.sql_decoding.specs.RecordHeads.{shown_head, is_head};
ghost use Rattle.sql_decoding.specs.RowTests.{IsUnread};

use crate::faults::Failure;
use crate::integers::integer_at;
use crate::texts::text_at;
use sqlite::Row;
use std::alloc::Global;
use uuid::Uuid;

/// The number of a record's request, and the status of its reply.
#[derive(Debug, Clone, Copy, Drop, PartialEq, Eq)]
pub struct RecordHead {
    pub number: Uuid,
    pub status: u16,
}

/// The number and the status of a record whose row shows them first.
///
/// `Memory` where a growth was refused, and `Disk` exactly where the row stands for no record.
pub fn head_in(alloc: Global, row: &Row) -> Result<RecordHead, Failure>
    ensures shown { IfOk result (λ head. head ≡ shown_head row.now) }
    ensures stands { OnOk result (is_head row.now ≡ true) }
    ensures unread { IfErr result (IsUnread (is_head row.now)) }
{
    let number = text_at(alloc, row, 0)?;
    let status = integer_at(row, 1)?;
    Ok(RecordHead { number, status })
}
