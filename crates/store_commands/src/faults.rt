//! What is told where an office's tables can't be had.
ghost use Rattle.std.specs.Prelude.{◌≡◌, false, OnOk};
ghost use Rattle.byte_streams.specs.Sending.{Sends};
ghost use Rattle.office.specs.Writers.{writer_at};
ghost use Rattle.store_commands.specs.Faults.{store_fault_line, TellsLine};

use byte_streams::{ByteSink, SinkFault, hand_on, send};
use commands::FAILED;
use store_sql::OpenFault;

/// Writes a line, and hands it on.
pub(crate) fn send_line<W: ByteSink>(w: &mut W, line: &[u8]) -> Result<(), SinkFault>
    ensures sent { Sends W.taken W.failed w.old w.new line.now result }
    ensures handed_on { OnOk result (W.holds_back w.new ≡ false) }
{
    send(w, line)?;
    hand_on(w)
}

fn send_store_fault<E: ByteSink>(e: &mut E, fault: OpenFault) -> Result<(), SinkFault>
    ensures { Sends E.taken E.failed e.old e.new (store_fault_line fault) result }
{
    match fault {
        OpenFault::Memory => send_line(e, b"store fault 1\n"),
        OpenFault::Disk => send_line(e, b"store fault 2\n"),
        OpenFault::Foreign(_) => send_line(e, b"store fault 3\n"),
        OpenFault::Exists => send_line(e, b"store: exists\n"),
        OpenFault::Refused => send_line(e, b"store fault 5\n"),
    }
}

/// Tells why an office's tables can't be had: a line `store fault K`, K being the fault's number, or `store: exists` where an office is
/// there already.
///
/// Answers the exit status, which is 1.
pub fn tell_store_fault<E: ByteSink>(e: &mut E, fault: OpenFault) -> u8
    ensures told { TellsLine (writer_at E.taken E.failed e.old) (writer_at E.taken E.failed e.new) (store_fault_line fault) }
    ensures status { result ≡ 1 }
{
    let _ = send_store_fault(e, fault);
    FAILED
}
