//! `office canon`: the canonical text of a PO text.

ghost use Rattle.std.specs.Prelude.{◌≡◌, ◌<◌, ◌≤◌, ◌⊎◌, [], ℕ, List, IfOk, OnErr, IfErr, OnOk, IfSome, length, take, Err};
ghost use Rattle.byte_streams.specs.Streams.{RoseOrStands, prepend_known, IsAtEnd, one_more};
ghost use Rattle.byte_streams.specs.Sending.{Sends};
ghost use Rattle.commands.specs.CanonText.{WasRead, WasGathered, Canon, writer_at, po_fault_line};
ghost use Rattle.commands.specs.CanonEntries.{IsWritten};

use crate::numbers::send_number;
use byte_streams::{ByteSink, ByteSource, SinkFault, SourceFault, VecSink, send};
use po_lex::{FaultKind, PoFault};
use po_read::{ReadSink, read_each};
use po_text::Entry;
use po_write::CatalogueWriter;
use std::alloc::{AllocError, Global};
use std::mem::forget;

/// The most bytes that are read: one more than a PO text may have.
const MOST: usize = 16_777_217;

/// So many bytes are asked for at a time.
const ROOM: usize = 65_536;

/// Why no text was gathered.
#[derive(Drop)]
enum GatherFault {
    Source,
    Memory,
}

/// Reads at most so many bytes into the front of the room.
fn read_some<R: ByteSource>(
    source: &mut R,
    room: &mut [u8],
    most: usize,
) -> Result<usize, SourceFault>
    requires some { 0 < most }
    requires within { most ≤ length room.old }
    ensures most { IfOk result (λ n. n ≤ most) }
    ensures ok { IfOk result (λ n. R.left source.old ≡ prepend_known (take n room.new) (R.left source.new)) }
    ensures end { IfOk result (λ n. n ≡ 0 → IsAtEnd (R.left source.old)) }
    ensures ok_failed { IfOk result (λ n. R.failed source.new ≡ R.failed source.old) }
    ensures err { OnErr result (R.left source.new ≡ R.left source.old) }
    ensures err_failed { OnErr result (R.failed source.new ≡ one_more (R.failed source.old)) }
{
    source.read(&mut room[..most])
}

/// Reads the source to its end, or up to one byte more than a PO text may have.
fn gather<R: ByteSource>(alloc: Global, source: &mut R) -> Result<Vec<u8>, GatherFault>
    ensures ok { IfOk result (λ bytes. WasGathered (R.left source.old) (R.left source.new) bytes.items) }
    ensures read { (front : List ℕ) × WasRead (R.left source.old) (R.left source.new) front }
    ensures failed { result ≡ Err GatherFault.Source → RoseOrStands (R.failed source.old) (R.failed source.new) }
{
    let mut room = [0u8; ROOM];
    let mut bytes = Vec::new(alloc);
    while bytes.len() < MOST {
        let most = ROOM.min(MOST - bytes.len());
        let count = match read_some(source, &mut room, most) {
            Ok(count) => count,
            Err(SourceFault) => return Err(GatherFault::Source),
        };
        if count == 0 {
            break;
        }
        if bytes.extend_from_slice(&room[..count]).is_err() {
            return Err(GatherFault::Memory);
        }
    }
    Ok(bytes)
}

/// Writes the line of a fault.
fn send_po_fault<E: ByteSink>(e: &mut E, fault: PoFault) -> Result<(), SinkFault>
    ensures { Sends E.taken E.failed e.old e.new (po_fault_line fault.line fault.kind) result }
{
    send(e, b"po line ")?;
    send_number(e, fault.line)?;
    send(e, b" kind ")?;
    send_number(e, fault.number())?;
    send(e, b"\n")
}

/// Entries that are read, on their way into the canonical text.
#[derive(Drop)]
struct Canonical {
    writer: CatalogueWriter<VecSink>,
}

impl ReadSink for Canonical {
    ghost use Rattle.commands.specs.CanonEntries.{Writes, writes_none, writes_more};

    ghost Took = { λ a entries b. Writes a.writer entries b.writer };

    ghost none = { λ s. writes_none s.writer };

    ghost more = { λ a b c xs ys p q. writes_more a.writer b.writer c.writer xs ys p q };

    fn take(&mut self, entry: Entry) -> Result<(), AllocError> {
        match self.writer.push(&entry) {
            Ok(()) => Ok(()),
            // A sink over memory that takes pieces of any length fails where a growth is refused.
            Err(_) => Err(AllocError),
        }
    }
}

/// Room for a text that is little longer than this, if there is so much.
fn room_for(alloc: Global, len: usize) -> Vec<u8>
    ensures { result.items ≡ [] }
{
    match Vec::with_capacity(alloc, len.saturating_add(len / 8)) {
        Ok(room) => room,
        Err(_) => Vec::new(alloc),
    }
}

/// No entries, where the text that is read has this length.
fn no_entries(alloc: Global, len: usize) -> Canonical
    ensures { IsWritten result.writer [] }
{
    Canonical {
        writer: CatalogueWriter::new(VecSink {
            bytes: room_for(alloc, len),
            piece: usize::MAX,
            room: usize::MAX,
            failed: 0,
        }),
    }
}

/// Prints the canonical text of these bytes, or the line of their fault.
fn canon_bytes<W: ByteSink, E: ByteSink>(alloc: Global, bytes: &[u8], w: &mut W, e: &mut E) -> u8
    ensures canon { (f g : ℕ) → Canon bytes.now f g
        (writer_at W.taken W.failed w.old) (writer_at W.taken W.failed w.new)
        (writer_at E.taken E.failed e.old) (writer_at E.taken E.failed e.new) result }
    ensures status { result ≤ 1 }
{
    match read_each(alloc, bytes, no_entries(alloc, bytes.len())) {
        Ok(canonical) => {
            let (text, _) = canonical.writer.finish();
            let written = send(w, text.bytes.as_slice());
            // The program ends behind this, and its memory goes at once.
            forget(text);
            match written {
                Ok(()) => 0,
                Err(_) => 1,
            }
        }
        Err(fault) => {
            let _ = send_po_fault(e, fault);
            1
        }
    }
}

/// Reads a PO text, at most 16,777,217 bytes and no further, and prints its canonical text; or only a line `po line L kind K` on
/// the second output, where the text spells no catalogue within the limits (the kinds are numbered as `PoFault::number` says;
/// line 0 stands for the whole text). Where memory runs out the kind is 10.
///
/// The answer is the exit status: 0, or 1 for a named fault or a failed stream. It is for a program that ends with it: the
/// text's memory isn't given back.
pub fn canon_text<R: ByteSource, W: ByteSink, E: ByteSink>(
    alloc: Global,
    source: &mut R,
    w: &mut W,
    e: &mut E,
) -> u8
    // What comes of the bytes that the source gives.
    ensures canon { (bytes : List ℕ) × IfSome (R.left source.old) (λ all. bytes ≡ all) × Canon bytes (R.failed source.old) (R.failed source.new)
        (writer_at W.taken W.failed w.old) (writer_at W.taken W.failed w.new)
        (writer_at E.taken E.failed e.old) (writer_at E.taken E.failed e.new) result }
    ensures status { result ≤ 1 }
    // No more is read than may be.
    ensures read { (front : List ℕ) × WasRead (R.left source.old) (R.left source.new) front }
{
    match gather(alloc, source) {
        Ok(bytes) => canon_bytes(alloc, bytes.as_slice(), w, e),
        Err(GatherFault::Source) => 1,
        Err(GatherFault::Memory) => {
            let fault = PoFault {
                line: 0,
                kind: FaultKind::Memory,
            };
            let _ = send_po_fault(e, fault);
            1
        }
    }
}
