//! What was read of a stream, and the messages in it.
ghost use Rattle.std.specs.Prelude.{◌≡◌, ◌+◌, ◌<◌, ◌≤◌, ℕ, List, nat_le, nat_lt, [], ◌++◌, length, take, drop, true, false, None, IfSome, IfOk, OnOk, IfErr, OnErr, option_map, if◌then◌else◌};
ghost use Rattle.byte_streams.specs.Streams.{IsAtEnd};
ghost use Rattle.http_messages.specs.Heads.{head_of};
ghost use Rattle.http_messages.specs.declared.refusal.Refusal.TheVariants.{LongHead, Malformed};
ghost use Rattle.http_messages.specs.Asked.{body_limit};
ghost use Rattle.http_messages.specs.Askings.{IsAsking, MayTakeMemory};
ghost use Rattle.http_messages.specs.Streams.{head_limit, first_head};
ghost use Rattle.http_messages.specs.Arrivals.{ReadBehind, WasCutOff, asking_in, HasBody, HoldsFirst, WasWanted, WantsBody, RefusesHead, Arrives, piece_limit};
ghost use Rattle.http_messages.specs.declared.inbox.Arrival.TheVariants.{Refused, End};

use crate::body::body_size;
use crate::cut::head_length;
use crate::head::Head;
use crate::message::{Asked, Asking, Unread, asking_of};
use crate::refusal::Refusal;
use crate::route::Routes;
use byte_streams::{ByteSource, SourceFault};
use std::alloc::{AllocError, Global};
use std::marker::Model;
use thiserror::Error;

/// How many bytes a head has at most.
const HEAD_LIMIT: usize = 8_192;

const ROOM: usize = 16_384;

/// Why no message was read.
#[derive(Clone, Copy, Debug, Drop, Error)]
pub enum ReadFault {
    /// A read of the source failed.
    #[error("the source failed")]
    Source,
    /// A growth was refused.
    #[error("out of memory")]
    Memory,
}

impl ReadFault {
    ghost use Rattle.std.specs.Prelude.{◌≡◌};
    ghost use Rattle.http_messages.specs.Faults.{fault_number};

    /// 1 Source, 2 Memory.
    pub fn number(self) -> u8
        ensures { result ≡ fault_number self }
    {
        match self {
            ReadFault::Source => 1,
            ReadFault::Memory => 2,
        }
    }
}

impl From<SourceFault> for ReadFault {
    ghost use Rattle.std.specs.Prelude.{◌≡◌};
    ghost use Rattle.http_messages.specs.declared.inbox.ReadFault.TheVariants.{Source};

    ghost from_gives = { λ _ e. e ≡ Source };

    fn from(_fault: SourceFault) -> ReadFault {
        ReadFault::Source
    }
}

impl From<AllocError> for ReadFault {
    ghost use Rattle.std.specs.Prelude.{◌≡◌};
    ghost use Rattle.http_messages.specs.declared.inbox.ReadFault.TheVariants.{Memory};

    ghost from_gives = { λ _ e. e ≡ Memory };

    fn from(_refused: AllocError) -> ReadFault {
        ReadFault::Memory
    }
}

/// How many bytes the head and the body of a message have.
#[derive(Clone, Copy, Drop)]
pub struct Lengths {
    pub head: usize,
    pub body: usize,
}

/// What stands at the front of what was read.
#[derive(Clone, Copy, Drop)]
pub enum Arrival {
    /// Nothing: the stream has ended.
    End,
    /// Bytes that fail a test before any route counts, or a message that the stream ended in. The connection ends.
    Refused(Refusal),
    /// A message of these lengths.
    Message(Lengths),
}

/// What was read of a stream, and not yet taken off.
#[derive(Drop)]
pub struct Inbox {
    bytes: Vec<u8>,
}

impl Model for Inbox {
    ghost use Rattle.std.specs.Prelude.{List, ℕ};

    ghost Value = { List ℕ };

    ghost view = { λ inbox. inbox.bytes.items };
}

impl Inbox {
    /// Nothing was read yet.
    pub fn new(alloc: Global) -> Inbox
        ensures { result ≡ [] }
    {
        Inbox {
            bytes: Vec::new(alloc),
        }
    }

    /// Reads once. Tells whether there was anything to read.
    fn read_some<R: ByteSource>(&mut self, source: &mut R) -> Result<bool, ReadFault>
        ensures read { OnOk result (ReadBehind (R.left source.old) (R.left source.new) (R.failed source.old) (R.failed source.new) self.old self.new) }
        ensures some { IfOk result (λ more. more ≡ true → length self.old < length self.new) }
        ensures most { OnOk result (length self.new ≤ length self.old + piece_limit) }
        ensures none { IfOk result (λ more. more ≡ false → self.new ≡ self.old) }
        ensures end { IfOk result (λ more. more ≡ false → IsAtEnd (R.left source.new)) }
        ensures fault { IfErr result (WasCutOff (R.left source.old) (R.left source.new) (R.failed source.old) (R.failed source.new)) }
    {
        let mut room = [0u8; ROOM];
        let count = source.read(&mut room)?;
        self.bytes.extend_from_slice(&room[..count])?;
        Ok(count > 0)
    }

    /// How many bytes the head at the front has, if one ends within the limit.
    fn head_end(&self) -> Option<usize>
        ensures cut { option_map (λ n. take n self.now) result ≡ first_head self.now }
        ensures within { IfSome result (λ n. n ≤ length self.now) }
        ensures most { IfSome result (λ n. n ≤ head_limit) }
    {
        let limit = HEAD_LIMIT.min(self.bytes.len());
        head_length(&self.bytes[..limit])
    }

    /// Reads until a head ends at the front, or there are too many bytes for one. Tells whether it came so far before the source's end.
    fn read_head<R: ByteSource>(&mut self, source: &mut R) -> Result<bool, ReadFault>
        ensures read { OnOk result (ReadBehind (R.left source.old) (R.left source.new) (R.failed source.old) (R.failed source.new) self.old self.new) }
        ensures whole { IfOk result (λ more. more ≡ true → first_head self.new ≡ None → head_limit ≤ length self.new) }
        ensures at_hand { (first_head self.old ≡ None → head_limit ≤ length self.old) → (source.new ≡ source.old) × (self.new ≡ self.old) }
        ensures wanted { OnOk result (WasWanted self.old self.new) }
        ensures end { IfOk result (λ more. more ≡ false → IsAtEnd (R.left source.new)) }
        ensures fault { IfErr result (WasCutOff (R.left source.old) (R.left source.new) (R.failed source.old) (R.failed source.new)) }
    {
        while self.bytes.len() < HEAD_LIMIT && self.head_end().is_none() {
            if !self.read_some(source)? {
                return Ok(false);
            }
        }
        Ok(true)
    }

    /// Reads until there are so many bytes. Tells whether it came so far before the source's end.
    fn read_up_to<R: ByteSource>(&mut self, source: &mut R, most: usize) -> Result<bool, ReadFault>
        ensures read { OnOk result (ReadBehind (R.left source.old) (R.left source.new) (R.failed source.old) (R.failed source.new) self.old self.new) }
        ensures whole { IfOk result (λ more. more ≡ true → most ≤ length self.new) }
        ensures short { IfOk result (λ more. more ≡ false → length self.new < most) }
        ensures at_hand { most ≤ length self.old → (source.new ≡ source.old) × (self.new ≡ self.old) }
        ensures wanted { ((more : List ℕ) → length (self.old ++ more) < most → HoldsFirst (self.old ++ more) → ⊥)
            → OnOk result (WasWanted self.old self.new) }
        ensures end { IfOk result (λ more. more ≡ false → IsAtEnd (R.left source.new)) }
        ensures fault { IfErr result (WasCutOff (R.left source.old) (R.left source.new) (R.failed source.old) (R.failed source.new)) }
    {
        while self.bytes.len() < most {
            if !self.read_some(source)? {
                return Ok(false);
            }
        }
        Ok(true)
    }

    /// How many bytes the body behind this head has.
    fn body_behind(&self, head: usize) -> Result<usize, Refusal>
        requires within { head ≤ length self.now }
        ensures ok { IfOk result (WantsBody (head_of (take head self.now))) }
        ensures err { IfErr result (RefusesHead (head_of (take head self.now))) }
        ensures most { IfOk result (λ size. size ≤ body_limit) }
        ensures least { IfOk result (λ size. (behind : List ℕ) → HasBody (head_of (take head self.now)) behind → size ≤ length behind) }
    {
        match Head::read(&self.bytes[..head]) {
            Some(head) => body_size(&head),
            None => Err(Refusal::Malformed),
        }
    }

    /// What stands there where no head ends in the bytes.
    fn without_head(&self) -> Arrival
        ensures { result ≡ (if nat_le head_limit (length self.now) then Refused LongHead else if nat_lt 0 (length self.now) then Refused Malformed else End) }
    {
        if self.bytes.len() >= HEAD_LIMIT {
            Arrival::Refused(Refusal::LongHead)
        } else if self.bytes.is_empty() {
            Arrival::End
        } else {
            Arrival::Refused(Refusal::Malformed)
        }
    }

    /// Reads until a message stands at the front, whole or refused, or the source ends. What was read behind it stays, and where it
    /// stands there already nothing is read.
    ///
    /// An error where a read failed, or where a growth was refused: then bytes may be lost, and nothing more should be read.
    pub fn read_message<R: ByteSource>(&mut self, source: &mut R) -> Result<Arrival, ReadFault>
        ensures read { OnOk result (ReadBehind (R.left source.old) (R.left source.new) (R.failed source.old) (R.failed source.new) self.old self.new) }
        ensures arrives { IfOk result (Arrives (R.left source.new) self.new) }
        ensures at_hand { HoldsFirst self.old → (source.new ≡ source.old) × (self.new ≡ self.old) }
        ensures wanted { OnOk result (WasWanted self.old self.new) }
        ensures fault { IfErr result (WasCutOff (R.left source.old) (R.left source.new) (R.failed source.old) (R.failed source.new)) }
    {
        let _more = self.read_head(source)?;
        let Some(head) = self.head_end() else {
            return Ok(self.without_head());
        };
        let body = match self.body_behind(head) {
            Ok(size) => size,
            Err(refusal) => return Ok(Arrival::Refused(refusal)),
        };
        if !self.read_up_to(source, head + body)? {
            return Ok(Arrival::Refused(Refusal::Malformed));
        }
        Ok(Arrival::Message(Lengths { head, body }))
    }

    /// What the message of these lengths asks that stands at the front.
    ///
    /// An error where a growth was refused: then the message passes all tests, and asks for a unit by a query, which may name none.
    pub fn asking(
        &self,
        alloc: Global,
        routes: &Routes,
        lengths: Lengths,
    ) -> Result<Asking<'_>, Unread>
        requires within { lengths.head + lengths.body ≤ length self.now }
        ensures asking { IfOk result (λ asking. IsAsking asking (asking_in self.now lengths.head lengths.body)) }
        ensures memory { OnErr result (MayTakeMemory (asking_in self.now lengths.head lengths.body).asked) }
        ensures ends { IfErr result (λ unread. unread.ends ≡ (asking_in self.now lengths.head lengths.body).ends) }
    {
        let (front, behind) = self.bytes.split_at(lengths.head);
        match Head::read(front) {
            Some(head) => asking_of(alloc, routes, &head, &behind[..lengths.body]),
            None => Ok(Asking {
                asked: Asked::Refused(Refusal::Malformed),
                ends: true,
            }),
        }
    }

    /// Takes bytes off the front.
    pub fn take_off(&mut self, count: usize)
        requires { count ≤ length self.old }
        ensures { self.new ≡ drop count self.old }
    {
        self.bytes.drain(..count);
    }
}
