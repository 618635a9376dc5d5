//! Where a key stands.

ghost use Rattle.std.specs.Prelude.{◌≡◌, IfOk};

use std::alloc::AllocError;

/// Where a key stands in bytes that hold keys: its msgid, and behind it its context, if it has one.
#[derive(Clone, Copy)]
pub(crate) struct Place {
    pub(crate) start: u32,
    /// The end of the msgid.
    pub(crate) end: u32,
    /// The end of the context.
    pub(crate) ctx_end: Option<u32>,
}

/// A count of bytes or of keys, in half the memory. One past the greatest `u32` is told as want of memory: no text has so many.
pub(crate) fn narrow(count: usize) -> Result<u32, AllocError>
    ensures { IfOk result (λ narrowed. narrowed ≡ count) }
{
    u32::try_from(count).map_err(|_| AllocError)
}
