//! The stack that the deepest line takes.

use request_book::{Request, RequestFault};
use std::alloc::{AllocError, Global};

/// How many values the reader of a line follows into one another, at most.
const LEVELS: usize = 127;

/// How many bytes lie on the stack beside what the reader of a line takes: more than the calls between the program's start and it take.
const ROOM: usize = 262_144;

/// Takes as much of the stack as the deepest line does, before anything is read: where it can't grow so far, the program ends here, and not
/// behind what it has taken in.
///
/// That deepest line is read, from the stack. It isn't inlined, so that what lies there is behind no later call.
#[inline(never)]
pub(crate) fn take_stack(alloc: Global) -> Result<(), AllocError> {
    let mut room = [b' '; ROOM];
    for level in 0..LEVELS {
        room[4 * level] = b'{';
        room[4 * level + 1] = b'"';
        room[4 * level + 2] = b'"';
        room[4 * level + 3] = b':';
        room[4 * LEVELS + 1 + level] = b'}';
    }
    room[4 * LEVELS] = b'0';
    match str::from_utf8(&room) {
        Ok(text) => match Request::from_json(alloc, text) {
            Err(RequestFault::Memory) => Err(AllocError),
            // No request has this text.
            _ => Ok(()),
        },
        Err(_) => Ok(()),
    }
}
