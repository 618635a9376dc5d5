//! An office on a socket. Nothing is known of a socket's bytes.
//!
//! - `serving`: the next connection that a listener takes is served (`serve_next`)
//! - `link`: a client's message goes out over a connection of its own (`SocketLink`)
//! - `waiting`: how long is waited for a socket, whatever signals come meanwhile
//!
//! Specs: `Connections` (some messages came, and each was answered in its turn), `Links`.
#![tactic(auto)]

mod link;
mod serving;
mod waiting;

pub use link::SocketLink;
pub use serving::serve_next;
