//! Messages over HTTP/1.x (RFC 9112), one after another, from a reader that gives them in any pieces; what each asks
//! of the office: the tests that it has to pass, in their order, its route and its query; and the definition of what a
//! whole stream asks.
//!
//! - `inbox`: what was read of a stream (`Inbox`): a whole message at the front, a refusal, or the end
//! - `cut`, `head`, `lines`, `body`: where a head ends, what it says, its field lines, and the length of the body
//! - `message`, `refusal`: the tests of a message, its question (`Asked`), and the errors
//! - `route`, `target`, `query`: the six routes, by `matchit`; path and query; the unit that a query names
//! - `laws`: the router finds the routes by their texts
//!
//! Specs:
//!
//! - `Heads`: what a head says, line by line; `Grammar`: the same by the grammar of the kit's crate
//!   (`proofs/HeadLemmas` shows that they agree); `Cut`: where it ends; `Framing`: the body's length, the connection's
//!   end
//! - `Routes`, `Targets`, `Queries`, `Faults`; `Routers`: the router's own rows (`proofs/RouteLaw` shows that it finds
//!   the routes of `Routes`)
//! - `Asked`: the tests of a message in their order, and its question; `Streams`, `Arrivals`: what a stream asks
//! - `Pairs`, `Values`, `Read`, `Askings`: the code's own types in the definitions' words
#![tactic(auto)]

mod body;
mod cut;
mod head;
mod inbox;
mod laws;
mod lines;
mod message;
mod query;
mod refusal;
mod route;
mod target;

pub use inbox::{Arrival, Inbox, Lengths, ReadFault};
pub use laws::router_finds_by_texts;
pub use lines::Values;
pub use message::{Asked, Asking, CALLER_FIELD, LanguageName, RequestParts, Unread};
pub use query::UnitName;
pub use refusal::Refusal;
pub use route::{REQUESTS_PATH, Routes};
