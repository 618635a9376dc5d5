//! A client of an office: it sends a list of requests over a link, one message each, takes the answers that are
//! replies, and tells what it holds.
//!
//! - `link`: the trait `Link`
//! - `sending`: all requests of a sender over a link, in rounds (`send_all`)
//! - `messages`, `answer`: a request as a message of HTTP, and the reply that an answer is
//! - `lines`: the requests of a text's lines (`send_lines`), with `source` (the whole text), `list` (its requests),
//!   `telling` (what is told of them) and `fault` (why they are not sent)
//!
//! Specs: `Messages`, `Answers`, `Lists`, `Talks` (what is said over a link), `SendLines`, `Faults`, `Steps`.
#![tactic(auto)]

mod answer;
mod fault;
mod lines;
mod link;
mod list;
mod messages;
mod sending;
mod source;
mod telling;

pub use lines::send_lines;
pub use link::{Link, LinkFault};
pub use sending::send_all;
