//! The office over HTTP: what the messages of a connection are answered, from the desk and in their order.
//!
//! - `connection`: one connection (`serve`), message after message
//! - `turns`: a source of messages that is read only while a sink holds nothing back (`MessagesBehind`)
//! - `answers`, `posts`, `exports`: what a message is answered; the request that it brings; a language's text, made
//!   twice: into nowhere for its length and digest, and then into the writer
//! - `answer_bytes`, `refusals`: heads and bodies of answers; statuses (by `http`), and the answers that are errors
//! - `faults`: why a connection is given up
//! - `laws`: what holds of what a stream asks, whatever answers it
//!
//! Specs:
//!
//! - `Connection`: what comes of a connection; `Messages`, `Served`: messages one after another; `Faults`
//! - `Outcomes`: what comes of what a message asks, and the bytes that tell it; `Posts`
//! - `Answers`, `Statuses`, `Refusals`: the bytes of answers
//! - `Answering`, `ConnectionSteps`: the code's own steps
//!
//! The loop is proved in `proofs/Connecting` (what the bytes ask), `Looping` (the same by tables and a writer) and
//! `Stepping` (one message).
#![tactic(auto)]

mod answer_bytes;
mod answers;
mod connection;
mod exports;
mod faults;
mod laws;
mod posts;
mod refusals;
mod turns;

pub use connection::{Served, serve};
pub use faults::ServeFault;
pub use laws::messages_stand_alone;
pub use turns::MessagesBehind;
