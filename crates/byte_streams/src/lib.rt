//! Streams of bytes: where bytes go, and where they come from.
//!
//! - `streams`: sinks and sources, each with what it took or has left and how often it failed
//! - `sending`: whole pieces sent to a sink (`send`), and handed on (`hand_on`)
//! - `digits`: the digits of a digest (`digest_digits`)
//! - `vec_sink`: a sink over memory
//!
//! Specs: `Streams` (what sinks take and sources give), `Sending` (what a sink took of a text), `Numbers` (the numbers
//! of their faults).
#![tactic(auto)]

mod digits;
mod sending;
mod streams;
mod vec_sink;

pub use digits::digest_digits;
pub use sending::{hand_on, send};
pub use streams::{ByteSink, ByteSource, SinkFault, SourceFault};
pub use vec_sink::VecSink;
