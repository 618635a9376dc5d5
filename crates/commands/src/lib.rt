//! What the program does, over any tables, reader and writer.
//!
//! - `deliver`, `lines`, `answer`: `office deliver` (`deliver_lines`): a line gathered within a limit, and what it is
//!   answered
//! - `turns`: a source that is read only while a sink holds nothing back (`SourceBehind`)
//! - `export`: the PO text of a language, and what is told of it on the second output (`export_text`)
//! - `canon`: `office canon` (`canon_text`)
//! - `plural`: `office plural` (`plural_lines`)
//! - `record`: the line of a record (`send_record`)
//! - `streams`, `numbers`: readers and writers of std as streams of bytes (`Input`, `Output`); numbers in lines
//!
//! Specs: `DeliverLines`, `LostLines`, `TextLines`, `ExportLines`, `CanonText`, `PluralLines`, `RecordLines`; `Gathering`, `CanonEntries` and `StdStreams` are the
//! code's own steps and streams.
#![tactic(auto)]

mod answer;
mod canon;
mod deliver;
mod export;
mod lines;
mod numbers;
mod plural;
mod record;
mod streams;
mod turns;

pub use canon::canon_text;
pub use deliver::{AtLost, deliver_lines};
pub use export::{DONE, FAILED, export_text};
pub use plural::plural_lines;
pub use record::send_record;
pub use streams::{Input, Output};
pub use turns::SourceBehind;
