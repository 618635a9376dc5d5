//! Requests in JSON, their canonical text, replies and records.
//!
//! - `act`: acts and requests (`Act`, `Request`)
//! - `request`: requests and acts as JSON texts, and a request's canonical content (`canon`)
//! - `parts`, `fields`: the members of an object read, and each field of it
//! - `straight`: an act on a unit read from its tokens, where its members stand in the order of their keys; what isn't, is read by `parts`
//! - `written`: acts written token by token
//! - `lists`: lists of texts as JSON
//! - `reply`: a status and a body (`Reply`)
//! - `book`: what is kept of a request (`Record`), and whether one that comes is new, a repeat, or has a used number
//! - `fault`: why a text gave no request
//!
//! Specs: `Acts` (the JSON of requests), `Book`, `Contents`, `Replies`, `Words`, `Faults`; `Clash` says what an act is
//! about, and which requests may not change places. Inner functions have `Fields`, `Puts` and `Tokens`.
#![tactic(auto)]

mod act;
mod book;
mod fault;
mod fields;
mod lists;
mod parts;
mod reply;
mod request;
mod straight;
mod written;

pub use act::{Act, Request};
pub use book::{Class, Record, classify};
pub use fault::RequestFault;
pub use fields::bytes_fit;
pub use lists::{strings_value, texts_value};
pub use reply::Reply;
pub use request::canon;
