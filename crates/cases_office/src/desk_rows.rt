//! Deliveries to two offices, one over tables in maps and one over tables on SQLite. A request is a line of JSON, or the name of one. Where the two offices answer differently, a row comes to both answers, which no row wants.
//!
//!   NAME is REQUEST                  gives the request a name
//!   open WHO                         opens the offices for the rows below: `demo`, or an office with this manager
//!   REQUEST -> STATUS BODY           the desk's reply
//!   many FROM TO REQUEST -> X        a request for each number from FROM up to TO, which stands for each @ in the request;
//!                                    each gets the reply X, in whose body @ stands for the number too
//!   lost REQUEST                     is lost on its way: the desk never hears of it
//!   again -> STATUS BODY             the last request once more; no export changes
//!   over -> N as before              all N requests once more, and those that name no domain and may have one with `main` besides: each
//!                                    gets its first reply; no export changes
//!   alike -> N alike                 a `run` of new offices over the N requests that weren't lost gives the same replies, and leaves the
//!                                    same exports
//!   every A,B,.. C,D,.. .. -> N lists alike    the same of each list that takes one named request from each group
//!   export LANG -> N bytes SHA|TEXT  the language's text, its length and its digest; a pilcrow stands for each LF. The language is one of
//!                                    the domain `main`, here and below; `DOMAIN/LANG` stands for one of another
//!   export LANG N -> X               the same into a sink that is full after N bytes
//!   unit LANG|ID -> TEXT             a unit as callers see it, or `fault N`; a context stands behind a further bar
//!   stats LANG -> TEXT               a language's counts, or `fault N`
//!   adopt STATEMENT -> X             the demo's tables on SQLite, changed by a statement of SQL and taken over as they stand: `adopted`, or why not
//!   number FAULT -> N                the fault's number
//!   close -> TABLE N, ..             closes the offices, and tells how many rows each table on SQLite has that has any
//!
//! A delivery that is lost for want of memory is told as lost, which no row wants.
mod adopted;
mod alike;
mod asked;
mod counts;
mod course;
mod every;
mod exports;
mod many;
mod numbers;
mod offices;
mod stage;

pub(crate) use asked::unit_told;
pub(crate) use offices::{Both, Offices};
pub(crate) use stage::{Stage, deed_told};
