//! A sender and its requests over links in memory.
//!
//!   LIST is REQUEST                      adds a request, a line of JSON, to the list of this name
//!   ready LIST PLACES -> PLACES          which places (1, 2, ..) are ready, where replies to these are held (`1,3`, or `-` for none); or
//!                                        `fault N`, where there is no sender of the list
//!   link LIST TRIES SCRIPT -> X; X; ..   sends the list over a link to the office of a desk with the demo office, each message as the
//!                                        script's next letter says, and tells each request's reply, or `none`
//!   pauses LIST TRIES SCRIPT -> N N ..   how long the link pauses then between rounds, in milliseconds
//!   lines LIST TRIES SCRIPT -> X         sends the text that the list's lines are when LF joins them, over such a link; X is told as that
//!                                        of a command in `stream_rows`. `reader N` may stand behind the script, or `writer N`: the reader
//!                                        fails once it gave so many bytes, and the first output is full after so many
//!   unit LANG|ID -> TEXT                 a unit of that desk as callers see it
//!
//! Letters of a script: `q` the request is lost, `a` the answer is lost, `w` the answer comes whole, `e` the message itself comes back as the
//! body of a reply, with `|` for CR LF; and answers that are no reply: `c` is cut by a byte, `m` has one more, `s` has another status, `x`
//! gives two lengths, `t` is coded, `n` gives no length, `b` is no text of HTTP, `r` and `p` have a control character in the body, `o` a mark
//! that turns the direction of writing, `u` a line end of Unicode. `d` gives its length twice, and `l` in small letters: they are replies.
//! Behind the script all is lost.
mod scripted;
mod stage;
mod texts;

pub(crate) use stage::{Stage, deed_told};
