//! The program's commands, connections over HTTP, and offices in files, over streams in memory; and real sockets.
//!
//! Commands:
//!
//!   run canon; PO -> X                          prints the canonical text of PO
//!   run deliver OFFICE; LINES -> X              delivers the lines to the demo office (`demo`), or to one that opens empty, and
//!                                               whose manager has this name
//!   run deliver OFFICE export LANG; LINES -> X  and then exports the language
//!   run export OFFICE; LANG -> X                exports the language of such an office, and tells the receipt; it is one of the domain `main`,
//!                                               here and below, and `DOMAIN/LANG` stands for one of another
//!   run plural N..; RULE -> X                   prints the numbers of the rule's forms
//!   run given; TEXT                             the text of those rows below that have none of their own
//!
//! X is the exit status and the output; then `told` and the second output, if there is any; then of a text of `canon` `left`
//! and how many bytes were not read, if there are any. In front of a row's command may stand:
//!
//!   failing reader N                        the text's reader fails once it gave so many bytes
//!   failing writer N                        the output takes so many bytes, and then fails
//!   failing faults N                        so does the second output
//!   failing flush                           the output hands on nothing that it holds back
//!   whole                                   the streams give and take as many bytes as there are at a time, and no less
//!
//! In the text of a command stand `^n` for LF, `^r` for CR, `^t` for a tab, `^xFF` for a byte and `^(TEXT)` for a text; a number behind
//! the `^` says how many times: `^22000001( )`. Each command is tried three times: with streams that give and take 1 byte, 100 bytes,
//! and as many as there are at a time.
//!
//! Connections:
//!
//!   NAME is TEXT          gives the bytes of a text a name
//!   new; TEXT -> X        what comes of a connection whose stream has these bytes, at a new desk with the demo office. It is tried three times,
//!                         each with a desk of its own, and with streams that give and take 1 byte, 100 bytes and as many as there are at a time
//!   on; TEXT -> X         what comes of one more connection at the desk of the row before
//!
//! X is how many messages were answered, or `fault N`; then, behind `; `, the bytes that were written. In front of the `; ` of a connection
//! may stand:
//!
//!   reader N              the reader fails once it gave so many bytes
//!   writer N              the writer takes so many bytes, and then fails
//!   flush                 the writer hands on nothing that it holds back
//!
//! An office in a file. The file is in memory: each row opens it and closes it again.
//!
//!   file new                          a new file, with nothing in it
//!   file init MANAGER -> X            makes an office with this manager; `demo` makes the demo office
//!   file deliver; LINES -> X          delivers the lines
//!   file deliver export LANG; LINES -> X    and then exports the language
//!   file export LANG -> X             exports a language
//!   file records -> X                 lists its records in the order in which it took them
//!   file records NUMBER -> X          lists those behind the record of this number
//!   file unit LANG|ID -> X            a unit as callers see it; a context stands behind a further bar
//!   file sql; TEXT                    statements that some other tool runs on the file
//!   file spoil; TEXT -> X             the same on a copy, to which the line `<hallo>` is then delivered, and which is exported: both come
//!                                     to X, and leave each row as it is
//!
//! X is told as that of a command, and the same words may stand in front.
//!
//! Real sockets, a client and the office in one thread:
//!
//!   socket new; TEXT -> X             a client connects and writes this text, its connection is served at a new desk, and then it reads to
//!                                     the end; X is told as that of a connection
//!   socket deaf -> X                  what comes of a listener that takes no connection
//!   socket send; LINES -> X           what comes of sending these lines to a port where nobody listens, told as a command
//!
//! In the text of a connection, of a file or of a socket, `|` stands for CR LF besides, and `<NAME>` for the bytes of that name. `N of TEXT` are the first N bytes of a
//! text.
mod command;
mod command_told;
mod connections;
mod deeds;
mod file_told;
mod files;
mod found;
mod named;
mod over_sockets;
mod spoilt;
mod stage;
mod streams;
mod table_rows;
mod texts;
mod words;

pub(crate) use command_told::told;
pub(crate) use connections::connection_served;
pub(crate) use found::{deed_told, means};
pub(crate) use stage::Stage;
pub(crate) use streams::Streams;
