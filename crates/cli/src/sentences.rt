//! What the faults mean that the program tells by numbers.

/// What a line that tells a fault begins with, up to ` at N`, and what the fault means.
const SENTENCES: [(&str, &str); 35] = [
    ("store fault 1", "There was no memory to open the office."),
    (
        "store fault 2",
        "The file is in use by another program; or it isn't there, is no regular file, can't be opened, is damaged or no database, or the disk failed.",
    ),
    (
        "store fault 3",
        "The file is a database, and no office's. It keeps its rows.",
    ),
    (
        "store fault 5",
        "The file refused what was asked of it. It keeps its rows.",
    ),
    (
        "store: exists",
        "The file has an office already, which stays as it is.",
    ),
    (
        "port fault",
        "The port is in use by another program, or isn't open to this user.",
    ),
    (
        "serve fault 1",
        "A connection couldn't be taken, or a read of it failed, or nothing came for a minute. The next is served.",
    ),
    (
        "serve fault 2",
        "An answer couldn't be written, or nothing of it was taken for a minute. The next connection is served.",
    ),
    (
        "serve fault 3",
        "There was no memory for a connection. The next is served.",
    ),
    (
        "serve fault 4",
        "The disk failed under a text whose beginning was sent. Open the office again, on a good disk.",
    ),
    (
        "disk fault",
        "The disk failed, and from then on nothing was taken. Open the office again, on a good disk.",
    ),
    (
        "file fault",
        "The file of requests isn't there, is no regular file, or can't be read. Nothing was sent.",
    ),
    (
        "sender fault 1",
        "A number stands twice in the file. Nothing was sent.",
    ),
    ("sender fault 2", "There was no memory. Nothing was sent."),
    (
        "export fault 1",
        "The office has no such domain or language.",
    ),
    ("export fault 2", "The output couldn't be written."),
    (
        "export fault 3",
        "There was no memory. The text is cut short.",
    ),
    ("export fault 4", "The disk failed. The text is cut short."),
    (
        "export fault 5",
        "The text would have more than 9,000,000,000,000,000 bytes.",
    ),
    (
        "export fault 6",
        "The file refused what was asked of it. The text is cut short.",
    ),
    (
        "records fault 1",
        "No record of the office has that number.",
    ),
    ("records fault 2", "The output couldn't be written."),
    (
        "records fault 3",
        "There was no memory. The lines are cut short.",
    ),
    (
        "records fault 4",
        "The disk failed. The lines are cut short.",
    ),
    (
        "records fault 5",
        "The file refused what was asked of it. The lines are cut short.",
    ),
    (
        "plural fault 1",
        "The value isn't of the grammar of a Plural-Forms field.",
    ),
    ("plural fault 2", "nplurals isn't one digit from 1 to 8."),
    (
        "plural fault 3",
        "The value has more than 512 bytes, or its expression is deeper than 32.",
    ),
    (
        "plural fault 4",
        "The expression has no value at that number.",
    ),
    (
        "plural fault 5",
        "Its value at that number isn't below nplurals.",
    ),
    ("plural fault 6", "There was no memory."),
    ("index fault 1", "The rule divides by zero at that number."),
    ("index fault 2", "The rule falls below zero at that number."),
    (
        "index fault 3",
        "The rule passes 18446744073709551615 at that number.",
    ),
    (
        "index fault 4",
        "The rule's value at that number isn't below nplurals.",
    ),
];

/// Whether a line tells this fault: it is its name, or has ` at N` behind it.
fn tells(line: &str, name: &str) -> bool {
    match line.strip_prefix(name) {
        Some(rest) => rest.is_empty() || rest.starts_with(" at "),
        None => false,
    }
}

/// What the fault means that a line tells, which ends with LF; none where it tells no fault of the list.
pub(crate) fn sentence_of(line: &[u8]) -> Option<&'static str> {
    let line = str::from_utf8(line).ok()?.strip_suffix('\n')?;
    for (name, sentence) in SENTENCES {
        if tells(line, name) {
            return Some(sentence);
        }
    }
    None
}
