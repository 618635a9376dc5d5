//! What the lexer and the reader make of a text.
use crate::catalogue_rows::told::tell_entries;
use po_lex::{PoFault, Token, lex};
use po_read::read;
use std::alloc::{AllocError, Global};

/// The lexer's first fault.
pub(crate) fn first_fault(text: &str) -> Option<PoFault> {
    let mut lines = lex(text);
    for _ in 0..text.len() {
        if let Err(fault) = lines.next()? {
            return Some(fault);
        }
    }
    None
}

/// Tells the line and the number of a fault, if there is one.
pub(crate) fn tell_fault(told: &mut String, fault: Option<PoFault>) -> Option<()> {
    match fault {
        Some(fault) => write!(told, "{} {}", fault.line, fault.number()).ok(),
        None => told.push_str("none").ok(),
    }
}

fn tell_line(told: &mut String, next: Result<Token<'_>, PoFault>) -> Result<(), AllocError> {
    match next {
        Ok(token) => write!(told, "{} {:?}\n", token.number, token.line),
        Err(fault) => write!(told, "{} fault {}\n", fault.line, fault.number()),
    }
}

/// Tells each line that the lexer gives.
pub(crate) fn tell_lines(told: &mut String, text: &str) -> Option<()> {
    let mut lines = lex(text);
    for _ in 0..text.len() {
        let Some(next) = lines.next() else {
            return Some(());
        };
        tell_line(told, next).ok()?;
    }
    Some(())
}

/// Tells the entries, or the reader's fault.
pub(crate) fn tell_read(alloc: Global, told: &mut String, bytes: &[u8]) -> Option<()> {
    match read(alloc, bytes) {
        Ok(catalogue) => tell_entries(told, catalogue.entries()).ok(),
        Err(fault) => tell_fault(told, Some(fault)),
    }
}
