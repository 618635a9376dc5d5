//! What new tables begin with.

use units::Name;

/// The office that new tables begin with. Nothing is recorded of it.
#[derive(Drop)]
pub enum Start {
    /// One manager, of this name, and nothing else.
    Opening(Name),
    /// The manager `root`, the translator `ann`, and the language `de` with one message, `Hello`, that has no translation.
    Demo,
}
