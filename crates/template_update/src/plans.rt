//! A language's units afterwards.
use po_text::Items;
use units::Unit;

/// The numbers of a reply.
#[derive(Debug, Drop, Clone, Copy, PartialEq, Eq)]
pub enum Counts {
    /// What a new template made of a language's units. Units that are obsolete before and after aren't counted.
    Updated {
        /// Units of keys that are new to the language.
        added: u64,
        /// Units whose msgid_plural changed, or whose flag `read-only` came or went.
        changed: u64,
        /// Units that stay as they were.
        kept: u64,
        /// Units whose keys went.
        obsolete: u64,
        /// Obsolete units whose keys came back.
        revived: u64,
    },
    /// What a language's text had of the template.
    Loaded {
        /// Template entries whose keys the text has.
        loaded: u64,
        /// Template entries whose keys it doesn't have.
        missing: u64,
        /// Obsolete units.
        obsolete: u64,
    },
}

/// All units of a language afterwards, which of them stay as they were, and the numbers of the reply.
#[derive(Drop)]
pub struct Plan {
    /// First those that were there, in their order.
    pub units: Items<Unit>,
    /// Of the units that were there, in their order, whether each stays as it was.
    pub stays: Items<bool>,
    pub counts: Counts,
}
