//! What holds of every text: it spells at most one catalogue, it has a fault exactly where it spells none within the limits, and
//! the fault that the plain reader computes is the one at the least line where a test fails.

ghost use Rattle.std.specs.Prelude.{◌≡◌, ◌↔◌, ℕ, List, Some, None};
ghost use Rattle.po_lex.specs.declared.fault.FaultKind.{FaultKind};
ghost use Rattle.po_text.specs.declared.entry.Entry.{Entry};
ghost use Rattle.po_read.specs.Spells.{Spells, IsWithin, limits};
ghost use Rattle.po_read.specs.Faults.{IsFault, fault_of};
ghost use Rattle.po_read.specs.Plain.{entries_of};

/// A text spells at most one catalogue.
pub fn one_catalogue()
    ensures { (bytes : List ℕ) (a b : List Entry) → Spells bytes a → Spells bytes b → a ≡ b }
{}

/// A text has no fault exactly where it spells a catalogue within the limits.
pub fn one_fault_or_catalogue()
    ensures law { (bytes : List ℕ) → (fault_of limits bytes ≡ None) ↔ ((c : List Entry) × Spells bytes c × IsWithin limits bytes c) }
    // The plain reader's entries are that catalogue.
    ensures plain { (bytes : List ℕ) (c : List Entry) → Spells bytes c → c ≡ entries_of bytes }
{}

/// The fault that is computed is the first test that fails at the least line where one fails, and there is no other.
pub fn least_fault()
    ensures { (bytes : List ℕ) (fault : ℕ × FaultKind) → (fault_of limits bytes ≡ Some fault) ↔ IsFault limits bytes fault }
{}
