//! Where whole entries go.

ghost use Rattle.std.specs.Prelude.{◌≡◌, ◌∷◌, ◌++◌, [], List, OnOk};
ghost use Rattle.po_text.specs.declared.entry.Entry.{Entry as EntryValue};

use po_text::Entry;
use std::alloc::AllocError;

/// Takes the entries of a text one by one, each as soon as it is whole. A relation says what it took: of the sink before, the
/// entries and the sink after.
pub trait ReadSink {
    /// From the first state to the last these entries were taken.
    ghost Took: { Self → List EntryValue → Self → Type 0 };

    /// Takes an entry, unless memory runs out.
    fn take(&mut self, entry: Entry) -> Result<(), AllocError>
        ensures { OnOk result (Took self.old (entry ∷ []) self.new) };

    /// No entries leave a sink as it is.
    ghost none: { (s : Self) → Took s [] s };

    /// What was taken in two parts was taken.
    ghost more: { (a b c : Self) (xs ys : List EntryValue) → Took a xs b → Took b ys c → Took a (xs ++ ys) c };
}

/// All entries, in order.
impl ReadSink for Vec<Entry> {
    ghost use Rattle.std.specs.Prelude.{◌≡◌, ◌++◌};
    ghost use Rattle.po_read.specs.Taking.{took_none, took_more};

    ghost Took = { λ a entries b. b.items ≡ a.items ++ entries };

    ghost none = { λ s. took_none s.items };

    ghost more = { λ a b c xs ys p q. took_more a.items b.items c.items xs ys p q };

    fn take(&mut self, entry: Entry) -> Result<(), AllocError> {
        self.push(entry)?;
        Ok(())
    }
}
