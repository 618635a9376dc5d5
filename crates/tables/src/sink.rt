//! What takes entries.

ghost use Rattle.std.specs.Prelude.{◌≡◌, ◌∷◌, ◌++◌, [], List, OnOk, IfErr};
ghost use Rattle.po_text.specs.declared.entry.Entry.{Entry as EntryValue};

use po_text::Entry;

/// Takes entries, one by one. Two relations say what it took: of the sink before, the entries and the sink after.
pub trait EntrySink {
    /// Why an entry is refused.
    type Refusal: Drop;

    /// From the first state to the last these entries were taken.
    ghost Took: { Self → List EntryValue → Self → Type 0 };

    /// From the first state to the last an entry was refused.
    ghost Refuses: { Self → EntryValue → Self.Refusal → Self → Type 0 };

    /// Takes an entry, or refuses it.
    fn take(&mut self, entry: &Entry) -> Result<(), Self::Refusal>
        ensures ok { OnOk result (Took self.old (entry.now ∷ []) self.new) }
        ensures err { IfErr result (λ refusal. Refuses self.old entry.now refusal self.new) };

    /// No entries leave a sink as it is.
    ghost none: { (s : Self) → Took s [] s };

    /// What was taken in two parts was taken.
    ghost more: { (a b c : Self) (xs ys : List EntryValue) → Took a xs b → Took b ys c → Took a (xs ++ ys) c };
}
