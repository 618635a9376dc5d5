//! What holds of every canonical text of a valid catalogue: it spells that catalogue, and no other.

ghost use Rattle.std.specs.Prelude.{◌≡◌, List};
ghost use Rattle.po_text.specs.declared.entry.Entry.{Entry};
ghost use Rattle.po_read.specs.Spells.{Spells};
ghost use Rattle.po_text.specs.Valid.{IsValid};
ghost use Rattle.po_write.specs.Text.{text_of};

/// The canonical text of a valid catalogue is a PO text of it, as the GNU gettext manual has it in "The Format of PO
/// Files", and of no other catalogue.
pub fn one_spelled()
    ensures spelled { (c : List Entry) → IsValid c → Spells (text_of c) c }
    // Whatever catalogue the text spells is that one.
    ensures only { (c d : List Entry) → IsValid c → Spells (text_of c) d → d ≡ c }
{}
