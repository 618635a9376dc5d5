//! The forms of lines.

ghost use Rattle.std.specs.Prelude.{◌≡◌, ◌↔◌, ℕ, List, Ok};
ghost use Rattle.po_lex.specs.Lines.{Line, line_of};
ghost use Rattle.office_laws.specs.LineForms.{IsForm};

/// A line is of the form that is computed for it exactly where the table of the format says so.
pub fn line_forms_are_the_table()
    ensures { (bytes : List ℕ) (line : Line) → (line_of bytes ≡ Ok line) ↔ IsForm bytes line }
{}
