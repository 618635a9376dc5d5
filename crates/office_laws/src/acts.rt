//! What acts do to a unit's revision and to its suggestions.

ghost use Rattle.std.specs.Prelude.{◌≡◌, ◌+◌, map, Some};
ghost use Rattle.std.specs.List.{IsDistinct};
ghost use Rattle.plural_expr.specs.Values.{Rule};
ghost use Rattle.po_text.specs.Texts.{Text, text_eq};
ghost use Rattle.units.specs.declared.unit.Policy.{Policy};
ghost use Rattle.units.specs.declared.unit.Role.{Role};
ghost use Rattle.units.specs.declared.unit.UnitAct.{UnitAct};
ghost use Rattle.units.specs.declared.unit.UnitView.{UnitView};
ghost use Rattle.review.specs.declared.decision.Decision.TheVariants.{Done};
ghost use Rattle.review.specs.declared.decision.Values.{Values};
ghost use Rattle.review.specs.UnitStep.{unit_step};
ghost use Rattle.office_laws.specs.Acts.{rise, accepted_by, IsTaken, LeavesSuggestions};

/// A suggestion, a dismissal and a vote by which nothing is accepted leave the revision; each other act that is done raises it by
/// one.
pub fn revisions_of_acts()
    ensures { (policy : Policy) (rule : Rule) (role : Role) (caller number : Text) (view after : UnitView) (act : UnitAct) (values : Values) →
        unit_step policy rule role caller number view act ≡ Done after values → after.unit.revision ≡ view.unit.revision + rise act.action values }
{}

/// A suggestion that is accepted gives the unit its forms, and of the unit's suggestions it alone is gone (no two share a number in an
/// office).
pub fn acceptance_takes_one()
    ensures { (policy : Policy) (rule : Rule) (role : Role) (caller number named : Text) (view after : UnitView) (act : UnitAct) (values : Values) →
        unit_step policy rule role caller number view act ≡ Done after values → accepted_by act.action values ≡ Some named
        → IsDistinct text_eq (map (λ s. s.number) view.unit.suggestions) → IsTaken named view.unit after.unit }
{}

/// An act on the translation, its state or its comment leaves the suggestions as they are.
pub fn suggestions_stay()
    ensures { (policy : Policy) (rule : Rule) (role : Role) (caller number : Text) (view after : UnitView) (act : UnitAct) (values : Values) →
        unit_step policy rule role caller number view act ≡ Done after values → LeavesSuggestions act.action → after.unit.suggestions ≡ view.unit.suggestions }
{}
