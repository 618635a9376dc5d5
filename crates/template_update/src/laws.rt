//! What holds of each new template and of each first text, whatever is made of a language's units. Each function is a law: it does nothing.

ghost use Rattle.std.specs.Prelude.{◌≡◌, ◌+◌, ◌++◌, ℕ, List, map, length, count_by, not, Some};
ghost use Rattle.std.specs.List.{IsDistinct};
ghost use Rattle.plural_expr.specs.Values.{Rule};
ghost use Rattle.po_text.specs.declared.entry.Entry.{Entry};
ghost use Rattle.units.specs.declared.unit.Policy.{Policy};
ghost use Rattle.units.specs.declared.unit.Unit.{Unit};
ghost use Rattle.units.specs.Units.{key_of};
ghost use Rattle.template_update.specs.declared.plans.Counts.TheVariants.{Updated, Loaded};
ghost use Rattle.template_update.specs.declared.plans.Plan.{Plan};
ghost use Rattle.template_update.specs.Updates.{plan_of};
ghost use Rattle.template_update.specs.Loads.{load_of, leftovers};
ghost use Rattle.template_update.specs.Laws.{KeepsUnits, same_key};

/// No unit is lost and none gets another key, no revision falls, a unit whose entry is as before, or that was obsolete and stays so, is
/// left as it is, each unit that comes is of a key of the new template that no unit had, and the units that are told to stay are those that
/// were there.
pub fn plans_keep_units()
    ensures { (present : List Entry) (units : List Unit) (next : List Entry) (rule : Rule) (plan : Plan) →
        plan_of present units next rule ≡ Some plan → KeepsUnits present units next plan.units plan.stays }
{}

/// The numbers of the reply count each key once: of the units that weren't obsolete, as changed, kept or obsolete now, and of the new
/// template, as added, changed, kept or revived.
pub fn plans_count_every_key()
    ensures current { (present : List Entry) (units : List Unit) (next : List Entry) (rule : Rule) (plan : Plan) (added changed kept obsolete revived : ℕ) →
        plan_of present units next rule ≡ Some plan → plan.counts ≡ Updated added changed kept obsolete revived
        → changed + kept + obsolete ≡ count_by (λ unit. not unit.obsolete) units }
    ensures template { (present : List Entry) (units : List Unit) (next : List Entry) (rule : Rule) (plan : Plan) (added changed kept obsolete revived : ℕ) →
        plan_of present units next rule ≡ Some plan → plan.counts ≡ Updated added changed kept obsolete revived
        → IsDistinct same_key (map (λ unit. unit.key) units) → IsDistinct same_key (map key_of next)
        → added + changed + kept + revived ≡ length next }
{}

/// A language's first text gives a unit of each key of the template, in its order, and then the obsolete ones; what was loaded and what
/// is missing make the template.
pub fn loads_count_the_template()
    ensures keys { (template text : List Entry) (rule : Rule) (policy : Policy) (plan : Plan) →
        load_of template text rule policy ≡ Some plan → map (λ unit. unit.key) plan.units ≡ map key_of template ++ map key_of (leftovers template text) }
    ensures counts { (template text : List Entry) (rule : Rule) (policy : Policy) (plan : Plan) (loaded missing obsolete : ℕ) →
        load_of template text rule policy ≡ Some plan → plan.counts ≡ Loaded loaded missing obsolete → loaded + missing ≡ length template }
{}
