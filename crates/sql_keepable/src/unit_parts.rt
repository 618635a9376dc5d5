//! Units, with their suggestions and the votes on them.
ghost use Rattle.std.specs.Prelude.{All};
ghost use Rattle.sql_keepable.specs.Keepable.{IsVoter, IsKeepableSuggestion, IsKeepableUnit, AreKeepableUnits, AreKeepablePlans};

use crate::texts::{
    forms_fit, key_fits, lang_fits, list_fits, name_fits, optional_fits, previous_fits,
};
use template_update::Plan;
use units::{Lang, Name, Suggestion, Unit, VoteValue};

/// Voters' names keep their limits.
fn voters_fit(votes: &[(Name, VoteValue)])
    ensures { All IsVoter votes.now }
{
    for vote in votes {
        name_fits(&vote.0);
    }
}

/// A suggestion keeps its limits, and its texts are UTF-8; so do its voters' names.
pub fn suggestion_fits(suggestion: &Suggestion)
    ensures { IsKeepableSuggestion suggestion.now }
{
    name_fits(&suggestion.suggester);
    forms_fit(&suggestion.forms);
    voters_fit(suggestion.votes.as_slice());
}

fn suggestions_fit(suggestions: &[Suggestion])
    ensures { All IsKeepableSuggestion suggestions.now }
{
    for suggestion in suggestions {
        suggestion_fits(suggestion);
    }
}

/// A unit of a language keeps its limits, and its texts are UTF-8.
pub fn unit_fits(lang: &Lang, unit: &Unit)
    ensures { IsKeepableUnit lang.now unit.now }
{
    lang_fits(lang);
    key_fits(&unit.key);
    optional_fits(&unit.plural);
    forms_fit(&unit.forms);
    let _ = unit.revision.number();
    list_fits(&unit.comment);
    previous_fits(&unit.previous);
    suggestions_fit(unit.suggestions.as_slice());
}

/// So does each of these.
pub fn units_fit(lang: &Lang, units: &[Unit])
    ensures { AreKeepableUnits lang.now units.now }
{
    for unit in units {
        unit_fits(lang, unit);
    }
}

/// So does each unit of these plans.
pub fn plans_fit(plans: &[(Lang, Plan)])
    ensures { AreKeepablePlans plans.now }
{
    for plan in plans {
        units_fit(&plan.0, plan.1.units.as_slice());
    }
}
