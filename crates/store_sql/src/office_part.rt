//! What the office told last, apart from its units, kept between looks: an act on a unit mostly comes from the caller of the one before it, and
//! on the same language.
ghost use Rattle.std.specs.Prelude.{◌≡◌, true, None, Some, IfOk, IfSome, option_map};
ghost use Rattle.sql_decoding.specs.ShownContexts.{shown_view};
ghost use Rattle.store_sql.specs.OfficeParts.{context_with, part_with};

use office_specification::ActContext;
use plural_expr::PluralForms;
use po_text::Duplicate;
use sql_decoding::{Failure, KeptRule, view_in};
use sql_statements::unit_rows::UnitRows;
use std::alloc::Global;
use units::{Key, Lang, Name, Policy, Role};

/// What the office tells a caller of a domain's language, apart from its units.
#[derive(Drop)]
pub(crate) struct OfficePart {
    pub(crate) domain: Name,
    pub(crate) lang: Lang,
    pub(crate) name: Name,
    pub(crate) rule: PluralForms,
    pub(crate) policy: Policy,
    pub(crate) role: Role,
}

/// What looks at units keep for the next.
#[derive(Drop)]
pub(crate) struct Kept {
    /// The plural rule that was read last: what it is beside its columns is the type's own promise.
    pub(crate) rule: Option<KeptRule>,
    /// What the office told last, where no act on the office came since.
    pub(crate) part: Option<OfficePart>,
}

/// Nothing is kept yet.
pub(crate) fn nothing_kept() -> Kept
    ensures { result.part ≡ None }
{
    Kept {
        rule: None,
        part: None,
    }
}

/// Whether the part was told this caller of this language of this domain.
fn is_told(part: &OfficePart, domain: &Name, lang: &Lang, name: &Name) -> bool
    ensures domain { result ≡ true → part.now.domain ≡ domain.now }
    ensures lang { result ≡ true → part.now.lang ≡ lang.now }
    ensures name { result ≡ true → part.now.name ≡ name.now }
{
    part.domain.as_str() == domain.as_str()
        && part.lang.as_str() == lang.as_str()
        && part.name.as_str() == name.as_str()
}

/// The part that is kept, where it was told this caller of this language of this domain.
pub(crate) fn same_part<'k>(
    kept: &'k Option<OfficePart>,
    domain: &Name,
    lang: &Lang,
    name: &Name,
) -> Option<&'k OfficePart>
    ensures kept { IfSome result (λ part. kept.now ≡ Some part.now) }
    ensures domain { IfSome result (λ part. part.now.domain ≡ domain.now) }
    ensures lang { IfSome result (λ part. part.now.lang ≡ lang.now) }
    ensures name { IfSome result (λ part. part.now.name ≡ name.now) }
{
    match kept {
        Some(part) => if is_told(part, domain, lang, name) {
            Some(part)
        } else {
            None
        },
        None => None,
    }
}

/// What was found, apart from the unit, to be kept. None, where nothing was found, or no memory is left for it.
pub(crate) fn part_to_keep(
    domain: &Name,
    lang: &Lang,
    name: &Name,
    found: &Option<ActContext>,
) -> Option<OfficePart>
    ensures { IfSome result (λ part. option_map (part_with domain.now lang.now name.now) found.now ≡ Some part) }
{
    match found {
        Some(context) => Some(OfficePart {
            domain: domain.duplicate().ok()?,
            lang: lang.duplicate().ok()?,
            name: name.duplicate().ok()?,
            rule: context.rule.duplicate().ok()?,
            policy: context.policy,
            role: context.role,
        }),
        None => None,
    }
}

/// What an act on a unit needs to know: the part, with the view of the unit's rows.
pub(crate) fn context_beside(
    alloc: Global,
    key: &Key,
    part: &OfficePart,
    rows: &UnitRows,
) -> Result<Option<ActContext>, Failure>
    ensures { IfOk result (λ found. found ≡ Some (context_with part.now (shown_view key.now rows.now))) }
{
    let rule = part.rule.duplicate()?;
    match view_in(alloc, key, rows) {
        Ok(view) => Ok(Some(ActContext {
            rule,
            policy: part.policy,
            role: part.role,
            view,
        })),
        Err(failure) => {
            drop(rule);
            Err(failure)
        }
    }
}
