//! What types keep of the values that a commit writes, for clauses: each is looked at, and nothing is done with it.
ghost use Rattle.std.specs.Prelude.{IfSome};
ghost use Rattle.sql_files.specs.Files.{IsKeepable, IsKeepableWrite};
ghost use Rattle.request_book.specs.Contents.{IsContent};
ghost use Rattle.store_sql.specs.Changes.{IsKeepableChange, IsKeepableDomainChange};

use office_specification::{Change, DomainChange, UnitWrite};
use request_book::Record;
use sql_keepable::{
    entries_fit, key_fits, lang_fits, language_fits, name_fits, plans_fit, suggestion_fits,
    unit_fits, units_fit,
};
use units::{Key, Lang};

/// The record of a request can be read back of its row.
pub(crate) fn record_fits(row: &Record)
    requires content { IsContent row.now.content }
    ensures { IsKeepable row.now }
{
    sql_keepable::record_fits(row);
}

/// So can what an act writes of a unit, if it writes anything.
pub(crate) fn write_fits(lang: &Lang, key: &Key, write: &Option<UnitWrite>)
    ensures { IfSome write.now (IsKeepableWrite lang.now key.now) }
{
    match write {
        None => {}
        Some(UnitWrite::Whole(view) | UnitWrite::Row(view)) => unit_fits(lang, &view.unit),
        Some(UnitWrite::Suggested(suggestion)) => {
            lang_fits(lang);
            key_fits(key);
            suggestion_fits(suggestion);
        }
        Some(UnitWrite::Voted(_, voter, _, _)) => name_fits(voter),
    }
}

/// So can what a change of a domain writes.
fn domain_change_fits(change: &DomainChange)
    ensures { IsKeepableDomainChange change.now }
{
    match change {
        DomainChange::NewLanguage(lang, language, plan, _) => {
            language_fits(lang, &language.header);
            units_fit(lang, plan.units.as_slice());
        }
        DomainChange::NewTemplate(template, plans, _) => {
            entries_fit(template.entries());
            plans_fit(plans.as_slice());
        }
    }
}

/// So can what a change of the office writes, if there is one.
pub(crate) fn change_fits(change: &Option<Change>)
    ensures { IfSome change.now IsKeepableChange }
{
    match change {
        None | Some(Change::NewPolicy(_)) => {}
        Some(Change::OneRole(name, _) | Change::NewDomain(name)) => name_fits(name),
        Some(Change::InDomain(_, change)) => domain_change_fits(change),
    }
}
