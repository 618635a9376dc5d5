//! What an act on a unit needs to know, with or without the unit's suggestions, some of these, and a caller's role alone, as they are read.
ghost use Rattle.std.specs.Prelude.{◌≡◌, false, Some};
ghost use Rattle.sqlite.specs.Held.{state};
ghost use Rattle.units.specs.Project.{role_in};
ghost use Rattle.units.specs.Office.{project_in};
ghost use Rattle.office_specification.specs.UnitAccess.{context_of, without_suggestions, suggestions_at, suggestion_at};
ghost use Rattle.sql_schema.specs.Whole.{IsLookUp};
ghost use Rattle.sql_meaning.specs.Domains.{office_of_rows};
ghost use Rattle.store_sql.specs.TablesInFile.{KeepsOffice, IsPartAtHand};
ghost use Rattle.sql_schema.specs.Layouts.{rows_named};
ghost use Rattle.sql_decoding.specs.DiskFailures.{FailsTruly};

use crate::look_ups::look_up;
use crate::office_part::{Kept, OfficePart, context_beside, part_to_keep, same_part};
use crate::questions::{
    MemberOf, SuggestionOn, SuggestionsOn, UnitAloneOf, UnitOf, UnitRowsOf, ViewOf,
};
use office_specification::ActContext;
use po_text::Items;
use sql_columns::number_column;
use sql_decoding::{
    Failure, KeptRule, context_in, needed, role_in, suggestion_found, suggestions_without_votes,
};
use sql_keepable::key_fits;
use sqlite::{Alter, Connection};
use std::alloc::Global;
use units::{Key, Lang, Name, Role, Suggestion};
use uuid::Uuid;

/// A caller's role.
pub(crate) fn read_role<S: Alter>(
    connection: &mut Connection<S>,
    name: &Name,
) -> Result<Role, Failure>
    requires autocommit { connection.old.in_transaction ≡ false }
    requires keeps { KeepsOffice (state S.Store connection.old) }
    ensures found { IsLookUp (state S.Store connection.old) (state S.Store connection.new) result
        (λ db role. role ≡ role_in (office_of_rows (rows_named db)).team name.now) }
    ensures disk { FailsTruly (state S.Store connection.old) (state S.Store connection.new) result }
{
    let row = look_up(
        connection,
        MemberOf {
            name: name.as_str(),
        },
    )?;
    let role = needed(role_in(&row));
    drop(row);
    role
}

/// What an act on a unit needs to know, all of it read. None, where the domain or its language isn't there. The plural rule that it has is
/// kept for the next time.
fn read_context_anew<S: Alter>(
    connection: &mut Connection<S>,
    alloc: Global,
    domain: &Name,
    lang: &Lang,
    key: &Key,
    name: &Name,
    kept: &mut Option<KeptRule>,
) -> Result<Option<ActContext>, Failure>
    requires autocommit { connection.old.in_transaction ≡ false }
    requires keeps { KeepsOffice (state S.Store connection.old) }
    ensures found { IsLookUp (state S.Store connection.old) (state S.Store connection.new) result
        (λ db r. r ≡ context_of (project_in (office_of_rows (rows_named db)) domain.now) lang.now key.now name.now) }
    ensures disk { FailsTruly (state S.Store connection.old) (state S.Store connection.new) result }
{
    key_fits(key);
    let text = key.text(alloc)?;
    let rows = look_up(
        connection,
        ViewOf {
            domain: domain.as_str(),
            lang: lang.as_str(),
            key: text.as_str(),
            name: name.as_str(),
        },
    )?;
    let found = needed(context_in(alloc, key, &rows, kept));
    drop(rows);
    found
}

/// The same but for the unit's suggestions, which aren't read: the view has none.
fn read_unit_anew<S: Alter>(
    connection: &mut Connection<S>,
    alloc: Global,
    domain: &Name,
    lang: &Lang,
    key: &Key,
    name: &Name,
    kept: &mut Option<KeptRule>,
) -> Result<Option<ActContext>, Failure>
    requires autocommit { connection.old.in_transaction ≡ false }
    requires keeps { KeepsOffice (state S.Store connection.old) }
    ensures found { IsLookUp (state S.Store connection.old) (state S.Store connection.new) result
        (λ db r. r ≡ without_suggestions (context_of (project_in (office_of_rows (rows_named db)) domain.now) lang.now key.now name.now)) }
    ensures disk { FailsTruly (state S.Store connection.old) (state S.Store connection.new) result }
{
    key_fits(key);
    let text = key.text(alloc)?;
    let rows = look_up(
        connection,
        UnitOf {
            alloc,
            domain: domain.as_str(),
            lang: lang.as_str(),
            key: text.as_str(),
            name: name.as_str(),
        },
    )?;
    let found = needed(context_in(alloc, key, &rows, kept));
    drop(rows);
    found
}

/// What an act on a unit needs to know, where of the office a part is at hand: the unit alone is read.
fn read_context_beside<S: Alter>(
    connection: &mut Connection<S>,
    alloc: Global,
    key: &Key,
    part: &OfficePart,
) -> Result<Option<ActContext>, Failure>
    requires autocommit { connection.old.in_transaction ≡ false }
    requires keeps { KeepsOffice (state S.Store connection.old) }
    requires held { IsPartAtHand (state S.Store connection.old) (Some part.now) }
    ensures found { IsLookUp (state S.Store connection.old) (state S.Store connection.new) result
        (λ db r. r ≡ context_of (project_in (office_of_rows (rows_named db)) part.now.domain) part.now.lang key.now part.now.name) }
    ensures disk { FailsTruly (state S.Store connection.old) (state S.Store connection.new) result }
{
    key_fits(key);
    let text = key.text(alloc)?;
    let rows = look_up(
        connection,
        UnitRowsOf {
            domain: part.domain.as_str(),
            lang: part.lang.as_str(),
            key: text.as_str(),
        },
    )?;
    let found = needed(context_beside(alloc, key, part, &rows));
    drop(rows);
    found
}

/// The same but for the unit's suggestions, which aren't read: the view has none.
fn read_unit_beside<S: Alter>(
    connection: &mut Connection<S>,
    alloc: Global,
    key: &Key,
    part: &OfficePart,
) -> Result<Option<ActContext>, Failure>
    requires autocommit { connection.old.in_transaction ≡ false }
    requires keeps { KeepsOffice (state S.Store connection.old) }
    requires held { IsPartAtHand (state S.Store connection.old) (Some part.now) }
    ensures found { IsLookUp (state S.Store connection.old) (state S.Store connection.new) result
        (λ db r. r ≡ without_suggestions (context_of (project_in (office_of_rows (rows_named db)) part.now.domain) part.now.lang key.now part.now.name)) }
    ensures disk { FailsTruly (state S.Store connection.old) (state S.Store connection.new) result }
{
    key_fits(key);
    let text = key.text(alloc)?;
    let rows = look_up(
        connection,
        UnitAloneOf {
            alloc,
            domain: part.domain.as_str(),
            lang: part.lang.as_str(),
            key: text.as_str(),
        },
    )?;
    let found = needed(context_beside(alloc, key, part, &rows));
    drop(rows);
    found
}

/// What an act on a unit needs to know. None, where the domain or its language isn't there. What the office tells apart from the unit is
/// read where it isn't at hand, and then kept for the next time.
pub(crate) fn read_context<S: Alter>(
    connection: &mut Connection<S>,
    alloc: Global,
    domain: &Name,
    lang: &Lang,
    key: &Key,
    name: &Name,
    kept: &mut Kept,
) -> Result<Option<ActContext>, Failure>
    requires autocommit { connection.old.in_transaction ≡ false }
    requires keeps { KeepsOffice (state S.Store connection.old) }
    requires held { IsPartAtHand (state S.Store connection.old) kept.old.part }
    ensures found { IsLookUp (state S.Store connection.old) (state S.Store connection.new) result
        (λ db r. r ≡ context_of (project_in (office_of_rows (rows_named db)) domain.now) lang.now key.now name.now) }
    ensures disk { FailsTruly (state S.Store connection.old) (state S.Store connection.new) result }
    ensures held { IsPartAtHand (state S.Store connection.new) kept.new.part }
{
    if let Some(part) = same_part(&kept.part, domain, lang, name) {
        return read_context_beside(connection, alloc, key, part);
    }
    let found = read_context_anew(connection, alloc, domain, lang, key, name, &mut kept.rule)?;
    kept.part = part_to_keep(domain, lang, name, &found);
    Ok(found)
}

/// The same but for the unit's suggestions, which aren't read: the view has none.
pub(crate) fn read_unit<S: Alter>(
    connection: &mut Connection<S>,
    alloc: Global,
    domain: &Name,
    lang: &Lang,
    key: &Key,
    name: &Name,
    kept: &mut Kept,
) -> Result<Option<ActContext>, Failure>
    requires autocommit { connection.old.in_transaction ≡ false }
    requires keeps { KeepsOffice (state S.Store connection.old) }
    requires held { IsPartAtHand (state S.Store connection.old) kept.old.part }
    ensures found { IsLookUp (state S.Store connection.old) (state S.Store connection.new) result
        (λ db r. r ≡ without_suggestions (context_of (project_in (office_of_rows (rows_named db)) domain.now) lang.now key.now name.now)) }
    ensures disk { FailsTruly (state S.Store connection.old) (state S.Store connection.new) result }
    ensures held { IsPartAtHand (state S.Store connection.new) kept.new.part }
{
    if let Some(part) = same_part(&kept.part, domain, lang, name) {
        return read_unit_beside(connection, alloc, key, part);
    }
    let found = read_unit_anew(connection, alloc, domain, lang, key, name, &mut kept.rule)?;
    kept.part = part_to_keep(domain, lang, name, &found);
    Ok(found)
}

/// The suggestions on a unit, in their order, without the votes on them, which aren't read. None where the unit isn't there.
pub(crate) fn read_suggestions<S: Alter>(
    connection: &mut Connection<S>,
    alloc: Global,
    domain: &Name,
    lang: &Lang,
    key: &Key,
) -> Result<Items<Suggestion>, Failure>
    requires autocommit { connection.old.in_transaction ≡ false }
    requires keeps { KeepsOffice (state S.Store connection.old) }
    ensures found { IsLookUp (state S.Store connection.old) (state S.Store connection.new) result
        (λ db r. r ≡ suggestions_at (project_in (office_of_rows (rows_named db)) domain.now) lang.now key.now) }
    ensures disk { FailsTruly (state S.Store connection.old) (state S.Store connection.new) result }
{
    key_fits(key);
    let text = key.text(alloc)?;
    let rows = look_up(
        connection,
        SuggestionsOn {
            domain: domain.as_str(),
            lang: lang.as_str(),
            key: text.as_str(),
        },
    )?;
    let found = needed(suggestions_without_votes(alloc, &rows));
    drop(rows);
    found
}

/// The suggestion of a number on a unit, with the votes on it; no other is read. Nothing where the unit or the suggestion isn't there.
pub(crate) fn read_suggestion<S: Alter>(
    connection: &mut Connection<S>,
    alloc: Global,
    domain: &Name,
    lang: &Lang,
    key: &Key,
    number: Uuid,
) -> Result<Option<Suggestion>, Failure>
    requires autocommit { connection.old.in_transaction ≡ false }
    requires keeps { KeepsOffice (state S.Store connection.old) }
    ensures found { IsLookUp (state S.Store connection.old) (state S.Store connection.new) result
        (λ db r. r ≡ suggestion_at (project_in (office_of_rows (rows_named db)) domain.now) lang.now key.now number) }
    ensures disk { FailsTruly (state S.Store connection.old) (state S.Store connection.new) result }
{
    key_fits(key);
    let text = key.text(alloc)?;
    let column = number_column(alloc, number)?;
    let rows = look_up(
        connection,
        SuggestionOn {
            domain: domain.as_str(),
            lang: lang.as_str(),
            key: text.as_str(),
            number: column.as_str(),
        },
    )?;
    let found = needed(suggestion_found(alloc, &rows));
    drop(rows);
    found
}
