//! What an act on a unit needs to know, as it is read.
ghost use Rattle.std.specs.Prelude.{◌≡◌, ◌&&◌, true, Ok, Some, IfOk, IfErr, OnOk, map, option_map};
ghost use Rattle.std.specs.List.{list_all};
ghost use Rattle.std.specs.Option.{option_map_or};
ghost use Rattle.units.specs.Rules.{rule_in};
ghost use Rattle.sql_meaning.specs.Shown.{shown_header, shown_policy, shown_unit};
ghost use Rattle.sql_decoding.specs.ShownContexts.{suggestion_shown, shown_rule, shown_role, shown_source, shown_view, IsShownContext, context_shown};
ghost use Rattle.sql_decoding.specs.RowTests.{holds_text, holds_integer, is_header, is_rule_of, is_role, is_policy_row, is_entry, is_language, is_unit, is_suggestion_with_votes, are_unit_rows, are_context_rows, IsUnread};

use crate::columns::{role_at, text_in};
use crate::faults::Failure;
use crate::integers::integer_at;
use crate::kept_rule::{KeptRule, rule_to_keep, same_rule};
use crate::units_read::{entry_in, suggestion_in, unit_in};
use office_specification::ActContext;
use plural_expr::PluralForms;
use po_text::Entry;
use sql_columns::{header_from, rule_from};
use sql_statements::unit_rows::{ContextRows, SuggestionRows, UnitRows};
use sqlite::Row;
use std::alloc::Global;
use tables::Lost;
use units::{Key, Policy, Role, Suggestion, UnitView};

/// The header of a language.
pub fn header_in(alloc: Global, row: &Row) -> Result<Entry, Failure>
    ensures shown { IfOk result (λ v. v ≡ shown_header row.now) }
    ensures stands { OnOk result (holds_text is_header 0 row.now ≡ true) }
    ensures unread { IfErr result (IsUnread (holds_text is_header 0 row.now)) }
{
    let column = text_in(row, 0)?;
    Ok(header_from(alloc, column.as_str())?)
}

/// The plural rule of a header, which the column beside it repeats.
fn rule_beside(alloc: Global, header: &Entry, row: &Row) -> Result<PluralForms, Failure>
    ensures shown { IfOk result (λ rule. rule_in (Some header.now) ≡ Ok rule) }
    ensures stands { OnOk result (holds_text (is_rule_of header.now) 1 row.now ≡ true) }
    ensures unread { IfErr result (IsUnread (holds_text (is_rule_of header.now) 1 row.now)) }
{
    let column = text_in(row, 1)?;
    Ok(rule_from(alloc, header, column.as_str())?)
}

/// The plural rule of a language, as it is read.
fn rule_of_language(alloc: Global, row: &Row) -> Result<PluralForms, Failure>
    ensures shown { IfOk result (λ v. v ≡ shown_rule row.now) }
    ensures stands { OnOk result (is_language row.now ≡ true) }
    ensures unread { IfErr result (IsUnread (is_language row.now)) }
{
    let header = header_in(alloc, row)?;
    let rule = rule_beside(alloc, &header, row);
    drop(header);
    rule
}

/// The plural rule of a language, which is read, and kept if there is memory for it.
fn rule_read_anew(
    alloc: Global,
    row: &Row,
    kept: &mut Option<KeptRule>,
) -> Result<PluralForms, Failure>
    ensures shown { IfOk result (λ v. v ≡ shown_rule row.now) }
    ensures stands { OnOk result (is_language row.now ≡ true) }
    ensures unread { IfErr result (IsUnread (is_language row.now)) }
{
    let rule = rule_of_language(alloc, row)?;
    *kept = rule_to_keep(row, &rule);
    Ok(rule)
}

/// The plural rule of a language: the one that is kept, where it was read of the same columns.
fn rule_kept_or_read(
    alloc: Global,
    row: &Row,
    kept: &mut Option<KeptRule>,
) -> Result<PluralForms, Failure>
    ensures shown { IfOk result (λ v. v ≡ shown_rule row.now) }
    ensures stands { OnOk result (is_language row.now ≡ true) }
    ensures unread { IfErr result (IsUnread (is_language row.now)) }
{
    match same_rule(kept, row)? {
        Some(rule) => Ok(rule),
        None => rule_read_anew(alloc, row, kept),
    }
}

/// The policy.
pub fn policy_in(row: &Row) -> Result<Policy, Failure>
    ensures shown { IfOk result (λ v. v ≡ shown_policy row.now) }
    ensures stands { OnOk result (is_policy_row row.now ≡ true) }
    ensures unread { IfErr result (IsUnread (is_policy_row row.now)) }
{
    Ok(Policy {
        reviews: integer_at(row, 1)?,
        guests_suggest: integer_at(row, 2)?,
        voting: integer_at(row, 3)?,
        accept_at: integer_at(row, 4)?,
        placeholders: integer_at(row, 5)?,
        line_ends: integer_at(row, 6)?,
    })
}

/// The role of a caller, who without a row is a guest.
///
/// `Disk` exactly where the row stands for no role.
pub fn role_in(row: &Option<Row>) -> Result<Role, Failure>
    ensures shown { IfOk result (λ v. v ≡ shown_role row.now) }
    ensures stands { OnOk result (option_map_or (holds_integer is_role 0) row.now true ≡ true) }
    ensures unread { IfErr result (IsUnread (option_map_or (holds_integer is_role 0) row.now true)) }
{
    match row {
        Some(row) => role_at(row, 0),
        None => Ok(Role::Guest),
    }
}

/// The template's entry of a key, if there is one.
fn source_in(alloc: Global, key: &Key, row: &Option<Row>) -> Result<Option<Entry>, Failure>
    ensures shown { IfOk result (λ v. v ≡ shown_source key.now row.now) }
    ensures stands { OnOk result (option_map_or is_entry row.now true ≡ true) }
    ensures unread { IfErr result (IsUnread (option_map_or is_entry row.now true)) }
{
    match row {
        Some(row) => Ok(Some(entry_in(alloc, key, row)?)),
        None => Ok(None),
    }
}

/// The suggestion that is found, with the votes on it, if there is one.
pub fn suggestion_found(
    alloc: Global,
    found: &Option<SuggestionRows>,
) -> Result<Option<Suggestion>, Failure>
    ensures shown { IfOk result (λ v. v ≡ option_map suggestion_shown found.now) }
    ensures stands { OnOk result (option_map_or is_suggestion_with_votes found.now true ≡ true) }
    ensures unread { IfErr result (IsUnread (option_map_or is_suggestion_with_votes found.now true)) }
{
    match found {
        Some(rows) => Ok(Some(suggestion_in(alloc, rows)?)),
        None => Ok(None),
    }
}

/// The unit of a row with its template's entry.
fn view_with(
    alloc: Global,
    key: &Key,
    row: &Row,
    entry: &Option<Row>,
    suggestions: &[SuggestionRows],
) -> Result<UnitView, Failure>
    ensures shown { IfOk result (λ v. v ≡ record {
      unit = shown_unit key.now (map suggestion_shown suggestions.now) row.now;
      source = shown_source key.now entry.now;
    }) }
    ensures stands { OnOk result (((list_all is_suggestion_with_votes suggestions.now && is_unit row.now) && option_map_or is_entry entry.now true) ≡ true) }
    ensures unread { IfErr result (IsUnread (((list_all is_suggestion_with_votes suggestions.now && is_unit row.now) && option_map_or is_entry entry.now true))) }
{
    let unit = unit_in(alloc, key, row, suggestions)?;
    match source_in(alloc, key, entry) {
        Ok(source) => Ok(UnitView { unit, source }),
        Err(failure) => {
            drop(unit);
            Err(failure)
        }
    }
}

/// The view of a unit, if there is one.
///
/// `Memory` where a growth was refused, and `Disk` exactly where a row stands for no value.
pub fn view_in(alloc: Global, key: &Key, rows: &UnitRows) -> Result<Option<UnitView>, Failure>
    ensures shown { IfOk result (λ v. v ≡ shown_view key.now rows.now) }
    ensures stands { OnOk result (are_unit_rows rows.now ≡ true) }
    ensures unread { IfErr result (IsUnread (are_unit_rows rows.now)) }
{
    match &rows.unit {
        Some(row) => Ok(Some(view_with(
            alloc,
            key,
            row,
            &rows.entry,
            rows.suggestions.as_slice(),
        )?)),
        None => Ok(None),
    }
}

/// What is found where there is a language, of its row.
fn context_with(
    alloc: Global,
    key: &Key,
    language: &Row,
    policy: &Row,
    rows: &ContextRows,
    kept: &mut Option<KeptRule>,
) -> Result<ActContext, Failure>
    ensures shown { IfOk result (λ v. v ≡ context_shown key.now language.now policy.now rows.now) }
    ensures stands { OnOk result ((is_policy_row policy.now && (option_map_or (holds_integer is_role 0) rows.now.office.role true && (is_language language.now && are_unit_rows rows.now.unit))) ≡ true) }
    ensures unread { IfErr result (IsUnread ((is_policy_row policy.now && (option_map_or (holds_integer is_role 0) rows.now.office.role true && (is_language language.now && are_unit_rows rows.now.unit))))) }
{
    let policy = policy_in(policy)?;
    let role = role_in(&rows.office.role)?;
    let rule = rule_kept_or_read(alloc, language, kept)?;
    match view_in(alloc, key, &rows.unit) {
        Ok(view) => Ok(ActContext {
            rule,
            policy,
            role,
            view,
        }),
        Err(failure) => {
            drop(rule);
            Err(failure)
        }
    }
}

/// What is found: nothing, where the language isn't there. The language's plural rule is kept for the next look, and not read again while
/// its columns are the same.
///
/// `Memory` where a growth was refused, and `Disk` exactly where a row stands for no value, or no policy is there beside the language.
pub fn context_in(
    alloc: Global,
    key: &Key,
    rows: &ContextRows,
    kept: &mut Option<KeptRule>,
) -> Result<Option<ActContext>, Failure>
    ensures shown { IfOk result (IsShownContext key.now rows.now) }
    ensures stands { OnOk result (are_context_rows rows.now ≡ true) }
    ensures unread { IfErr result (IsUnread (are_context_rows rows.now)) }
{
    let Some(language) = &rows.office.language else {
        return Ok(None);
    };
    match &rows.office.policy {
        Some(policy) => Ok(Some(context_with(alloc, key, language, policy, rows, kept)?)),
        None => Err(Failure { lost: Lost::Disk }),
    }
}
