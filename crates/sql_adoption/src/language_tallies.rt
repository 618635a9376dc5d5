//! Whether the tallies that are kept are what counting gives: each row is of a language of a domain that is there and holds its counts, and
//! each such language has a row.
ghost use Rattle.std.specs.Prelude.{◌≡◌, ◌↔◌, ◌++◌, pos, true, List, map, IfOk, OnOk};
ghost use Rattle.std.specs.List.{list_all, list_any};
ghost use Rattle.sqlite.specs.Order.{column};
ghost use Rattle.units.specs.Offices.{IsOffice};
ghost use Rattle.office_maps.specs.OfficeIn.{office_in};
ghost use Rattle.sql_figures.specs.KeptTallies.{office_counts};
ghost use Rattle.sql_adoption.specs.FigureRows as spec;
ghost use Rattle.sql_statements.specs.SummedVotes.{is_integer};
ghost use Rattle.sql_adoption.specs.FigureRows.{is_words, is_row_of, are_rows_of, Place, places_of, AreCounted, CountsOneMore, AreTalliesShown};
ghost use Rattle.sql_adoption.specs.Reading.{HoldsAll};

use crate::office_put::ReadOffice;
use office_maps::OfficeMaps;
use office_specification::Tally;
use sqlite::Row;
use sqlite::types::ValueRef;
use std::alloc::{AllocError, Global};
use tables::counts_in;
use units::{Lang, Name};

/// A language of a domain that is there, and what its units count.
#[derive(Drop)]
pub(crate) struct Counted<'a> {
    pub(crate) domain: &'a Name,
    pub(crate) lang: &'a Lang,
    pub(crate) tally: Tally,
}

/// Whether a column is this text.
fn shows_text(row: &Row, at: usize, text: &str) -> bool
    ensures { result ≡ is_words text.now (column row.now at) }
{
    match row.get_ref(at) {
        Ok(ValueRef::Text(bytes)) => bytes == text.as_bytes(),
        _ => false,
    }
}

/// Whether a column is this count.
fn shows_count(row: &Row, at: usize, count: usize) -> bool
    ensures { result ≡ is_integer (pos count) (column row.now at) }
{
    match row.get_ref(at) {
        Ok(ValueRef::Int(found)) => found as i128 == count as i128,
        _ => false,
    }
}

/// Whether a row's columns behind domain and language are these counts.
fn shows_counts(row: &Row, tally: &Tally) -> bool
    ensures { result ≡ spec.shows_counts tally.now row.now }
{
    shows_count(row, 2, tally.untranslated)
        && shows_count(row, 3, tally.needs_editing)
        && shows_count(row, 4, tally.translated)
        && shows_count(row, 5, tally.approved)
        && shows_count(row, 6, tally.read_only)
        && shows_count(row, 7, tally.suggestions)
        && shows_count(row, 8, tally.obsolete)
}

/// Whether a row is a language's, with what it counts.
fn is_row_of(counted: &Counted<'_>, row: &Row) -> bool
    ensures { result ≡ is_row_of counted.now row.now }
{
    shows_text(row, 0, counted.domain.as_str())
        && shows_text(row, 1, counted.lang.as_str())
        && shows_counts(row, &counted.tally)
}

/// Whether a row is that of one of these languages.
fn is_of_some(counted: &[Counted<'_>], row: &Row) -> bool
    ensures { result ≡ list_any (λ c. is_row_of c row.now) counted.now }
{
    counted.iter().any(|one| is_row_of(one, row))
}

/// Whether a language has a row.
fn has_row(counted: &Counted<'_>, rows: &[Row]) -> bool
    ensures { result ≡ list_any (is_row_of counted.now) rows.now }
{
    rows.iter().any(|row| is_row_of(counted, row))
}

/// Whether each row is that of one of these languages.
fn are_of_some(counted: &[Counted<'_>], rows: &[Row]) -> bool
    ensures { result ≡ list_all (λ row. list_any (λ c. is_row_of c row) counted.now) rows.now }
{
    rows.iter().all(|row| is_of_some(counted, row))
}

/// Whether each of these languages has a row.
fn have_rows(counted: &[Counted<'_>], rows: &[Row]) -> bool
    ensures { result ≡ list_all (λ c. list_any (is_row_of c) rows.now) counted.now }
{
    counted.iter().all(|one| has_row(one, rows))
}

/// Whether rows are those of these languages: each is one's, and each language has one.
pub(crate) fn are_rows_of(counted: &[Counted<'_>], rows: &[Row]) -> bool
    ensures { result ≡ are_rows_of counted.now rows.now }
{
    are_of_some(counted, rows) && have_rows(counted, rows)
}

/// Counts one language more, where it is there.
fn count_lang<'a>(
    alloc: Global,
    maps: &OfficeMaps,
    domain: &'a Name,
    lang: &'a Lang,
    counted: &mut Vec<Counted<'a>>,
) -> Result<(), AllocError>
    ensures { IsOffice (office_in maps.now)
        → OnOk result (CountsOneMore (office_counts (office_in maps.now) domain.now lang.now) (domain.now, lang.now) counted.old.items counted.new.items) }
{
    if let Some(tally) = counts_in(alloc, maps, domain, lang)? {
        counted.push(Counted {
            domain,
            lang,
            tally,
        })?;
    }
    Ok(())
}

/// Counts the languages of a domain that are there.
fn count_langs<'a>(
    alloc: Global,
    read: &'a ReadOffice,
    domain: &'a Name,
    counted: &mut Vec<Counted<'a>>,
) -> Result<(), AllocError>
    ensures { IsOffice (office_in read.now.maps) → (before : List Place) → AreCounted (office_counts (office_in read.now.maps)) before counted.old.items
        → OnOk result (AreCounted (office_counts (office_in read.now.maps)) (before ++ map (λ lang. (domain.now, lang)) read.now.langs.items) counted.new.items) }
{
    let langs = read.langs.as_slice();
    for lang in langs {
        count_lang(alloc, &read.maps, domain, lang, counted)?;
    }
    Ok(())
}

/// The languages of all domains that are there, each with what its units count.
fn counted_langs(alloc: Global, read: &ReadOffice) -> Result<Vec<Counted<'_>>, AllocError>
    ensures { IsOffice (office_in read.now.maps)
        → IfOk result (λ counted. AreCounted (office_counts (office_in read.now.maps)) (places_of read.now.domains.items read.now.langs.items) counted.items) }
{
    let domains = read.domains.as_slice();
    let mut counted = Vec::new(alloc);
    for domain in domains {
        count_langs(alloc, read, domain, &mut counted)?;
    }
    Ok(counted)
}

/// Whether rows that show all tallies are those of an office: of each language of each domain one count.
pub(crate) fn are_tallies(
    alloc: Global,
    read: &ReadOffice,
    rows: &[Row],
) -> Result<bool, AllocError>
    requires holds { HoldsAll read.now }
    ensures { IsOffice (office_in read.now.maps) → IfOk result (λ are. (are ≡ true) ↔ AreTalliesShown (office_counts (office_in read.now.maps)) rows.now) }
{
    let counted = counted_langs(alloc, read)?;
    Ok(are_rows_of(counted.as_slice(), rows))
}
