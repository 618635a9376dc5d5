//! The languages of rows, each noted once.
ghost use Rattle.std.specs.Prelude.{◌≡◌, Contains, IfOk, IfErr, OnOk};
ghost use Rattle.std.specs.List.{list_all};
ghost use Rattle.po_text.specs.Texts.{Text};
ghost use Rattle.sql_schema.specs.Keys.{text_at};
ghost use Rattle.sql_meaning.specs.OfficeShown.{headers_shown};
ghost use Rattle.sql_decoding.specs.RowTests.{is_language_row, IsUnread};
ghost use Rattle.sql_adoption.specs.Reading.{NotesLang, NotesLangs};

use sql_columns::lang_from;
use sql_decoding::{Failure, text_in};
use sqlite::Row;
use std::alloc::AllocError;
use units::Lang;

/// The language of a row.
fn lang_of(row: &Row) -> Result<Lang, Failure>
    ensures shown { IfOk result (λ lang. lang ≡ text_at 2 row.now) }
    ensures unread { IfErr result (IsUnread (is_language_row row.now)) }
{
    let column = text_in(row, 2)?;
    Ok(lang_from(column.as_str())?)
}

/// Notes a language, where it isn't noted yet.
fn note_lang(langs: &mut Vec<Lang>, lang: Lang) -> Result<(), AllocError>
    ensures { OnOk result (NotesLang lang langs.old.items langs.new.items) }
{
    if langs.as_slice().contains(&lang) {
        drop(lang);
        return Ok(());
    }
    langs.push(lang)?;
    Ok(())
}

/// Notes the languages of rows.
pub(crate) fn note_langs(langs: &mut Vec<Lang>, rows: &[Row]) -> Result<(), Failure>
    ensures noted { OnOk result (NotesLangs (headers_shown rows.now) langs.old.items langs.new.items) }
    ensures unread { IfErr result (IsUnread (list_all is_language_row rows.now)) }
{
    for row in rows {
        note_lang(langs, lang_of(row)?)?;
    }
    Ok(())
}
