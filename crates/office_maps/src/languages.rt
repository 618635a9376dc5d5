//! The languages of a domain, by their codes.

ghost use Rattle.std.specs.Prelude.{◌≡◌, [], OnOk, OnErr, true, string_bytes};
ghost use Rattle.std.specs.List.{list_all};
ghost use Rattle.std.specs.Option.{option_copied};
ghost use Rattle.std.specs.BTreeMap.{get_by};
ghost use Rattle.std.specs.FinMap as maps;
ghost use Rattle.std.proofs.Props.{props};
ghost use Rattle.po_text.specs.Texts.{text_cmp};
ghost use Rattle.units.specs.Limits.{is_lang};

use crate::puts::put_in;
use office_specification::Language;
use std::alloc::{AllocError, Global};
use std::collections::BTreeMap;
use units::Lang;

/// The languages of a domain, each under its code.
#[derive(Drop)]
pub struct Languages {
    pub(crate) rows: BTreeMap<String, Language>,
    ghost coded: { list_all (λ row. is_lang (string_bytes row.0)) rows.entries ≡ true } by { Prim.hlevel props },
}

impl Languages {
    ghost use Rattle.office_maps.specs.Rows.{headers_in};

    /// No languages.
    pub(crate) fn new(alloc: Global) -> Languages
        ensures { result.rows.entries ≡ [] }
    {
        Languages {
            rows: BTreeMap::new(alloc),
        }
    }

    /// The language with a code.
    pub fn get(&self, code: &Lang) -> Option<&Language>
        ensures { option_copied result ≡ get_by (λ k. text_cmp code.now (string_bytes k)) self.now.rows }
    {
        self.rows.get(code.as_str())
    }

    /// Puts a language under its code.
    pub(crate) fn insert(
        &mut self,
        alloc: Global,
        code: &Lang,
        language: Language,
    ) -> Result<(), AllocError>
        ensures ok { OnOk result (headers_in self.new.rows ≡ maps.insert (headers_in self.old.rows) code.now language.header) }
        ensures err { OnErr result (self.new.rows.entries ≡ self.old.rows.entries) }
    {
        match String::from_str(alloc, code.as_str()) {
            Ok(own) => self.insert_under(own, language),
            Err(refused) => {
                drop(language);
                Err(refused)
            }
        }
    }

    /// Puts a language under a text that is a code.
    fn insert_under(&mut self, own: String, language: Language) -> Result<(), AllocError>
        requires { is_lang (string_bytes own) ≡ true }
        ensures ok { OnOk result (headers_in self.new.rows ≡ maps.insert (headers_in self.old.rows) (string_bytes own) language.header) }
        ensures err { OnErr result (self.new.rows.entries ≡ self.old.rows.entries) }
    {
        put_in(&mut self.rows, own, language)
    }
}
