//! The flags of an entry, each once and `fuzzy` first.

ghost use Rattle.std.specs.Prelude.{◌≡◌, ◌++◌, ◌∷◌, List, [], ℕ, map, filter, not, IfOk, OnOk};
ghost use Rattle.std.specs.Str.{bytes_eq};
ghost use Rattle.po_text.specs.Valid.{fuzzy};
ghost use Rattle.std.specs.List.{fold};
ghost use Rattle.po_lex.specs.Lines.{items_of};
ghost use Rattle.po_text.specs.Flags.{add_once, has_text, with_fuzzy_first, AreSeen};

use crate::items::Items;
use crate::text::Text;
use po_lex::trim;
use std::alloc::{AllocError, Global};
use std::collections::BTreeSet;
use std::marker::Model;

/// The flags so far, each at its first place.
#[derive(Drop)]
pub struct Flags<'a> {
    kept: Vec<&'a str>,
    seen: BTreeSet<&'a str>,
}

impl<'a> Model for Flags<'a> {
    ghost Value = { List (List ℕ) };

    ghost view = { λ f. map (λ flag. flag.now) f.kept.items };

    ghost invariant = { λ f. AreSeen f.seen (map (λ flag. flag.now) f.kept.items) };
}

impl<'a> Flags<'a> {
    /// No flags.
    pub fn new(alloc: Global) -> Flags<'a>
        ensures { result ≡ [] }
    {
        Flags {
            kept: Vec::new(alloc),
            seen: BTreeSet::new(alloc),
        }
    }

    /// Whether this is one of the flags.
    pub(crate) fn has(&self, flag: &str) -> bool
        ensures { result ≡ has_text flag.now self.now }
    {
        self.seen.contains(flag)
    }

    /// The flags with one more, if it isn't there.
    pub(crate) fn with(self, flag: &'a str) -> Result<Flags<'a>, AllocError>
        ensures { IfOk result (λ flags. flags ≡ add_once self.entry flag.now) }
    {
        let Flags { mut kept, mut seen } = self;
        if seen.insert(flag)? {
            kept.push(flag)?;
        }
        Ok(Flags { kept, seen })
    }

    /// The flags with the items of a line.
    pub fn with_all(self, items: &'a str) -> Result<Flags<'a>, AllocError>
        ensures { IfOk result (λ flags. flags ≡ fold add_once self.entry (items_of items.now)) }
    {
        let mut flags = self;
        let mut rest = items;
        while let Some((item, more)) = rest.split_once(',') {
            flags = flags.with(trim(item))?;
            rest = more;
        }
        flags.with(trim(rest))
    }

    /// The flags, with `fuzzy` at the front if it is one.
    pub fn to_items(&self, alloc: Global) -> Result<Items<Text>, AllocError>
        ensures { IfOk result (λ flags. flags ≡ with_fuzzy_first self.now) }
    {
        let mut flags = Items::with_capacity(alloc, self.kept.len())?;
        if self.has("fuzzy") {
            add_text(alloc, &mut flags, "fuzzy")?;
        }
        add_others(alloc, &mut flags, self.kept.as_slice())?;
        Ok(flags)
    }
}

/// Adds the flags other than `fuzzy` at the end.
fn add_others(alloc: Global, texts: &mut Items<Text>, flags: &[&str]) -> Result<(), AllocError>
    ensures { OnOk result (texts.new ≡ texts.old ++ filter (λ text. not (bytes_eq fuzzy text)) (map (λ flag. flag.now) flags.now)) }
{
    for flag in flags {
        if *flag != "fuzzy" {
            add_text(alloc, texts, flag)?;
        }
    }
    Ok(())
}

/// Adds a text at the end.
pub fn add_text(alloc: Global, texts: &mut Items<Text>, text: &str) -> Result<(), AllocError>
    ensures { OnOk result (texts.new ≡ texts.old ++ text.now ∷ []) }
{
    texts.push(Text::from_text(alloc, text)?)?;
    Ok(())
}
