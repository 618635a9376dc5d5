//! The unit that a query names.
ghost use Rattle.std.specs.Prelude.{◌≡◌, ◌≤◌, ◌<◌, length, map, option_map, codes, IfOk, Some, None};
ghost use Rattle.std.specs.List.{list_all};
ghost use Rattle.std.specs.Cow.{cow_str_bytes};
ghost use Rattle.std.specs.Str.{is_utf8};
ghost use Rattle.percent_encoding.specs.Percent.{percent_decode};
ghost use Rattle.po_text.specs.Strings.{is_string};
ghost use Rattle.units.specs.Limits.{is_name, is_lang};
ghost use Rattle.units.specs.Office.{main};
ghost use Rattle.http_messages.specs.Queries.{pairs_of, is_known, values_named, only_one, one_or, at_most_one, unit_with, unit_in, unit_of};
ghost use Rattle.http_messages.specs.Pairs.{pairs_at, AreNamed, name_of};

use form_urlencoded::parse;
use percent_encoding::percent_decode;
use po_text::PoString;
use std::alloc::{AllocError, Global};
use std::borrow::CowStr;
use std::str;
use units::{Key, Lang, Name};

/// A unit by its domain, its language and its key.
#[derive(Drop)]
pub struct UnitName {
    pub domain: Name,
    pub lang: Lang,
    pub key: Key,
}

type Pair<'b> = (CowStr<'b>, CowStr<'b>);

/// The values of one name.
#[derive(Clone, Copy)]
enum Named<'b> {
    None,
    One(&'b str),
    More,
}

/// The names and values of a query, decoded.
fn pairs_of(alloc: Global, query: &[u8]) -> Result<Vec<Pair<'_>>, AllocError>
    ensures { IfOk result (λ pairs. pairs_at pairs.items ≡ pairs_of query.now) }
{
    let mut pairs = Vec::new(alloc);
    for pair in parse(alloc, query) {
        pairs.push(pair?)?;
    }
    Ok(pairs)
}

fn is_known(name: &str) -> bool
    ensures { result ≡ is_known name.now }
{
    name == "domain" || name == "lang" || name == "id" || name == "ctx"
}

/// Whether the names are all known.
fn all_known(pairs: &[Pair<'_>]) -> bool
    ensures { result ≡ list_all (λ pair. is_known pair.0) (pairs_at pairs.now) }
{
    for (name, _value) in pairs {
        if !is_known(name.as_str()) {
            return false;
        }
    }
    true
}

/// The values of a name.
fn values_named<'b>(pairs: &'b [Pair<'_>], name: &str) -> Named<'b>
    ensures { AreNamed result (values_named name.now (pairs_at pairs.now)) }
{
    let mut found = Named::None;
    for (other, value) in pairs {
        if other.as_str() == name {
            match found {
                Named::None => found = Named::One(value.as_str()),
                _ => found = Named::More,
            }
        }
    }
    found
}

fn one_domain(pairs: &[Pair<'_>]) -> Option<Name>
    ensures { result ≡ one_or is_name main (values_named (codes "domain") (pairs_at pairs.now)) }
{
    match values_named(pairs, "domain") {
        Named::None => Some(Name::main_domain()),
        Named::One(text) => Name::try_new(text),
        Named::More => None,
    }
}

fn only_lang(pairs: &[Pair<'_>]) -> Option<Lang>
    ensures { result ≡ only_one is_lang (values_named (codes "lang") (pairs_at pairs.now)) }
{
    match values_named(pairs, "lang") {
        Named::One(text) => Lang::try_new(text),
        _ => None,
    }
}

fn only_id(alloc: Global, pairs: &[Pair<'_>]) -> Result<Option<PoString>, AllocError>
    ensures { IfOk result (λ id. id ≡ only_one is_string (values_named (codes "id") (pairs_at pairs.now))) }
{
    match values_named(pairs, "id") {
        Named::One(text) => PoString::try_new(alloc, text),
        _ => Ok(None),
    }
}

fn context(alloc: Global, pairs: &[Pair<'_>]) -> Result<Option<Option<PoString>>, AllocError>
    ensures { IfOk result (λ ctx. ctx ≡ at_most_one is_string (values_named (codes "ctx") (pairs_at pairs.now))) }
{
    match values_named(pairs, "ctx") {
        Named::None => Ok(Some(None)),
        Named::One(text) => match PoString::try_new(alloc, text)? {
            Some(ctx) => Ok(Some(Some(ctx))),
            None => Ok(None),
        },
        Named::More => Ok(None),
    }
}

fn unit_with(
    domain: Option<Name>,
    lang: Option<Lang>,
    id: Option<PoString>,
    ctx: Option<Option<PoString>>,
) -> Option<UnitName>
    ensures { option_map name_of result ≡ unit_with domain lang id ctx }
{
    match (domain, lang, id, ctx) {
        (Some(domain), Some(lang), Some(id), Some(ctx)) => Some(UnitName {
            domain,
            lang,
            key: Key { ctx, id },
        }),
        (_, _, _, _) => None,
    }
}

fn is_utf8(bytes: &[u8]) -> bool
    ensures { result ≡ is_utf8 bytes.now }
{
    match str::from_utf8(bytes) {
        Ok(_) => true,
        Err(_) => false,
    }
}

/// Whether a query is UTF-8 once its escapes are read.
fn is_text(alloc: Global, query: &[u8]) -> Result<bool, AllocError>
    ensures { IfOk result (λ is. is ≡ is_utf8 (percent_decode query.now)) }
{
    let bytes = percent_decode(query).into_cow(alloc)?;
    Ok(is_utf8(bytes.as_slice()))
}

/// The unit that a query names: `lang` and `id` once each, `domain` and `ctx` at most once, no other name, in any order and decoded as
/// forms are; without `domain` it is in `main`. `None` where it names none, or isn't UTF-8 once it is decoded; an error where a growth
/// was refused.
pub(crate) fn unit_of(alloc: Global, query: &[u8]) -> Result<Option<UnitName>, AllocError>
    ensures { IfOk result (λ name. option_map name_of name ≡ unit_of query.now) }
{
    if !is_text(alloc, query)? {
        return Ok(None);
    }
    let pairs = pairs_of(alloc, query)?;
    let pairs = pairs.as_slice();
    if !all_known(pairs) {
        return Ok(None);
    }
    let domain = one_domain(pairs);
    let lang = only_lang(pairs);
    let id = only_id(alloc, pairs)?;
    let ctx = context(alloc, pairs)?;
    Ok(unit_with(domain, lang, id, ctx))
}
