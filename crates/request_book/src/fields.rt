//! Readers of single fields, and of the first member of an object in the order of its keys.
ghost use Rattle.std.specs.Prelude.{◌≡◌, ◌≢◌, ◌++◌, List, ℕ, Option, true, Err, IfOk, Some, None, codes, option_map};
ghost use Rattle.std.specs.List.{list_all};
ghost use Rattle.uuid.specs.Text.{parsed};
ghost use Rattle.po_text.specs.Strings.{is_string};
ghost use Rattle.request_book.specs.Acts.{IsNumber};
ghost use Rattle.serde_json.specs.Data.{Data};
ghost use Rattle.serde_json.specs.Find.{as_bool, as_str};
ghost use Rattle.serde_json.specs.View.{view, items_view, members_view};
ghost use Rattle.request_book.specs.Fields.{text_of, name_of, lang_of, revision_of, accept_at_of, role_of, each_of, forms_of, lines_of, vote_of, number_written, number_of, take, take_as, take_optional, take_optional_as, take_domain, optional_as, is_over};
ghost use Rattle.request_book.specs.declared.fault.RequestFault.TheVariants.{Malformed};

use crate::fault::RequestFault;
use po_text::{Forms, Items, PoString, Text};
use serde_json::Value;
use std::alloc::Global;
use units::{AcceptAt, CommentLines, Lang, Name, Revision, Role, VoteValue};
use uuid::Uuid;

/// A value that stands in a field.
pub(crate) trait FromField: Drop {
    /// The value that a field's JSON stands for, if it stands for one.
    ghost of: { Data → Option Self };

    /// Reads it.
    fn from_field(alloc: Global, value: &Value) -> Result<Self, RequestFault>
        ensures ok { IfOk result (λ own. of (view value.now) ≡ Some own) }
        ensures malformed { result ≡ Err Malformed → of (view value.now) ≡ None };
}

impl FromField for PoString {
    ghost of = { text_of };

    fn from_field(alloc: Global, value: &Value) -> Result<PoString, RequestFault> {
        let Some(text) = value.as_str() else {
            return Err(RequestFault::Malformed);
        };
        match PoString::try_new(alloc, text)? {
            Some(text) => Ok(text),
            None => Err(RequestFault::Malformed),
        }
    }
}

impl FromField for Name {
    ghost of = { name_of };

    fn from_field(_alloc: Global, value: &Value) -> Result<Name, RequestFault> {
        let Some(text) = value.as_str() else {
            return Err(RequestFault::Malformed);
        };
        match Name::try_new(text) {
            Some(name) => Ok(name),
            None => Err(RequestFault::Malformed),
        }
    }
}

impl FromField for Forms {
    ghost of = { forms_of };

    fn from_field(alloc: Global, value: &Value) -> Result<Forms, RequestFault> {
        let Some(list) = value.as_array() else {
            return Err(RequestFault::Malformed);
        };
        match Forms::try_new(texts_from(alloc, list.as_slice())?) {
            Some(forms) => Ok(forms),
            None => Err(RequestFault::Malformed),
        }
    }
}

impl FromField for CommentLines {
    ghost of = { lines_of };

    fn from_field(alloc: Global, value: &Value) -> Result<CommentLines, RequestFault> {
        let Some(list) = value.as_array() else {
            return Err(RequestFault::Malformed);
        };
        match CommentLines::try_new(line_texts_from(alloc, list.as_slice())?) {
            Some(lines) => Ok(lines),
            None => Err(RequestFault::Malformed),
        }
    }
}

pub(crate) fn revision_from(value: &Value) -> Result<Revision, RequestFault>
    ensures ok { IfOk result (λ n. revision_of (view value.now) ≡ Some n) }
    ensures malformed { result ≡ Err Malformed → revision_of (view value.now) ≡ None }
{
    let Some(number) = value.as_u64() else {
        return Err(RequestFault::Malformed);
    };
    match Revision::try_new(number) {
        Some(revision) => Ok(revision),
        None => Err(RequestFault::Malformed),
    }
}

fn accept_at_from(value: &Value) -> Result<AcceptAt, RequestFault>
    ensures ok { IfOk result (λ n. accept_at_of (view value.now) ≡ Some n) }
    ensures malformed { result ≡ Err Malformed → accept_at_of (view value.now) ≡ None }
{
    let Some(number) = value.as_u64() else {
        return Err(RequestFault::Malformed);
    };
    if 100 < number {
        return Err(RequestFault::Malformed);
    }
    match AcceptAt::try_new(number as u8) {
        Some(accept_at) => Ok(accept_at),
        None => Err(RequestFault::Malformed),
    }
}

pub(crate) fn role_from(value: &Value) -> Result<Role, RequestFault>
    ensures ok { IfOk result (λ role. role_of (view value.now) ≡ Some role) }
    ensures malformed { result ≡ Err Malformed → role_of (view value.now) ≡ None }
{
    let Some(word) = value.as_str() else {
        return Err(RequestFault::Malformed);
    };
    match Role::from_word(word) {
        Some(role) => Ok(role),
        None => Err(RequestFault::Malformed),
    }
}

// A PO text may be any text: what it says is read later.
pub(crate) fn po_from(alloc: Global, value: &Value) -> Result<Text, RequestFault>
    ensures ok { IfOk result (λ t. as_str (view value.now) ≡ Some t) }
    ensures malformed { result ≡ Err Malformed → as_str (view value.now) ≡ None }
{
    let Some(text) = value.as_str() else {
        return Err(RequestFault::Malformed);
    };
    Ok(Text::from_text(alloc, text)?)
}

pub(crate) fn take_member<'v>(
    fields: &'v [(String, Value)],
    name: &str,
) -> Result<(&'v Value, &'v [(String, Value)]), RequestFault>
    ensures ok { IfOk result
        (λ p. take name.now (members_view fields.now) ≡ Some (view p.0.now, members_view p.1.now)) }
    ensures malformed { result ≡ Err Malformed → take name.now (members_view fields.now) ≡ None }
{
    match fields.split_first() {
        Some((first, rest)) if first.0.as_str() == name => Ok((&first.1, rest)),
        _ => Err(RequestFault::Malformed),
    }
}

pub(crate) fn take_flag<'v>(
    fields: &'v [(String, Value)],
    name: &str,
) -> Result<(bool, &'v [(String, Value)]), RequestFault>
    ensures ok { IfOk result
        (λ p. take_as as_bool name.now (members_view fields.now) ≡ Some (p.0, members_view p.1.now)) }
    ensures malformed { result ≡ Err Malformed
        → take_as as_bool name.now (members_view fields.now) ≡ None }
{
    let (value, rest) = take_member(fields, name)?;
    match value.as_bool() {
        Some(flag) => Ok((flag, rest)),
        None => Err(RequestFault::Malformed),
    }
}

pub(crate) fn take_lang<'v>(
    fields: &'v [(String, Value)],
) -> Result<(Lang, &'v [(String, Value)]), RequestFault>
    ensures ok { IfOk result
        (λ p. take_as lang_of (codes "lang") (members_view fields.now) ≡ Some (p.0, members_view p.1.now)) }
    ensures malformed { result ≡ Err Malformed
        → take_as lang_of (codes "lang") (members_view fields.now) ≡ None }
{
    let (value, rest) = take_member(fields, "lang")?;
    let Some(text) = value.as_str() else {
        return Err(RequestFault::Malformed);
    };
    match Lang::try_new(text) {
        Some(lang) => Ok((lang, rest)),
        None => Err(RequestFault::Malformed),
    }
}

fn texts_from(alloc: Global, values: &[Value]) -> Result<Vec<PoString>, RequestFault>
    ensures ok { IfOk result (λ v. each_of text_of (items_view values.now) ≡ Some v.items) }
    ensures fit { IfOk result (λ v. list_all is_string v.items ≡ true) }
    ensures malformed { result ≡ Err Malformed → each_of text_of (items_view values.now) ≡ None }
{
    let mut texts = Vec::new(alloc);
    for value in values {
        let text = PoString::from_field(alloc, value)?;
        texts.push(text)?;
    }
    Ok(texts)
}

fn line_texts_from(alloc: Global, values: &[Value]) -> Result<Items<Text>, RequestFault>
    ensures ok { IfOk result (λ lines. each_of as_str (items_view values.now) ≡ Some lines) }
    ensures malformed { result ≡ Err Malformed → each_of as_str (items_view values.now) ≡ None }
{
    let mut lines = Items::new(alloc);
    for value in values {
        let line = po_from(alloc, value)?;
        lines.push(line)?;
    }
    Ok(lines)
}

// 0 takes a vote back.
fn vote_from(value: &Value) -> Result<Option<VoteValue>, RequestFault>
    ensures ok { IfOk result (λ vote. vote_of (view value.now) ≡ Some vote) }
    ensures malformed { result ≡ Err Malformed → vote_of (view value.now) ≡ None }
{
    match (value.as_u64(), value.as_i64()) {
        (Some(0), _) => Ok(None),
        (Some(1), _) => Ok(Some(VoteValue::For)),
        (None, Some(-1)) => Ok(Some(VoteValue::Against)),
        (_, _) => Err(RequestFault::Malformed),
    }
}

pub(crate) fn is_over(fields: &[(String, Value)]) -> bool
    ensures { result ≡ is_over (members_view fields.now) }
{
    match fields.split_first() {
        Some(_) => false,
        None => true,
    }
}

pub(crate) fn take_optional<'v>(
    fields: &'v [(String, Value)],
    name: &str,
) -> (Option<&'v Value>, &'v [(String, Value)])
    ensures { (option_map (λ v. view v.now) result.0, members_view result.1.now)
        ≡ take_optional name.now (members_view fields.now) }
{
    match fields.split_first() {
        Some((first, rest)) if first.0.as_str() == name => (Some(&first.1), rest),
        _ => (None, fields),
    }
}

/// The member of this name and those after it, where the first one has the name.
pub(crate) fn take_optional_field<'v, F: FromField>(
    alloc: Global,
    fields: &'v [(String, Value)],
    name: &str,
) -> Result<(Option<F>, &'v [(String, Value)]), RequestFault>
    ensures ok { IfOk result
        (λ p. take_optional_as F.of name.now (members_view fields.now) ≡ Some (p.0, members_view p.1.now)) }
    ensures malformed { result ≡ Err Malformed
        → take_optional_as F.of name.now (members_view fields.now) ≡ None }
{
    match take_optional(fields, name) {
        (Some(value), rest) => Ok((Some(F::from_field(alloc, value)?), rest)),
        (None, rest) => Ok((None, rest)),
    }
}

pub(crate) fn take_domain<'v>(
    alloc: Global,
    fields: &'v [(String, Value)],
) -> Result<(Name, &'v [(String, Value)]), RequestFault>
    ensures ok { IfOk result (λ p. take_domain (members_view fields.now) ≡ Some (p.0, members_view p.1.now)) }
    ensures malformed { result ≡ Err Malformed → take_domain (members_view fields.now) ≡ None }
{
    let (domain, rest) = take_optional_field(alloc, fields, "domain")?;
    match domain {
        Some(domain) => Ok((domain, rest)),
        None => Ok((Name::main_domain(), rest)),
    }
}

pub(crate) fn optional_accept_at(value: Option<&Value>) -> Result<Option<AcceptAt>, RequestFault>
    ensures ok { IfOk result
        (λ o. optional_as accept_at_of (option_map (λ v. view v.now) value.entry) ≡ Some o) }
    ensures malformed { result ≡ Err Malformed
        → optional_as accept_at_of (option_map (λ v. view v.now) value.entry) ≡ None }
{
    match value {
        Some(value) => Ok(Some(accept_at_from(value)?)),
        None => Ok(None),
    }
}

pub(crate) fn optional_vote(
    value: Option<&Value>,
) -> Result<Option<Option<VoteValue>>, RequestFault>
    ensures ok { IfOk result
        (λ o. optional_as vote_of (option_map (λ v. view v.now) value.entry) ≡ Some o) }
    ensures malformed { result ≡ Err Malformed
        → optional_as vote_of (option_map (λ v. view v.now) value.entry) ≡ None }
{
    match value {
        Some(value) => Ok(Some(vote_from(value)?)),
        None => Ok(None),
    }
}

pub(crate) fn optional_number(value: Option<&Value>) -> Result<Option<Uuid>, RequestFault>
    ensures ok { IfOk result
        (λ o. optional_as number_of (option_map (λ v. view v.now) value.entry) ≡ Some o) }
    ensures malformed { result ≡ Err Malformed
        → optional_as number_of (option_map (λ v. view v.now) value.entry) ≡ None }
{
    match value {
        Some(value) => Ok(Some(number_from(value)?)),
        None => Ok(None),
    }
}

// The text has to be the one that the number is written with.
fn number_from(value: &Value) -> Result<Uuid, RequestFault>
    ensures ok { IfOk result (λ u. number_of (view value.now) ≡ Some u) }
    ensures malformed { result ≡ Err Malformed → number_of (view value.now) ≡ None }
{
    let Some(text) = value.as_str() else {
        return Err(RequestFault::Malformed);
    };
    match number_in(text) {
        Some(number) => Ok(number),
        None => Err(RequestFault::Malformed),
    }
}

/// The number that is written so.
pub(crate) fn number_in(text: &str) -> Option<Uuid>
    ensures { result ≡ number_written text.now }
{
    let number = parsed_number(text)?;
    let mut buffer = Uuid::encode_buffer();
    let written: &str = number.hyphenated().encode_lower(&mut buffer);
    if written == text { Some(number) } else { None }
}

fn parsed_number(text: &str) -> Option<Uuid>
    ensures { result ≡ parsed text.now }
{
    match Uuid::parse_str(text) {
        Ok(number) => Some(number),
        Err(_) => None,
    }
}

/// Each byte fits, which a clause cannot say of an array: this walk reads them, and is compiled away.
pub fn bytes_fit(bytes: &[u8; 16])
    ensures { IsNumber bytes.now }
{
    'bytes: for i in 0..16 {
        let _ = bytes[i];
    }
}
