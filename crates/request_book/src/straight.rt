//! Reads an act on a unit straight from the tokens of its text, where its members stand in the order of their keys.
ghost use Rattle.std.specs.Prelude.{◌≡◌, ◌++◌, [], ◌∷◌, All, codes, true, Some, IfSome, MatchOption, option_map, option_and_then, unwrap_or, flat_map, ⊤};
ghost use Rattle.json.specs.Lex.{tokens};
ghost use Rattle.json.specs.Token.{begin_object, end_object, begin_array, end_array, key, string, number};
ghost use Rattle.serde_json.specs.Data.{Data, string as string_data};
ghost use Rattle.po_text.specs.Strings.{is_string, is_forms};
ghost use Rattle.units.specs.Office.{main};
ghost use Rattle.units.specs.Limits.{is_name, is_lang, is_revision, is_comment_lines};
ghost use Rattle.request_book.specs.Acts.{vote_data, IsNumber};
ghost use Rattle.request_book.specs.Fields.{IsPartsText};
ghost use Rattle.request_book.specs.Tokens.{data_tokens, member_tokens, left, ReadsUnit};
ghost use Rattle.request_book.specs.Words.{natural, strings, number_data};

use crate::fields::number_in;
use crate::parts::{Parts, UnitMembers, parts_of_unit};
use itoa::Buffer;
use json::{Reader, Scratch, Token};
use po_text::{Forms, Items, PoString, Text};
use std::alloc::Global;
use units::{CommentLines, Lang, Name, Revision, VoteValue};
use uuid::Uuid;

/// A value that is read from tokens.
trait FromTokens: Drop {
    /// The value as JSON.
    ghost json: { Self → Data };

    /// Its limits.
    ghost fits: { Self → Type 0 };

    /// Reads it. Where no value is written so, or there is no memory for it, nothing is told of the tokens.
    fn from_tokens(alloc: Global, reader: &mut Reader<'_>) -> Option<Self>
        ensures tokens { IfSome result (λ own. reader.old ≡ data_tokens (json own) ++ reader.new) }
        ensures fits { IfSome result fits };
}

/// The string that comes next.
fn text_in<'a>(reader: &mut Reader<'a>) -> Option<&'a str>
    ensures { IfSome result (λ text. reader.old ≡ string text.now ∷ reader.new) }
{
    match reader.next()? {
        Token::String(text) => Some(text),
        _ => None,
    }
}

/// The number that comes next, as its text.
fn digits_in<'a>(reader: &mut Reader<'a>) -> Option<&'a str>
    ensures { IfSome result (λ text. reader.old ≡ number text.now ∷ reader.new) }
{
    match reader.next()? {
        Token::Number(text) => Some(text),
        _ => None,
    }
}

/// The items of the list that comes next.
#[tactic(auto, using(crate::proofs::TokenReads::after_end_is, crate::proofs::TokenReads::next_item, crate::proofs::TokenReads::fewer_tokens))]
fn items_in<F: FromTokens>(alloc: Global, reader: &mut Reader<'_>) -> Option<Vec<F>>
    ensures tokens { IfSome result (λ list. reader.old
        ≡ begin_array ∷ (flat_map (λ x. data_tokens (F.json x)) list.items ++ end_array ∷ reader.new)) }
    ensures fits { IfSome result (λ list. All F.fits list.items) }
{
    let Some(Token::BeginArray) = reader.next() else {
        return None;
    };
    let mut list = Vec::new(alloc);
    'items: while !reader.take_end_array() {
        let item = F::from_tokens(alloc, reader)?;
        list.push(item).ok()?;
    }
    Some(list)
}

impl FromTokens for PoString {
    ghost json = { string_data };

    ghost fits = { λ s. is_string s ≡ true };

    fn from_tokens(alloc: Global, reader: &mut Reader<'_>) -> Option<PoString> {
        let text = text_in(reader)?;
        PoString::try_new(alloc, text).ok()?
    }
}

impl FromTokens for Text {
    ghost json = { string_data };

    ghost fits = { λ _. ⊤ };

    fn from_tokens(alloc: Global, reader: &mut Reader<'_>) -> Option<Text> {
        let text = text_in(reader)?;
        Text::from_text(alloc, text).ok()
    }
}

impl FromTokens for Name {
    ghost json = { string_data };

    ghost fits = { λ s. is_name s ≡ true };

    fn from_tokens(_alloc: Global, reader: &mut Reader<'_>) -> Option<Name> {
        let text = text_in(reader)?;
        Name::try_new(text)
    }
}

impl FromTokens for Lang {
    ghost json = { string_data };

    ghost fits = { λ s. is_lang s ≡ true };

    fn from_tokens(_alloc: Global, reader: &mut Reader<'_>) -> Option<Lang> {
        let text = text_in(reader)?;
        Lang::try_new(text)
    }
}

impl FromTokens for Uuid {
    ghost json = { number_data };

    ghost fits = { IsNumber };

    fn from_tokens(_alloc: Global, reader: &mut Reader<'_>) -> Option<Uuid> {
        let text = text_in(reader)?;
        number_in(text)
    }
}

impl FromTokens for Forms {
    ghost json = { strings };

    ghost fits = { λ forms. is_forms forms ≡ true };

    fn from_tokens(alloc: Global, reader: &mut Reader<'_>) -> Option<Forms> {
        let strings = items_in(alloc, reader)?;
        Forms::try_new(strings)
    }
}

impl FromTokens for CommentLines {
    ghost json = { strings };

    ghost fits = { λ lines. is_comment_lines lines ≡ true };

    fn from_tokens(alloc: Global, reader: &mut Reader<'_>) -> Option<CommentLines> {
        let lines = items_in(alloc, reader)?;
        CommentLines::try_new(Items::from_vec(lines))
    }
}

impl FromTokens for Revision {
    ghost json = { natural };

    ghost fits = { λ n. is_revision n ≡ true };

    fn from_tokens(_alloc: Global, reader: &mut Reader<'_>) -> Option<Revision> {
        let text = digits_in(reader)?;
        let number = text.parse::<u64>().ok()?;
        let mut buffer = Buffer::new();
        let written: &str = buffer.format(number);
        if written == text {
            Revision::try_new(number)
        } else {
            None
        }
    }
}

// 0 takes a vote back.
impl FromTokens for Option<VoteValue> {
    ghost json = { vote_data };

    ghost fits = { λ _. ⊤ };

    fn from_tokens(_alloc: Global, reader: &mut Reader<'_>) -> Option<Option<VoteValue>> {
        match digits_in(reader)? {
            "0" => Some(None),
            "1" => Some(Some(VoteValue::For)),
            "-1" => Some(Some(VoteValue::Against)),
            _ => None,
        }
    }
}

/// The members of an object that are still to come. The key of the next one is read.
#[derive(Drop)]
pub(crate) struct Rest<'a> {
    pub(crate) key: Option<&'a str>,
    pub(crate) reader: Reader<'a>,
}

/// The word of a text's object, whose first member is `act`, and the members behind it.
fn begin<'a>(text: &'a str, scratch: &'a mut Scratch) -> Option<(&'a str, Rest<'a>)>
    ensures { IfSome result (λ p. tokens text.now
        ≡ begin_object ∷ key (codes "act") ∷ string p.0.now ∷ left p.1) }
{
    let mut reader = Reader::new(text, scratch).ok()?;
    let Some(Token::BeginObject) = reader.next() else {
        return None;
    };
    let Some(Token::Key("act")) = reader.next() else {
        return None;
    };
    let word = text_in(&mut reader)?;
    let key = reader.next_key().ok()?;
    Some((word, Rest { key, reader }))
}

impl<'a> Rest<'a> {
    fn begins_with(&self, name: &str) -> bool
        ensures { result ≡ true → left self.now ≡ key name.now ∷ self.now.reader }
    {
        match self.key {
            Some(key) => key == name,
            None => false,
        }
    }

    /// The value of the next member.
    fn value<F: FromTokens>(&mut self, alloc: Global) -> Option<F>
        ensures tokens { IfSome result (λ x. self.old.reader ≡ data_tokens (F.json x) ++ left self.new) }
        ensures fits { IfSome result F.fits }
    {
        let value = F::from_tokens(alloc, &mut self.reader)?;
        self.key = self.reader.next_key().ok()?;
        Some(value)
    }

    /// The value of the next member, which has this name.
    fn member<F: FromTokens>(&mut self, alloc: Global, name: &str) -> Option<F>
        ensures tokens { IfSome result
            (λ x. left self.old ≡ member_tokens name.now (Some (F.json x)) ++ left self.new) }
        ensures fits { IfSome result F.fits }
    {
        if self.begins_with(name) {
            self.value(alloc)
        } else {
            None
        }
    }

    /// The same, where the next member has this name.
    fn optional<F: FromTokens>(&mut self, alloc: Global, name: &str) -> Option<Option<F>>
        ensures tokens { IfSome result
            (λ o. left self.old ≡ member_tokens name.now (option_map F.json o) ++ left self.new) }
        ensures fits { IfSome result (λ o. MatchOption o ⊤ F.fits) }
    {
        if self.begins_with(name) {
            let value = self.value(alloc)?;
            Some(Some(value))
        } else {
            Some(None)
        }
    }

    fn is_over(&mut self) -> bool
        ensures { result ≡ true → left self.old ≡ end_object ∷ [] }
    {
        self.key.is_none() && self.reader.next().is_none()
    }

    /// Whether no member and nothing behind the object is left, as a step.
    fn end(&mut self) -> Option<()>
        ensures { IfSome result (λ _. left self.old ≡ end_object ∷ []) }
    {
        if self.is_over() { Some(()) } else { None }
    }
}

fn domain_or_main(domain: Option<Name>) -> Name
    ensures { result ≡ unwrap_or domain main }
{
    match domain {
        Some(domain) => domain,
        None => Name::main_domain(),
    }
}

/// The members behind `act`, of which no other is left.
fn unit_members(alloc: Global, rest: &mut Rest<'_>) -> Option<UnitMembers>
    ensures { IfSome result (ReadsUnit (left rest.old)) }
{
    let caller = rest.optional(alloc, "caller")?;
    let ctx = rest.optional(alloc, "ctx")?;
    let domain = rest.optional(alloc, "domain")?;
    let forms = rest.optional(alloc, "forms")?;
    let id = rest.member(alloc, "id")?;
    let lang = rest.member(alloc, "lang")?;
    let lines = rest.optional(alloc, "lines")?;
    let number = rest.optional(alloc, "number")?;
    let seen = rest.member(alloc, "seen")?;
    let suggestion = rest.optional(alloc, "suggestion")?;
    let vote = rest.optional(alloc, "value")?;
    rest.end()?;
    Some(UnitMembers {
        caller,
        ctx,
        domain: domain_or_main(domain),
        forms,
        id,
        lang,
        lines,
        number,
        seen,
        suggestion,
        vote,
    })
}

// Longer texts are mostly those of templates and languages, for which no room is to be taken twice.
const LONGEST: usize = 65_536;

/// The parts of a text that is an act on a unit whose members stand in the order of their keys. None says nothing of the text.
pub(crate) fn straight_parts(alloc: Global, text: &str) -> Option<Parts>
    ensures { IfSome result (IsPartsText text.now) }
{
    if text.len() > LONGEST {
        return None;
    }
    let mut scratch = Scratch::new(alloc);
    let (word, mut rest) = begin(text, &mut scratch)?;
    let members = unit_members(alloc, &mut rest)?;
    parts_of_unit(word, members)
}
