//! What a message asks: the tests that it has to pass, in their order, and its question.
ghost use Rattle.std.specs.Prelude.{◌≡◌, ◌&&◌, Some, option_map, IfOk, IfSome, IfErr, OnErr};
ghost use Rattle.http_messages.specs.Pairs.{name_of};
ghost use Rattle.http_messages.specs.Framing.{body_length};
ghost use Rattle.http_messages.specs.Targets.{query_of};
ghost use Rattle.http_messages.specs.Asked.{target_route, wants_length, is_absent, asked_of, language_in, named, unit_in_query, export, stats, question, asking_of};
ghost use Rattle.http_messages.specs.Askings.{IsAsked, IsAsking, MayTakeMemory, route_at, language_at};

use crate::head::{BodyLength, Head};
use crate::lines::Values;
use crate::query::{UnitName, unit_of};
use crate::refusal::Refusal;
use crate::route::{Route, RouteKind, Routes};
use crate::target::split_target;
use std::alloc::{AllocError, Global};
use thiserror::Error;
use units::{Lang, Name};

/// The name of the field line that says who sends a request. This project's own rule.
pub const CALLER_FIELD: &str = "X-Office-Caller";

/// A request as a message brings it, undecoded.
#[derive(Clone, Copy, Drop)]
pub struct RequestParts<'b> {
    /// The part of the path that numbers it.
    pub number: &'b [u8],
    /// The values of the caller's field.
    pub callers: Values<'b>,
    pub body: &'b [u8],
}

/// A language by its domain and its code.
#[derive(Drop)]
pub struct LanguageName {
    pub domain: Name,
    pub lang: Lang,
}

/// What a message asks.
#[derive(Drop)]
pub enum Asked<'b> {
    /// Nothing: it fails a test.
    Refused(Refusal),
    /// To deliver a request.
    Request(RequestParts<'b>),
    /// The text of a language.
    Export(LanguageName),
    /// A unit's view.
    Unit(UnitName),
    /// A unit's view, by a query that names no unit.
    Unnamed,
    /// The counts of a language.
    Stats(LanguageName),
}

/// What a message asks, and whether the connection ends behind it.
#[derive(Drop)]
pub struct Asking<'b> {
    pub asked: Asked<'b>,
    pub ends: bool,
}

/// There was no memory to read what a message asks.
#[derive(Clone, Copy, Debug, Drop, Error)]
#[error("out of memory")]
pub struct Unread {
    /// Whether the connection ends behind it.
    pub ends: bool,
}

impl Unread {
    ghost use Rattle.std.specs.Prelude.{◌≡◌};
    ghost use Rattle.http_messages.specs.Faults.{unread_number};

    /// The fault's number, which is 1: it has one kind.
    pub fn number(self) -> u8
        ensures { result ≡ unread_number self }
    {
        1
    }
}

/// The route of a head's target, if it has no query or may have one, and its query.
fn target_route<'b>(routes: &Routes, head: &Head<'b>) -> Option<(Route<'b>, Option<&'b str>)>
    ensures route { option_map (λ found. route_at found.0) result ≡ target_route head.now }
    ensures query { IfSome result (λ found. option_map (λ query. query.now) found.1 ≡ query_of head.now.target) }
{
    let target = split_target(head.target());
    match routes.route_of(target.path) {
        Some(route) if target.query.is_none() || route.kind.may_have_query() => {
            Some((route, target.query))
        }
        _ => None,
    }
}

/// Whether a request's head says nothing of its body's length.
fn lacks_length(route: Route<'_>, head: &Head<'_>) -> bool
    ensures { result ≡ (wants_length (Some (route_at route.entry)) && is_absent (body_length head.now)) }
{
    match (route.kind, head.body_length()) {
        (RouteKind::Requests, BodyLength::Absent) => true,
        (_, _) => false,
    }
}

/// The language of a route.
fn language_in(route: Route<'_>) -> Option<LanguageName>
    ensures { option_map language_at result ≡ language_in (route_at route.entry).1 }
{
    let domain = match route.domain {
        Some(part) => Name::try_new(part)?,
        None => Name::main_domain(),
    };
    let lang = Lang::try_new(route.part)?;
    Some(LanguageName { domain, lang })
}

fn export_of<'b>(name: Option<LanguageName>) -> Asked<'b>
    ensures { IsAsked result (asked_of export (option_map language_at name)) }
{
    match name {
        Some(name) => Asked::Export(name),
        None => Asked::Refused(Refusal::Malformed),
    }
}

fn stats_of<'b>(name: Option<LanguageName>) -> Asked<'b>
    ensures { IsAsked result (asked_of stats (option_map language_at name)) }
{
    match name {
        Some(name) => Asked::Stats(name),
        None => Asked::Refused(Refusal::Malformed),
    }
}

fn named<'b>(unit: Option<UnitName>) -> Asked<'b>
    ensures { IsAsked result (named (option_map name_of unit)) }
{
    match unit {
        Some(name) => Asked::Unit(name),
        None => Asked::Unnamed,
    }
}

/// The unit that a target's query names. Without a query no memory is taken.
fn unit_asked<'b>(alloc: Global, query: Option<&str>) -> Result<Asked<'b>, AllocError>
    ensures asked { IfOk result (λ asked. IsAsked asked (unit_in_query (option_map (λ text. text.now) query.entry))) }
    ensures memory { OnErr result (MayTakeMemory (unit_in_query (option_map (λ text. text.now) query.entry))) }
{
    let Some(query) = query else {
        return Ok(Asked::Refused(Refusal::Malformed));
    };
    Ok(named(unit_of(alloc, query.as_bytes())?))
}

/// The question of a message whose route and method are right.
fn question<'b>(
    alloc: Global,
    route: Route<'b>,
    query: Option<&str>,
    head: &Head<'b>,
    body: &'b [u8],
) -> Result<Asked<'b>, AllocError>
    requires { option_map (λ text. text.now) query ≡ query_of head.now.target }
    ensures asked { IfOk result (λ asked. IsAsked asked (question (Some (route_at route.entry)) head.now body.now)) }
    ensures memory { OnErr result (MayTakeMemory (question (Some (route_at route.entry)) head.now body.now)) }
{
    match route.kind {
        RouteKind::Requests => Ok(Asked::Request(RequestParts {
            number: route.part.as_bytes(),
            callers: head.values(CALLER_FIELD.as_bytes()),
            body,
        })),
        RouteKind::Export => Ok(export_of(language_in(route))),
        RouteKind::Unit => unit_asked(alloc, query),
        RouteKind::Stats => Ok(stats_of(language_in(route))),
    }
}

/// What a message asks that has this head and this body, of the size that the head gives.
///
/// An error where a growth was refused: then the message passes all tests, and asks for a unit by a query, which may name none.
pub(crate) fn asking_of<'b>(
    alloc: Global,
    routes: &Routes,
    head: &Head<'b>,
    body: &'b [u8],
) -> Result<Asking<'b>, Unread>
    ensures asking { IfOk result (λ asking. IsAsking asking (asking_of head.now body.now)) }
    ensures memory { OnErr result (MayTakeMemory (asking_of head.now body.now).asked) }
    ensures ends { IfErr result (λ unread. unread.ends ≡ (asking_of head.now body.now).ends) }
{
    let ends = head.closes();
    let Some((route, query)) = target_route(routes, head) else {
        return Ok(Asking {
            asked: Asked::Refused(Refusal::NoRoute),
            ends,
        });
    };
    if head.method() != route.kind.method().as_str().as_bytes() {
        return Ok(Asking {
            asked: Asked::Refused(Refusal::Method),
            ends,
        });
    }
    if lacks_length(route, head) {
        return Ok(Asking {
            asked: Asked::Refused(Refusal::NoLength),
            ends: true,
        });
    }
    match question(alloc, route, query, head, body) {
        Ok(asked) => Ok(Asking { asked, ends }),
        Err(_) => Err(Unread { ends }),
    }
}
