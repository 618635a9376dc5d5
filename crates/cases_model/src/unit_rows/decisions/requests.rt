//! The request of a row, and what is decided on it.
use crate::unit_rows::parts::forms;
use crate::unit_rows::words::revision;
use crate::words::{comment, word};
use plural_expr::PluralForms;
use review::{Decision, UnitRequest, decide};
use std::alloc::Global;
use units::{Memory, Name, Policy, Role, UnitAct, UnitAction, UnitView, VoteValue};
use uuid::Uuid;

/// An act with who acts, and the request's number.
#[derive(Drop)]
pub(super) struct Request {
    caller: Name,
    number: Uuid,
    act: UnitAct,
}

fn number(word: &str) -> Option<Uuid> {
    match word.parse::<u64>() {
        Ok(number) => Some(Uuid::from_u128(u128::from(number))),
        Err(_) => None,
    }
}

/// An act on the suggestion that is named.
fn suggestion_action(words: &str) -> Option<UnitAction> {
    let named = number(word(words, 3))?;
    match word(words, 2) {
        "for" => Some(UnitAction::Vote(named, Some(VoteValue::For))),
        "against" => Some(UnitAction::Vote(named, Some(VoteValue::Against))),
        "unvote" => Some(UnitAction::Vote(named, None)),
        "accept" => Some(UnitAction::Accept(named)),
        "dismiss" => Some(UnitAction::Dismiss(named)),
        _ => None,
    }
}

fn action(alloc: Global, words: &str, texts: Option<&str>) -> Option<UnitAction> {
    match word(words, 2) {
        "suggest" => forms(alloc, texts?).map(UnitAction::Suggest),
        "translate" => forms(alloc, texts?).map(UnitAction::Translate),
        "comment" => comment(alloc, texts)?.map(UnitAction::Comment),
        "approve" => Some(UnitAction::Approve),
        "send-back" => Some(UnitAction::SendBack),
        _ => suggestion_action(words),
    }
}

/// The number of a request: that of the suggestion which it makes, and else 99.
fn request_number(words: &str) -> Option<Uuid> {
    match word(words, 2) {
        "suggest" => number(word(words, 3)),
        _ => number("99"),
    }
}

/// The request of such words.
pub(super) fn read_request(alloc: Global, words: &str, texts: Option<&str>) -> Option<Request> {
    let number = request_number(words)?;
    let seen = revision(word(words, 1))?;
    let caller = Name::try_new(word(words, 0))?;
    let action = action(alloc, words, texts)?;
    Some(Request {
        caller,
        number,
        act: UnitAct { seen, action },
    })
}

pub(super) fn decision(
    alloc: Global,
    view: &UnitView,
    actor: &(Role, Policy),
    rule: &PluralForms,
    request: &Request,
) -> Result<Decision, Memory> {
    let (role, policy) = actor;
    decide(
        alloc,
        view,
        rule,
        policy,
        UnitRequest {
            caller: &request.caller,
            role: *role,
            number: request.number,
            act: &request.act,
        },
    )
}
