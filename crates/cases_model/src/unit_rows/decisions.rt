//! Decisions on a unit.
mod requests;
mod told;
mod unit_view;

use crate::unit_rows::stage::Stage;
use crate::unit_rows::words::TWO;
use crate::words::{policy, word};
use plural_expr::PluralForms;
use requests::{Request, decision, read_request};
use review::Decision;
use std::alloc::Global;
use told::{tell_decision, tell_left};
use unit_view::unit_view;
use units::{Policy, Role};

/// Tells what a deed comes to: of an act the reply, of `left` what is there, and else nothing.
pub(crate) fn tell(
    alloc: Global,
    told: &mut String,
    stage: &mut Stage,
    words: &str,
    texts: Option<&str>,
) -> Option<()> {
    match word(words, 0) {
        "by" => put_actor(stage, words),
        "unit" => stage.put(unit_view(alloc, words, texts?)?),
        "left" => tell_left(told, stage.views.last()?).ok(),
        _ => tell_request(alloc, told, stage, words, texts),
    }
}

fn put_actor(stage: &mut Stage, words: &str) -> Option<()> {
    stage.actor = Some((
        Role::from_word(word(words, 1))?,
        policy(words, word(words, 2))?,
    ));
    Some(())
}

/// Tells what comes of a request under the rule of German.
fn tell_request(
    alloc: Global,
    told: &mut String,
    stage: &mut Stage,
    words: &str,
    texts: Option<&str>,
) -> Option<()> {
    let actor = stage.actor?;
    let rule = PluralForms::parse(alloc, TWO).ok()?;
    let request = read_request(alloc, words, texts)?;
    let done = tell_decided(alloc, told, stage, &actor, &rule, &request);
    drop(request);
    drop(rule);
    done
}

/// Tells what comes of a request; behind a decision that memory was refused to, what comes of it then.
fn tell_decided(
    alloc: Global,
    told: &mut String,
    stage: &mut Stage,
    actor: &(Role, Policy),
    rule: &PluralForms,
    request: &Request,
) -> Option<()> {
    if is_decided(alloc, told, stage, actor, rule, request)? {
        return Some(());
    }
    if is_decided(alloc, told, stage, actor, rule, request)? {
        told.push_str(" after want of memory").ok()
    } else {
        told.push_str("want of memory, twice").ok()
    }
}

/// Tells what comes of a request. False where memory is refused to the decision, and nothing where it is refused to what is told.
fn is_decided(
    alloc: Global,
    told: &mut String,
    stage: &mut Stage,
    actor: &(Role, Policy),
    rule: &PluralForms,
    request: &Request,
) -> Option<bool> {
    match decision(alloc, stage.views.last()?, actor, rule, request) {
        Ok(decision) => {
            take(told, stage, decision)?;
            Some(true)
        }
        Err(_) => Some(false),
    }
}

/// Tells what a decision comes to, whose unit is that of the rows below.
fn take(told: &mut String, stage: &mut Stage, decision: Decision) -> Option<()> {
    let done = tell_decision(told, &decision);
    stage.take(decision)?;
    done.ok()
}
