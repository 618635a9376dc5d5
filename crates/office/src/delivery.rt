//! One delivery over any tables: a look into the book, and for a new number the decision and its commit.
ghost use Rattle.std.specs.Prelude.{◌≡◌, if◌then◌else◌, true, false, Some, IfOk, IfSome, OnOk, OnErr, IsTrue, is_none, option_map};
ghost use Rattle.std.specs.FinMap as maps;
ghost use Rattle.po_text.specs.Texts.{text_eq};
ghost use Rattle.replies.specs.Bodies.{number_used};
ghost use Rattle.units.specs.Office.{project_in};
ghost use Rattle.request_book.specs.Acts.{IsRequest, content_text};
ghost use Rattle.request_book.specs.Book.{with_record};
ghost use Rattle.request_book.specs.Clash.{is_unit_act};
ghost use Rattle.request_book.specs.declared.act.Act.TheVariants.{OnUnit};
ghost use Rattle.review.specs.UnitStep.{is_vote, named_by};
ghost use Rattle.review.specs.Parts.{is_suggest};
ghost use Rattle.office_specification.specs.Deliveries.{reply_from, first_delivered};
ghost use Rattle.office_specification.specs.Step.{step};
ghost use Rattle.office_specification.specs.OfficeActs.{policy_step};
ghost use Rattle.office_specification.specs.Parts.{part_of, is_policy_act};
ghost use Rattle.units.specs.Project.{role_in};
ghost use Rattle.units.specs.Units.{is_below};
ghost use Rattle.units.specs.declared.unit.Role.TheVariants.{Manager};
ghost use Rattle.office_specification.specs.UnitAccess.{without_suggestions, with_write_in, IsPossibleWrite};
ghost use Rattle.office_specification.specs.OfficeChanges.{changed_by, IsPossibleChange};
ghost use Rattle.office_specification.specs.OfficeRules.{KeepsRules};
ghost use Rattle.office.specs.UnitReads.{found_for, Decides};
ghost use Rattle.outcomes.specs.Settled.{IsSettled};
ghost use Rattle.request_book.specs.Contents.{IsContent};
ghost use Rattle.tables.specs.Stops.{Nothing};
ghost use Rattle.tables.specs.KeptByCalls.{IsKept};
ghost use Rattle.tables.specs.declared.faults.Lost.TheVariants.{Disk};

use office_specification::{ActContext, Change, Part, UnitOutcome, UnitWrite};
use outcomes::{
    OfficeOutcome, number_used, office_outcome, policy_outcome, row_outcome, suggested_outcome,
    voted_outcome, whole_outcome,
};
use po_text::{Duplicate, Text};
use request_book::{Act, Class, Record, Reply, Request, classify};
use std::alloc::{AllocError, Global};
use tables::{Lost, Tables};
use units::{Key, Lang, Name, Policy, Refusal, Role, UnitAct, UnitAction};
use uuid::Uuid;

/// The reply to a request with this content, by what is recorded under its number, if anything is.
fn reply_by(
    alloc: Global,
    content: &str,
    recorded: &Option<Record>,
) -> Result<Option<Reply>, AllocError>
    ensures { IfOk result
        (λ reply. reply ≡ option_map (λ row. if text_eq row.content content.now then row.reply else number_used) recorded.now) }
{
    match classify(content, recorded.as_ref()) {
        Class::First => Ok(None),
        Class::Repeat(reply) => Ok(Some(reply.duplicate()?)),
        Class::NumberUsed => Ok(Some(number_used(alloc)?)),
    }
}

/// The reply to a request whose number is recorded.
pub(crate) fn known<T: Tables>(
    alloc: Global,
    tables: &mut T,
    request: &Request,
    content: &str,
) -> Result<Option<Reply>, Lost>
    requires { content.now ≡ content_text request.now }
    ensures answer { T.is_honest tables.new → IfOk result
        (λ reply. reply ≡ option_map (λ recorded. reply_from recorded request.now) (maps.get (T.means tables.old).book request.now.number)) }
    ensures same { T.is_honest tables.new → T.is_whole tables.new → T.means tables.new ≡ T.means tables.old }
    ensures kept { IsKept T.is_honest T.is_whole T.means T.may_leave T.faults T.is_stopped tables.old tables.new result Disk Nothing }
{
    let recorded = tables.record_of(&request.number)?;
    let reply = reply_by(alloc, content, &recorded);
    drop(recorded);
    Ok(reply?)
}

/// The record of a request: its number, its content, and a copy of its reply.
fn record_with(request: &Request, content: Text, reply: &Reply) -> Option<Record>
    ensures { IfSome result
        (λ row. row ≡ record { number = request.now.number; content = content; reply = reply.now }) }
{
    match reply.duplicate() {
        Ok(reply) => Some(Record {
            number: request.number,
            content,
            reply,
        }),
        Err(_) => None,
    }
}

/// A request on a unit: the request, and of its act the unit's domain, language and key, and what is asked for.
#[derive(Clone, Copy)]
struct RequestOnUnit<'a> {
    request: &'a Request,
    domain: &'a Name,
    lang: &'a Lang,
    key: &'a Key,
    act: &'a UnitAct,
}

/// What a suggestion comes to, by what was found without the unit's suggestions: these are read without the votes on them.
fn decide_suggestion<T: Tables>(
    alloc: Global,
    tables: &mut T,
    asked: RequestOnUnit<'_>,
    found: Option<ActContext>,
) -> Result<UnitOutcome, Lost>
    requires suggest { is_suggest asked.act.now.action ≡ true }
    requires found { T.is_honest tables.old → found ≡ without_suggestions (found_for (T.means tables.old).office asked.domain.now asked.lang.now asked.key.now asked.request.now) }
    ensures answer { T.is_honest tables.new → IfOk result (Decides (found_for (T.means tables.old).office asked.entry.domain.now asked.entry.lang.now asked.entry.key.now asked.entry.request.now) asked.entry.request.now asked.entry.act.now) }
    ensures same { T.is_honest tables.new → T.is_whole tables.new → T.means tables.new ≡ T.means tables.old }
    ensures kept { IsKept T.is_honest T.is_whole T.means T.may_leave T.faults T.is_stopped tables.old tables.new result Disk Nothing }
{
    let suggestions = tables.suggestions_of(asked.domain, asked.lang, asked.key)?;
    let outcome = suggested_outcome(alloc, found, suggestions, asked.request, asked.act);
    Ok(outcome?)
}

/// What a vote comes to, by what was found without the unit's suggestions: the one that it is on is read with the votes on it. None
/// where the suggestion is accepted by the vote.
fn decide_vote<T: Tables>(
    alloc: Global,
    tables: &mut T,
    asked: RequestOnUnit<'_>,
    named: &Uuid,
    found: Option<ActContext>,
) -> Result<Option<UnitOutcome>, Lost>
    requires vote { is_vote asked.act.now.action ≡ true }
    requires named { named_by asked.act.now.action ≡ Some named.now }
    requires found { T.is_honest tables.old → found ≡ without_suggestions (found_for (T.means tables.old).office asked.domain.now asked.lang.now asked.key.now asked.request.now) }
    ensures answer { T.is_honest tables.new → IfOk result (λ outcome. IfSome outcome (Decides (found_for (T.means tables.old).office asked.entry.domain.now asked.entry.lang.now asked.entry.key.now asked.entry.request.now) asked.entry.request.now asked.entry.act.now)) }
    ensures same { T.is_honest tables.new → T.is_whole tables.new → T.means tables.new ≡ T.means tables.old }
    ensures kept { IsKept T.is_honest T.is_whole T.means T.may_leave T.faults T.is_stopped tables.old tables.new result Disk Nothing }
{
    let suggestion = tables.suggestion_of(asked.domain, asked.lang, asked.key, named)?;
    let outcome = voted_outcome(alloc, found, suggestion, asked.request, asked.act);
    Ok(outcome?)
}

/// What an act comes to that needs the whole unit.
fn decide_whole<T: Tables>(
    alloc: Global,
    tables: &mut T,
    asked: RequestOnUnit<'_>,
) -> Result<UnitOutcome, Lost>
    ensures answer { T.is_honest tables.new → IfOk result (Decides (found_for (T.means tables.old).office asked.entry.domain.now asked.entry.lang.now asked.entry.key.now asked.entry.request.now) asked.entry.request.now asked.entry.act.now) }
    ensures same { T.is_honest tables.new → T.is_whole tables.new → T.means tables.new ≡ T.means tables.old }
    ensures kept { IsKept T.is_honest T.is_whole T.means T.may_leave T.faults T.is_stopped tables.old tables.new result Disk Nothing }
{
    let found = tables.context_of(asked.domain, asked.lang, asked.key, &asked.request.caller)?;
    let outcome = whole_outcome(alloc, found, asked.request, asked.act);
    Ok(outcome?)
}

/// What a vote comes to: only where its suggestion is accepted by it, the whole unit is read.
fn decide_vote_or_acceptance<T: Tables>(
    alloc: Global,
    tables: &mut T,
    asked: RequestOnUnit<'_>,
    named: &Uuid,
    found: Option<ActContext>,
) -> Result<UnitOutcome, Lost>
    requires vote { is_vote asked.act.now.action ≡ true }
    requires named { named_by asked.act.now.action ≡ Some named.now }
    requires found { T.is_honest tables.old → found ≡ without_suggestions (found_for (T.means tables.old).office asked.domain.now asked.lang.now asked.key.now asked.request.now) }
    ensures answer { T.is_honest tables.new → IfOk result (Decides (found_for (T.means tables.old).office asked.entry.domain.now asked.entry.lang.now asked.entry.key.now asked.entry.request.now) asked.entry.request.now asked.entry.act.now) }
    ensures same { T.is_honest tables.new → T.is_whole tables.new → T.means tables.new ≡ T.means tables.old }
    ensures kept { IsKept T.is_honest T.is_whole T.means T.may_leave T.faults T.is_stopped tables.old tables.new result Disk Nothing }
{
    match decide_vote(alloc, tables, asked, named, found)? {
        Some(outcome) => Ok(outcome),
        None => decide_whole(alloc, tables, asked),
    }
}

/// What an act comes to that can't be decided without suggestions of its unit: what it needs of them is read.
fn decide_with_suggestions<T: Tables>(
    alloc: Global,
    tables: &mut T,
    asked: RequestOnUnit<'_>,
    found: Option<ActContext>,
) -> Result<UnitOutcome, Lost>
    requires found { T.is_honest tables.old → found ≡ without_suggestions (found_for (T.means tables.old).office asked.domain.now asked.lang.now asked.key.now asked.request.now) }
    ensures answer { T.is_honest tables.new → IfOk result (Decides (found_for (T.means tables.old).office asked.entry.domain.now asked.entry.lang.now asked.entry.key.now asked.entry.request.now) asked.entry.request.now asked.entry.act.now) }
    ensures same { T.is_honest tables.new → T.is_whole tables.new → T.means tables.new ≡ T.means tables.old }
    ensures kept { IsKept T.is_honest T.is_whole T.means T.may_leave T.faults T.is_stopped tables.old tables.new result Disk Nothing }
{
    match &asked.act.action {
        UnitAction::Suggest(_) => decide_suggestion(alloc, tables, asked, found),
        UnitAction::Vote(named, _) => {
            decide_vote_or_acceptance(alloc, tables, asked, named, found)
        }
        _ => {
            drop(found);
            decide_whole(alloc, tables, asked)
        }
    }
}

/// What an act on a unit comes to, by what the tables hold of it. The unit is read without its suggestions first: who is refused for
/// any other reason, and who acts on the unit's own values, costs no reading of them.
fn read_and_decide<T: Tables>(
    alloc: Global,
    tables: &mut T,
    asked: RequestOnUnit<'_>,
) -> Result<UnitOutcome, Lost>
    ensures answer { T.is_honest tables.new → IfOk result (Decides (found_for (T.means tables.old).office asked.entry.domain.now asked.entry.lang.now asked.entry.key.now asked.entry.request.now) asked.entry.request.now asked.entry.act.now) }
    ensures same { T.is_honest tables.new → T.is_whole tables.new → T.means tables.new ≡ T.means tables.old }
    ensures kept { IsKept T.is_honest T.is_whole T.means T.may_leave T.faults T.is_stopped tables.old tables.new result Disk Nothing }
{
    let found = tables.unit_of(asked.domain, asked.lang, asked.key, &asked.request.caller)?;
    match row_outcome(alloc, &found, asked.request, asked.act)? {
        Some(outcome) => {
            drop(found);
            Ok(outcome)
        }
        None => decide_with_suggestions(alloc, tables, asked, found),
    }
}

/// Commits an act on a unit, and hands on its reply, which is made before: what is committed is answered.
fn commit_unit_act<T: Tables>(
    tables: &mut T,
    row: Record,
    domain: &Name,
    lang: &Lang,
    key: &Key,
    write: Option<UnitWrite>,
    reply: Reply,
) -> Result<Reply, Lost>
    requires new { T.is_honest tables.old → IsTrue (is_none (maps.get (T.means tables.old).book row.number)) }
    requires content { IsContent row.content }
    requires possible { T.is_honest tables.old → IsPossibleWrite (project_in (T.means tables.old).office domain.now) lang.now key.now write }
    requires rules { T.is_honest tables.old → KeepsRules (record { office = with_write_in (T.means tables.old).office domain.now lang.now key.now write; book = with_record (T.means tables.old).book row }) }
    ensures handed_on { IfOk result (λ r. r ≡ reply) }
    ensures done { T.is_honest tables.new → OnOk result
        (T.means tables.new ≡ record { office = with_write_in (T.means tables.old).office domain.now lang.now key.now write; book = with_record (T.means tables.old).book row }) }
    ensures same { T.is_honest tables.new → T.is_whole tables.new → OnErr result (T.means tables.new ≡ T.means tables.old) }
    ensures kept { IsKept T.is_honest T.is_whole T.means T.may_leave T.faults T.is_stopped tables.old tables.new result Disk
        (λ m. m ≡ record { office = with_write_in (T.means tables.old).office domain.now lang.now key.now write; book = with_record (T.means tables.old).book row }) }
{
    tables.commit_unit(row, domain, lang, key, write)?;
    Ok(reply)
}

/// Decides and commits an act on a unit whose number is new. Reply and record are made before the commit: nothing after it fails.
fn deliver_unit_act<T: Tables>(
    alloc: Global,
    tables: &mut T,
    asked: RequestOnUnit<'_>,
    content: Text,
) -> Result<Reply, Lost>
    requires act { asked.request.now.act ≡ OnUnit asked.domain.now asked.lang.now asked.key.now asked.act.now }
    requires new { T.is_honest tables.old → IsTrue (is_none (maps.get (T.means tables.old).book asked.request.now.number)) }
    requires content { content ≡ content_text asked.request.now }
    requires limits { IsRequest asked.request.now }
    ensures ok { T.is_honest tables.new → IfOk result
        (λ reply. (T.means tables.new, reply) ≡ first_delivered (T.means tables.old) asked.entry.request.now) }
    ensures lost { T.is_honest tables.new → T.is_whole tables.new → OnErr result (T.means tables.new ≡ T.means tables.old) }
    ensures kept { IsKept T.is_honest T.is_whole T.means T.may_leave T.faults T.is_stopped tables.old tables.new result Disk
        (λ m. m ≡ (first_delivered (T.means tables.old) asked.entry.request.now).0) }
{
    let UnitOutcome { write, reply } = read_and_decide(alloc, tables, asked)?;
    let row = match record_with(asked.request, content, &reply) {
        Some(row) => row,
        None => {
            drop(write);
            drop(reply);
            return Err(Lost::Memory);
        }
    };
    commit_unit_act(
        tables,
        row,
        asked.domain,
        asked.lang,
        asked.key,
        write,
        reply,
    )
}

/// What an act on the office other than a policy comes to, over the part of the office that is read for it.
fn read_part_and_decide<T: Tables>(
    alloc: Global,
    tables: &mut T,
    part: Part,
    request: &Request,
) -> Result<OfficeOutcome, Lost>
    requires act { is_unit_act request.now.act ≡ false }
    requires no_policy { is_policy_act request.now.act ≡ false }
    requires part { part ≡ part_of request.now.act }
    ensures answer { T.is_honest tables.new → IfOk result
        (λ outcome. IsSettled (T.means tables.old).office outcome (step (T.means tables.old).office request.now)) }
    ensures same { T.is_honest tables.new → T.is_whole tables.new → T.means tables.new ≡ T.means tables.old }
    ensures kept { IsKept T.is_honest T.is_whole T.means T.may_leave T.faults T.is_stopped tables.old tables.new result Disk Nothing }
{
    tables.load_part(part)?;
    let outcome = office_outcome(alloc, tables.office(), request);
    Ok(outcome?)
}

/// What a manager's policy comes to, over how many units are approved: no part of the office is read for it.
fn count_and_decide<T: Tables>(
    alloc: Global,
    tables: &mut T,
    policy: &Policy,
) -> Result<OfficeOutcome, Lost>
    ensures answer { T.is_honest tables.new → IfOk result
        (λ outcome. IsSettled (T.means tables.old).office outcome (policy_step (T.means tables.old).office policy.now)) }
    ensures same { T.is_honest tables.new → T.is_whole tables.new → T.means tables.new ≡ T.means tables.old }
    ensures kept { IsKept T.is_honest T.is_whole T.means T.may_leave T.faults T.is_stopped tables.old tables.new result Disk Nothing }
{
    let approvals = tables.approvals()?;
    let outcome = policy_outcome(alloc, approvals, policy);
    Ok(outcome?)
}

/// What a manager's act on the office comes to.
fn decide_by_act<T: Tables>(
    alloc: Global,
    tables: &mut T,
    part: Part,
    request: &Request,
) -> Result<OfficeOutcome, Lost>
    requires act { is_unit_act request.now.act ≡ false }
    requires manager { T.is_honest tables.old → is_below (role_in (T.means tables.old).office.team request.now.caller) Manager ≡ false }
    requires part { part ≡ part_of request.now.act }
    ensures answer { T.is_honest tables.new → IfOk result
        (λ outcome. IsSettled (T.means tables.old).office outcome (step (T.means tables.old).office request.now)) }
    ensures same { T.is_honest tables.new → T.is_whole tables.new → T.means tables.new ≡ T.means tables.old }
    ensures kept { IsKept T.is_honest T.is_whole T.means T.may_leave T.faults T.is_stopped tables.old tables.new result Disk Nothing }
{
    match &request.act {
        Act::SetPolicy(policy) => {
            drop(part);
            count_and_decide(alloc, tables, policy)
        }
        _ => read_part_and_decide(alloc, tables, part, request),
    }
}

/// What an act on the office comes to. The caller's role is looked up first: whom it refuses costs no reading of the office. Then no more
/// is read than the part that the act needs.
fn ask_role_and_decide<T: Tables>(
    alloc: Global,
    tables: &mut T,
    request: &Request,
) -> Result<OfficeOutcome, Lost>
    requires act { is_unit_act request.now.act ≡ false }
    ensures answer { T.is_honest tables.new → IfOk result
        (λ outcome. IsSettled (T.means tables.old).office outcome (step (T.means tables.old).office request.now)) }
    ensures same { T.is_honest tables.new → T.is_whole tables.new → T.means tables.new ≡ T.means tables.old }
    ensures kept { IsKept T.is_honest T.is_whole T.means T.may_leave T.faults T.is_stopped tables.old tables.new result Disk Nothing }
{
    let role = tables.role_of(&request.caller)?;
    if role.is_below(Role::Manager) {
        let outcome = OfficeOutcome::refused(alloc, Refusal::BelowRole);
        return Ok(outcome?);
    }
    let part = Part::of(&request.act)?;
    decide_by_act(alloc, tables, part, request)
}

/// Commits an act on the office, and hands on its reply, which is made before: what is committed is answered.
fn commit_office_act<T: Tables>(
    tables: &mut T,
    row: Record,
    change: Option<Change>,
    reply: Reply,
) -> Result<Reply, Lost>
    requires new { T.is_honest tables.old → IsTrue (is_none (maps.get (T.means tables.old).book row.number)) }
    requires content { IsContent row.content }
    requires possible { T.is_honest tables.old → IsPossibleChange (T.means tables.old).office change }
    requires rules { T.is_honest tables.old → KeepsRules (record { office = changed_by (T.means tables.old).office change; book = with_record (T.means tables.old).book row }) }
    ensures handed_on { IfOk result (λ r. r ≡ reply) }
    ensures done { T.is_honest tables.new → OnOk result
        (T.means tables.new ≡ record { office = changed_by (T.means tables.old).office change; book = with_record (T.means tables.old).book row }) }
    ensures same { T.is_honest tables.new → T.is_whole tables.new → OnErr result (T.means tables.new ≡ T.means tables.old) }
    ensures kept { IsKept T.is_honest T.is_whole T.means T.may_leave T.faults T.is_stopped tables.old tables.new result Disk
        (λ m. m ≡ record { office = changed_by (T.means tables.old).office change; book = with_record (T.means tables.old).book row }) }
{
    tables.commit_office(row, change)?;
    Ok(reply)
}

/// Decides and commits an act on the office whose number is new. Reply and record are made before the commit: nothing after it fails.
fn deliver_office_act<T: Tables>(
    alloc: Global,
    tables: &mut T,
    request: &Request,
    content: Text,
) -> Result<Reply, Lost>
    requires act { is_unit_act request.now.act ≡ false }
    requires new { T.is_honest tables.old → IsTrue (is_none (maps.get (T.means tables.old).book request.now.number)) }
    requires content { content ≡ content_text request.now }
    requires limits { IsRequest request.now }
    ensures ok { T.is_honest tables.new → IfOk result
        (λ reply. (T.means tables.new, reply) ≡ first_delivered (T.means tables.old) request.now) }
    ensures lost { T.is_honest tables.new → T.is_whole tables.new → OnErr result (T.means tables.new ≡ T.means tables.old) }
    ensures kept { IsKept T.is_honest T.is_whole T.means T.may_leave T.faults T.is_stopped tables.old tables.new result Disk
        (λ m. m ≡ (first_delivered (T.means tables.old) request.now).0) }
{
    let OfficeOutcome { change, reply } = ask_role_and_decide(alloc, tables, request)?;
    let row = match record_with(request, content, &reply) {
        Some(row) => row,
        None => {
            drop(change);
            drop(reply);
            return Err(Lost::Memory);
        }
    };
    commit_office_act(tables, row, change, reply)
}

/// Decides and commits a request whose number is new.
pub(crate) fn deliver_first<T: Tables>(
    alloc: Global,
    tables: &mut T,
    request: &Request,
    content: Text,
) -> Result<Reply, Lost>
    requires new { T.is_honest tables.old → IsTrue (is_none (maps.get (T.means tables.old).book request.now.number)) }
    requires content { content ≡ content_text request.now }
    requires limits { IsRequest request.now }
    ensures ok { T.is_honest tables.new → IfOk result
        (λ reply. (T.means tables.new, reply) ≡ first_delivered (T.means tables.old) request.now) }
    ensures lost { T.is_honest tables.new → T.is_whole tables.new → OnErr result (T.means tables.new ≡ T.means tables.old) }
    ensures kept { IsKept T.is_honest T.is_whole T.means T.may_leave T.faults T.is_stopped tables.old tables.new result Disk
        (λ m. m ≡ (first_delivered (T.means tables.old) request.now).0) }
{
    match &request.act {
        Act::OnUnit(domain, lang, key, act) => {
            let asked = RequestOnUnit {
                request,
                domain,
                lang,
                key,
                act,
            };
            deliver_unit_act(alloc, tables, asked, content)
        }
        _ => deliver_office_act(alloc, tables, request, content),
    }
}
