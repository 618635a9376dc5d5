//! What a message is answered.
ghost use Rattle.std.specs.Prelude.{◌≡◌, [], ◌∷◌, List, ℕ, Result, true};
ghost use Rattle.request_book.specs.Replies.{Reply as ReplyValue};
ghost use Rattle.tables.specs.declared.faults.Lost.{Lost};
ghost use Rattle.http_api.specs.Answers.{answer_text, refusal_text};
ghost use Rattle.http_api.specs.declared.answer_bytes.Content.TheVariants.{Json};
ghost use Rattle.http_messages.specs.Values.{AreValues};
ghost use Rattle.http_messages.specs.Asked.{Asked as AskedValue, request, unit, stats};
ghost use Rattle.http_messages.specs.Askings.{IsAsked, language_at};
ghost use Rattle.http_messages.specs.Pairs.{name_of};
ghost use Rattle.office.specs.Exchanges.{Exchange, asked, Delivers};
ghost use Rattle.office.specs.Writers.{writer_at};
ghost use Rattle.http_api.specs.Outcomes.{Outcome, posted, lost_refusal, reply_answer, result_answer, exchange_answer, outcome_answer};
ghost use Rattle.http_api.specs.Answering.{ComesTo, Tells, Writes, TellsFailures, query_refusal};

use crate::answer_bytes::write_json;
use crate::exports::answer_export;
use crate::faults::ServeFault;
use crate::posts::request_of;
use crate::refusals::{refusal_body, refusal_status};
use byte_streams::ByteSink;
use http::StatusCode;
use http_messages::{Asked, LanguageName, Refusal, RequestParts, UnitName};
use office::{Desk, QueryFault};
use request_book::{Reply, Request, RequestFault};
use std::alloc::Global;
use tables::{Lost, Tables};

fn lost_refusal(lost: Lost) -> Refusal
    ensures { result ≡ lost_refusal lost }
{
    match lost {
        Lost::Memory => Refusal::Memory,
        Lost::Disk => Refusal::Disk,
        Lost::Refused => Refusal::Refused,
    }
}

fn query_refusal(fault: QueryFault) -> Refusal
    ensures { result ≡ query_refusal fault }
{
    match fault {
        QueryFault::NoLanguage => Refusal::NoLanguage,
        QueryFault::NoUnit => Refusal::NoUnit,
        QueryFault::Memory => Refusal::Memory,
        QueryFault::Disk => Refusal::Disk,
        QueryFault::Refused => Refusal::Refused,
    }
}

/// Writes an answer with a body in JSON.
fn send_json<W: ByteSink>(
    w: &mut W,
    status: StatusCode,
    body: &str,
    last: bool,
) -> Result<(), ServeFault>
    ensures { Tells (writer_at W.taken W.failed w.old) (writer_at W.taken W.failed w.new) (answer_text status Json body.now last) result }
{
    match write_json(w, status, body, last) {
        Ok(()) => Ok(()),
        Err(fault) => Err(ServeFault::from(fault)),
    }
}

/// Writes an answer that is an error.
pub(crate) fn send_refusal<W: ByteSink>(
    w: &mut W,
    refusal: Refusal,
    last: bool,
) -> Result<(), ServeFault>
    ensures { Tells (writer_at W.taken W.failed w.old) (writer_at W.taken W.failed w.new) (refusal_text refusal last) result }
{
    send_json(w, refusal_status(refusal), refusal_body(refusal), last)
}

/// Writes a reply. One whose number isn't a status of HTTP is answered as the disk's fault: no office has given it.
fn send_reply<W: ByteSink>(w: &mut W, reply: &Reply, last: bool) -> Result<(), ServeFault>
    ensures { Tells (writer_at W.taken W.failed w.old) (writer_at W.taken W.failed w.new) (reply_answer reply.now last) result }
{
    match StatusCode::from_u16(reply.status()) {
        Ok(status) => send_json(w, status, reply.body(), last),
        Err(_) => send_refusal(w, Refusal::Disk, last),
    }
}

/// Delivers a request and writes its answer.
fn answer_request<T: Tables, W: ByteSink>(
    desk: &mut Desk<T>,
    request: &Request,
    last: bool,
    w: &mut W,
) -> Result<(), ServeFault>
    ensures { (told : Result ReplyValue Lost)
        × Delivers T.is_honest T.is_whole T.faults T.is_stopped T.means T.may_leave desk.old desk.new (asked request.now told ∷ [])
        × Tells (writer_at W.taken W.failed w.old) (writer_at W.taken W.failed w.new) (result_answer told last) result }
{
    match desk.deliver(request) {
        Ok(reply) => send_reply(w, &reply, last),
        Err(lost) => send_refusal(w, lost_refusal(lost), last),
    }
}

/// Answers a message that brings a request, if it brings one.
pub(crate) fn answer_post<T: Tables, W: ByteSink>(
    alloc: Global,
    desk: &mut Desk<T>,
    parts: RequestParts<'_>,
    last: bool,
    w: &mut W,
) -> Result<(), ServeFault>
    ensures answered { (callers : List (List ℕ)) → AreValues parts.entry.callers callers → (x : Exchange)
        × ComesTo T.is_honest T.is_whole T.faults T.is_stopped T.means T.may_leave desk.old desk.new (request parts.entry.number.now callers parts.entry.body.now) (posted x)
        × Tells (writer_at W.taken W.failed w.old) (writer_at W.taken W.failed w.new) (exchange_answer x last) result }
    ensures failures { TellsFailures (T.is_stopped desk.new ≡ true) (W.failed w.old) (W.failed w.new) result }
{
    match request_of(alloc, parts) {
        Ok(request) => answer_request(desk, &request, last, w),
        Err(RequestFault::Malformed) => send_refusal(w, Refusal::Malformed, last),
        Err(RequestFault::Memory) => send_refusal(w, Refusal::Memory, last),
    }
}

/// Answers with a unit's view.
pub(crate) fn answer_unit<T: Tables, W: ByteSink>(
    desk: &mut Desk<T>,
    name: &UnitName,
    last: bool,
    w: &mut W,
) -> Result<(), ServeFault>
    ensures { (o : Outcome)
        × ComesTo T.is_honest T.is_whole T.faults T.is_stopped T.means T.may_leave desk.old desk.new (unit (name_of name.now)) o
        × Tells (writer_at W.taken W.failed w.old) (writer_at W.taken W.failed w.new) (outcome_answer o last) result }
{
    match desk.unit(&name.domain, &name.lang, &name.key) {
        Ok(text) => send_json(w, StatusCode::OK, text.as_str(), last),
        Err(fault) => send_refusal(w, query_refusal(fault), last),
    }
}

/// Answers with a language's counts.
pub(crate) fn answer_stats<T: Tables, W: ByteSink>(
    desk: &mut Desk<T>,
    name: &LanguageName,
    last: bool,
    w: &mut W,
) -> Result<(), ServeFault>
    ensures { (o : Outcome)
        × ComesTo T.is_honest T.is_whole T.faults T.is_stopped T.means T.may_leave desk.old desk.new (stats (language_at name.now)) o
        × Tells (writer_at W.taken W.failed w.old) (writer_at W.taken W.failed w.new) (outcome_answer o last) result }
{
    match desk.stats(&name.domain, &name.lang) {
        Ok(text) => send_json(w, StatusCode::OK, text.as_str(), last),
        Err(fault) => send_refusal(w, query_refusal(fault), last),
    }
}

/// Answers what a message asks; `last` says whether nothing more is read behind it. A request is delivered, and the other questions
/// leave the tables as they were.
///
/// `Write` where the writer failed. `Memory` and `Disk` where an export broke off whose head was written: where nothing is written yet,
/// they are answered, by 503 and 507, and a refusal by 500.
pub(crate) fn answer<T: Tables, W: ByteSink>(
    alloc: Global,
    desk: &mut Desk<T>,
    asked: Asked<'_>,
    last: bool,
    w: &mut W,
) -> Result<(), ServeFault>
    ensures answered { (question : AskedValue) → IsAsked asked.entry question → (o : Outcome)
        × ComesTo T.is_honest T.is_whole T.faults T.is_stopped T.means T.may_leave desk.old desk.new question o
        × Writes (T.is_honest desk.new) (T.is_stopped desk.new ≡ true)
        (writer_at W.taken W.failed w.old) (writer_at W.taken W.failed w.new) o last result }
    ensures failures { TellsFailures (T.is_stopped desk.new ≡ true) (W.failed w.old) (W.failed w.new) result }
{
    match asked {
        Asked::Refused(refusal) => send_refusal(w, refusal, last),
        Asked::Request(parts) => answer_post(alloc, desk, parts, last, w),
        Asked::Export(name) => answer_export(desk, &name, last, w),
        Asked::Unit(name) => answer_unit(desk, &name, last, w),
        Asked::Unnamed => send_refusal(w, Refusal::Malformed, last),
        Asked::Stats(name) => answer_stats(desk, &name, last, w),
    }
}
