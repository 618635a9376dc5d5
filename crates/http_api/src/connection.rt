//! One connection.
ghost use Rattle.std.specs.Prelude.{◌≡◌, ◌≤◌, ◌+◌, ◌||◌, [], length, drop, true, false, List, ℕ, IfOk, IfErr, IfSome, OnOk, MatchResult, if◌then◌else◌};
ghost use Rattle.byte_streams.specs.Streams.{RoseOrStands};
ghost use Rattle.http_api.specs.Answers.{refusal_text};
ghost use Rattle.http_messages.specs.Arrivals.{asking_in};
ghost use Rattle.office.specs.Writers.{writer_at, TakesAll};
ghost use Rattle.http_api.specs.declared.connection.Next.TheVariants.{Last};
ghost use Rattle.http_api.specs.Outcomes.{Outcome, outcome_answer};
ghost use Rattle.http_api.specs.Answering.{ComesTo, Tells, Writes, WroteBeginning, TellsFailures};
ghost use Rattle.http_api.specs.declared.faults.ServeFault.TheVariants.{Read, Write, Disk};
ghost use Rattle.http_api.specs.ConnectionSteps.{next_of, Stepped, SteppedOff, StepFailed, HandsOn};
ghost use Rattle.tables.specs.RunsOn.{RunsOn};
ghost use Rattle.http_api.specs.Connection.{AllServed, SomeServed, ReadsOn};

use crate::answers::{answer, send_refusal};
use crate::faults::ServeFault;
use crate::turns::MessagesBehind;
use byte_streams::ByteSink;
use http_messages::{Arrival, Inbox, Lengths, Refusal, Routes};
use office::Desk;
use std::alloc::Global;
use tables::Tables;

/// How many messages a connection answers at most.
const ANSWER_LIMIT: u64 = 1_000_000_000;

/// What came of a connection.
#[derive(Clone, Copy, Debug, PartialEq, Eq, Drop)]
pub struct Served {
    /// How many messages were answered.
    pub answered: u64,
}

/// What follows a step.
#[derive(Clone, Copy, Drop)]
enum Next {
    /// The stream has ended.
    End,
    /// The answer was the last one.
    Last,
    /// More is read.
    More,
}

fn next_of(last: bool) -> Next
    ensures { result ≡ next_of last }
{
    if last { Next::Last } else { Next::More }
}

fn is_last(ends: bool, full: bool) -> bool
    ensures { result ≡ (ends || full) }
{
    ends || full
}

/// Hands on what the writer holds back: a client that waits for the answer gets it.
fn hand_on<W: ByteSink>(w: &mut W) -> Result<(), ServeFault>
    ensures told { Tells (writer_at W.taken W.failed w.old) (writer_at W.taken W.failed w.new) [] result }
    ensures handed_on { OnOk result (W.holds_back w.new ≡ false) }
{
    match w.flush() {
        Ok(()) => Ok(()),
        Err(fault) => Err(ServeFault::from(fault)),
    }
}

/// Answers what fails a test before any route counts. The connection ends.
fn refuse<W: ByteSink>(refusal: Refusal, w: &mut W) -> Result<Next, ServeFault>
    ensures told { Tells (writer_at W.taken W.failed w.old) (writer_at W.taken W.failed w.new) (refusal_text refusal true) result }
    ensures next { IfOk result (λ next. next ≡ Last) }
    ensures handed_on { OnOk result (W.holds_back w.new ≡ false) }
{
    send_refusal(w, refusal, true)?;
    hand_on(w).and(Ok(Next::Last))
}

/// Answers the message of these lengths at the front; `full` says that no more may be answered. Tells whether the answer is the last one.
fn answer_front<T: Tables, W: ByteSink>(
    alloc: Global,
    routes: &Routes,
    desk: &mut Desk<T>,
    inbox: &Inbox,
    lengths: Lengths,
    full: bool,
    w: &mut W,
) -> Result<bool, ServeFault>
    requires within { lengths.head + lengths.body ≤ length inbox.now }
    ensures answered { (o : Outcome)
        × ComesTo T.is_honest T.is_whole T.faults T.is_stopped T.means T.may_leave desk.old desk.new (asking_in inbox.now lengths.head lengths.body).asked o
        × Writes (T.is_honest desk.new) (T.is_stopped desk.new ≡ true)
        (writer_at W.taken W.failed w.old) (writer_at W.taken W.failed w.new) o ((asking_in inbox.now lengths.head lengths.body).ends || full) result }
    ensures last { IfOk result (λ last. last ≡ ((asking_in inbox.now lengths.head lengths.body).ends || full)) }
    ensures failures { TellsFailures (T.is_stopped desk.new ≡ true) (W.failed w.old) (W.failed w.new) result }
{
    match inbox.asking(alloc, routes, lengths) {
        Ok(asking) => {
            let last = is_last(asking.ends, full);
            answer(alloc, desk, asking.asked, last, w).and(Ok(last))
        }
        Err(unread) => {
            let last = is_last(unread.ends, full);
            send_refusal(w, Refusal::Memory, last).and(Ok(last))
        }
    }
}

/// Answers the message of these lengths at the front, takes it off, and hands the answer on.
fn serve_message<T: Tables, W: ByteSink>(
    alloc: Global,
    routes: &Routes,
    desk: &mut Desk<T>,
    inbox: &mut Inbox,
    lengths: Lengths,
    full: bool,
    w: &mut W,
) -> Result<Next, ServeFault>
    requires within { lengths.head + lengths.body ≤ length inbox.old }
    ensures answered { (o : Outcome)
        × ComesTo T.is_honest T.is_whole T.faults T.is_stopped T.means T.may_leave desk.old desk.new (asking_in inbox.old lengths.head lengths.body).asked o
        × Writes (T.is_honest desk.new) (T.is_stopped desk.new ≡ true)
        (writer_at W.taken W.failed w.old) (writer_at W.taken W.failed w.new) o ((asking_in inbox.old lengths.head lengths.body).ends || full) result }
    ensures next { IfOk result (λ next. next ≡ next_of ((asking_in inbox.old lengths.head lengths.body).ends || full)) }
    ensures behind { OnOk result (inbox.new ≡ drop (lengths.head + lengths.body) inbox.old) }
    ensures handed_on { OnOk result (W.holds_back w.new ≡ false) }
    ensures failures { TellsFailures (T.is_stopped desk.new ≡ true) (W.failed w.old) (W.failed w.new) result }
{
    let last = answer_front(alloc, routes, desk, inbox, lengths, full, w)?;
    inbox.take_off(lengths.head);
    inbox.take_off(lengths.body);
    hand_on(w).and(Ok(next_of(last)))
}

/// Reads a message and answers it. Nothing is held back of what it wrote.
fn serve_one<T: Tables, R: MessagesBehind<W>, W: ByteSink>(
    alloc: Global,
    routes: &Routes,
    desk: &mut Desk<T>,
    source: &mut R,
    inbox: &mut Inbox,
    full: bool,
    w: &mut W,
) -> Result<Next, ServeFault>
    requires handed_on { W.holds_back w.old ≡ false }
    ensures stepped { MatchResult result
        (Stepped ((desk.new ≡ desk.old) × (w.new ≡ w.old))
        (ComesTo T.is_honest T.is_whole T.faults T.is_stopped T.means T.may_leave desk.old desk.new)
        (λ o last. T.is_honest desk.new → TakesAll (writer_at W.taken W.failed w.old) (writer_at W.taken W.failed w.new) (outcome_answer o last))
        (R.left source.old) (R.left source.new) (R.failed source.old) (R.failed source.new) inbox.old inbox.new full)
        (λ fault. SteppedOff ((desk.new ≡ desk.old) × (w.new ≡ w.old))
        (ComesTo T.is_honest T.is_whole T.faults T.is_stopped T.means T.may_leave desk.old desk.new)
        (λ o last. T.is_honest desk.new
        → WroteBeginning (T.is_stopped desk.new ≡ true) (writer_at W.taken W.failed w.old) (writer_at W.taken W.failed w.new) o last fault)
        (R.left source.old) (R.left source.new) (R.failed source.old) (R.failed source.new) inbox.old full fault) }
    ensures handed_on { HandsOn (W.holds_back w.new) result }
    ensures failures { MatchResult result (λ _. W.failed w.new ≡ W.failed w.old)
        (StepFailed (T.is_stopped desk.new ≡ true) (R.failed source.old) (R.failed source.new) (W.failed w.old) (W.failed w.new)) }
{
    match source.message_behind(w, inbox)? {
        Arrival::End => Ok(Next::End),
        Arrival::Refused(refusal) => refuse(refusal, w),
        Arrival::Message(lengths) => serve_message(alloc, routes, desk, inbox, lengths, full, w),
    }
}

/// Serves one connection: answers what the bytes of the source ask, message by message, whatever pieces they come in. A request is
/// delivered to the desk, and answered by its reply; other questions are answered from the office as the requests before them left it.
/// Nothing more is read behind a message that ends the connection, or behind the 1,000,000,000th answer. Before more is read, the
/// answers so far are handed on, and first of all what the writer held back before.
///
/// Answers how many messages were answered. After a fault the writer has taken a beginning of the answers, and the tables are those of
/// a beginning of the requests that has each one whose answer was written whole: a request that was recorded and not answered gets its
/// reply when it is sent again. A stop loses no request that was answered with a reply. `Read` and `Write` where the source or the writer
/// failed; `Memory` where a growth was refused, for the routes before anything is read, to read, or within an export whose head was
/// written; `Disk` where the disk failed within such an export. Want of memory, a failed disk and a refusal are else answered, by 503,
/// 507 and 500.
pub fn serve<T: Tables, R: MessagesBehind<W>, W: ByteSink>(
    alloc: Global,
    desk: &mut Desk<T>,
    source: &mut R,
    w: &mut W,
) -> Result<Served, ServeFault>
    // What comes of the bytes that the source gives. A stop loses no request that got a reply, also where the store was shut behind it.
    ensures served { (bytes : List ℕ) × IfSome (R.left source.old) (λ all. bytes ≡ all) × MatchResult result
        (λ served. AllServed (T.is_honest desk.new) (T.is_whole desk.new) (T.is_stopped desk.new ≡ true)
        (T.is_whole desk.old) (T.may_leave desk.old) (T.may_leave desk.new) (T.means desk.old) (T.means desk.new) bytes
        (writer_at W.taken W.failed w.old) (writer_at W.taken W.failed w.new) served.answered)
        (SomeServed (T.is_honest desk.new) (T.is_whole desk.new) (T.is_stopped desk.new ≡ true)
        (T.is_whole desk.old) (T.may_leave desk.old) (T.may_leave desk.new) (T.means desk.old) (T.means desk.new) bytes
        (R.failed source.old) (R.failed source.new) (writer_at W.taken W.failed w.old) (writer_at W.taken W.failed w.new)) }
    // Behind the last answer nothing more is read.
    ensures reads { IfOk result (λ served. ReadsOn (R.left source.old) (R.left source.new) served.answered) }
    // Nothing is held back, nor where a read failed. That each answer is handed on before more is read is what the source asks.
    ensures handed_on { OnOk result (W.holds_back w.new ≡ false) }
    ensures handed_on_first { IfErr result (λ fault. fault ≡ Read → W.holds_back w.new ≡ false) }
    // Whatever the disk gave: a read failed, a write failed, the tables are stopped.
    ensures read { IfErr result (λ fault. fault ≡ Read → RoseOrStands (R.failed source.old) (R.failed source.new)) }
    ensures write { IfErr result (λ fault. fault ≡ Write → RoseOrStands (W.failed w.old) (W.failed w.new)) }
    ensures disk { IfErr result (λ fault. fault ≡ Disk → T.is_stopped desk.new ≡ true) }
    // What several calls promise can be put together: none of these comes back once it is lost, and stopped tables stay so.
    ensures honest { T.is_honest desk.new → T.is_honest desk.old }
    ensures whole { T.is_honest desk.new → T.is_whole desk.new → T.is_whole desk.old }
    ensures stopped { T.is_stopped desk.old ≡ true → T.is_stopped desk.new ≡ true }
    // They run on, and no failure shuts them, unless the disk fails: so tables that ran and weren't shut are told as a failed disk only where it failed
    // meanwhile.
    ensures runs_on { RunsOn T.is_honest T.is_whole T.faults T.is_stopped desk.old desk.new }
{
    let Ok(routes) = Routes::new(alloc) else {
        return Err(ServeFault::Memory);
    };
    hand_on(w)?;
    let mut inbox = Inbox::new(alloc);
    for answered in 0..ANSWER_LIMIT {
        let full = answered + 1 == ANSWER_LIMIT;
        match serve_one(alloc, &routes, desk, source, &mut inbox, full, w)? {
            Next::End => return Ok(Served { answered }),
            Next::Last => {
                return Ok(Served {
                    answered: answered + 1,
                });
            }
            Next::More => {}
        }
    }
    Ok(Served {
        answered: ANSWER_LIMIT,
    })
}
