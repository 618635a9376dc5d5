//! One sender over a network that loses, repeats and reorders, and the desk that its requests reach, by what their calls say.

ghost use Rattle.std.specs.Prelude.{◌≡◌, ◌<◌, ℕ, List, map, Some, IsTrue, slice_get};
ghost use Rattle.std.specs.FinMap as maps;
ghost use Rattle.po_text.specs.Texts.{Text};
ghost use Rattle.units.specs.Office.{project_in};
ghost use Rattle.request_book.specs.declared.act.Request.{Request};
ghost use Rattle.request_book.specs.Replies.{Reply};
ghost use Rattle.request_book.specs.Clash.{clash};
ghost use Rattle.sender.specs.Sending.{held, is_finished};
ghost use Rattle.office_specification.specs.Deliveries.{after};
ghost use Rattle.office_specification.specs.ExportText.{export_text};
ghost use Rattle.office_laws.specs.Simulation.{replies_in_order};
ghost use Rattle.office_laws.specs.Histories.{Moment, HasCome};

use tables::Tables;

/// Whatever the network does with the requests of one sender, and whatever a desk over any tables, whose book has none of their
/// numbers, answers to those that reach it:
///
/// - each reply that the sender holds is the one that its request gets when the list comes once and in order;
/// - when it is finished, it holds those of the whole list, the office is the one that the list leaves when it comes once and in
///   order, and the export of each language of each domain has the same text;
/// - of two requests that clash, the later is recorded only after the earlier.
///
/// Of the sender and the desk nothing is taken but what calls say: `Sender::new`, `ready` and `on_reply`, and the clauses
/// `tables` and `replies` of `Desk::run`, which the lines of files and connections keep too, one behind another.
pub fn sender_over_a_desk<T: Tables>()
    ensures replies { (old new : T) (requests : List Request) (last : Moment)
        → HasCome (T.is_honest new) (T.is_whole new) (T.means old) (T.means new) requests last → T.is_honest new
        → (place : ℕ) (reply : Reply) → held last.sending place ≡ Some reply
        → slice_get (replies_in_order (T.means old).office requests) place ≡ Some reply }
    ensures finished { (old new : T) (requests : List Request) (last : Moment)
        → HasCome (T.is_honest new) (T.is_whole new) (T.means old) (T.means new) requests last → T.is_honest new
        → IsTrue (is_finished last.sending)
        → map (λ exchange. exchange.reply) last.sending ≡ map Some (replies_in_order (T.means old).office requests) }
    ensures office { (old new : T) (requests : List Request) (last : Moment)
        → HasCome (T.is_honest new) (T.is_whole new) (T.means old) (T.means new) requests last
        → T.is_honest new → T.is_whole new
        → IsTrue (is_finished last.sending) → (T.means new).office ≡ after (T.means old).office requests }
    ensures exports { (old new : T) (requests : List Request) (last : Moment)
        → HasCome (T.is_honest new) (T.is_whole new) (T.means old) (T.means new) requests last
        → T.is_honest new → T.is_whole new
        → IsTrue (is_finished last.sending) → (domain lang : Text)
        → export_text (project_in (T.means new).office domain) lang ≡ export_text (project_in (after (T.means old).office requests) domain) lang }
    ensures order { (old new : T) (requests : List Request) (last : Moment)
        → HasCome (T.is_honest new) (T.is_whole new) (T.means old) (T.means new) requests last
        → T.is_honest new → T.is_whole new
        → (earlier later : ℕ) (x y : Request) → earlier < later
        → slice_get requests earlier ≡ Some x → slice_get requests later ≡ Some y → IsTrue (clash x y)
        → IsTrue (maps.contains_key (T.means new).book y.number) → IsTrue (maps.contains_key (T.means new).book x.number) }
{}
