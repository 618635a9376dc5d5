//! One sender over a network that loses, repeats and reorders holds the replies of its requests delivered once and in order.

ghost use Rattle.std.specs.Prelude.{◌≡◌, ◌<◌, ℕ, List, Some, IsTrue, slice_get};
ghost use Rattle.po_text.specs.Texts.{Text};
ghost use Rattle.units.specs.Office.{project_in};
ghost use Rattle.request_book.specs.declared.act.Request.{Request};
ghost use Rattle.request_book.specs.Replies.{Reply};
ghost use Rattle.request_book.specs.Book.{OfficeWithBook};
ghost use Rattle.request_book.specs.Clash.{clash};
ghost use Rattle.sender.specs.Sending.{held, is_finished};
ghost use Rattle.office_specification.specs.Deliveries.{after, left_by};
ghost use Rattle.office_specification.specs.ExportText.{export_text};
ghost use Rattle.office_laws.specs.World.{World, taken};
ghost use Rattle.office_laws.specs.Simulation.{IsReached, IsRecorded, replies_in_order};

/// Whatever the network does with the requests of one sender, from an office whose book has none of their numbers:
///
/// - each reply that the sender holds is the one that its request gets when the list comes once and in order;
/// - when it holds all replies, the office is the one that the list leaves when it comes once and in order, and the export of
///   each language of each domain has the same text;
/// - of two requests that clash, the later is recorded only after the earlier.
///
/// The replies and the office of a world are those of the deliveries that weren't lost, as a run of them answers and leaves them.
pub fn retry_simulation()
    ensures replies { (start : OfficeWithBook) (requests : List Request) (world : World) → IsReached start requests world →
        (place : ℕ) (reply : Reply) → held world.sending place ≡ Some reply →
        slice_get (replies_in_order start.office requests) place ≡ Some reply }
    ensures office { (start : OfficeWithBook) (requests : List Request) (world : World) → IsReached start requests world →
        IsTrue (is_finished world.sending) → (left_by start (taken world)).office ≡ after start.office requests }
    ensures exports { (start : OfficeWithBook) (requests : List Request) (world : World) → IsReached start requests world →
        IsTrue (is_finished world.sending) → (domain lang : Text) →
        export_text (project_in (left_by start (taken world)).office domain) lang ≡ export_text (project_in (after start.office requests) domain) lang }
    ensures order { (start : OfficeWithBook) (requests : List Request) (world : World) → IsReached start requests world →
        (earlier later : ℕ) (x y : Request) → earlier < later →
        slice_get requests earlier ≡ Some x → slice_get requests later ≡ Some y → IsTrue (clash x y) →
        IsRecorded start world y → IsRecorded start world x }
{}
