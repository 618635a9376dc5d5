//! The canonical texts of requests.

ghost use Rattle.std.specs.Prelude.{◌≡◌, ◌↔◌};
ghost use Rattle.request_book.specs.Acts.{IsRequest, content_text};
ghost use Rattle.request_book.specs.declared.act.Request.{Request};

/// Two requests have one canonical text exactly where they have one caller and one act.
pub fn one_text_for_one_content()
    ensures { (x y : Request) → IsRequest x → IsRequest y → (content_text x ≡ content_text y) ↔ ((x.caller ≡ y.caller) × (x.act ≡ y.act)) }
{}
