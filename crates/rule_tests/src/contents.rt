//! Whether a text is what records keep as the content of a request.

ghost use Rattle.std.specs.Prelude.{◌≡◌, ◌↔◌, true, IfOk};
ghost use Rattle.request_book.specs.Acts.{IsRequest, content_text};
ghost use Rattle.request_book.specs.Contents.{IsContent};

use request_book::{Request, RequestFault, canon};
use std::alloc::{AllocError, Global};

/// Whether a request has a text as its content.
fn has_content(alloc: Global, request: &Request, content: &str) -> Result<bool, AllocError>
    ensures has { IfOk result (λ has. (has ≡ true) ↔ (content_text request.now ≡ content.now)) }
    ensures limits { IfOk result (λ _. IsRequest request.now) }
{
    match canon(alloc, request) {
        Ok(text) => Ok(text.as_str() == content),
        Err(_) => Err(AllocError),
    }
}

/// Whether a text is the content of some request: the canonical text of its caller and act, as records keep it.
///
/// `AllocError` where a growth was refused.
pub fn is_content(alloc: Global, content: &str) -> Result<bool, AllocError>
    ensures { IfOk result (λ is. (is ≡ true) ↔ IsContent content.now) }
{
    match Request::from_content(alloc, content) {
        Ok(request) => {
            let has = has_content(alloc, &request, content);
            drop(request);
            has
        }
        Err(RequestFault::Malformed) => Ok(false),
        Err(RequestFault::Memory) => Err(AllocError),
    }
}
