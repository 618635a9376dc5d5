//! Statuses, and the answers that are errors.
ghost use Rattle.std.specs.Prelude.{◌≡◌};
ghost use Rattle.http_api.specs.Statuses.{phrase};
ghost use Rattle.http_api.specs.Refusals.{refusal_status, refusal_body};

use http::StatusCode;
use http_messages::Refusal;
use office::{MALFORMED_BODY, lost_body};
use tables::Lost;

/// The reason phrase of a status; empty where it has none.
pub(crate) fn phrase(status: StatusCode) -> &'static str
    ensures { result.now ≡ phrase status }
{
    status.canonical_reason().unwrap_or("")
}

/// The status of an error.
pub(crate) fn refusal_status(refusal: Refusal) -> StatusCode
    ensures { result ≡ refusal_status refusal }
{
    match refusal {
        Refusal::LongHead => StatusCode::REQUEST_HEADER_FIELDS_TOO_LARGE,
        Refusal::Malformed => StatusCode::BAD_REQUEST,
        Refusal::TooLarge => StatusCode::PAYLOAD_TOO_LARGE,
        Refusal::NoRoute | Refusal::NoLanguage | Refusal::NoUnit => StatusCode::NOT_FOUND,
        Refusal::Method => StatusCode::METHOD_NOT_ALLOWED,
        Refusal::NoLength => StatusCode::LENGTH_REQUIRED,
        Refusal::Memory => StatusCode::SERVICE_UNAVAILABLE,
        Refusal::Disk | Refusal::LongExport => StatusCode::INSUFFICIENT_STORAGE,
        Refusal::Refused => StatusCode::INTERNAL_SERVER_ERROR,
    }
}

/// The body of an error, in JSON.
pub(crate) fn refusal_body(refusal: Refusal) -> &'static str
    ensures { result.now ≡ refusal_body refusal }
{
    match refusal {
        Refusal::LongHead => "{\"error\":\"head\"}",
        Refusal::Malformed => MALFORMED_BODY,
        Refusal::TooLarge => "{\"error\":\"too-large\"}",
        Refusal::NoRoute => "{\"error\":\"no-route\"}",
        Refusal::Method => "{\"error\":\"method\"}",
        Refusal::NoLength => "{\"error\":\"length\"}",
        Refusal::NoLanguage => "{\"error\":\"no-language\"}",
        Refusal::NoUnit => "{\"error\":\"no-unit\"}",
        Refusal::Memory => lost_body(Lost::Memory),
        Refusal::Disk => lost_body(Lost::Disk),
        Refusal::Refused => lost_body(Lost::Refused),
        Refusal::LongExport => "{\"error\":\"long\"}",
    }
}
