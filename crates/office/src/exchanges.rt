//! What is told where no request was delivered.
ghost use Rattle.std.specs.Prelude.{◌≡◌};
ghost use Rattle.office.specs.Exchanges.{lost_body};

use tables::Lost;

/// What tells that a line or a message brings no request, in JSON (RFC 8259).
pub const MALFORMED_BODY: &str = "{\"error\":\"malformed\"}";

/// What tells that a request is lost, in JSON (RFC 8259).
pub fn lost_body(lost: Lost) -> &'static str
    ensures { result.now ≡ lost_body lost }
{
    match lost {
        Lost::Memory => "{\"error\":\"memory\"}",
        Lost::Disk => "{\"error\":\"disk\"}",
        Lost::Refused => "{\"error\":\"refused\"}",
    }
}
