//! Errors.

/// An answer that is an error. Its body is `{"error":WORD}`.
#[derive(Clone, Copy, Drop)]
pub enum Refusal {
    /// 431 `head`: no head ends within 8,192 bytes.
    LongHead,
    /// 400 `malformed`: the head, the body or a part of the target isn't as it has to be.
    Malformed,
    /// 413 `too-large`: the body is longer than 20,971,520 bytes.
    TooLarge,
    /// 404 `no-route`.
    NoRoute,
    /// 405 `method`: the route has another method.
    Method,
    /// 411 `length`: a request without the length of its body.
    NoLength,
    /// 404 `no-language`.
    NoLanguage,
    /// 404 `no-unit`.
    NoUnit,
    /// 503 `memory`: a growth was refused.
    Memory,
    /// 507 `disk`.
    Disk,
    /// 500 `refused`: the file takes no such rows.
    Refused,
    /// 507 `long`: the text is longer than an export may be.
    LongExport,
}
