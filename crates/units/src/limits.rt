//! How large the parts of an office may be. (This project's own rules.) Clauses have the same numbers by their names in `specs/Limits`.

/// How many bytes a name has at most.
pub const NAME_LIMIT: usize = 32;

/// How many bytes a language's code has at most.
pub const LANG_LIMIT: usize = 16;

/// The last revision.
pub const REVISION_LIMIT: u64 = 9_000_000_000_000_000;

/// The greatest sum of votes at which a suggestion may be accepted by itself.
pub const ACCEPT_AT_LIMIT: u8 = 100;

/// How many lines a comment has at most that an act gives.
pub const COMMENT_LIMIT: usize = 20;

/// How many bytes such a line has at most.
pub const COMMENT_LINE_LIMIT: usize = 1000;

/// How many domains an office has at most, `main` among them.
pub const DOMAIN_LIMIT: usize = 8;

/// How many languages a domain has at most.
pub const LANGUAGE_LIMIT: usize = 256;

/// How many names a team has at most.
pub const TEAM_LIMIT: usize = 1000;

/// How many units a language has at most, obsolete ones included.
pub const UNIT_LIMIT: usize = 150_000;

/// How many suggestions a unit has at most.
pub const SUGGESTION_LIMIT: usize = 100;

/// How many votes a suggestion has at most.
pub const VOTE_LIMIT: usize = 10_000;
