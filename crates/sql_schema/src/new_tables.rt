//! The texts that make the tables, with what each column has.
ghost use Rattle.std.specs.Prelude.{◌≡◌};
ghost use Rattle.sqlite.specs.Held.{state};
ghost use Rattle.sql_schema.specs.Layouts.{by_domain};
ghost use Rattle.sql_schema.specs.Creation.{IsFresh, MakesTables, KeepsNamedRows};
ghost use Rattle.sql_schema.specs.Errors.{RefusesNothing};
ghost use Rattle.sql_schema.specs.Inside.{IsSteadyForMain, IsInsideOf};

use sqlite::{Alter, Error, Transaction};

/// The requests that were decided.
const RECORD: &str = concat!(
    "CREATE TABLE record (",
    // the request's number (RFC 9562), 36 characters in lower case
    "number TEXT NOT NULL PRIMARY KEY, ",
    // its canonical text
    "content TEXT NOT NULL, ",
    // its reply's status
    "status INTEGER NOT NULL, ",
    // its reply's body
    "body TEXT NOT NULL",
    ") STRICT",
);

/// The team. A guest has no row.
const TEAM: &str = concat!(
    "CREATE TABLE team (",
    // the member's name
    "name TEXT NOT NULL PRIMARY KEY, ",
    // 1 translator, 2 reviewer, 3 manager
    "role INTEGER NOT NULL CHECK (role BETWEEN 1 AND 3)",
    ") STRICT",
);

/// The policy, in one row. What holds is 1, what doesn't 0.
const POLICY: &str = concat!(
    "CREATE TABLE policy (",
    // always 1
    "one INTEGER PRIMARY KEY CHECK (one BETWEEN 1 AND 1), ",
    // the number of this schema, 3
    "schema INTEGER NOT NULL, ",
    // whether there are reviews
    "reviews INTEGER NOT NULL, ",
    // whether guests suggest
    "guests_suggest INTEGER NOT NULL, ",
    // whether callers vote
    "voting INTEGER NOT NULL, ",
    // the sum of votes from which a suggestion is accepted
    "accept_at INTEGER NOT NULL, ",
    // whether the check of placeholders is enforced
    "placeholders INTEGER NOT NULL, ",
    // whether the check of line ends is enforced
    "line_ends INTEGER NOT NULL",
    ") STRICT",
);

/// The domains. `main` is always there.
const DOMAIN: &str = concat!(
    "CREATE TABLE domain (",
    // the domain's name
    "name TEXT NOT NULL PRIMARY KEY",
    ") STRICT",
);

/// The entries of each domain's template.
const D_TEMPLATE: &str = concat!(
    "CREATE TABLE d_template (",
    // the domain's name
    "domain TEXT NOT NULL, ",
    // their order in the domain, from 0 on
    "place INTEGER NOT NULL, ",
    // the entry's key: the msgid, or the context, U+0004 and the msgid
    "key TEXT NOT NULL, ",
    // its msgid_plural, or null
    "plural TEXT, ",
    // its extracted comments, a list in JSON
    "extracted TEXT NOT NULL, ",
    // its references, a list in JSON
    "refs TEXT NOT NULL, ",
    // its flags, a list in JSON
    "flags TEXT NOT NULL, ",
    "PRIMARY KEY (domain, place), ",
    "UNIQUE (domain, key)",
    ") STRICT",
);

/// The languages of each domain.
const D_LANGUAGE: &str = concat!(
    "CREATE TABLE d_language (",
    // the domain's name
    "domain TEXT NOT NULL, ",
    // the language's code
    "lang TEXT NOT NULL, ",
    // its header: comments, flags, previous strings and the string, in JSON
    "header TEXT NOT NULL, ",
    // the value of its `Plural-Forms`
    "plural TEXT NOT NULL, ",
    "PRIMARY KEY (domain, lang)",
    ") STRICT",
);

/// The units of all languages of each domain.
const D_UNIT: &str = concat!(
    "CREATE TABLE d_unit (",
    // the unit's domain
    "domain TEXT NOT NULL, ",
    // its language
    "lang TEXT NOT NULL, ",
    // its key as in the template
    "key TEXT NOT NULL, ",
    // its msgid_plural, or null
    "plural TEXT, ",
    // its forms, a list in JSON
    "forms TEXT NOT NULL, ",
    // 0 untranslated, 1 needs editing, 2 translated, 3 approved
    "state INTEGER NOT NULL CHECK (state BETWEEN 0 AND 3), ",
    // 1 where the template has no such key
    "obsolete INTEGER NOT NULL CHECK (obsolete BETWEEN 0 AND 1), ",
    // a number that rises by 1 with each change
    "revision INTEGER NOT NULL, ",
    // its comment's lines, a list in JSON
    "comment TEXT NOT NULL, ",
    // context, msgid and msgid_plural as they were, in JSON, null for each that is absent
    "previous TEXT NOT NULL, ",
    "PRIMARY KEY (domain, lang, key)",
    ") STRICT",
);

/// The suggestions of units of each domain, which go with their unit.
const D_SUGGESTION: &str = concat!(
    "CREATE TABLE d_suggestion (",
    // that of the request that made it
    "number TEXT NOT NULL PRIMARY KEY REFERENCES record (number), ",
    // its unit's domain
    "domain TEXT NOT NULL, ",
    // its unit's language
    "lang TEXT NOT NULL, ",
    // its unit's key
    "key TEXT NOT NULL, ",
    // their order in the unit
    "place INTEGER NOT NULL, ",
    // the name of the caller
    "suggester TEXT NOT NULL, ",
    // its forms, a list in JSON
    "forms TEXT NOT NULL, ",
    "UNIQUE (domain, lang, key, place), ",
    "FOREIGN KEY (domain, lang, key) REFERENCES d_unit (domain, lang, key) ON DELETE CASCADE",
    ") STRICT",
);

/// The votes on suggestions, which go with their suggestion.
const D_VOTE: &str = concat!(
    "CREATE TABLE d_vote (",
    // the suggestion's
    "number TEXT NOT NULL REFERENCES d_suggestion (number) ON DELETE CASCADE, ",
    // the name of the caller
    "voter TEXT NOT NULL, ",
    // 1 for, -1 against
    "value INTEGER NOT NULL CHECK (value BETWEEN -1 AND 1) CHECK (value <> 0), ",
    "PRIMARY KEY (number, voter)",
    ") STRICT",
);

/// The sum of each suggestion, which goes with it.
const D_VOTE_SUM: &str = concat!(
    "CREATE TABLE d_vote_sum (",
    // the suggestion's
    "number TEXT NOT NULL PRIMARY KEY REFERENCES d_suggestion (number) ON DELETE CASCADE, ",
    // 1 and the values of its votes
    "sum INTEGER NOT NULL",
    ") STRICT",
);

/// The counts of each language of each domain: of its units that aren't obsolete how many callers see in each state and
/// how many suggestions there are on them, and how many units are obsolete.
const D_TALLY: &str = concat!(
    "CREATE TABLE d_tally (",
    // the domain's name
    "domain TEXT NOT NULL, ",
    // the language's code
    "lang TEXT NOT NULL, ",
    // how many units callers see as untranslated
    "untranslated INTEGER NOT NULL, ",
    // as needing editing
    "needs_editing INTEGER NOT NULL, ",
    // as translated
    "translated INTEGER NOT NULL, ",
    // as approved
    "approved INTEGER NOT NULL, ",
    // as read-only
    "read_only INTEGER NOT NULL, ",
    // how many suggestions there are on these
    "suggestions INTEGER NOT NULL, ",
    // how many units are obsolete
    "obsolete INTEGER NOT NULL, ",
    "PRIMARY KEY (domain, lang)",
    ") STRICT",
);

/// The text that makes each table by domains, in the order in which they are made.
const DOMAIN_TABLES: [&str; 8] = [
    DOMAIN,
    D_TEMPLATE,
    D_LANGUAGE,
    D_UNIT,
    D_SUGGESTION,
    D_VOTE,
    D_VOTE_SUM,
    D_TALLY,
];

/// The text that makes each table of an office by domains where there was none, in the order in which they are made.
const TABLES_BY_DOMAIN: [&str; 11] = [
    RECORD,
    TEAM,
    POLICY,
    DOMAIN,
    D_TEMPLATE,
    D_LANGUAGE,
    D_UNIT,
    D_SUGGESTION,
    D_VOTE,
    D_VOTE_SUM,
    D_TALLY,
];

/// Makes the tables by domains beside an office's tables without a column for a domain, whose rows stay. None of them has a row yet.
pub fn make_domain_tables<S: Alter>(tx: &mut Transaction<'_, S>) -> Result<(), Error>
    requires steady { IsSteadyForMain (state S.Store tx.old.conn.now) }
    ensures same_reference { tx.new.conn.ghost_name ≡ tx.old.conn.ghost_name }
    ensures made { IsInsideOf by_domain (state S.Store tx.old.conn.now) (state S.Store tx.new.conn.now) result KeepsNamedRows }
    ensures errors { RefusesNothing (state S.Store tx.old.conn.now) (state S.Store tx.new.conn.now) result }
{
    for text in &DOMAIN_TABLES {
        tx.execute(text, &[])?;
    }
    Ok(())
}

/// Makes an office's tables by domains in a database that has no table. None of them has a row yet.
pub fn make_tables_by_domain<S: Alter>(tx: &mut Transaction<'_, S>) -> Result<(), Error>
    requires fresh { IsFresh (state S.Store tx.old.conn.now) }
    ensures same_reference { tx.new.conn.ghost_name ≡ tx.old.conn.ghost_name }
    ensures made { IsInsideOf by_domain (state S.Store tx.old.conn.now) (state S.Store tx.new.conn.now) result MakesTables }
    ensures errors { RefusesNothing (state S.Store tx.old.conn.now) (state S.Store tx.new.conn.now) result }
{
    for text in &TABLES_BY_DOMAIN {
        tx.execute(text, &[])?;
    }
    Ok(())
}
