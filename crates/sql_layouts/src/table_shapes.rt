//! Each table of an office and each index of a key, told by a constant; where they are in a file, a layout tells.

use crate::office_tables::TableShape;
use crate::shapes::ColumnShape::{Integer, Nullable, Rowid, Text};
use crate::shapes::{IndexShape, Name, Places, Plain, ReferenceShape};
use crate::table_checks::Check;

// ---- references

/// A suggestion has the number of the record of its request.
const RECORDED: ReferenceShape = ReferenceShape {
    columns: &[1],
    parent: "record",
    parent_columns: &[Name("number")],
    cascades: false,
};

/// A suggestion belongs to a unit.
const SUGGESTED_FOR: ReferenceShape = ReferenceShape {
    columns: &[2, 3],
    parent: "unit",
    parent_columns: &[Name("lang"), Name("key")],
    cascades: true,
};

/// A vote belongs to a suggestion.
const VOTED_ON: ReferenceShape = ReferenceShape {
    columns: &[1],
    parent: "suggestion",
    parent_columns: &[Name("number")],
    cascades: true,
};

/// A sum belongs to a suggestion.
const SUMMED: ReferenceShape = ReferenceShape {
    columns: &[1],
    parent: "suggestion",
    parent_columns: &[Name("number")],
    cascades: true,
};

/// A suggestion belongs to a unit of its domain.
const SUGGESTED_IN_DOMAIN: ReferenceShape = ReferenceShape {
    columns: &[2, 3, 4],
    parent: "d_unit",
    parent_columns: &[Name("domain"), Name("lang"), Name("key")],
    cascades: true,
};

/// A vote belongs to a suggestion of some domain.
const VOTED_IN_DOMAIN: ReferenceShape = ReferenceShape {
    columns: &[1],
    parent: "d_suggestion",
    parent_columns: &[Name("number")],
    cascades: true,
};

/// A sum belongs to a suggestion of some domain.
const SUMMED_IN_DOMAIN: ReferenceShape = ReferenceShape {
    columns: &[1],
    parent: "d_suggestion",
    parent_columns: &[Name("number")],
    cascades: true,
};

// ---- tables

/// The requests that were decided.
pub(crate) const RECORD: TableShape = TableShape {
    name: "record",
    columns: &[
        Text("number"),
        Text("content"),
        Integer("status"),
        Text("body"),
    ],
    key: None,
    primary: &[1],
    uniques: &[Places(&[1])],
    orders: &[Plain],
    checks: &[],
    references: &[],
};

/// The team.
pub(crate) const TEAM: TableShape = TableShape {
    name: "team",
    columns: &[Text("name"), Integer("role")],
    key: None,
    primary: &[1],
    uniques: &[Places(&[1])],
    orders: &[Plain],
    checks: &[Check::Between(2, 1, 3)],
    references: &[],
};

/// The policy, in one row.
pub(crate) const POLICY: TableShape = TableShape {
    name: "policy",
    columns: &[
        Rowid("one"),
        Integer("schema"),
        Integer("reviews"),
        Integer("guests_suggest"),
        Integer("voting"),
        Integer("accept_at"),
        Integer("placeholders"),
        Integer("line_ends"),
    ],
    key: Some(0),
    primary: &[0],
    uniques: &[],
    orders: &[],
    checks: &[Check::Between(0, 1, 1)],
    references: &[],
};

/// The template's entries.
pub(crate) const TEMPLATE: TableShape = TableShape {
    name: "template",
    columns: &[
        Rowid("place"),
        Text("key"),
        Nullable("plural"),
        Text("extracted"),
        Text("refs"),
        Text("flags"),
    ],
    key: Some(0),
    primary: &[0],
    uniques: &[Places(&[2])],
    orders: &[Plain],
    checks: &[],
    references: &[],
};

/// The languages.
pub(crate) const LANGUAGE: TableShape = TableShape {
    name: "language",
    columns: &[Text("lang"), Text("header"), Text("plural")],
    key: None,
    primary: &[1],
    uniques: &[Places(&[1])],
    orders: &[Plain],
    checks: &[],
    references: &[],
};

/// The units.
pub(crate) const UNIT: TableShape = TableShape {
    name: "unit",
    columns: &[
        Text("lang"),
        Text("key"),
        Nullable("plural"),
        Text("forms"),
        Integer("state"),
        Integer("obsolete"),
        Integer("revision"),
        Text("comment"),
        Text("previous"),
    ],
    key: None,
    primary: &[1, 2],
    uniques: &[Places(&[1, 2])],
    orders: &[Plain],
    checks: &[Check::Between(5, 0, 3), Check::Between(6, 0, 1)],
    references: &[],
};

/// The suggestions of units.
pub(crate) const SUGGESTION: TableShape = TableShape {
    name: "suggestion",
    columns: &[
        Text("number"),
        Text("lang"),
        Text("key"),
        Integer("place"),
        Text("suggester"),
        Text("forms"),
    ],
    key: None,
    primary: &[1],
    uniques: &[Places(&[1]), Places(&[2, 3, 4])],
    orders: &[Plain, Plain],
    checks: &[],
    references: &[RECORDED, SUGGESTED_FOR],
};

/// The votes on suggestions.
pub(crate) const VOTE: TableShape = TableShape {
    name: "vote",
    columns: &[Text("number"), Text("voter"), Integer("value")],
    key: None,
    primary: &[1, 2],
    uniques: &[Places(&[1, 2])],
    orders: &[Plain],
    checks: &[Check::Between(3, -1, 1), Check::Not(3, 0)],
    references: &[VOTED_ON],
};

/// The sum of each suggestion, in files of the second form.
pub(crate) const VOTE_SUM: TableShape = TableShape {
    name: "vote_sum",
    columns: &[Text("number"), Integer("sum")],
    key: None,
    primary: &[1],
    uniques: &[Places(&[1])],
    orders: &[Plain],
    checks: &[],
    references: &[SUMMED],
};

/// The counts of each language, in files of the second form.
pub(crate) const TALLY: TableShape = TableShape {
    name: "tally",
    columns: &[
        Text("lang"),
        Integer("untranslated"),
        Integer("needs_editing"),
        Integer("translated"),
        Integer("approved"),
        Integer("read_only"),
        Integer("suggestions"),
        Integer("obsolete"),
    ],
    key: None,
    primary: &[1],
    uniques: &[Places(&[1])],
    orders: &[Plain],
    checks: &[],
    references: &[],
};

/// The domains.
pub(crate) const DOMAIN: TableShape = TableShape {
    name: "domain",
    columns: &[Text("name")],
    key: None,
    primary: &[1],
    uniques: &[Places(&[1])],
    orders: &[Plain],
    checks: &[],
    references: &[],
};

/// The entries of each domain's template.
pub(crate) const D_TEMPLATE: TableShape = TableShape {
    name: "d_template",
    columns: &[
        Text("domain"),
        Integer("place"),
        Text("key"),
        Nullable("plural"),
        Text("extracted"),
        Text("refs"),
        Text("flags"),
    ],
    key: None,
    primary: &[1, 2],
    uniques: &[Places(&[1, 2]), Places(&[1, 3])],
    orders: &[Plain, Plain],
    checks: &[],
    references: &[],
};

/// The languages of each domain.
pub(crate) const D_LANGUAGE: TableShape = TableShape {
    name: "d_language",
    columns: &[Text("domain"), Text("lang"), Text("header"), Text("plural")],
    key: None,
    primary: &[1, 2],
    uniques: &[Places(&[1, 2])],
    orders: &[Plain],
    checks: &[],
    references: &[],
};

/// The units of each domain.
pub(crate) const D_UNIT: TableShape = TableShape {
    name: "d_unit",
    columns: &[
        Text("domain"),
        Text("lang"),
        Text("key"),
        Nullable("plural"),
        Text("forms"),
        Integer("state"),
        Integer("obsolete"),
        Integer("revision"),
        Text("comment"),
        Text("previous"),
    ],
    key: None,
    primary: &[1, 2, 3],
    uniques: &[Places(&[1, 2, 3])],
    orders: &[Plain],
    checks: &[Check::Between(6, 0, 3), Check::Between(7, 0, 1)],
    references: &[],
};

/// The suggestions of units of each domain.
pub(crate) const D_SUGGESTION: TableShape = TableShape {
    name: "d_suggestion",
    columns: &[
        Text("number"),
        Text("domain"),
        Text("lang"),
        Text("key"),
        Integer("place"),
        Text("suggester"),
        Text("forms"),
    ],
    key: None,
    primary: &[1],
    uniques: &[Places(&[1]), Places(&[2, 3, 4, 5])],
    orders: &[Plain, Plain],
    checks: &[],
    references: &[RECORDED, SUGGESTED_IN_DOMAIN],
};

/// The votes on these.
pub(crate) const D_VOTE: TableShape = TableShape {
    name: "d_vote",
    columns: &[Text("number"), Text("voter"), Integer("value")],
    key: None,
    primary: &[1, 2],
    uniques: &[Places(&[1, 2])],
    orders: &[Plain],
    checks: &[Check::Between(3, -1, 1), Check::Not(3, 0)],
    references: &[VOTED_IN_DOMAIN],
};

/// The sum of each suggestion.
pub(crate) const D_VOTE_SUM: TableShape = TableShape {
    name: "d_vote_sum",
    columns: &[Text("number"), Integer("sum")],
    key: None,
    primary: &[1],
    uniques: &[Places(&[1])],
    orders: &[Plain],
    checks: &[],
    references: &[SUMMED_IN_DOMAIN],
};

/// The counts of each domain's languages.
pub(crate) const D_TALLY: TableShape = TableShape {
    name: "d_tally",
    columns: &[
        Text("domain"),
        Text("lang"),
        Integer("untranslated"),
        Integer("needs_editing"),
        Integer("translated"),
        Integer("approved"),
        Integer("read_only"),
        Integer("suggestions"),
        Integer("obsolete"),
    ],
    key: None,
    primary: &[1, 2],
    uniques: &[Places(&[1, 2])],
    orders: &[Plain],
    checks: &[],
    references: &[],
};

// ---- indexes

pub(crate) const RECORD_NUMBER: IndexShape = IndexShape {
    name: "sqlite_autoindex_record_1",
    columns: &[1],
};

pub(crate) const TEAM_NAME: IndexShape = IndexShape {
    name: "sqlite_autoindex_team_1",
    columns: &[1],
};

pub(crate) const TEMPLATE_KEY: IndexShape = IndexShape {
    name: "sqlite_autoindex_template_1",
    columns: &[2],
};

pub(crate) const LANGUAGE_LANG: IndexShape = IndexShape {
    name: "sqlite_autoindex_language_1",
    columns: &[1],
};

pub(crate) const UNIT_KEY: IndexShape = IndexShape {
    name: "sqlite_autoindex_unit_1",
    columns: &[1, 2],
};

pub(crate) const SUGGESTION_NUMBER: IndexShape = IndexShape {
    name: "sqlite_autoindex_suggestion_1",
    columns: &[1],
};

pub(crate) const SUGGESTION_PLACE: IndexShape = IndexShape {
    name: "sqlite_autoindex_suggestion_2",
    columns: &[2, 3, 4],
};

pub(crate) const VOTE_VOTER: IndexShape = IndexShape {
    name: "sqlite_autoindex_vote_1",
    columns: &[1, 2],
};

pub(crate) const VOTE_SUM_NUMBER: IndexShape = IndexShape {
    name: "sqlite_autoindex_vote_sum_1",
    columns: &[1],
};

pub(crate) const TALLY_LANG: IndexShape = IndexShape {
    name: "sqlite_autoindex_tally_1",
    columns: &[1],
};

pub(crate) const DOMAIN_NAME: IndexShape = IndexShape {
    name: "sqlite_autoindex_domain_1",
    columns: &[1],
};

pub(crate) const D_TEMPLATE_PLACE: IndexShape = IndexShape {
    name: "sqlite_autoindex_d_template_1",
    columns: &[1, 2],
};

pub(crate) const D_TEMPLATE_KEY: IndexShape = IndexShape {
    name: "sqlite_autoindex_d_template_2",
    columns: &[1, 3],
};

pub(crate) const D_LANGUAGE_LANG: IndexShape = IndexShape {
    name: "sqlite_autoindex_d_language_1",
    columns: &[1, 2],
};

pub(crate) const D_UNIT_KEY: IndexShape = IndexShape {
    name: "sqlite_autoindex_d_unit_1",
    columns: &[1, 2, 3],
};

pub(crate) const D_SUGGESTION_NUMBER: IndexShape = IndexShape {
    name: "sqlite_autoindex_d_suggestion_1",
    columns: &[1],
};

pub(crate) const D_SUGGESTION_PLACE: IndexShape = IndexShape {
    name: "sqlite_autoindex_d_suggestion_2",
    columns: &[2, 3, 4, 5],
};

pub(crate) const D_VOTE_VOTER: IndexShape = IndexShape {
    name: "sqlite_autoindex_d_vote_1",
    columns: &[1, 2],
};

pub(crate) const D_VOTE_SUM_NUMBER: IndexShape = IndexShape {
    name: "sqlite_autoindex_d_vote_sum_1",
    columns: &[1],
};

pub(crate) const D_TALLY_LANG: IndexShape = IndexShape {
    name: "sqlite_autoindex_d_tally_1",
    columns: &[1, 2],
};
