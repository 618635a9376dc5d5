//! The layouts that an office's file may have, told by constants: which tables and indexes, each in its place.
ghost use Rattle.std.specs.Prelude.{◌≡◌, ◌↔◌, true, None, IfSome};
ghost use Rattle.sql_schema.specs.Layouts.{Form as FormOf, made_new, made_second, made_last, from_first, from_second, schema_of, IsLaidOut};
ghost use Rattle.sql_layouts.specs.Tables.{table_of, index_of, schema_told, form_told, no_stamps, HasKeys, HasRules};

use crate::shapes::{ColumnShape, IndexShape, Places, Plain, ReferenceShape, Shape, fit_all};
use crate::table_checks::{Check, has_checks};
use crate::table_shapes::{
    D_LANGUAGE, D_LANGUAGE_LANG, D_SUGGESTION, D_SUGGESTION_NUMBER, D_SUGGESTION_PLACE, D_TALLY,
    D_TALLY_LANG, D_TEMPLATE, D_TEMPLATE_KEY, D_TEMPLATE_PLACE, D_UNIT, D_UNIT_KEY, D_VOTE,
    D_VOTE_SUM, D_VOTE_SUM_NUMBER, D_VOTE_VOTER, DOMAIN, DOMAIN_NAME, LANGUAGE, LANGUAGE_LANG,
    POLICY, RECORD, RECORD_NUMBER, SUGGESTION, SUGGESTION_NUMBER, SUGGESTION_PLACE, TALLY,
    TALLY_LANG, TEAM, TEAM_NAME, TEMPLATE, TEMPLATE_KEY, UNIT, UNIT_KEY, VOTE, VOTE_SUM,
    VOTE_SUM_NUMBER, VOTE_VOTER,
};
use sqlite_schema::schema::{Index, Schema, Stamps, Table};

/// Which tables an office has.
#[derive(Clone, Copy, Debug, PartialEq, Eq)]
pub enum Form {
    /// Tables without a column for a domain: all is of `main`.
    ForMain,
    /// These, with sums of votes and tallies that are kept beside them.
    WithFigures,
    /// Tables by domains.
    ByDomain,
}

/// A table of an office.
#[derive(Clone, Copy)]
pub struct TableShape {
    pub name: &'static str,
    pub columns: &'static [ColumnShape],
    /// The column that is the rowid by another name.
    pub key: Option<usize>,
    /// The places of the primary key.
    pub primary: &'static [usize],
    /// The places of each key that has an index, and its order.
    pub uniques: &'static [Places],
    pub orders: &'static [Plain],
    pub checks: &'static [Check],
    pub references: &'static [ReferenceShape],
}

/// A table in its tree. Trees are counted: each table has the next, and behind it one for each key that has an index.
#[derive(Clone, Copy)]
pub struct TableAt(pub u32, pub TableShape);

/// An index in its tree, and the tree of its table.
#[derive(Clone, Copy)]
pub struct IndexAt(pub (u32, u32), pub IndexShape);

// ---- layouts

/// Of an office that was made without a column for a domain.
const MADE_NEW: [TableAt; 8] = [
    TableAt(0, RECORD),
    TableAt(2, TEAM),
    TableAt(4, POLICY),
    TableAt(5, TEMPLATE),
    TableAt(7, LANGUAGE),
    TableAt(9, UNIT),
    TableAt(11, SUGGESTION),
    TableAt(14, VOTE),
];

const MADE_NEW_INDEXES: [IndexAt; 8] = [
    IndexAt((1, 0), RECORD_NUMBER),
    IndexAt((3, 2), TEAM_NAME),
    IndexAt((6, 5), TEMPLATE_KEY),
    IndexAt((8, 7), LANGUAGE_LANG),
    IndexAt((10, 9), UNIT_KEY),
    IndexAt((12, 11), SUGGESTION_NUMBER),
    IndexAt((13, 11), SUGGESTION_PLACE),
    IndexAt((15, 14), VOTE_VOTER),
];

/// Of one that was made with kept figures.
const MADE_SECOND: [TableAt; 10] = [
    TableAt(0, RECORD),
    TableAt(2, TEAM),
    TableAt(4, POLICY),
    TableAt(5, TEMPLATE),
    TableAt(7, LANGUAGE),
    TableAt(9, UNIT),
    TableAt(11, SUGGESTION),
    TableAt(14, VOTE),
    TableAt(16, VOTE_SUM),
    TableAt(18, TALLY),
];

const MADE_SECOND_INDEXES: [IndexAt; 10] = [
    IndexAt((1, 0), RECORD_NUMBER),
    IndexAt((3, 2), TEAM_NAME),
    IndexAt((6, 5), TEMPLATE_KEY),
    IndexAt((8, 7), LANGUAGE_LANG),
    IndexAt((10, 9), UNIT_KEY),
    IndexAt((12, 11), SUGGESTION_NUMBER),
    IndexAt((13, 11), SUGGESTION_PLACE),
    IndexAt((15, 14), VOTE_VOTER),
    IndexAt((17, 16), VOTE_SUM_NUMBER),
    IndexAt((19, 18), TALLY_LANG),
];

/// Of an office that was made by domains.
const MADE_LAST: [TableAt; 11] = [
    TableAt(0, RECORD),
    TableAt(2, TEAM),
    TableAt(4, POLICY),
    TableAt(5, DOMAIN),
    TableAt(7, D_TEMPLATE),
    TableAt(10, D_LANGUAGE),
    TableAt(12, D_UNIT),
    TableAt(14, D_SUGGESTION),
    TableAt(17, D_VOTE),
    TableAt(19, D_VOTE_SUM),
    TableAt(21, D_TALLY),
];

const MADE_LAST_INDEXES: [IndexAt; 12] = [
    IndexAt((1, 0), RECORD_NUMBER),
    IndexAt((3, 2), TEAM_NAME),
    IndexAt((6, 5), DOMAIN_NAME),
    IndexAt((8, 7), D_TEMPLATE_PLACE),
    IndexAt((9, 7), D_TEMPLATE_KEY),
    IndexAt((11, 10), D_LANGUAGE_LANG),
    IndexAt((13, 12), D_UNIT_KEY),
    IndexAt((15, 14), D_SUGGESTION_NUMBER),
    IndexAt((16, 14), D_SUGGESTION_PLACE),
    IndexAt((18, 17), D_VOTE_VOTER),
    IndexAt((20, 19), D_VOTE_SUM_NUMBER),
    IndexAt((22, 21), D_TALLY_LANG),
];

/// Of one that was made by domains behind the eight.
const FROM_FIRST: [TableAt; 16] = [
    TableAt(0, RECORD),
    TableAt(2, TEAM),
    TableAt(4, POLICY),
    TableAt(5, TEMPLATE),
    TableAt(7, LANGUAGE),
    TableAt(9, UNIT),
    TableAt(11, SUGGESTION),
    TableAt(14, VOTE),
    TableAt(16, DOMAIN),
    TableAt(18, D_TEMPLATE),
    TableAt(21, D_LANGUAGE),
    TableAt(23, D_UNIT),
    TableAt(25, D_SUGGESTION),
    TableAt(28, D_VOTE),
    TableAt(30, D_VOTE_SUM),
    TableAt(32, D_TALLY),
];

const FROM_FIRST_INDEXES: [IndexAt; 18] = [
    IndexAt((1, 0), RECORD_NUMBER),
    IndexAt((3, 2), TEAM_NAME),
    IndexAt((6, 5), TEMPLATE_KEY),
    IndexAt((8, 7), LANGUAGE_LANG),
    IndexAt((10, 9), UNIT_KEY),
    IndexAt((12, 11), SUGGESTION_NUMBER),
    IndexAt((13, 11), SUGGESTION_PLACE),
    IndexAt((15, 14), VOTE_VOTER),
    IndexAt((17, 16), DOMAIN_NAME),
    IndexAt((19, 18), D_TEMPLATE_PLACE),
    IndexAt((20, 18), D_TEMPLATE_KEY),
    IndexAt((22, 21), D_LANGUAGE_LANG),
    IndexAt((24, 23), D_UNIT_KEY),
    IndexAt((26, 25), D_SUGGESTION_NUMBER),
    IndexAt((27, 25), D_SUGGESTION_PLACE),
    IndexAt((29, 28), D_VOTE_VOTER),
    IndexAt((31, 30), D_VOTE_SUM_NUMBER),
    IndexAt((33, 32), D_TALLY_LANG),
];

/// Of one that was made by domains behind the eight with kept figures.
const FROM_SECOND: [TableAt; 18] = [
    TableAt(0, RECORD),
    TableAt(2, TEAM),
    TableAt(4, POLICY),
    TableAt(5, TEMPLATE),
    TableAt(7, LANGUAGE),
    TableAt(9, UNIT),
    TableAt(11, SUGGESTION),
    TableAt(14, VOTE),
    TableAt(16, VOTE_SUM),
    TableAt(18, TALLY),
    TableAt(20, DOMAIN),
    TableAt(22, D_TEMPLATE),
    TableAt(25, D_LANGUAGE),
    TableAt(27, D_UNIT),
    TableAt(29, D_SUGGESTION),
    TableAt(32, D_VOTE),
    TableAt(34, D_VOTE_SUM),
    TableAt(36, D_TALLY),
];

const FROM_SECOND_INDEXES: [IndexAt; 20] = [
    IndexAt((1, 0), RECORD_NUMBER),
    IndexAt((3, 2), TEAM_NAME),
    IndexAt((6, 5), TEMPLATE_KEY),
    IndexAt((8, 7), LANGUAGE_LANG),
    IndexAt((10, 9), UNIT_KEY),
    IndexAt((12, 11), SUGGESTION_NUMBER),
    IndexAt((13, 11), SUGGESTION_PLACE),
    IndexAt((15, 14), VOTE_VOTER),
    IndexAt((17, 16), VOTE_SUM_NUMBER),
    IndexAt((19, 18), TALLY_LANG),
    IndexAt((21, 20), DOMAIN_NAME),
    IndexAt((23, 22), D_TEMPLATE_PLACE),
    IndexAt((24, 22), D_TEMPLATE_KEY),
    IndexAt((26, 25), D_LANGUAGE_LANG),
    IndexAt((28, 27), D_UNIT_KEY),
    IndexAt((30, 29), D_SUGGESTION_NUMBER),
    IndexAt((31, 29), D_SUGGESTION_PLACE),
    IndexAt((33, 32), D_VOTE_VOTER),
    IndexAt((35, 34), D_VOTE_SUM_NUMBER),
    IndexAt((37, 36), D_TALLY_LANG),
];

// ---- their test

/// Whether no default is computed from the time.
fn is_bare(stamps: &Stamps) -> bool
    ensures { (result ≡ true) ↔ (stamps.now ≡ no_stamps) }
{
    let placed = stamps.places.is_empty();
    let computed = has_checks(&stamps.terms, &[]);
    let told = stamps.formats.is_empty();
    placed && computed && told
}

/// Whether a table has the name, the place, the columns and the keys that are told.
fn has_keys(table: &Table, at: &TableAt) -> bool
    ensures { (result ≡ true) ↔ HasKeys table.now at.now }
{
    let shape = &at.1;
    let named = table.name.as_slice() == shape.name.as_bytes();
    let placed = table.tree == at.0;
    let columns = fit_all(shape.columns, table.columns.as_slice());
    let key = table.key == shape.key;
    let primary = table.primary.as_slice() == shape.primary;
    let uniques = fit_all(shape.uniques, table.uniques.as_slice());
    let orders = fit_all(shape.orders, table.orders.as_slice());
    named && placed && columns && key && primary && uniques && orders
}

/// Whether a table has the tests and the foreign keys that are told, no default that is computed, and no counted rowid.
fn has_rules(table: &Table, shape: &TableShape) -> bool
    ensures { (result ≡ true) ↔ HasRules table.now shape.now }
{
    let tested = has_checks(&table.checks, shape.checks);
    let references = fit_all(shape.references, table.references.as_slice());
    let literal = table.computed.is_empty();
    let bare = is_bare(&table.stamps);
    let counted = table.is_counted;
    tested && references && literal && bare && !counted
}

impl Shape for TableAt {
    type Part = Table;

    ghost part = { table_of };

    fn fits(&self, found: &Table) -> bool {
        has_keys(found, self) && has_rules(found, &self.1)
    }
}

impl Shape for IndexAt {
    type Part = Index;

    ghost part = { index_of };

    fn fits(&self, found: &Index) -> bool {
        let (tree, table) = self.0;
        let placed = found.tree == tree;
        let owned = found.table == table;
        let named = found.name.as_slice() == self.1.name.as_bytes();
        let columns = found.columns.as_slice() == self.1.columns;
        let plain = found.order.digits == 0;
        let unique = found.is_unique;
        placed && owned && named && columns && plain && unique
    }
}

/// Whether the tables and the indexes are these, each in its place, and there is nothing else.
fn is_told(schema: &Schema, tables: &[TableAt], indexes: &[IndexAt]) -> bool
    ensures { (result ≡ true) ↔ (schema.now ≡ schema_told tables.now indexes.now) }
{
    let tables = fit_all(tables, schema.tables.as_slice());
    let indexes = fit_all(indexes, schema.indexes.as_slice());
    let alone = schema.views.is_empty();
    tables && indexes && alone
}

/// Whether it is the schema of an office that was made without a column for a domain.
fn is_made_new(schema: &Schema) -> bool
    ensures { (result ≡ true) ↔ (schema.now ≡ schema_of made_new) }
{
    is_told(schema, &MADE_NEW, &MADE_NEW_INDEXES)
}

/// Whether it is the schema of an office that was made without a column for a domain, with kept figures.
fn is_made_second(schema: &Schema) -> bool
    ensures { (result ≡ true) ↔ (schema.now ≡ schema_of made_second) }
{
    is_told(schema, &MADE_SECOND, &MADE_SECOND_INDEXES)
}

/// Whether it is the schema of an office that was made by domains.
fn is_made_last(schema: &Schema) -> bool
    ensures { (result ≡ true) ↔ (schema.now ≡ schema_of made_last) }
{
    is_told(schema, &MADE_LAST, &MADE_LAST_INDEXES)
}

/// Whether it is the schema of an office by domains behind the eight tables.
fn is_from_first(schema: &Schema) -> bool
    ensures { (result ≡ true) ↔ (schema.now ≡ schema_of from_first) }
{
    is_told(schema, &FROM_FIRST, &FROM_FIRST_INDEXES)
}

/// Whether it is the schema of an office by domains behind the eight tables with kept figures.
fn is_from_second(schema: &Schema) -> bool
    ensures { (result ≡ true) ↔ (schema.now ≡ schema_of from_second) }
{
    is_told(schema, &FROM_SECOND, &FROM_SECOND_INDEXES)
}

/// Which form an office's tables have: `None` where tables and indexes are those of no layout, each in its place with nothing else beside
/// them. How their texts are spelled is not asked.
pub(crate) fn form_of(schema: &Schema) -> Option<Form>
    ensures told { IfSome result (λ form. IsLaidOut (form_told form) schema.now) }
    ensures none { result ≡ None → (form : FormOf) → ¬ IsLaidOut form schema.now }
{
    if is_made_new(schema) {
        return Some(Form::ForMain);
    }
    if is_made_second(schema) {
        return Some(Form::WithFigures);
    }
    if is_made_last(schema) {
        return Some(Form::ByDomain);
    }
    if is_from_first(schema) {
        return Some(Form::ByDomain);
    }
    if is_from_second(schema) {
        return Some(Form::ByDomain);
    }
    None
}
