//! The parts of a schema, told by constants, and whether a part is as it is told.
ghost use Rattle.std.specs.Prelude.{◌≡◌, ◌↔◌, true, map};
ghost use Rattle.sqlite.specs.declared.types.Value.TheVariants.{Null};
ghost use Rattle.sql_layouts.specs.Shapes as spec;

use sqlite_items::Items;
use sqlite_schema::schema::{Action, Column, Kind, Reference};
use sqlite_value::keys::{Collation, Order};
use sqlite_value::value::{Bytes, Value};

/// What a part of a schema is, told by a constant.
pub trait Shape {
    /// The part.
    type Part;

    ghost part: { Self → Self.Part };

    /// Whether this is the part.
    fn fits(&self, found: &Self::Part) -> bool
        ensures { (result ≡ true) ↔ (found.now ≡ part self.now) };
}

/// Whether these are the parts, one after another.
pub(crate) fn fit_all<S: Shape>(shapes: &[S], found: &[S::Part]) -> bool
    ensures { (result ≡ true) ↔ (found.now ≡ map S.part shapes.now) }
{
    if found.len() != shapes.len() {
        return false;
    }
    for (i, shape) in shapes.iter().enumerate() {
        if !shape.fits(&found[i]) {
            return false;
        }
    }
    true
}

/// A column of a STRICT table, with no default.
#[derive(Clone, Copy)]
pub enum ColumnShape {
    /// `TEXT NOT NULL`.
    Text(&'static str),
    /// `TEXT`.
    Nullable(&'static str),
    /// `INTEGER NOT NULL`.
    Integer(&'static str),
    /// `INTEGER PRIMARY KEY`.
    Rowid(&'static str),
}

/// Whether a value is null.
fn is_null(value: &Value) -> bool
    ensures { (result ≡ true) ↔ (value.now ≡ Null) }
{
    matches!(value, Value::Null)
}

/// Whether a column has the collation of bytes.
fn is_binary(collation: Collation) -> bool
    ensures { (result ≡ true) ↔ (collation ≡ spec.binary) }
{
    matches!(collation, Collation::Binary)
}

/// Whether a kind is TEXT.
fn is_text(kind: Kind) -> bool
    ensures { (result ≡ true) ↔ (kind ≡ spec.text) }
{
    matches!(kind, Kind::Text)
}

/// Whether a kind is INTEGER.
fn is_integer(kind: Kind) -> bool
    ensures { (result ≡ true) ↔ (kind ≡ spec.integer) }
{
    matches!(kind, Kind::Integer)
}

/// Whether a column of a STRICT table has this name and no default.
fn is_strict(column: &Column, name: &str, not_null: bool) -> bool
    ensures { (result ≡ true) ↔ spec.IsStrict column.now name.now not_null }
{
    let named = column.name.as_slice() == name.as_bytes();
    let strict = column.is_strict;
    let told = column.not_null == not_null;
    let bare = is_null(&column.default);
    let plain = is_binary(column.collation);
    named && strict && told && bare && plain
}

impl Shape for ColumnShape {
    type Part = Column;

    ghost use Rattle.sql_layouts.specs.Shapes.{column_of};

    ghost part = { column_of };

    fn fits(&self, found: &Column) -> bool {
        let text = is_text(found.kind);
        let integer = is_integer(found.kind);
        match self {
            ColumnShape::Text(name) => is_strict(found, name, true) && text,
            ColumnShape::Nullable(name) => is_strict(found, name, false) && text,
            ColumnShape::Integer(name) => is_strict(found, name, true) && integer,
            ColumnShape::Rowid(name) => is_strict(found, name, false) && integer,
        }
    }
}

/// A name.
#[derive(Clone, Copy)]
pub struct Name(pub &'static str);

impl Shape for Name {
    type Part = Bytes;

    ghost part = { λ name. name.0.now };

    fn fits(&self, found: &Bytes) -> bool {
        found.as_slice() == self.0.as_bytes()
    }
}

/// The places of a key.
#[derive(Clone, Copy)]
pub struct Places(pub &'static [usize]);

impl Shape for Places {
    type Part = Items<usize>;

    ghost part = { λ places. places.0.now };

    fn fits(&self, found: &Items<usize>) -> bool {
        found.as_slice() == self.0
    }
}

/// The order of a key's index: each column by its bytes, upwards.
#[derive(Clone, Copy)]
pub struct Plain;

impl Shape for Plain {
    type Part = Order;

    ghost use Rattle.sqlite_value.specs.Keys.{plain};

    ghost part = { λ _. plain };

    fn fits(&self, found: &Order) -> bool {
        found.digits == 0
    }
}

/// A foreign key, which is tested at once.
#[derive(Clone, Copy)]
pub struct ReferenceShape {
    pub columns: &'static [usize],
    pub parent: &'static str,
    pub parent_columns: &'static [Name],
    /// `ON DELETE CASCADE`; otherwise nothing becomes of its rows.
    pub cascades: bool,
}

/// Whether an action is this one.
fn is_action(action: Action, cascades: bool) -> bool
    ensures { (result ≡ true) ↔ (action ≡ spec.action_of cascades) }
{
    if cascades {
        matches!(action, Action::Cascade)
    } else {
        matches!(action, Action::NoAction)
    }
}

impl Shape for ReferenceShape {
    type Part = Reference;

    ghost use Rattle.sql_layouts.specs.Shapes.{reference_of};

    ghost part = { reference_of };

    fn fits(&self, found: &Reference) -> bool {
        let columns = found.columns.as_slice() == self.columns;
        let parent = found.parent.as_slice() == self.parent.as_bytes();
        let names = fit_all(self.parent_columns, found.parent_columns.as_slice());
        let deleted = is_action(found.on_delete, self.cascades);
        let updated = is_action(found.on_update, false);
        let at_once = !found.is_deferred;
        columns && parent && names && deleted && updated && at_once
    }
}

/// An index of a unique key.
#[derive(Clone, Copy)]
pub struct IndexShape {
    pub name: &'static str,
    pub columns: &'static [usize],
}
