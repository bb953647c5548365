//! Columns and tables as schema 1 has them.
ghost use Rattle.std.specs.Prelude.{◌≡◌, ◌↔◌, [], ◌∷◌, Some, false, true, map, IsTrue};
ghost use Rattle.sqlite_value.specs.Keys.{plain};
ghost use Rattle.store_sql.specs.Schema.{automatic_of, column_of};
ghost use Rattle.store_loads.specs.Forms.{column_as, table_as};

use sqlite_items::Items;
use sqlite_schema::schema::{Column, Index, Kind, Table};
use sqlite_value::keys::{Collation, Order};
use sqlite_value::value::Value;

/// A column as schema 1 has it: its name, its kind, and whether it may not be NULL.
#[derive(Clone, Copy, Drop)]
pub(crate) struct Form<'a> {
    name: &'a str,
    kind: Kind,
    not_null: bool,
}

/// A number that may be NULL, as a key is in the tree of its table.
pub(crate) fn optional(name: &str) -> Form<'_>
    ensures value { column_as result ≡ column_of name.now Kind.Integer false }
{
    Form {
        name,
        kind: Kind::Integer,
        not_null: false,
    }
}

pub(crate) fn number(name: &str) -> Form<'_>
    ensures value { column_as result ≡ column_of name.now Kind.Integer true }
{
    Form {
        name,
        kind: Kind::Integer,
        not_null: true,
    }
}

pub(crate) fn text(name: &str) -> Form<'_>
    ensures value { column_as result ≡ column_of name.now Kind.Text true }
{
    Form {
        name,
        kind: Kind::Text,
        not_null: true,
    }
}

pub(crate) fn blob(name: &str) -> Form<'_>
    ensures value { column_as result ≡ column_of name.now Kind.Any true }
{
    Form {
        name,
        kind: Kind::Any,
        not_null: true,
    }
}

fn is_column(column: &Column, form: &Form<'_>) -> bool
    ensures exact { IsTrue result ↔ (column.now ≡ column_as form.now) }
{
    column.name.as_slice() == form.name.as_bytes()
        && column.kind == form.kind
        && column.not_null == form.not_null
        && !column.is_strict
        && matches!(column.default, Value::Null)
        && column.collation == Collation::Binary
}

fn are_columns(columns: &[Column], forms: &[Form<'_>]) -> bool
    ensures exact { IsTrue result ↔ (columns.now ≡ map column_as forms.now) }
{
    match (columns, forms) {
        ([], []) => true,
        ([column, columns @ ..], [form, forms @ ..]) => is_column(column, form)
            && are_columns(columns, forms),
        _ => false,
    }
}

/// Whether there is one place, this one.
fn is_alone(places: &[usize], place: usize) -> bool
    ensures exact { IsTrue result ↔ (places.now ≡ place ∷ []) }
{
    match places {
        [at] => *at == place,
        _ => false,
    }
}

/// Whether each UNIQUE is over one column, at these places.
fn are_uniques(uniques: &[Items<usize>], places: &[usize]) -> bool
    ensures exact { IsTrue result ↔ (uniques.now ≡ map (λ place. place ∷ []) places.now) }
{
    match (uniques, places) {
        ([], []) => true,
        ([unique, uniques @ ..], [place, places @ ..]) => is_alone(unique.as_slice(), *place)
            && are_uniques(uniques, places),
        _ => false,
    }
}

/// Whether there are so many orders, all ascending.
fn are_plain(orders: &[Order], places: &[usize]) -> bool
    ensures exact { IsTrue result ↔ (orders.now ≡ map (λ _. plain) places.now) }
{
    match (orders, places) {
        ([], []) => true,
        ([order, orders @ ..], [_, places @ ..]) => *order == Order::PLAIN
            && are_plain(orders, places),
        _ => false,
    }
}

/// Whether the key is the first column, and the rowid.
fn is_keyed(table: &Table) -> bool
    ensures exact { IsTrue result
        ↔ ((table.now.key ≡ Some 0) × (table.now.primary ≡ 0 ∷ [])
        × (table.now.is_counted ≡ false)) }
{
    table.key == Some(0) && is_alone(table.primary.as_slice(), 0) && !table.is_counted
}

/// Whether nothing is said of the table's rows but by its columns and its UNIQUEs.
fn is_plain(table: &Table) -> bool
    ensures exact { IsTrue result
        ↔ ((table.now.checks ≡ []) × (table.now.references ≡ []) × (table.now.computed ≡ [])
        × (table.now.stamps ≡ record { places = []; terms = []; formats = [] })) }
{
    table.checks.roots.is_empty()
        && table.references.is_empty()
        && table.computed.is_empty()
        && table.stamps.places.is_empty()
        && table.stamps.terms.roots.is_empty()
        && table.stamps.formats.is_empty()
}

/// Whether the table has this name, this place in the store, and these columns, of which those at
/// these places are unique.
pub(crate) fn is_table(
    table: &Table,
    name: &str,
    tree: u32,
    forms: &[Form<'_>],
    places: &[usize],
) -> bool
    ensures exact { IsTrue result
        ↔ (table.now ≡ table_as name.now tree (map column_as forms.now) places.now) }
{
    table.name.as_slice() == name.as_bytes()
        && table.tree == tree
        && are_columns(table.columns.as_slice(), forms)
        && are_uniques(table.uniques.as_slice(), places)
        && are_plain(table.orders.as_slice(), places)
        && is_keyed(table)
        && is_plain(table)
}

/// Whether the index is the one that a UNIQUE made over the column at this place of a table.
pub(crate) fn is_index(index: &Index, name: &str, tree: u32, table: u32, place: usize) -> bool
    ensures exact { IsTrue result ↔ (index.now ≡ automatic_of name.now tree table place) }
{
    index.name.as_slice() == name.as_bytes()
        && index.tree == tree
        && index.table == table
        && is_alone(index.columns.as_slice(), place)
        && index.order == Order::PLAIN
        && index.is_unique
}
