//! The rows among which one is asked for: all, or those under another row.

ghost use Rattle.std.specs.Prelude.{◌≡◌, IfSome, option_map};
ghost use Rattle.kg_row_types.specs.ValidRows.{AreValidRows, IsValidRow};
ghost use Rattle.kg_row_queries.specs.RowRefs.{row_at};
ghost use Rattle.kg_row_queries.specs.Selections.{collection_of, parent_id, row_with_id, rows_in, selected};

use crate::find::selected;
use crate::row_ref::RowRef;
use crate::select::{Parent, Select};
use crate::under::selected_under;
use crate::{find, under};
use kg_entities::{Id, Kind, Rows};

/// The rows among which one is asked for.
#[derive(Clone, Copy)]
pub enum Collection {
    /// All of them.
    Anywhere,
    /// Those under the row of this kind and id.
    Under { kind: Kind, id: Id },
}

/// The rows among which one is asked for; none where their parent is missing.
pub fn collection_of(rows: &Rows, parent: &Option<Parent>) -> Option<Collection>
    ensures { result ≡ collection_of parent.now rows.now }
{
    match parent {
        None => Some(Collection::Anywhere),
        Some(parent) => match parent_id(rows, parent) {
            Some(id) => Some(Collection::Under {
                kind: parent.kind,
                id,
            }),
            None => None,
        },
    }
}

fn parent_id(rows: &Rows, parent: &Parent) -> Option<Id>
    ensures { result ≡ parent_id parent.now rows.now }
{
    match selected(rows, parent.kind, &parent.select) {
        Some(row) => Some(row.id()),
        None => None,
    }
}

/// The row of a kind that is meant, among those of a collection. It is valid where all rows are.
pub fn selected_in<'r>(
    rows: &'r Rows,
    kind: Kind,
    collection: &Collection,
    select: &Select,
) -> Option<RowRef<'r>>
    ensures row { option_map row_at result ≡ selected kind select.now (rows_in collection.now rows.now) }
    ensures valid { AreValidRows rows.now → IfSome result (λ row. IsValidRow (row_at row)) }
{
    among(rows, kind, collection, select) // apart: that the row is valid is proved of any such row
}

fn among<'r>(
    rows: &'r Rows,
    kind: Kind,
    collection: &Collection,
    select: &Select,
) -> Option<RowRef<'r>>
    ensures { option_map row_at result ≡ selected kind select.now (rows_in collection.now rows.now) }
{
    match collection {
        Collection::Anywhere => selected(rows, kind, select),
        Collection::Under { kind: upper, id } => selected_under(rows, kind, *upper, *id, select),
    }
}

/// The row of this kind and id, where it is one of a collection.
pub fn row_in<'r>(rows: &'r Rows, kind: Kind, collection: &Collection, id: Id) -> Option<RowRef<'r>>
    ensures { option_map row_at result ≡ row_with_id kind id (rows_in collection.now rows.now) }
{
    match collection {
        Collection::Anywhere => find::row_with_id(rows, kind, id),
        Collection::Under {
            kind: upper,
            id: above,
        } => { under::row_with_id(rows, kind, *upper, *above, id) }
    }
}
