//! Finished rows are valid.

ghost use Rattle.std.specs.Prelude.{IfSome};
ghost use Rattle.kg_row_making.specs.Bases.{base_of};
ghost use Rattle.kg_row_types.specs.Ids.{IsId};
ghost use Rattle.kg_schema.specs.ValidBases.{AreIds, HasId, MakesValidRows};

use kg_row_making::base::{Base, Links};
use kg_row_types::id::Id;

/// A body that breaks no rule between fields makes a valid row over an old row that is valid, and as a
/// new row, where its kind takes the word by which it is made: a law, for proofs.
pub fn finished_rows_are_valid()
    ensures { MakesValidRows }
{}

/// The base's id is one: a law, for proofs.
pub fn base_has_id(base: &Base<'_>)
    ensures { HasId (base_of base.now) }
{
    match base {
        Base::New { id, .. } => is_id(Some(*id)),
        Base::Again { id, .. } => is_id(Some(*id)),
        Base::Word { id, .. } => is_id(Some(*id)),
        Base::Old { .. } => {}
    }
}

/// The rows that a row names are named by ids: a law, for proofs.
pub fn links_are_ids(links: &Links)
    ensures { AreIds links.now }
{
    is_id(links.service);
    is_id(links.route);
    is_id(links.consumer);
}

fn is_id(id: Option<Id>)
    ensures { IfSome id IsId }
{
    match id {
        Some(id) => {
            let _number = id.number(); // its clause says that it is an id's
        }
        None => {}
    }
}
