//! What a row is made over that isn't there yet.

ghost use Rattle.std.specs.Prelude.{◌≡◌, IfOk, IfSome, option_map};
ghost use Rattle.kg_rows.specs.Decision.{base_by, base_by_text, base_by_word, own_id};
ghost use Rattle.kg_row_making.specs.Bases.{base_of, made_at};
ghost use Rattle.kg_row_queries.specs.RowRefs.{row_at};
ghost use Rattle.kg_schema.specs.ValidBases.{IsValidBase};

use kg_entities::{Id, Kind};
use kg_row_queries::{RowRef, Select};
use kg_schema::{Base, accepts_word};
use kg_text::{NoMemory, Text};
use std::alloc::Global;

/// What a row is made over by the id or the word by which it was asked for; none where the word isn't
/// one of its kind.
pub fn base_by(
    alloc: Global,
    kind: Kind,
    select: &Select,
    id: Id,
    now: u64,
) -> Result<Option<Base<'_>>, NoMemory>
    ensures base { IfOk result (λ base. option_map base_of base ≡ base_by kind select.now id now) }
    ensures valid { IfOk result (λ base. IfSome base (λ b. IsValidBase kind (base_of b))) }
{
    match select {
        Select::Id(own) => Ok(Some(Base::Again {
            id: *own,
            created_at: now / 1000,
            now,
        })),
        Select::Word(text) => base_by_text(alloc, kind, text, id, now),
    }
}

// A key credential is made by a text that tells an id as by that id.
fn base_by_text(
    alloc: Global,
    kind: Kind,
    text: &Text,
    id: Id,
    now: u64,
) -> Result<Option<Base<'_>>, NoMemory>
    ensures base { IfOk result (λ base. option_map base_of base ≡ base_by_text kind text.now id now) }
    ensures valid { IfOk result (λ base. IfSome base (λ b. IsValidBase kind (base_of b))) }
{
    match kind {
        Kind::KeyCred => match Id::parse(text.as_bytes()) {
            Some(own) => Ok(Some(Base::Again {
                id: own,
                created_at: now / 1000,
                now,
            })),
            None => base_by_word(alloc, Kind::KeyCred, text, id, now),
        },
        Kind::Service => base_by_word(alloc, Kind::Service, text, id, now),
        Kind::Route => base_by_word(alloc, Kind::Route, text, id, now),
        Kind::Consumer => base_by_word(alloc, Kind::Consumer, text, id, now),
        Kind::BasicCred => base_by_word(alloc, Kind::BasicCred, text, id, now),
        Kind::Acl => base_by_word(alloc, Kind::Acl, text, id, now),
        Kind::Plugin => base_by_word(alloc, Kind::Plugin, text, id, now),
    }
}

fn base_by_word(
    alloc: Global,
    kind: Kind,
    word: &Text,
    id: Id,
    now: u64,
) -> Result<Option<Base<'_>>, NoMemory>
    ensures base { IfOk result (λ base. option_map base_of base ≡ base_by_word kind word.now id now) }
    ensures valid { IfOk result (λ base. IfSome base (λ b. IsValidBase kind (base_of b))) }
{
    if accepts_word(alloc, kind, word)? {
        Ok(Some(Base::Word { id, word, now }))
    } else {
        Ok(None)
    }
}

/// The id of the row that isn't there yet, or of the old row.
pub fn own_id(base: &Base<'_>) -> Id
    ensures { result ≡ own_id (base_of base.now) }
{
    match base {
        Base::New { id, .. } => *id,
        Base::Again { id, .. } => *id,
        Base::Word { id, .. } => *id,
        Base::Old { row, .. } => row.id(),
    }
}

/// The time at which a row was made, in seconds.
pub fn made_at(row: &RowRef<'_>) -> u64
    ensures { result ≡ made_at (row_at row.now) }
{
    match row {
        RowRef::Service(row) => row.created_at,
        RowRef::Route(row) => row.created_at,
        RowRef::Consumer(row) => row.created_at,
        RowRef::KeyCred(row) => row.created_at,
        RowRef::BasicCred(row) => row.created_at,
        RowRef::Acl(row) => row.created_at,
        RowRef::Plugin(row) => row.created_at,
    }
}
