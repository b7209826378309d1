//! What a request asks of the rows: keys of single values, and keys of whole generations.

ghost use Rattle.std.specs.Prelude.{◌≡◌, true, refl};
ghost use Rattle.std.proofs.Common.{ap};
ghost use Rattle.std.proofs.lemmas.Bool.{eqb-true};
ghost use Rattle.kg_text.specs.SameBytes.{same_bytes};

use crate::id::Id;
use kg_text::{CopyKey, NoMemory, Text, TryClone};
use std::alloc::Global;

/// A question about the rows that has one value.
#[derive(PartialEq, Eq, Hash, Drop)]
pub enum Key {
    /// The credential with this key.
    Cred(Text),
    /// The credential with this username.
    Basic(Text),
    /// The consumer with this id.
    Consumer(Id),
    /// The consumer whose printed id this is, else the one with this username.
    Named(Text),
    /// The groups of the consumer with this id.
    Acls(Id),
}

impl TryClone for Key {
    fn try_clone(&self, alloc: Global) -> Result<Key, NoMemory> {
        match self {
            Key::Cred(text) => Ok(Key::Cred(text.try_clone(alloc)?)),
            Key::Basic(text) => Ok(Key::Basic(text.try_clone(alloc)?)),
            Key::Consumer(id) => Ok(Key::Consumer(*id)),
            Key::Named(text) => Ok(Key::Named(text.try_clone(alloc)?)),
            Key::Acls(id) => Ok(Key::Acls(*id)),
        }
    }
}

impl CopyKey for Key {
    ghost use Rattle.kg_row_types.specs.declared.key.Key.TheVariants.{Cred, Basic, Consumer, Named, Acls};

    ghost eq_is_same = { elim [
      | Cred t ↦ elim [ Cred u ↦ λ h. ap Cred (same_bytes t u h) | Basic u ↦ λ h. Prim.cc | Consumer u ↦ λ h. Prim.cc | Named u ↦ λ h. Prim.cc | Acls u ↦ λ h. Prim.cc ]
      | Basic t ↦ elim [ Cred u ↦ λ h. Prim.cc | Basic u ↦ λ h. ap Basic (same_bytes t u h) | Consumer u ↦ λ h. Prim.cc | Named u ↦ λ h. Prim.cc | Acls u ↦ λ h. Prim.cc ]
      | Consumer t ↦ elim [ Cred u ↦ λ h. Prim.cc | Basic u ↦ λ h. Prim.cc | Consumer u ↦ λ h. ap Consumer (eqb-true t u h) | Named u ↦ λ h. Prim.cc | Acls u ↦ λ h. Prim.cc ]
      | Named t ↦ elim [ Cred u ↦ λ h. Prim.cc | Basic u ↦ λ h. Prim.cc | Consumer u ↦ λ h. Prim.cc | Named u ↦ λ h. ap Named (same_bytes t u h) | Acls u ↦ λ h. Prim.cc ]
      | Acls t ↦ elim [ Cred u ↦ λ h. Prim.cc | Basic u ↦ λ h. Prim.cc | Consumer u ↦ λ h. Prim.cc | Named u ↦ λ h. Prim.cc | Acls u ↦ λ h. ap Acls (eqb-true t u h) ]
    ] };

    fn copy(&self, alloc: Global) -> Result<Key, NoMemory> {
        self.try_clone(alloc)
    }
}

/// Rows that are read as a whole.
#[derive(Clone, Copy, Debug, PartialEq, Eq, Hash)]
pub enum GenKey {
    /// The services and the routes.
    Router,
    /// The plugin rows.
    Plugins,
}

impl CopyKey for GenKey {
    ghost use Rattle.kg_row_types.specs.declared.key.GenKey.TheVariants.{Router, Plugins};

    ghost eq_is_same = { elim [
      | Router ↦ elim [ Router ↦ λ h. refl | Plugins ↦ λ h. Prim.cc ]
      | Plugins ↦ elim [ Router ↦ λ h. Prim.cc | Plugins ↦ λ h. refl ]
    ] };

    fn copy(&self, _: Global) -> Result<GenKey, NoMemory> {
        Ok(*self)
    }
}
