//! Where the enabled rows stand, by their names and scopes, so that no list is searched for a request.

ghost use Rattle.std.specs.Prelude.{◌≡◌, ℕ, IfOk, None, OnOk, Some, if◌then◌else◌};
ghost use Rattle.std.specs.Option.{option_or};
ghost use Rattle.kg_plugin_table.specs.Keys.{ArePlaces, Key as AKey, has_key, key_eq, key_of, place_in};

use indexmap::IndexMap;
use kg_row_types::id::Id;
use kg_row_types::plugin::{PluginName, PluginRow, Scope};
use kg_text::NoMemory;
use std::alloc::Global;

/// A plugin's priority, which no other name has, and the consumer, the route and the service of a scope.
type PluginKey = (u32, Option<Id>, Option<Id>, Option<Id>);

/// For each name and scope of some enabled row the place of the first one that has them.
#[derive(Drop)]
pub struct RowPlaces {
    by_key: IndexMap<PluginKey, usize>,
}

impl RowPlaces {
    /// The places of these rows.
    pub fn of(alloc: Global, rows: &[PluginRow]) -> Result<RowPlaces, NoMemory>
        ensures { IfOk result (λ places. ArePlaces rows.now places) }
    {
        let mut places = RowPlaces::new(alloc);
        for (place, row) in rows.iter().enumerate() {
            places.note_row(row, place)?;
        }
        Ok(places)
    }

    fn new(alloc: Global) -> RowPlaces
        ensures { (key : AKey) → place_in result key ≡ None }
    {
        RowPlaces {
            by_key: IndexMap::new(alloc),
        }
    }

    // The row stands here. One that isn't enabled is nowhere.
    fn note_row(&mut self, row: &PluginRow, place: usize) -> Result<(), NoMemory>
        ensures { OnOk result ((key : AKey) → place_in self.new key ≡ option_or (place_in self.old key) (if has_key key row.now then Some place else None)) }
    {
        if row.enabled {
            self.note(key_of(row.config.name(), &row.scope), place)
        } else {
            Ok(())
        }
    }

    // The row of this key stands here, unless an earlier one has the key.
    fn note(&mut self, key: PluginKey, place: usize) -> Result<(), NoMemory>
        ensures { OnOk result ((other : AKey) → place_in self.new other ≡ option_or (place_in self.old other) (if key_eq key other then Some place else None)) }
    {
        if self.by_key.get(&key).is_none() {
            self.by_key.insert(key, place)?;
        }
        Ok(())
    }

    /// Where the first enabled row of this name stands that has just this scope.
    pub fn get(&self, name: PluginName, scope: &Scope) -> Option<usize>
        ensures { result ≡ place_in self.now (key_of name scope.now) }
    {
        self.by_key.get(&key_of(name, scope)).copied()
    }
}

fn key_of(name: PluginName, scope: &Scope) -> PluginKey
    ensures { result ≡ key_of name scope.now }
{
    (name.priority(), scope.consumer, scope.route, scope.service)
}
