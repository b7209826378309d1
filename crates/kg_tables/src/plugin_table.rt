//! The plugins, found also by their name and scope, which only one of them should have.

ghost use Rattle.std.specs.Prelude.{◌≡◌, [], ◌∷◌, ◌++◌, ◌==◌, ◌&&◌, false, OnOk, OnErr, find, filter, not};
ghost use Rattle.std.specs.Option.{option_copied};
ghost use Rattle.std.specs.List.{list_any};
ghost use Rattle.kg_row_types.specs.Tables.{replaced};
ghost use Rattle.kg_row_types.specs.ValidRows.{same_name_and_scope};
ghost use Rattle.kg_tables.specs.Others.{is_other};
ghost use Rattle.kg_tables.specs.PluginKeys.{key_of};
ghost use Rattle.kg_tables.specs.References.{refers};

use crate::key_index::{Holder, KeyIndex};
use crate::row::is_other;
use crate::table::RowTable;
use kg_row_types::entity::Kind;
use kg_row_types::id::Id;
use kg_row_types::plugin::PluginRow;
use kg_text::NoMemory;
use std::alloc::Global;
use std::marker::Model;

/// A plugin's priority, which no other name has, and the service, the route and the consumer of its scope.
type PluginKey = (u32, Option<Id>, Option<Id>, Option<Id>);

/// The plugins. Contracts see them as a list in the order of insertion. A plugin is found by its name
/// and scope without a search, unless several plugins have had them at the same time.
#[derive(Drop)]
pub struct PluginTable {
    table: RowTable<PluginRow>,
    keys: KeyIndex<PluginKey>,
}

impl Model for PluginTable {
    ghost use Rattle.std.specs.Prelude.{List};
    ghost use Rattle.kg_row_types.specs.declared.plugin.PluginRow.{PluginRow as Plugin};
    ghost use Rattle.kg_tables.specs.KeyIndexes.{IsIndex, holder_of};
    ghost use Rattle.kg_tables.specs.PluginKeys.{has_key, key_eq};

    ghost Value = { List Plugin };

    ghost view = { λ plugins. plugins.table };

    ghost invariant = { λ plugins. IsIndex (λ row. row.id) has_key (holder_of key_eq plugins.keys) plugins.table };
}

impl PluginTable {
    /// No plugins. It takes no memory.
    pub fn new(alloc: Global) -> PluginTable
        ensures { result ≡ [] }
    {
        PluginTable {
            table: RowTable::new(alloc),
            keys: KeyIndex::new(alloc),
        }
    }

    /// The plugins without their names and scopes.
    pub fn table(&self) -> &RowTable<PluginRow>
        ensures { result.now ≡ self.now }
    {
        &self.table
    }

    /// The first plugin of another id, where one is told, with the name and the scope of this one.
    pub fn other_like(&self, except: Option<Id>, plugin: &PluginRow) -> Option<&PluginRow>
        ensures { option_copied result ≡ find (λ other. is_other except other.id && same_name_and_scope other plugin.now) self.now }
    {
        match self.keys.holder(&key_of(plugin))? {
            Holder::Only(id) => self.table.other(except, id),
            Holder::Several => self.table.walk().find(|other| is_other(except, other.id)
                && is_like(other, plugin)),
        }
    }

    /// Adds a plugin at the end.
    pub fn push(&mut self, plugin: PluginRow) -> Result<(), NoMemory>
        requires new { list_any (λ other. other.id == plugin.id) self.old ≡ false }
        ensures ok { OnOk result (self.new ≡ self.old ++ plugin ∷ []) }
        ensures err { OnErr result (self.new ≡ self.old) }
    {
        let id = plugin.id;
        let key = key_of(&plugin);
        let Ok(()) = self.keys.reserve() else {
            drop(plugin); // let go by name: a short proof
            return Err(NoMemory);
        };
        self.table.push(plugin)?;
        self.keys.note(Some(key), id);
        Ok(())
    }

    /// Puts a plugin in the place of the one with its id, if there is one.
    pub fn replace(&mut self, plugin: PluginRow) -> Result<(), NoMemory>
        ensures ok { OnOk result (self.new ≡ replaced (λ other. other.id == plugin.id) plugin self.old) }
        ensures err { OnErr result (self.new ≡ self.old) }
    {
        let id = plugin.id;
        let key = key_of(&plugin);
        let Ok(()) = self.keys.reserve() else {
            drop(plugin); // let go by name: a short proof
            return Err(NoMemory);
        };
        self.table.ids_differ(); // for the proof: one row alone is replaced
        let Some(old) = self.table.replace(plugin)? else {
            return Ok(());
        };
        self.keys.exchange(Some(&key_of(&old)), Some(key), id);
        drop(old); // let go by name: a short proof
        Ok(())
    }

    /// Takes out the plugins with this id.
    pub fn remove(&mut self, id: Id)
        ensures { self.new ≡ filter (λ plugin. not (plugin.id == id)) self.old }
    {
        let Some(old) = self.table.remove(id) else {
            return;
        };
        self.keys.forget(Some(&key_of(&old)), id);
        drop(old); // let go by name: a short proof
    }

    /// Takes out the plugins whose scope names the row of this kind and id.
    pub fn remove_of(&mut self, kind: Kind, id: Id)
        ensures { self.new ≡ filter (λ plugin. not (refers kind id plugin.scope)) self.old }
    {
        while let Some(own) = self.table.first_id_of(kind, id) {
            self.remove(own);
        }
    }
}

fn key_of(plugin: &PluginRow) -> PluginKey
    ensures { result ≡ key_of plugin.now }
{
    let scope = plugin.scope;
    (
        plugin.config.name().priority(),
        scope.service,
        scope.route,
        scope.consumer,
    )
}

fn is_like(a: &PluginRow, b: &PluginRow) -> bool
    ensures { result ≡ same_name_and_scope a.now b.now }
{
    a.config.name().is_same(b.config.name()) && a.scope.is_same(&b.scope)
}
