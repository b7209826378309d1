//! The rows of one kind, found also by each text that only one of them should have.

ghost use Rattle.std.specs.Prelude.{◌≡◌, ℕ, List, ◌<◌, [], ◌∷◌, ◌++◌, ◌==◌, ◌&&◌, false, IfOk, OnOk, OnErr, find, filter, not};
ghost use Rattle.std.specs.Str.{bytes_eq};
ghost use Rattle.indexmap.specs.IndexMap.{spare};
ghost use Rattle.std.specs.Option.{option_copied};
ghost use Rattle.std.specs.List.{list_any};
ghost use Rattle.kg_row_types.specs.Lookups.{is_text};
ghost use Rattle.kg_row_types.specs.Tables.{replaced};
ghost use Rattle.kg_tables.specs.KeyIndexes.{holder_of};
ghost use Rattle.kg_tables.specs.Others.{is_other};
ghost use Rattle.kg_tables.specs.References.{refers};

use crate::key_index::{Holder, KeyIndex};
use crate::row::{Named, is_other};
use crate::table::RowTable;
use kg_row_types::entity::Kind;
use kg_row_types::id::Id;
use kg_text::{NoMemory, Text, TryClone};
use std::alloc::Global;
use std::marker::Model;

/// The rows of one kind. Contracts see them as a list in the order of insertion. A row is found by its
/// name or its alias without a search, unless several rows have had that text at the same time.
#[derive(Drop)]
pub struct NamedTable<T: Named> {
    table: RowTable<T>,
    names: KeyIndex<Text>,
    aliases: KeyIndex<Text>,
}

impl<T: Named> Model for NamedTable<T> {
    ghost use Rattle.std.specs.Prelude.{List};
    ghost use Rattle.std.specs.Coded.{coded_list};
    ghost use Rattle.std.specs.Str.{bytes_eq};
    ghost use Rattle.kg_row_types.specs.Lookups.{is_text};
    ghost use Rattle.kg_tables.specs.KeyIndexes.{IsIndex, holder_of};

    ghost Value = { List T };

    ghost coded = { coded_list T.code };

    ghost view = { λ rows. rows.table };

    ghost invariant = { λ rows. IsIndex T.number (λ text row. is_text text (T.name row)) (holder_of bytes_eq rows.names) rows.table × IsIndex T.number (λ text row. is_text text (T.alias row)) (holder_of bytes_eq rows.aliases) rows.table };
}

impl<T: Named> NamedTable<T> {
    /// No rows. It takes no memory.
    pub fn new(alloc: Global) -> NamedTable<T>
        ensures { result ≡ [] }
    {
        NamedTable {
            table: RowTable::new(alloc),
            names: KeyIndex::new(alloc),
            aliases: KeyIndex::new(alloc),
        }
    }

    /// The rows without their texts.
    pub fn table(&self) -> &RowTable<T>
        ensures { result.now ≡ self.now }
    {
        &self.table
    }

    /// The first row with this name.
    pub fn with_name(&self, text: &Text) -> Option<&T>
        ensures { option_copied result ≡ find (λ row. is_text text.now (T.name row)) self.now }
    {
        self.other_with_name(None, text)
    }

    /// The first row with this alias.
    pub fn with_alias(&self, text: &Text) -> Option<&T>
        ensures { option_copied result ≡ find (λ row. is_text text.now (T.alias row)) self.now }
    {
        self.other_with_alias(None, text)
    }

    /// The first row of another id, where one is told, with this name.
    pub fn other_with_name(&self, except: Option<Id>, text: &Text) -> Option<&T>
        ensures { option_copied result ≡ find (λ row. is_other except (T.number row) && is_text text.now (T.name row)) self.now }
    {
        match self.names.holder(text)? {
            Holder::Only(id) => self.table.other(except, id),
            Holder::Several => self
                .table
                .walk()
                .find(|row| is_other(except, row.id()) && is(row.name(), text)),
        }
    }

    /// The first row of another id, where one is told, with this alias.
    pub fn other_with_alias(&self, except: Option<Id>, text: &Text) -> Option<&T>
        ensures { option_copied result ≡ find (λ row. is_other except (T.number row) && is_text text.now (T.alias row)) self.now }
    {
        match self.aliases.holder(text)? {
            Holder::Only(id) => self.table.other(except, id),
            Holder::Several => self
                .table
                .walk()
                .find(|row| is_other(except, row.id()) && is(row.alias(), text)),
        }
    }

    /// Adds a row at the end.
    pub fn push(&mut self, alloc: Global, row: T) -> Result<(), NoMemory>
        requires new { list_any (λ other. T.number other == T.number row) self.old ≡ false }
        ensures ok { OnOk result (self.new ≡ self.old ++ row ∷ []) }
        ensures err { OnErr result (self.new ≡ self.old) }
    {
        let id = row.id();
        let texts = texts_for(alloc, &row, &mut self.names, &mut self.aliases)?;
        let (name, alias) = texts;
        self.table.push(row)?;
        self.names.note(name, id);
        self.aliases.note(alias, id);
        Ok(())
    }

    /// Puts a row in the place of the one with its id, if there is one.
    pub fn replace(&mut self, alloc: Global, row: T) -> Result<(), NoMemory>
        ensures ok { OnOk result (self.new ≡ replaced (λ other. T.number other == T.number row) row self.old) }
        ensures err { OnErr result (self.new ≡ self.old) }
    {
        let id = row.id();
        let texts = texts_for(alloc, &row, &mut self.names, &mut self.aliases)?;
        let (name, alias) = texts;
        self.table.ids_differ(); // for the proof: one row alone is replaced
        let Some(old) = self.table.replace(row)? else {
            return Ok(());
        };
        self.names.exchange(old.name(), name, id);
        self.aliases.exchange(old.alias(), alias, id);
        drop(old); // let go by name: a short proof
        Ok(())
    }

    /// Takes out the rows with this id.
    pub fn remove(&mut self, id: Id)
        ensures { self.new ≡ filter (λ row. not (T.number row == id)) self.old }
    {
        let Some(old) = self.table.remove(id) else {
            return;
        };
        self.names.forget(old.name(), id);
        self.aliases.forget(old.alias(), id);
        drop(old); // let go by name: a short proof
    }

    /// Takes out the rows that name the row of this kind and id.
    pub fn remove_of(&mut self, kind: Kind, id: Id)
        ensures { self.new ≡ filter (λ row. not (refers kind id (T.references row))) self.old }
    {
        while let Some(own) = self.table.first_id_of(kind, id) {
            self.remove(own);
        }
    }
}

// Room in the indexes for the texts of a row, and copies of them.
fn texts_for<T: Named>(
    alloc: Global,
    row: &T,
    names: &mut KeyIndex<Text>,
    aliases: &mut KeyIndex<Text>,
) -> Result<(Option<Text>, Option<Text>), NoMemory>
    ensures texts { IfOk result (λ texts. (texts.0 ≡ T.name row.now) × (texts.1 ≡ T.alias row.now)) }
    ensures room { OnOk result ((0 < spare names.new.holders) × (0 < spare aliases.new.holders)) }
    ensures names { (key : List ℕ) → holder_of bytes_eq names.new key ≡ holder_of bytes_eq names.old key }
    ensures aliases { (key : List ℕ) → holder_of bytes_eq aliases.new key ≡ holder_of bytes_eq aliases.old key }
{
    names.reserve()?;
    aliases.reserve()?;
    let name = copied(alloc, row.name())?;
    let alias = copied(alloc, row.alias())?;
    Ok((name, alias))
}

fn copied(alloc: Global, text: Option<&Text>) -> Result<Option<Text>, NoMemory>
    ensures { IfOk result (λ copy. copy ≡ option_copied text.entry) }
{
    match text {
        Some(text) => Ok(Some(text.try_clone(alloc)?)),
        None => Ok(None),
    }
}

fn is(set: Option<&Text>, text: &Text) -> bool
    ensures { result ≡ is_text text.now (option_copied set.entry) }
{
    match set {
        Some(other) => other == text,
        None => false,
    }
}
