//! The choice of a plugin's row.

ghost use Rattle.std.specs.Prelude.{◌≡◌, All, IfOk, IfSome, slice_get};
ghost use Rattle.std.specs.Option.{option_copied};
ghost use Rattle.kg_row_types.specs.ValidRows.{IsValidPlugin};
ghost use Rattle.kg_plugin_table.specs.Keys.{rank_of};
ghost use Rattle.kg_plugin_table.specs.PluginRows.{IsPlaceOf};
ghost use Rattle.kg_plugin_table.specs.Precedence.{chosen_row, row_with};

use crate::names::RowNames;
use crate::places::RowPlaces;
use crate::precedence::{PRECEDENCE, Parts, rank_of, scope_with};
use crate::ranks::RowRanks;
use kg_row_types::plugin::{PluginName, PluginRow, Scope};
use kg_text::{List, NoMemory, TryClone};
use std::alloc::Global;
use std::marker::Model;

/// The plugin rows of one revision of the configuration, ready to be chosen. Contracts see the revision and the
/// rows that it was built from.
#[derive(Drop)]
pub struct PluginGen {
    rev: u64,
    rows: List<PluginRow>,
    names: RowNames,
    ranks: RowRanks,
    places: RowPlaces,
}

impl Model for PluginGen {
    ghost use Rattle.std.specs.Prelude.{All};
    ghost use Rattle.kg_row_types.specs.ValidRows.{IsValidPlugin};
    ghost use Rattle.kg_plugin_table.specs.Keys.{ArePlaces};
    ghost use Rattle.kg_plugin_table.specs.Names.{AreNames};
    ghost use Rattle.kg_plugin_table.specs.Ranks.{AreRanks};
    ghost use Rattle.kg_plugin_table.specs.PluginRows.{PluginRows};

    ghost Value = { PluginRows };

    ghost view = { λ gen. record { rev = gen.rev; rows = gen.rows } };

    ghost invariant = { λ gen. All IsValidPlugin gen.rows × AreNames gen.rows gen.names × ArePlaces gen.rows gen.places × AreRanks gen.rows gen.ranks };
}

impl PluginGen {
    /// Copies of these rows. They are valid.
    pub fn build(alloc: Global, rev: u64, rows: &List<PluginRow>) -> Result<PluginGen, NoMemory>
        requires valid { All IsValidPlugin rows.now }
        ensures { IfOk result (λ gen. gen ≡ record { rev = rev; rows = rows.now }) }
    {
        let rows = rows.try_clone(alloc)?;
        let names = RowNames::of(alloc, rows.as_slice())?;
        let ranks = RowRanks::of(alloc, rows.as_slice())?;
        let places = RowPlaces::of(alloc, rows.as_slice())?;
        Ok(PluginGen {
            rev,
            rows,
            names,
            ranks,
            places,
        })
    }

    /// The row of this plugin that runs for a request of this scope: of the enabled rows whose set parts are all
    /// the request's own, the one that is tied most closely to it. It takes no memory. Only scopes are
    /// looked up that set the parts of some enabled row of the plugin: at most eight, whatever the number of rows.
    pub fn choose(&self, name: PluginName, scope: &Scope) -> Option<&PluginRow>
        ensures chosen { option_copied result ≡ chosen_row self.now.rows name scope.now }
        ensures valid { IfSome (option_copied result) IsValidPlugin }
    {
        let place = self.choose_place(name, scope)?;
        self.row_at(place)
    }

    /// The place among the rows of the one that `choose` gives.
    pub fn choose_place(&self, name: PluginName, scope: &Scope) -> Option<usize>
        ensures { IsPlaceOf self.now.rows (chosen_row self.now.rows name scope.now) result }
    {
        if !self.names.has(name) {
            return None;
        }
        for parts in PRECEDENCE {
            match self.place_with(name, scope, parts) {
                Some(place) => return Some(place),
                None => {}
            }
        }
        None
    }

    // The place of the row that runs with the precedence of these parts.
    fn place_with(&self, name: PluginName, scope: &Scope, parts: Parts) -> Option<usize>
        ensures { IsPlaceOf self.now.rows (row_with self.now.rows name scope.now (rank_of parts)) result }
    {
        if !self.ranks.has(name, rank_of(parts)) {
            return None;
        }
        let exact = scope_with(parts, scope)?;
        self.places.get(name, &exact)
    }

    /// The row at a place, if one is there.
    pub fn row_at(&self, place: usize) -> Option<&PluginRow>
        ensures row { option_copied result ≡ slice_get self.now.rows place }
        ensures valid { IfSome (option_copied result) IsValidPlugin }
    {
        self.rows.get(place)
    }

    /// The rows that it was built from, in their order.
    pub fn rows(&self) -> &[PluginRow]
        ensures { result.now ≡ self.now.rows }
    {
        self.rows.as_slice()
    }

    /// The revision that it was built for.
    pub fn rev(&self) -> u64
        ensures { result ≡ self.now.rev }
    {
        self.rev
    }
}
