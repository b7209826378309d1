//! Which parts the scopes of a plugin's enabled rows set, so that no other scope is looked up for a request.

ghost use Rattle.std.specs.Prelude.{◌≡◌, ◌||◌, ℕ, IfOk, OnOk};
ghost use Rattle.kg_row_types.specs.PluginNames.{priority};
ghost use Rattle.kg_row_types.specs.declared.plugin.PluginName.{PluginName as AName};
ghost use Rattle.kg_plugin_table.specs.Ranks.{AreRanks, has_rank, is_row_with};

use crate::precedence::rank_of_scope;
use kg_row_types::plugin::{PluginName, PluginRow};
use kg_text::NoMemory;
use std::alloc::Global;

/// The ranks of the scopes of enabled rows, with the priorities of their plugins, each pair once.
#[derive(Drop)]
pub struct RowRanks {
    ranks: Vec<(u32, u32)>,
}

impl RowRanks {
    /// Those of these rows.
    pub fn of(alloc: Global, rows: &[PluginRow]) -> Result<RowRanks, NoMemory>
        ensures { IfOk result (λ ranks. AreRanks rows.now ranks) }
    {
        let mut ranks = RowRanks {
            ranks: Vec::new(alloc),
        };
        for row in rows {
            ranks.note(row)?;
        }
        Ok(ranks)
    }

    // The row's plugin has an enabled row of its rank, if the row is enabled.
    fn note(&mut self, row: &PluginRow) -> Result<(), NoMemory>
        ensures { OnOk result ((name : AName) (rank : ℕ) → has_rank (priority name) rank self.new ≡ (has_rank (priority name) rank self.old || is_row_with name rank row.now)) }
    {
        let name = row.config.name();
        let rank = rank_of_scope(&row.scope);
        if row.enabled && !self.has(name, rank) {
            self.ranks.push((name.priority(), rank))?;
        }
        Ok(())
    }

    /// Has the plugin an enabled row whose scope has this rank?
    pub fn has(&self, name: PluginName, rank: u32) -> bool
        ensures { result ≡ has_rank (priority name) rank self.now }
    {
        self.ranks
            .iter()
            .any(|one| one.0 == name.priority() && one.1 == rank)
    }
}
