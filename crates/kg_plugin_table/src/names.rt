//! Which plugins have an enabled row, so that one without costs a request no look-up.

ghost use Rattle.std.specs.Prelude.{◌≡◌, ◌||◌, IfOk, OnOk};
ghost use Rattle.kg_row_types.specs.PluginNames.{priority};
ghost use Rattle.kg_row_types.specs.declared.plugin.PluginName.{PluginName as AName};
ghost use Rattle.kg_plugin_table.specs.Names.{AreNames, has_priority, is_row_of};

use kg_row_types::plugin::{PluginName, PluginRow};
use kg_text::NoMemory;
use std::alloc::Global;

/// The priorities of the plugins that have an enabled row, each once. A priority stands for its name.
#[derive(Drop)]
pub struct RowNames {
    priorities: Vec<u32>,
}

impl RowNames {
    /// Those of these rows.
    pub fn of(alloc: Global, rows: &[PluginRow]) -> Result<RowNames, NoMemory>
        ensures { IfOk result (λ names. AreNames rows.now names) }
    {
        let mut names = RowNames {
            priorities: Vec::new(alloc),
        };
        for row in rows {
            names.note(row)?;
        }
        Ok(names)
    }

    // The row's plugin has an enabled row, if the row is enabled.
    fn note(&mut self, row: &PluginRow) -> Result<(), NoMemory>
        ensures { OnOk result ((name : AName) → has_priority (priority name) self.new ≡ (has_priority (priority name) self.old || is_row_of name row.now)) }
    {
        let name = row.config.name();
        if row.enabled && !self.has(name) {
            self.priorities.push(name.priority())?;
        }
        Ok(())
    }

    /// Has the plugin an enabled row?
    pub fn has(&self, name: PluginName) -> bool
        ensures { result ≡ has_priority (priority name) self.now }
    {
        self.priorities.iter().any(|one| *one == name.priority())
    }
}
