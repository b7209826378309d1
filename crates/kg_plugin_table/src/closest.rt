//! A law on the choice of a row.

ghost use Rattle.std.specs.Prelude.{List};
ghost use Rattle.kg_row_types.specs.declared.plugin.PluginName.{PluginName};
ghost use Rattle.kg_row_types.specs.declared.plugin.PluginRow.{PluginRow};
ghost use Rattle.kg_row_types.specs.declared.plugin.Scope.{Scope};
ghost use Rattle.kg_plugin_table.specs.Closest.{IsChoice};
ghost use Rattle.kg_plugin_table.specs.Precedence.{chosen_row};

/// Of the rows of a plugin that may run for a request none is tied more closely to it than the chosen one; where
/// none is chosen, none may run: a law, for proofs.
pub fn chosen_row_is_the_closest()
    ensures { (rows : List PluginRow) (name : PluginName) (request : Scope) → IsChoice rows name request (chosen_row rows name request) }
{}
