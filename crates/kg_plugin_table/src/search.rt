//! The choice of a plugin's row by a search of all rows: what `PluginGen` answers by its index.

ghost use Rattle.std.specs.Prelude.{◌≡◌};
ghost use Rattle.std.specs.Option.{option_copied};
ghost use Rattle.kg_plugin_table.specs.Precedence.{chosen_row, row_with, runs_with};

use crate::precedence::precedence_of;
use kg_row_types::plugin::{PluginName, PluginRow, Scope};

/// As `PluginGen::choose`, over any rows. It takes time in the number of rows.
pub fn choose_by_search<'a>(
    rows: &'a [PluginRow],
    name: PluginName,
    scope: &Scope,
) -> Option<&'a PluginRow>
    ensures { option_copied result ≡ chosen_row rows.now name scope.now }
{
    for precedence in [1, 2, 3, 4, 5, 6, 7, 8] {
        match row_with(rows, name, scope, precedence) {
            Some(row) => return Some(row),
            None => {}
        }
    }
    None
}

fn row_with<'a>(
    rows: &'a [PluginRow],
    name: PluginName,
    scope: &Scope,
    precedence: u32,
) -> Option<&'a PluginRow>
    ensures { option_copied result ≡ row_with rows.now name scope.now precedence }
{
    rows.iter()
        .find(|row| runs_with(name, scope, precedence, row))
}

fn runs_with(name: PluginName, request: &Scope, precedence: u32, row: &PluginRow) -> bool
    ensures { result ≡ runs_with name request.now precedence row.now }
{
    row.enabled
        && row.config.name().is_same(name)
        && precedence_of(&row.scope, request) == Some(precedence)
}
