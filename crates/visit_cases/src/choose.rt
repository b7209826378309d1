//! Which row runs.

use case_lines::{Args, put};
use kg_plain::Gateway;
use kg_plugin_table::{PluginGen, choose_by_search};
use kg_row_types::id::Id;
use kg_row_types::plugin::{PluginName, PluginRow, Scope};
use kg_text::NoMemory;

/// Adds the number of the row of this plugin that runs for a request of this service, route and consumer, by the
/// index and by a search of all rows.
pub fn put_chosen(
    out: &mut String,
    gateway: &Option<Box<Gateway>>,
    args: &Args,
) -> Result<(), NoMemory> {
    match (gateway, PluginName::named(args.text(0))) {
        (Some(gateway), Some(name)) => put_row(out, gateway.plugins(), name, scope_of(args)),
        _ => put(out, "no rows, or no such plugin"),
    }
}

fn scope_of(args: &Args) -> Scope {
    Scope {
        service: id_of(args.text(1)),
        route: id_of(args.text(2)),
        consumer: id_of(args.text(3)),
    }
}

// The id of a number below 256, as it is drawn.
fn id_of(number: &str) -> Option<Id> {
    match number.parse() {
        Ok(last) => Some(Id::from_drawn([0, 0, 0, 0, 0, 0, 0, 0, 0, 0, 0, 0, 0, 0, 0, last])),
        Err(_) => None,
    }
}

fn put_row(
    out: &mut String,
    plugins: &PluginGen,
    name: PluginName,
    scope: Scope,
) -> Result<(), NoMemory> {
    let chosen = number_of(plugins.choose(name, &scope));
    if chosen != number_of(choose_by_search(plugins.rows(), name, &scope)) {
        return put(out, "the index and the search differ");
    }
    match chosen {
        Some(number) => {
            write!(out, "{number}")?;
            Ok(())
        }
        None => put(out, "none"),
    }
}

// What an id was drawn with, in its last byte.
fn number_of(row: Option<&PluginRow>) -> Option<u128> {
    match row {
        Some(row) => Some(row.id.number() % 256),
        None => None,
    }
}
