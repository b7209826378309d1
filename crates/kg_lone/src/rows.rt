//! The gateway over the rows that commands insert.

ghost use Rattle.std.specs.Prelude.{◌≡◌, All, IfOk, OnOk, length};
ghost use Rattle.std.specs.Arc.{arc_value};
ghost use Rattle.kg_row_types.specs.ValidRows.{IsValidPlugin, IsValidRoute};
ghost use Rattle.kg_router.specs.RouterRows.{HasDistinctRoutes};
ghost use Rattle.kg_declare.specs.Histories.{AreInsertions};
ghost use Rattle.kg_declare.specs.Inserting.{InsertsNewRow};
ghost use Rattle.kg_row_values.specs.Rows.{changed, rows_after};
ghost use Rattle.kg_lone.specs.DryText.{most_rows};
ghost use Rattle.kg_lone.specs.InsertedRows.{AreGenerations, gateway_over, gateway_rows, listed_after, listed_in, with_row};

use kg_entities::{Entity, PluginRow, Route, Rows, Service};
use kg_plain::Gateway;
use kg_plugin_table::PluginGen;
use kg_router::RouterGen;
use kg_rows::Command;
use kg_text::{List, NoMemory};
use std::alloc::Global;
use std::sync::Arc;

/// The rows that a gateway answers by, in their order.
#[derive(Drop)]
pub struct Listing {
    services: List<Service>,
    routes: List<Route>,
    plugins: List<PluginRow>,
}

/// The gateway over the rows that the commands insert.
pub fn gateway_of(alloc: Global, commands: List<Command>) -> Result<Gateway, NoMemory>
    requires { AreInsertions most_rows commands }
    ensures { IfOk result (λ gateway. gateway ≡ gateway_rows (rows_after commands) (length commands)) }
{
    match declared_rows(alloc, commands.as_slice()) {
        Ok(rows) => gateway_with(alloc, commands, rows),
        Err(e) => {
            drop(commands); // let go by name: a short proof
            Err(e)
        }
    }
}

// The gateway over these rows, which the commands insert.
fn gateway_with(alloc: Global, commands: List<Command>, rows: Rows) -> Result<Gateway, NoMemory>
    requires inserts { AreInsertions most_rows commands }
    requires rows { rows ≡ rows_after commands }
    ensures { IfOk result (λ gateway. gateway ≡ gateway_rows rows (length commands)) }
{
    let count = commands.len() as u64;
    match inserted_rows(alloc, commands) {
        Ok(listing) => {
            let gateway = gateway_over(alloc, &listing, rows, count);
            drop(listing); // let go by name: a short proof
            gateway
        }
        Err(e) => {
            drop(rows);
            Err(e)
        }
    }
}

// The gateway over copies of the listed rows, with the values of all rows.
fn gateway_over(
    alloc: Global,
    listing: &Listing,
    rows: Rows,
    commands: u64,
) -> Result<Gateway, NoMemory>
    requires routes { All IsValidRoute listing.now.routes }
    requires distinct { HasDistinctRoutes listing.now.routes }
    requires plugins { All IsValidPlugin listing.now.plugins }
    ensures { IfOk result (λ gateway. gateway ≡ gateway_over listing.now rows commands) }
{
    match generations(alloc, listing) {
        Ok((router, plugins)) => Ok(Gateway::new(router, plugins, rows, commands)),
        Err(e) => {
            drop(rows); // let go by name: a short proof
            Err(e)
        }
    }
}

// The router and the plugins over copies of the listed rows.
fn generations(
    alloc: Global,
    listing: &Listing,
) -> Result<(Arc<RouterGen>, Arc<PluginGen>), NoMemory>
    requires routes { All IsValidRoute listing.now.routes }
    requires distinct { HasDistinctRoutes listing.now.routes }
    requires plugins { All IsValidPlugin listing.now.plugins }
    ensures { IfOk result (λ made. AreGenerations listing.now (arc_value made.0) (arc_value made.1)) }
{
    let router = RouterGen::build(alloc, 0, &listing.services, &listing.routes)?;
    let router = Arc::new(alloc, router)?;
    let plugins = PluginGen::build(alloc, 0, &listing.plugins)?;
    Ok((router, Arc::new(alloc, plugins)?))
}

// All rows that the commands insert.
fn declared_rows(alloc: Global, commands: &[Command]) -> Result<Rows, NoMemory>
    requires { AreInsertions most_rows commands.now }
    ensures { IfOk result (λ rows. rows ≡ rows_after commands.now) }
{
    let mut rows = Rows::new(alloc);
    for command in commands {
        // no `?` beside what is owned: a short proof
        match insert(alloc, &mut rows, command) {
            Ok(()) => {}
            Err(e) => {
                drop(rows);
                return Err(e);
            }
        }
    }
    Ok(rows)
}

fn insert(alloc: Global, rows: &mut Rows, command: &Command) -> Result<(), NoMemory>
    requires { InsertsNewRow rows.old command.now }
    ensures { OnOk result (rows.new ≡ changed command.now rows.old) }
{
    match command {
        Command::Insert(row) => rows.insert(alloc, row),
        Command::Update(_) => unreachable!(),
        Command::Delete { .. } => unreachable!(),
    }
}

fn inserted_rows(alloc: Global, commands: List<Command>) -> Result<Listing, NoMemory>
    ensures { IfOk result (λ listing. listing ≡ listed_in commands) }
{
    let mut listing = Listing {
        services: List::new(alloc),
        routes: List::new(alloc),
        plugins: List::new(alloc),
    };
    for command in commands.into_vec() {
        add_inserted(command, &mut listing)?;
    }
    Ok(listing)
}

fn add_inserted(command: Command, listing: &mut Listing) -> Result<(), NoMemory>
    ensures { OnOk result (listing.new ≡ listed_after listing.old command) }
{
    match command {
        Command::Insert(row) => add_row(row, listing),
        Command::Update(row) => {
            drop(row); // let go by name: a short proof
            Ok(())
        }
        Command::Delete { .. } => Ok(()),
    }
}

fn add_row(row: Entity, listing: &mut Listing) -> Result<(), NoMemory>
    ensures { OnOk result (listing.new ≡ with_row row listing.old) }
{
    // what isn't kept is let go by name: a short proof
    match row {
        Entity::Service(service) => listing.services.push(service),
        Entity::Route(route) => listing.routes.push(route),
        Entity::Plugin(plugin) => listing.plugins.push(plugin),
        Entity::Consumer(consumer) => {
            drop(consumer);
            Ok(())
        }
        Entity::KeyCred(key) => {
            drop(key);
            Ok(())
        }
        Entity::BasicCred(password) => {
            drop(password);
            Ok(())
        }
        Entity::Acl(group) => {
            drop(group);
            Ok(())
        }
    }
}
