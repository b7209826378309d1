//! The services and routes of a router.

ghost use Rattle.std.specs.Prelude.{IfOk};
ghost use Rattle.kg_row_types.specs.ValidRows.{IsValidRoute, IsValidRow};

use crate::find::put_found;
use crate::ids::drawn;
use crate::routes::Routes;
use crate::state::State;
use case_lines::{Args, put, put_unknown};
use kg_row_types::entity::{Entity, Kind};
use kg_row_types::id::Id;
use kg_row_types::route::Route;
use kg_row_types::service::Service;
use kg_schema::{Base, Form, FormError, Links, finish, read_form};
use kg_text::{List, NoMemory, Text};
use serde_json::Value;
use std::alloc::Global;

pub fn put_router_answer(
    alloc: Global,
    out: &mut String,
    state: &mut State,
    call: &str,
    args: &Args,
) -> Result<(), NoMemory> {
    match call {
        "none" => {
            state.clear(alloc);
            put(out, "none")
        }
        "service" => put_service(alloc, out, &mut state.services, args.text(0), true),
        "disabled" => put_service(alloc, out, &mut state.services, args.text(0), false),
        "add" => put_added(alloc, out, &mut state.routes, args),
        "find" => put_found(alloc, out, state, args),
        _ => put_unknown(out),
    }
}

// Adds a service with the id of this number.
fn put_service(
    alloc: Global,
    out: &mut String,
    services: &mut List<Service>,
    number: &str,
    enabled: bool,
) -> Result<(), NoMemory> {
    let host = Text::from_str(alloc, "up.example")?;
    services.push(Service {
        id: drawn(number),
        name: None,
        enabled,
        host,
        port: 80,
        path: None,
        retries: 5,
        created_at: 0,
        updated_at: 0,
    })?;
    put(out, "one more")
}

// Adds the route of this body, to the service of this number.
fn put_added(
    alloc: Global,
    out: &mut String,
    routes: &mut Routes,
    args: &Args,
) -> Result<(), NoMemory> {
    match row_of(alloc, drawn(args.text(0)), args.at(1)) {
        Ok(row) => put_row(out, routes, row),
        Err(FormError::Violation(broken)) => {
            drop(broken);
            put(out, "refused")
        }
        Err(FormError::NoMemory) => Err(NoMemory),
    }
}

fn row_of(alloc: Global, service: Id, body: &[u8]) -> Result<Entity, FormError>
    ensures { IfOk result IsValidRow }
{
    let form = form_of(alloc, body)?;
    let links = Links {
        service: Some(service),
        route: None,
        consumer: None,
    };
    let base = Base::New {
        id: drawn("0"),
        now: 0,
    };
    finish(alloc, &form, base, &links)
}

fn form_of(alloc: Global, body: &[u8]) -> Result<Form, FormError> {
    match Value::from_slice(alloc, body) {
        Ok(value) => read_form(alloc, Kind::Route, &value),
        Err(_) => Err(FormError::NoMemory),
    }
}

fn put_row(out: &mut String, routes: &mut Routes, row: Entity) -> Result<(), NoMemory>
    requires { IsValidRow row }
{
    match row {
        Entity::Route(route) => put_route(out, routes, route),
        other => {
            drop(other);
            put(out, "no route")
        }
    }
}

fn put_route(out: &mut String, routes: &mut Routes, route: Route) -> Result<(), NoMemory>
    requires { IsValidRoute route }
{
    if routes.has(route.id) {
        drop(route);
        return put(out, "there already");
    }
    routes.add(route)?;
    put(out, "added")
}
