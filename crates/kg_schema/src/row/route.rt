//! The routes that bodies make.

ghost use Rattle.std.specs.Prelude.{◌≡◌, [], OnOk, fold};
ghost use Rattle.serde_json.specs.View.{view};
ghost use Rattle.kg_row_making.specs.Bases.{base_of};
ghost use Rattle.kg_schema.specs.Between.{fits_nothing, route_violations};
ghost use Rattle.kg_schema.specs.Finished.{route_over};
ghost use Rattle.kg_field_rules.specs.Rules.{tell};
ghost use Rattle.kg_field_tables.specs.BrokenRules.{field_violations};
ghost use Rattle.kg_row_types.specs.declared.entity.Kind.TheVariants as kind;

use crate::row::tell::{is_missing, tell_if};
use kg_bodies::by_table::{integer_in, paths_at, text_in, texts_in};
use kg_bodies::header_tests::tests_at;
use kg_bodies::settings::{flag_at, https_at};
use kg_field_rules::rule::Rule;
use kg_field_rules::violations::Violations;
use kg_field_tables::table::Table;
use kg_row_making::base::{Base, Links};
use kg_row_making::set::{narrow_signed, set, set_list, set_option};
use kg_row_types::route::Route;
use kg_text::NoMemory;
use serde_json::Value;
use std::alloc::Global;

/// Sets in a route what the body sets, and the service that it names.
pub fn set_route(
    alloc: Global,
    body: &Value,
    links: &Links,
    row: &mut Route,
) -> Result<(), NoMemory>
    requires { field_violations kind.Route (view body.now) ≡ [] }
    ensures { OnOk result (row.new ≡ route_over (view body.now) links.now row.old) }
{
    set_option(&mut row.name, text_in(alloc, Table::Route, "name", body)?);
    set(&mut row.service, links.service);
    set(&mut row.https, https_at(alloc, body)?);
    set_list(
        &mut row.methods,
        texts_in(alloc, Table::Route, "methods", body)?,
    );
    set_list(
        &mut row.hosts,
        texts_in(alloc, Table::Route, "hosts", body)?,
    );
    set_list(&mut row.paths, paths_at(alloc, body)?);
    set_list(&mut row.headers, tests_at(alloc, body)?);
    set(
        &mut row.regex_priority,
        narrow_signed(integer_in(alloc, Table::Route, "regex_priority", body)?),
    );
    set(&mut row.strip_path, flag_at("strip_path", body));
    set(&mut row.preserve_host, flag_at("preserve_host", body));
    Ok(())
}

/// Tells the rules between the fields of a route.
pub fn tell_route(
    alloc: Global,
    violations: &mut Violations,
    base: &Base<'_>,
    links: &Links,
    route: &Route,
) -> Result<(), NoMemory>
    ensures { OnOk result (violations.new ≡ fold tell violations.old (route_violations (base_of base.now) links.now route.now)) }
{
    let missing = is_missing(links.service, base.route());
    tell_if(alloc, violations, missing, "service", Rule::Required)?;
    tell_if(
        alloc,
        violations,
        fits_nothing(route),
        "paths",
        Rule::Required,
    )
}

// Is nothing set that a request can fit?
fn fits_nothing(route: &Route) -> bool
    ensures { result ≡ fits_nothing route.now }
{
    route.methods.as_slice().is_empty()
        && route.hosts.as_slice().is_empty()
        && route.headers.as_slice().is_empty()
        && route.paths.as_slice().is_empty()
}
