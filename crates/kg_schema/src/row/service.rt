//! The services that bodies make.

ghost use Rattle.std.specs.Prelude.{◌≡◌, None, OnOk, fold};
ghost use Rattle.serde_json.specs.View.{view};
ghost use Rattle.kg_schema.specs.Between.{doubles_url, service_violations};
ghost use Rattle.kg_schema.specs.Finished.{address_over, service_over};
ghost use Rattle.kg_field_rules.specs.Rules.{tell};
ghost use Rattle.kg_bodies.specs.Settings.{url_at};

use crate::row::member::is_set_at;
use crate::row::tell::tell_if;
use kg_bodies::by_table::{text_in, whole_in};
use kg_bodies::settings::{flag_at, url_at};
use kg_field_rules::rule::Rule;
use kg_field_rules::violations::Violations;
use kg_field_tables::table::Table;
use kg_row_making::set::{narrow, set, set_option};
use kg_row_types::service::Service;
use kg_text::NoMemory;
use serde_json::Value;
use std::alloc::Global;

/// Sets in a service what the body sets.
pub fn set_service(alloc: Global, body: &Value, row: &mut Service) -> Result<(), NoMemory>
    ensures { OnOk result (row.new ≡ service_over (view body.now) row.old) }
{
    set_address(alloc, body, row)?;
    set_option(&mut row.name, text_in(alloc, Table::Service, "name", body)?);
    set(
        &mut row.retries,
        narrow(whole_in(alloc, Table::Service, "retries", body)?),
    );
    set(&mut row.enabled, flag_at("enabled", body));
    Ok(())
}

// A url sets the host, the port and the path.
fn set_address(alloc: Global, body: &Value, row: &mut Service) -> Result<(), NoMemory>
    ensures { OnOk result (row.new ≡ address_over (url_at (view body.now)) (view body.now) row.old) }
{
    match url_at(alloc, body)? {
        Some(url) => {
            row.host = url.host;
            row.port = url.port;
            row.path = url.path;
            Ok(())
        }
        None => set_parts(alloc, body, row),
    }
}

fn set_parts(alloc: Global, body: &Value, row: &mut Service) -> Result<(), NoMemory>
    ensures { OnOk result (row.new ≡ address_over None (view body.now) row.old) }
{
    set(&mut row.host, text_in(alloc, Table::Service, "host", body)?);
    set(
        &mut row.port,
        narrow(whole_in(alloc, Table::Service, "port", body)?),
    );
    set_option(&mut row.path, text_in(alloc, Table::Service, "path", body)?);
    Ok(())
}

/// Tells the rules between the fields of a service.
pub fn tell_service(
    alloc: Global,
    violations: &mut Violations,
    body: &Value,
    service: &Service,
) -> Result<(), NoMemory>
    ensures { OnOk result (violations.new ≡ fold tell violations.old (service_violations (view body.now) service.now)) }
{
    tell_if(alloc, violations, doubles_url(body), "url", Rule::Exclusive)?;
    tell_if(
        alloc,
        violations,
        service.host.as_bytes().is_empty(),
        "host",
        Rule::Required,
    )
}

// Does a url stand beside a part of it?
fn doubles_url(body: &Value) -> bool
    ensures { result ≡ doubles_url (view body.now) }
{
    is_set_at("url", body)
        && (is_set_at("protocol", body)
            || is_set_at("host", body)
            || is_set_at("port", body)
            || is_set_at("path", body))
}
