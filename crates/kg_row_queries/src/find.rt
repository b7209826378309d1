//! Rows as they are named from outside.

ghost use Rattle.std.specs.Prelude.{◌≡◌, ◌==◌, find, option_map};
ghost use Rattle.std.specs.Option.{option_copied};
ghost use Rattle.kg_row_types.specs.declared.entity.Entity.TheVariants as of_row;
ghost use Rattle.kg_row_queries.specs.RowRefs.{row_at};
ghost use Rattle.kg_row_queries.specs.Selections.{row_with_id, row_with_word, key_cred_of_word, selected};

use crate::row_ref::RowRef;
use crate::select::Select;
use kg_entities::{
    AclRow, BasicCred, Consumer, Id, KeyCred, Kind, PluginRow, Route, Rows, Service,
};
use kg_text::Text;

/// The row of a kind that is meant, among all of them.
pub fn selected<'r>(rows: &'r Rows, kind: Kind, select: &Select) -> Option<RowRef<'r>>
    ensures { option_map row_at result ≡ selected kind select.now rows.now }
{
    match select {
        Select::Id(id) => row_with_id(rows, kind, *id),
        Select::Word(text) => row_with_word(rows, kind, text),
    }
}

/// The row of this kind and id.
pub fn row_with_id(rows: &Rows, kind: Kind, id: Id) -> Option<RowRef<'_>>
    ensures { option_map row_at result ≡ row_with_id kind id rows.now }
{
    match kind {
        Kind::Service => service_row(service_with_id(rows, id)),
        Kind::Route => route_row(route_with_id(rows, id)),
        Kind::Consumer => consumer_row(consumer_with_id(rows, id)),
        Kind::KeyCred => key_cred_row(key_cred_with_id(rows, id)),
        Kind::BasicCred => basic_cred_row(basic_cred_with_id(rows, id)),
        Kind::Acl => acl_row(acl_with_id(rows, id)),
        Kind::Plugin => plugin_row(plugin_with_id(rows, id)),
    }
}

fn row_with_word<'r>(rows: &'r Rows, kind: Kind, text: &Text) -> Option<RowRef<'r>>
    ensures { option_map row_at result ≡ row_with_word kind text.now rows.now }
{
    match kind {
        Kind::Service => service_row(rows.service_named(text)),
        Kind::Route => route_row(rows.route_named(text)),
        Kind::Consumer => consumer_row(rows.consumer_with_username(text)),
        Kind::KeyCred => key_cred_row(key_cred_of_word(rows, text)),
        Kind::BasicCred => basic_cred_row(rows.cred_with_username(text)),
        Kind::Acl => acl_row(rows.acl_with_group(text)),
        Kind::Plugin => None,
    }
}

// The key credential with this id, where the text tells one and such a row is there, else with this key.
fn key_cred_of_word<'r>(rows: &'r Rows, text: &Text) -> Option<&'r KeyCred>
    ensures { option_map of_row.KeyCred (option_copied result) ≡ key_cred_of_word text.now rows.now }
{
    if let Some(id) = Id::parse(text.as_bytes()) {
        if let Some(found) = key_cred_with_id(rows, id) {
            return Some(found);
        }
    }
    rows.cred_with_key(text)
}

// A function for each kind, since the proofs need its contract with the field's own name.
fn key_cred_with_id(rows: &Rows, id: Id) -> Option<&KeyCred>
    ensures { option_copied result ≡ find (λ row. row.id == id) rows.now.key_creds }
{
    rows.key_creds().get(id)
}

/// The service with this id.
pub fn service_with_id(rows: &Rows, id: Id) -> Option<&Service>
    ensures { option_copied result ≡ find (λ row. row.id == id) rows.now.services }
{
    rows.services().get(id)
}

fn route_with_id(rows: &Rows, id: Id) -> Option<&Route>
    ensures { option_copied result ≡ find (λ row. row.id == id) rows.now.routes }
{
    rows.routes().get(id)
}

/// The consumer with this id.
pub fn consumer_with_id(rows: &Rows, id: Id) -> Option<&Consumer>
    ensures { option_copied result ≡ find (λ row. row.id == id) rows.now.consumers }
{
    rows.consumers().get(id)
}

fn basic_cred_with_id(rows: &Rows, id: Id) -> Option<&BasicCred>
    ensures { option_copied result ≡ find (λ row. row.id == id) rows.now.basic_creds }
{
    rows.basic_creds().get(id)
}

fn acl_with_id(rows: &Rows, id: Id) -> Option<&AclRow>
    ensures { option_copied result ≡ find (λ row. row.id == id) rows.now.acls }
{
    rows.acls().get(id)
}

fn plugin_with_id(rows: &Rows, id: Id) -> Option<&PluginRow>
    ensures { option_copied result ≡ find (λ row. row.id == id) rows.now.plugins }
{
    rows.plugins().get(id)
}

/// The row that was found.
pub fn service_row(found: Option<&Service>) -> Option<RowRef<'_>>
    ensures { option_map row_at result ≡ option_map of_row.Service (option_copied found.entry) }
{
    match found {
        Some(row) => Some(RowRef::Service(row)),
        None => None,
    }
}

/// The row that was found.
pub fn route_row(found: Option<&Route>) -> Option<RowRef<'_>>
    ensures { option_map row_at result ≡ option_map of_row.Route (option_copied found.entry) }
{
    match found {
        Some(row) => Some(RowRef::Route(row)),
        None => None,
    }
}

/// The row that was found.
pub fn consumer_row(found: Option<&Consumer>) -> Option<RowRef<'_>>
    ensures { option_map row_at result ≡ option_map of_row.Consumer (option_copied found.entry) }
{
    match found {
        Some(row) => Some(RowRef::Consumer(row)),
        None => None,
    }
}

/// The row that was found.
pub fn key_cred_row(found: Option<&KeyCred>) -> Option<RowRef<'_>>
    ensures { option_map row_at result ≡ option_map of_row.KeyCred (option_copied found.entry) }
{
    match found {
        Some(row) => Some(RowRef::KeyCred(row)),
        None => None,
    }
}

/// The row that was found.
pub fn basic_cred_row(found: Option<&BasicCred>) -> Option<RowRef<'_>>
    ensures { option_map row_at result ≡ option_map of_row.BasicCred (option_copied found.entry) }
{
    match found {
        Some(row) => Some(RowRef::BasicCred(row)),
        None => None,
    }
}

/// The row that was found.
pub fn acl_row(found: Option<&AclRow>) -> Option<RowRef<'_>>
    ensures { option_map row_at result ≡ option_map of_row.Acl (option_copied found.entry) }
{
    match found {
        Some(row) => Some(RowRef::Acl(row)),
        None => None,
    }
}

/// The row that was found.
pub fn plugin_row(found: Option<&PluginRow>) -> Option<RowRef<'_>>
    ensures { option_map row_at result ≡ option_map of_row.Plugin (option_copied found.entry) }
{
    match found {
        Some(row) => Some(RowRef::Plugin(row)),
        None => None,
    }
}
