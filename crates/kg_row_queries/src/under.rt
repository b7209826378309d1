//! Rows that stand under another row.

ghost use Rattle.std.specs.Prelude.{◌≡◌, ℕ, ◌==◌, Bool, List as Sequence, filter, find, option_map};
ghost use Rattle.std.specs.Option.{option_copied, option_to_list};
ghost use Rattle.std.specs.Str.{bytes_eq};
ghost use Rattle.kg_row_types.specs.Lookups.{is_text};
ghost use Rattle.kg_row_types.specs.declared.entity.Entity.TheVariants as of_row;
ghost use Rattle.kg_tables.specs.References.{refers};
ghost use Rattle.kg_row_queries.specs.RowRefs.{row_at};
ghost use Rattle.kg_row_queries.specs.Selections.{is_owned_under, is_route_under, key_cred_of_word, row_with_id, row_with_word, rows_under, selected};

use crate::find::{
    acl_row, basic_cred_row, consumer_row, consumer_with_id, key_cred_row, plugin_row, route_row,
    service_row, service_with_id,
};
use crate::row_ref::RowRef;
use crate::select::Select;
use kg_entities::{AclRow, BasicCred, Id, KeyCred, Kind, PluginRow, Route, Row, RowTable, Rows};
use kg_text::Text;

/// Rows of a kind of which some stand under other rows, and which may be asked for by a text.
pub trait Worded: Row {
    ghost worded: { Sequence ℕ → Self → Bool };

    /// Is this the row's name, key, username or group?
    fn has_word(&self, text: &Text) -> bool
        ensures { result ≡ worded text.now self.now };
}

impl Worded for Route {
    ghost worded = { λ text row. is_text text row.name };

    fn has_word(&self, text: &Text) -> bool {
        match &self.name {
            Some(name) => name == text,
            None => false,
        }
    }
}

impl Worded for KeyCred {
    ghost worded = { λ text row. bytes_eq row.key text };

    fn has_word(&self, text: &Text) -> bool {
        self.key == *text
    }
}

impl Worded for BasicCred {
    ghost worded = { λ text row. bytes_eq row.username text };

    fn has_word(&self, text: &Text) -> bool {
        self.username == *text
    }
}

impl Worded for AclRow {
    ghost worded = { λ text row. bytes_eq row.group text };

    fn has_word(&self, text: &Text) -> bool {
        self.group == *text
    }
}

/// The row of a kind that is meant, among those that stand under a row.
pub fn selected_under<'r>(
    rows: &'r Rows,
    kind: Kind,
    upper: Kind,
    above: Id,
    select: &Select,
) -> Option<RowRef<'r>>
    ensures { option_map row_at result ≡ selected kind select.now (rows_under upper above rows.now) }
{
    match select {
        Select::Id(id) => row_with_id(rows, kind, upper, above, *id),
        Select::Word(text) => row_with_word(rows, kind, upper, above, text),
    }
}

/// The row of this kind and id, where it stands under a row.
pub fn row_with_id(rows: &Rows, kind: Kind, upper: Kind, above: Id, id: Id) -> Option<RowRef<'_>>
    ensures { option_map row_at result ≡ row_with_id kind id (rows_under upper above rows.now) }
{
    match kind {
        Kind::Service => service_row(service_with_id(rows, id)),
        Kind::Route => route_row(route_with_id(rows, upper, above, id)),
        Kind::Consumer => consumer_row(consumer_with_id(rows, id)),
        Kind::KeyCred => key_cred_row(key_cred_with_id(rows, upper, above, id)),
        Kind::BasicCred => basic_cred_row(basic_cred_with_id(rows, upper, above, id)),
        Kind::Acl => acl_row(acl_with_id(rows, upper, above, id)),
        Kind::Plugin => plugin_row(plugin_with_id(rows, upper, above, id)),
    }
}

fn row_with_word<'r>(
    rows: &'r Rows,
    kind: Kind,
    upper: Kind,
    above: Id,
    text: &Text,
) -> Option<RowRef<'r>>
    ensures { option_map row_at result ≡ row_with_word kind text.now (rows_under upper above rows.now) }
{
    match kind {
        Kind::Service => service_row(rows.service_named(text)),
        Kind::Route => route_row(named_route(rows, upper, above, text)),
        Kind::Consumer => consumer_row(rows.consumer_with_username(text)),
        Kind::KeyCred => key_cred_row(key_cred_of_word(rows, upper, above, text)),
        Kind::BasicCred => basic_cred_row(cred_with_username(rows, upper, above, text)),
        Kind::Acl => acl_row(with_word(rows.acls(), upper, above, text)),
        Kind::Plugin => None,
    }
}

// The key credential with this id, where the text tells one and such a row is there, else with this key.
fn key_cred_of_word<'r>(rows: &'r Rows, upper: Kind, above: Id, text: &Text) -> Option<&'r KeyCred>
    ensures { option_map of_row.KeyCred (option_copied result) ≡ key_cred_of_word text.now (rows_under upper above rows.now) }
{
    if let Some(id) = Id::parse(text.as_bytes()) {
        if let Some(found) = key_cred_with_id(rows, upper, above, id) {
            return Some(found);
        }
    }
    cred_with_key(rows, upper, above, text)
}

// The first row with a word among those under a row. They are walked only where the first of all that have
// the word stands under another.
fn named_route<'r>(rows: &'r Rows, upper: Kind, above: Id, text: &Text) -> Option<&'r Route>
    ensures { option_copied result ≡ find (λ row. is_text text.now row.name) (filter (is_route_under upper above) rows.now.routes) }
{
    match rows.route_named(text) {
        Some(row) => {
            if is_below(row, upper, above) {
                return Some(row);
            }
            with_word(rows.routes(), upper, above, text)
        }
        None => None,
    }
}

fn cred_with_key<'r>(rows: &'r Rows, upper: Kind, above: Id, text: &Text) -> Option<&'r KeyCred>
    ensures { option_copied result ≡ find (λ row. bytes_eq row.key text.now) (filter (λ row. is_owned_under upper above row.consumer) rows.now.key_creds) }
{
    match rows.cred_with_key(text) {
        Some(row) => {
            if is_below(row, upper, above) {
                return Some(row);
            }
            with_word(rows.key_creds(), upper, above, text)
        }
        None => None,
    }
}

fn cred_with_username<'r>(
    rows: &'r Rows,
    upper: Kind,
    above: Id,
    text: &Text,
) -> Option<&'r BasicCred>
    ensures { option_copied result ≡ find (λ row. bytes_eq row.username text.now) (filter (λ row. is_owned_under upper above row.consumer) rows.now.basic_creds) }
{
    match rows.cred_with_username(text) {
        Some(row) => {
            if is_below(row, upper, above) {
                return Some(row);
            }
            with_word(rows.basic_creds(), upper, above, text)
        }
        None => None,
    }
}

fn key_cred_with_id(rows: &Rows, upper: Kind, above: Id, id: Id) -> Option<&KeyCred>
    ensures { option_copied result ≡ find (λ row. row.id == id) (filter (λ row. is_owned_under upper above row.consumer) rows.now.key_creds) }
{
    with_id(rows.key_creds(), upper, above, id)
}

fn route_with_id(rows: &Rows, upper: Kind, above: Id, id: Id) -> Option<&Route>
    ensures { option_copied result ≡ find (λ row. row.id == id) (filter (is_route_under upper above) rows.now.routes) }
{
    with_id(rows.routes(), upper, above, id)
}

fn basic_cred_with_id(rows: &Rows, upper: Kind, above: Id, id: Id) -> Option<&BasicCred>
    ensures { option_copied result ≡ find (λ row. row.id == id) (filter (λ row. is_owned_under upper above row.consumer) rows.now.basic_creds) }
{
    with_id(rows.basic_creds(), upper, above, id)
}

fn acl_with_id(rows: &Rows, upper: Kind, above: Id, id: Id) -> Option<&AclRow>
    ensures { option_copied result ≡ find (λ row. row.id == id) (filter (λ row. is_owned_under upper above row.consumer) rows.now.acls) }
{
    with_id(rows.acls(), upper, above, id)
}

fn plugin_with_id(rows: &Rows, upper: Kind, above: Id, id: Id) -> Option<&PluginRow>
    ensures { option_copied result ≡ find (λ row. row.id == id) (filter (λ row. refers upper above row.scope) rows.now.plugins) }
{
    with_id(rows.plugins(), upper, above, id)
}

// The row with this id, where it stands under a row.
fn with_id<T: Row>(rows: &RowTable<T>, upper: Kind, above: Id, id: Id) -> Option<&T>
    ensures { option_copied result ≡ find (λ row. T.number row == id) (filter (λ row. refers upper above (T.references row)) rows.now) }
{
    if_below(rows.get(id), upper, above)
}

fn if_below<T: Row>(found: Option<&T>, upper: Kind, above: Id) -> Option<&T>
    ensures { option_copied result ≡ find (λ row. refers upper above (T.references row)) (option_to_list (option_copied found.entry)) }
{
    match found {
        Some(row) => {
            if is_below(row, upper, above) {
                return Some(row);
            }
            None
        }
        None => None,
    }
}

// Does the row stand under the one of this kind and id?
fn is_below<T: Row>(row: &T, upper: Kind, above: Id) -> bool
    ensures { result ≡ refers upper above (T.references row.now) }
{
    row.references().names(upper, above)
}

// The first row with this word among those under a row.
fn with_word<'r, T: Worded>(
    rows: &'r RowTable<T>,
    upper: Kind,
    above: Id,
    text: &Text,
) -> Option<&'r T>
    ensures { option_copied result ≡ find (T.worded text.now) (filter (λ row. refers upper above (T.references row)) rows.now) }
{
    rows.of(upper, above).find(|row| row.has_word(text))
}
