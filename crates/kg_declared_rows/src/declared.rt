//! The rows of a declaration in the order in which they are inserted, each without the lists that are
//! nested in it.

ghost use Rattle.std.specs.Prelude.{◌≡◌, [], ◌∷◌, ◌++◌, ◌+◌, IfOk, OnOk, map};
ghost use Rattle.serde_json.specs.View.{members_view};
ghost use Rattle.kg_declared_rows.specs.Rows.{listed, nested, nested_in, row_of, rows_of, stripped, without};
ghost use Rattle.kg_declared_rows.specs.SeenRows.{AreListed, HaveNested, HaveNestedPlugins, joined, seen, seen_all};

use crate::violations::take_rows;
use kg_row_types::entity::Kind;
use kg_text::NoMemory;
use serde_json::{Map, Value};
use std::alloc::Global;
use std::mem;

/// A row that stands before others: its kind, and its number among all rows of the declaration,
/// counted from 0.
#[derive(Clone, Copy)]
pub struct Above {
    pub kind: Kind,
    pub number: usize,
}

/// A row of a declaration.
#[derive(Drop)]
pub struct Declared {
    pub kind: Kind,
    /// The row under which it stands.
    pub parent: Option<Above>,
    pub members: Map<String, Value>,
    /// The names of the nested lists that weren't lists of objects.
    pub wrong: Vec<&'static str>,
}

// The rows by their kinds, in the order of their insertion.
#[derive(Drop)]
struct Lists {
    services: Vec<Declared>,
    routes: Vec<Declared>,
    consumers: Vec<Declared>,
    keys: Vec<Declared>,
    logins: Vec<Declared>,
    acls: Vec<Declared>,
    plugins: Vec<Declared>,
}

impl Lists {
    fn new(alloc: Global) -> Lists {
        Lists {
            services: Vec::new(alloc),
            routes: Vec::new(alloc),
            consumers: Vec::new(alloc),
            keys: Vec::new(alloc),
            logins: Vec::new(alloc),
            acls: Vec::new(alloc),
            plugins: Vec::new(alloc),
        }
    }
}

/// All rows of a declaration. What it has is moved.
pub fn rows_of(alloc: Global, declaration: Map<String, Value>) -> Result<Vec<Declared>, NoMemory>
    ensures { IfOk result (λ rows. seen_all rows.items ≡ rows_of (members_view declaration.entries)) }
{
    let mut declaration = declaration;
    let mut lists = Lists::new(alloc);
    let mut rows = Vec::new(alloc);
    let gathered = gather(alloc, &mut declaration, &mut lists, &mut rows);
    // let go by name: a short proof
    drop(declaration);
    drop(lists);
    match gathered {
        Ok(()) => Ok(rows),
        Err(e) => {
            drop(rows);
            Err(e)
        }
    }
}

// Adds all rows, by way of lists of each kind.
fn gather(
    alloc: Global,
    declaration: &mut Map<String, Value>,
    lists: &mut Lists,
    rows: &mut Vec<Declared>,
) -> Result<(), NoMemory>
    ensures { OnOk result (seen_all rows.new.items ≡ seen_all rows.old.items ++ rows_of (members_view declaration.old.entries)) }
{
    set_own(alloc, declaration, lists)?;
    add_nested(alloc, lists)?;
    add_nested_plugins(alloc, lists)?;
    join(lists, rows)?;
    Ok(())
}

// The lists that the declaration has itself.
fn set_own(
    alloc: Global,
    declaration: &mut Map<String, Value>,
    lists: &mut Lists,
) -> Result<(), NoMemory>
    ensures { OnOk result (AreListed (members_view declaration.old.entries) lists.new) }
{
    let key = "keyauth_credentials";
    let login = "basicauth_credentials";
    set_list(
        alloc,
        Kind::Service,
        "services",
        declaration,
        &mut lists.services,
    )?;
    set_list(alloc, Kind::Route, "routes", declaration, &mut lists.routes)?;
    set_list(
        alloc,
        Kind::Consumer,
        "consumers",
        declaration,
        &mut lists.consumers,
    )?;
    set_list(alloc, Kind::KeyCred, key, declaration, &mut lists.keys)?;
    set_list(
        alloc,
        Kind::BasicCred,
        login,
        declaration,
        &mut lists.logins,
    )?;
    set_list(alloc, Kind::Acl, "acls", declaration, &mut lists.acls)?;
    set_list(
        alloc,
        Kind::Plugin,
        "plugins",
        declaration,
        &mut lists.plugins,
    )?;
    Ok(())
}

// Moves the routes of services, and the credentials and groups of consumers, to their lists.
fn add_nested(alloc: Global, lists: &mut Lists) -> Result<(), NoMemory>
    ensures { OnOk result (HaveNested lists.old lists.new) }
{
    let key = "keyauth_credentials";
    let login = "basicauth_credentials";
    take_nested(
        alloc,
        0,
        Kind::Route,
        "routes",
        &mut lists.services,
        &mut lists.routes,
    )?;
    let first = sum(lists.services.len(), lists.routes.len())?;
    take_nested(
        alloc,
        first,
        Kind::KeyCred,
        key,
        &mut lists.consumers,
        &mut lists.keys,
    )?;
    take_nested(
        alloc,
        first,
        Kind::BasicCred,
        login,
        &mut lists.consumers,
        &mut lists.logins,
    )?;
    take_nested(
        alloc,
        first,
        Kind::Acl,
        "acls",
        &mut lists.consumers,
        &mut lists.acls,
    )?;
    Ok(())
}

// Moves the plugins of services, routes and consumers to their list.
fn add_nested_plugins(alloc: Global, lists: &mut Lists) -> Result<(), NoMemory>
    ensures { OnOk result (HaveNestedPlugins lists.old lists.new) }
{
    let kind = Kind::Plugin;
    let route = lists.services.len();
    let consumer = sum(route, lists.routes.len())?;
    take_nested(
        alloc,
        0,
        kind,
        "plugins",
        &mut lists.services,
        &mut lists.plugins,
    )?;
    take_nested(
        alloc,
        route,
        kind,
        "plugins",
        &mut lists.routes,
        &mut lists.plugins,
    )?;
    take_nested(
        alloc,
        consumer,
        kind,
        "plugins",
        &mut lists.consumers,
        &mut lists.plugins,
    )?;
    Ok(())
}

// Moves the rows of all kinds behind these.
fn join(lists: &mut Lists, rows: &mut Vec<Declared>) -> Result<(), NoMemory>
    ensures { OnOk result (seen_all rows.new.items ≡ seen_all rows.old.items ++ joined lists.old) }
{
    append(&mut lists.services, rows)?;
    append(&mut lists.routes, rows)?;
    append(&mut lists.consumers, rows)?;
    append(&mut lists.keys, rows)?;
    append(&mut lists.logins, rows)?;
    append(&mut lists.acls, rows)?;
    append(&mut lists.plugins, rows)?;
    Ok(())
}

fn append(more: &mut Vec<Declared>, rows: &mut Vec<Declared>) -> Result<(), NoMemory>
    ensures { OnOk result (seen_all rows.new.items ≡ seen_all rows.old.items ++ seen_all more.old.items) }
{
    rows.append(more)?;
    Ok(())
}

// There is no memory for more rows than numbers.
fn sum(a: usize, b: usize) -> Result<usize, NoMemory>
    ensures { IfOk result (λ both. both ≡ a + b) }
{
    match a.checked_add(b) {
        Some(both) => Ok(both),
        None => Err(NoMemory),
    }
}

// Sets the rows of the declaration's own list of this name, and takes it out.
fn set_list(
    alloc: Global,
    kind: Kind,
    name: &str,
    declaration: &mut Map<String, Value>,
    rows: &mut Vec<Declared>,
) -> Result<(), NoMemory>
    ensures rows { OnOk result (seen_all rows.new.items ≡ listed kind name.now (members_view declaration.old.entries)) }
    ensures left { members_view declaration.new.entries ≡ without name.now (members_view declaration.old.entries) }
{
    let found = take_rows(alloc, declaration, name)?;
    *rows = Vec::new(alloc);
    match found {
        Some(found) => add_rows(alloc, rows, kind, None, found),
        None => Ok(()),
    }
}

// Takes out the lists of this name that are nested in rows, the first of which has this number, and
// adds what they have.
fn take_nested(
    alloc: Global,
    first: usize,
    kind: Kind,
    name: &'static str,
    rows: &mut Vec<Declared>,
    found: &mut Vec<Declared>,
) -> Result<(), NoMemory>
    ensures left { OnOk result (seen_all rows.new.items ≡ map (stripped name.now) (seen_all rows.old.items)) }
    ensures found { OnOk result (seen_all found.new.items ≡ seen_all found.old.items ++ nested first kind name.now (seen_all rows.old.items)) }
{
    let before = mem::replace(rows, Vec::new(alloc));
    take_each(alloc, first, kind, name, before, rows, found)
}

fn take_each(
    alloc: Global,
    first: usize,
    kind: Kind,
    name: &'static str,
    before: Vec<Declared>,
    rows: &mut Vec<Declared>,
    found: &mut Vec<Declared>,
) -> Result<(), NoMemory>
    requires { rows.old.items ≡ [] }
    ensures left { OnOk result (seen_all rows.new.items ≡ map (stripped name.now) (seen_all before.items)) }
    ensures found { OnOk result (seen_all found.new.items ≡ seen_all found.old.items ++ nested first kind name.now (seen_all before.items)) }
{
    let mut number = first;
    for row in before {
        take_one(alloc, number, kind, name, row, rows, found)?;
        number = sum(number, 1)?;
    }
    Ok(())
}

// The same for the row with this number, which is added to the others.
fn take_one(
    alloc: Global,
    number: usize,
    kind: Kind,
    name: &'static str,
    row: Declared,
    rows: &mut Vec<Declared>,
    found: &mut Vec<Declared>,
) -> Result<(), NoMemory>
    ensures left { OnOk result (seen_all rows.new.items ≡ seen_all rows.old.items ++ stripped name.now (seen row) ∷ []) }
    ensures found { OnOk result (seen_all found.new.items ≡ seen_all found.old.items ++ nested_in kind name.now number (seen row)) }
{
    let mut left = row;
    match take_from(alloc, number, kind, name, &mut left, found) {
        Ok(()) => {
            rows.push(left)?;
            Ok(())
        }
        Err(e) => {
            // let go by name: a short proof
            drop(left);
            Err(e)
        }
    }
}

// The same for one row, in its place.
fn take_from(
    alloc: Global,
    number: usize,
    kind: Kind,
    name: &'static str,
    row: &mut Declared,
    found: &mut Vec<Declared>,
) -> Result<(), NoMemory>
    ensures left { OnOk result (seen row.new ≡ stripped name.now (seen row.old)) }
    ensures found { OnOk result (seen_all found.new.items ≡ seen_all found.old.items ++ nested_in kind name.now number (seen row.old)) }
{
    let parent = Some(Above {
        kind: row.kind,
        number,
    });
    match take_rows(alloc, &mut row.members, name)? {
        Some(rows) => add_rows(alloc, found, kind, parent, rows),
        None => {
            row.wrong.push(name)?;
            Ok(())
        }
    }
}

fn add_rows(
    alloc: Global,
    rows: &mut Vec<Declared>,
    kind: Kind,
    parent: Option<Above>,
    found: Vec<Map<String, Value>>,
) -> Result<(), NoMemory>
    ensures { OnOk result (seen_all rows.new.items ≡ seen_all rows.old.items ++ map (row_of kind parent) (map (λ row. members_view row.entries) found.items)) }
{
    for members in found {
        rows.push(Declared {
            kind,
            parent,
            members,
            wrong: Vec::new(alloc),
        })?;
    }
    Ok(())
}
