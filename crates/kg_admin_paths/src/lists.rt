//! The lists of the Admin API: their names, and the kinds of their rows.

ghost use Rattle.std.specs.Prelude.{◌≡◌, IfSome, IsTrue, drop};
ghost use Rattle.std.specs.Map.{lookup};
ghost use Rattle.std.specs.Str.{bytes_eq};
ghost use Rattle.kg_admin_paths.specs.Paths.{has_items_under, item_kind_under, kind_listed, kind_listed_under, lists_under};
ghost use Rattle.kg_row_types.specs.declared.entity.Kind.TheVariants as kind;
ghost use Rattle.kg_rows.specs.Decision.{nests};

use kg_row_types::entity::Kind;

/// The kind of which a list has all rows.
pub fn kind_listed(name: &[u8]) -> Option<Kind>
    ensures { result ≡ kind_listed name.now }
{
    if name == b"services".as_slice() {
        Some(Kind::Service)
    } else if name == b"routes".as_slice() {
        Some(Kind::Route)
    } else if name == b"consumers".as_slice() {
        Some(Kind::Consumer)
    } else if name == b"plugins".as_slice() {
        Some(Kind::Plugin)
    } else {
        None
    }
}

/// The kind of which a list has the rows under a row of `kind`.
pub fn kind_listed_under(kind: Kind, name: &[u8]) -> Option<Kind>
    ensures listed { result ≡ kind_listed_under kind name.now }
    ensures fits { IfSome result (λ below. IsTrue (nests kind below)) }
{
    match kind {
        Kind::Service => {
            if name == b"routes".as_slice() {
                Some(Kind::Route)
            } else {
                plugins_listed(name)
            }
        }
        Kind::Route => plugins_listed(name),
        Kind::Consumer => match plugins_listed(name) {
            Some(plugins) => Some(plugins),
            None => kind_owned(name),
        },
        _ => None,
    }
}

/// As `kind_listed_under`, where the list also has items.
pub fn item_kind_under(kind: Kind, name: &[u8]) -> Option<Kind>
    ensures listed { result ≡ item_kind_under kind name.now }
    ensures fits { IfSome result (λ below. IsTrue (nests kind below)) }
{
    match kind_listed_under(kind, name) {
        Some(below) if has_items_under(below) => Some(below),
        _ => None,
    }
}

fn plugins_listed(name: &[u8]) -> Option<Kind>
    ensures listed { result ≡ kind_listed_under kind.Route name.now }
    ensures plugins { IfSome result (λ below. below ≡ kind.Plugin) }
{
    if name == b"plugins".as_slice() {
        Some(Kind::Plugin)
    } else {
        None
    }
}

// What a consumer owns.
fn kind_owned(name: &[u8]) -> Option<Kind>
    ensures listed { result ≡ lookup (bytes_eq name.now) (drop 1 (lists_under kind.Consumer)) }
    ensures fits { IfSome result (λ owned. IsTrue (nests kind.Consumer owned)) }
{
    if name == b"key-auth".as_slice() {
        Some(Kind::KeyCred)
    } else if name == b"basic-auth".as_slice() {
        Some(Kind::BasicCred)
    } else if name == b"acls".as_slice() {
        Some(Kind::Acl)
    } else {
        None
    }
}

fn has_items_under(kind: Kind) -> bool
    ensures { result ≡ has_items_under kind }
{
    match kind {
        Kind::KeyCred => true,
        Kind::BasicCred => true,
        Kind::Acl => true,
        _ => false,
    }
}
