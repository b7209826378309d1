//! The order of routes: which of two that take a request comes first.

ghost use Rattle.std.specs.Prelude.{◌≡◌, ◌≢◌, ◌⊎◌, IsTrue};
ghost use Rattle.kg_row_types.specs.declared.route.Route.{Route as ARoute};
ghost use Rattle.kg_row_types.specs.TextForms.{is_set};
ghost use Rattle.kg_router.specs.Order.{attribute_count, has_wildcard_host, regex_priority_of, path_len, longest_path_len, is_before, route_cmp};
ghost use Rattle.kg_router.specs.Ranks.{rank_of, rank_cmp};
ghost use Rattle.kg_match.specs.RoutePaths.{has_regex_path};

use kg_match::{is_regex_path, is_wildcard};
use kg_row_types::id::Id;
use kg_row_types::route::Route;
use kg_text::{List, Text};
use std::cmp::Ordering;

/// What the order of routes looks at of one route.
#[derive(Clone, Copy)]
pub struct Rank {
    /// How many of methods, hosts, headers and paths are set.
    attributes: usize,
    has_wildcard_host: bool,
    header_names: usize,
    has_regex_path: bool,
    /// The priority of the regex paths: the plain ones have none.
    regex_priority: i32,
    /// In bytes, without the `~`, of the longest path.
    path_len: usize,
    created_at: u64,
    id: Id,
}

impl Rank {
    /// The rank of a route.
    pub fn of(route: &Route) -> Rank
        ensures { result ≡ rank_of route.now }
    {
        Rank {
            attributes: attribute_count(route),
            has_wildcard_host: has_wildcard_host(route),
            header_names: route.headers.len(),
            has_regex_path: has_regex_path(route),
            regex_priority: regex_priority_of(route),
            path_len: longest_path_len(route),
            created_at: route.created_at,
            id: route.id,
        }
    }

    /// `Less` where the route of this rank comes before that of the other. The first comparison
    /// that tells the two apart decides.
    pub fn compare(&self, other: &Rank) -> Ordering
        ensures { result ≡ rank_cmp self.now other.now }
    {
        other
            .attributes
            .cmp(&self.attributes)
            .then_with(|| self.has_wildcard_host.cmp(&other.has_wildcard_host))
            .then_with(|| other.header_names.cmp(&self.header_names))
            .then_with(|| other.has_regex_path.cmp(&self.has_regex_path))
            .then_with(|| other.regex_priority.cmp(&self.regex_priority))
            .then_with(|| other.path_len.cmp(&self.path_len))
            .then_with(|| self.created_at.cmp(&other.created_at))
            .then_with(|| self.id.cmp(&other.id))
    }
}

/// `Less` where the first route comes before the second: of two routes that take a request, the one that comes
/// first gets it.
pub fn compare_routes(first: &Route, second: &Route) -> Ordering
    ensures { result ≡ route_cmp first.now second.now }
{
    Rank::of(first).compare(&Rank::of(second))
}

// How many of methods, hosts, headers and paths are set.
fn attribute_count(route: &Route) -> usize
    ensures { result ≡ attribute_count route.now }
{
    let set = [
        is_set(&route.methods),
        is_set(&route.hosts),
        is_set(&route.headers),
        is_set(&route.paths),
    ];
    set.iter().filter(|set| **set).count()
}

fn is_set<T>(values: &List<T>) -> bool
    ensures { result ≡ is_set values.now }
{
    !values.is_empty()
}

fn has_wildcard_host(route: &Route) -> bool
    ensures { result ≡ has_wildcard_host route.now }
{
    route.hosts.as_slice().iter().any(|host| is_wildcard(host))
}

fn has_regex_path(route: &Route) -> bool
    ensures { result ≡ has_regex_path route.now }
{
    route
        .paths
        .as_slice()
        .iter()
        .any(|path| is_regex_path(path))
}

fn regex_priority_of(route: &Route) -> i32
    ensures { result ≡ regex_priority_of route.now }
{
    if has_regex_path(route) {
        route.regex_priority
    } else {
        0
    }
}

fn longest_path_len(route: &Route) -> usize
    ensures { result ≡ longest_path_len route.now }
{
    let lens = route.paths.as_slice().iter().map(|path| path_len(path));
    lens.fold(0, |longest, len| longest.max(len))
}

// In bytes, without the `~`.
fn path_len(path: &Text) -> usize
    ensures { result ≡ path_len path.now }
{
    if is_regex_path(path) {
        path.len() - 1
    } else {
        path.len()
    }
}

/// The order of routes is strict: a law, for proofs.
pub fn route_order_is_strict()
    ensures irreflexive { (a : ARoute) → ¬ (IsTrue (is_before a a)) }
    ensures transitive { (a b c : ARoute) → IsTrue (is_before a b) → IsTrue (is_before b c) → IsTrue (is_before a c) }
{}

/// Of two routes with different ids one comes before the other: a law, for proofs.
pub fn route_order_is_total()
    ensures { (a b : ARoute) → a.id ≢ b.id → IsTrue (is_before a b) ⊎ IsTrue (is_before b a) }
{}
