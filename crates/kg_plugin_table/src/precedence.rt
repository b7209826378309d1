//! The precedence of plugin rows, by their scopes (Kong Gateway manual, "Plugin precedence").

ghost use Rattle.std.specs.Prelude.{◌≡◌};
ghost use Rattle.kg_plugin_table.specs.Keys.{kept_part, rank_of, scope_with};
ghost use Rattle.kg_plugin_table.specs.Ranks.{rank_of_scope};
ghost use Rattle.kg_plugin_table.specs.Precedence.{part_fits, precedence_of, rank, scope_fits};

use kg_row_types::id::Id;
use kg_row_types::plugin::Scope;

/// Which parts of a scope are set.
#[derive(Clone, Copy)]
pub struct Parts {
    pub consumer: bool,
    pub route: bool,
    pub service: bool,
}

const ALL: Parts = Parts {
    consumer: true,
    route: true,
    service: true,
};

const CONSUMER_AND_ROUTE: Parts = Parts {
    consumer: true,
    route: true,
    service: false,
};

const CONSUMER_AND_SERVICE: Parts = Parts {
    consumer: true,
    route: false,
    service: true,
};

const ROUTE_AND_SERVICE: Parts = Parts {
    consumer: false,
    route: true,
    service: true,
};

const CONSUMER: Parts = Parts {
    consumer: true,
    route: false,
    service: false,
};

const ROUTE: Parts = Parts {
    consumer: false,
    route: true,
    service: false,
};

const SERVICE: Parts = Parts {
    consumer: false,
    route: false,
    service: true,
};

const NONE: Parts = Parts {
    consumer: false,
    route: false,
    service: false,
};

/// The parts that scopes set, from the closest tie to a request on.
pub const PRECEDENCE: [Parts; 8] = [
    ALL,
    CONSUMER_AND_ROUTE,
    CONSUMER_AND_SERVICE,
    ROUTE_AND_SERVICE,
    CONSUMER,
    ROUTE,
    SERVICE,
    NONE,
];

/// The scope of just these parts of the request, where each of them is known.
pub fn scope_with(parts: Parts, request: &Scope) -> Option<Scope>
    ensures { result ≡ scope_with parts request.now }
{
    Some(Scope {
        service: kept_part(parts.service, request.service)?,
        route: kept_part(parts.route, request.route)?,
        consumer: kept_part(parts.consumer, request.consumer)?,
    })
}

fn kept_part(is_set: bool, known: Option<Id>) -> Option<Option<Id>>
    ensures { result ≡ kept_part is_set known }
{
    if is_set {
        match known {
            Some(id) => Some(Some(id)),
            None => None,
        }
    } else {
        Some(None)
    }
}

/// The precedence of a scope for a request, from 1, the closest tie, to 8. None where the scope sets a part that
/// isn't the request's own.
pub fn precedence_of(scope: &Scope, request: &Scope) -> Option<u32>
    ensures { result ≡ precedence_of scope.now request.now }
{
    if !scope_fits(scope, request) {
        return None;
    }
    Some(rank_of_scope(scope))
}

/// The precedence by which parts a scope sets.
pub fn rank_of_scope(scope: &Scope) -> u32
    ensures { result ≡ rank_of_scope scope.now }
{
    rank(
        scope.consumer.is_some(),
        scope.route.is_some(),
        scope.service.is_some(),
    )
}

/// The precedence of the scopes that set just these parts.
pub fn rank_of(parts: Parts) -> u32
    ensures { result ≡ rank_of parts }
{
    rank(parts.consumer, parts.route, parts.service)
}

fn rank(consumer: bool, route: bool, service: bool) -> u32
    ensures { result ≡ rank consumer route service }
{
    match (consumer, route, service) {
        (true, true, true) => 1,
        (true, true, false) => 2,
        (true, false, true) => 3,
        (false, true, true) => 4,
        (true, false, false) => 5,
        (false, true, false) => 6,
        (false, false, true) => 7,
        (false, false, false) => 8,
    }
}

fn scope_fits(scope: &Scope, request: &Scope) -> bool
    ensures { result ≡ scope_fits scope.now request.now }
{
    part_fits(scope.consumer, request.consumer)
        && part_fits(scope.route, request.route)
        && part_fits(scope.service, request.service)
}

fn part_fits(part: Option<Id>, known: Option<Id>) -> bool
    ensures { result ≡ part_fits part known }
{
    match part {
        Some(id) => match known {
            Some(other) => other == id,
            None => false,
        },
        None => true,
    }
}
