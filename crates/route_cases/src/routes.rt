//! Routes of which a router can be built.

ghost use Rattle.std.specs.Prelude.{◌≡◌, [], ◌∷◌, ◌++◌, ◌==◌, true, false, All, IfOk, OnOk, OnErr};
ghost use Rattle.std.specs.List.{list_any};
ghost use Rattle.kg_row_types.specs.ValidRows.{IsValidRoute};
ghost use Rattle.kg_router.specs.RouterRows.{HasDistinctRoutes};

use kg_router::RouterGen;
use kg_row_types::id::Id;
use kg_row_types::route::Route;
use kg_row_types::service::Service;
use kg_text::{List, NoMemory};
use std::alloc::Global;
use std::marker::Model;

/// Valid routes with distinct ids, in the order in which they came.
#[derive(Drop)]
pub struct Routes {
    list: List<Route>,
}

impl Model for Routes {
    ghost use Rattle.std.specs.Prelude.{List as Sequence, All};
    ghost use Rattle.kg_row_types.specs.declared.route.Route.{Route as ARoute};
    ghost use Rattle.kg_row_types.specs.ValidRows.{IsValidRoute};
    ghost use Rattle.kg_router.specs.RouterRows.{HasDistinctRoutes};

    ghost Value = { Sequence ARoute };

    ghost view = { λ routes. routes.list };

    ghost invariant = { λ routes. All IsValidRoute routes.list × HasDistinctRoutes routes.list };
}

impl Routes {
    /// No routes.
    pub fn new(alloc: Global) -> Routes
        ensures { result ≡ [] }
    {
        Routes {
            list: List::new(alloc),
        }
    }

    /// Does a route have this id?
    pub fn has(&self, id: Id) -> bool
        ensures { result ≡ list_any (λ route. id == route.id) self.now }
    {
        self.list.as_slice().iter().any(|route| id == route.id)
    }

    /// Adds a route with a new id.
    pub fn add(&mut self, route: Route) -> Result<(), NoMemory>
        requires valid { IsValidRoute route }
        requires new { list_any (λ other. route.id == other.id) self.old ≡ false }
        ensures ok { OnOk result (self.new ≡ self.old ++ route ∷ []) }
        ensures err { OnErr result (self.new ≡ self.old) }
    {
        self.list.push(route)
    }

    /// The router over these services and the routes.
    pub fn router(&self, alloc: Global, services: &List<Service>) -> Result<RouterGen, NoMemory> {
        RouterGen::build(alloc, 1, services, &self.list)
    }
}
