//! A law on the best route.

ghost use Rattle.std.specs.Prelude.{◌≡◌, List, is_some};
ghost use Rattle.std.specs.List.{list_any};
ghost use Rattle.kg_row_types.specs.declared.route.Route.{Route};
ghost use Rattle.kg_row_types.specs.declared.service.Service.{Service};
ghost use Rattle.kg_message.specs.declared.request.Request.{Request};
ghost use Rattle.kg_router.specs.Best.{best_choice, takes};
ghost use Rattle.kg_router.specs.RouterRows.{HasDistinctRoutes};

/// Among routes with distinct ids there is a best one, with its service, exactly where some route
/// takes the request: a law, for proofs.
pub fn some_route_that_takes_a_request_is_the_best()
    ensures { (services : List Service) (routes : List Route) (request : Request) → HasDistinctRoutes routes → is_some (best_choice services routes request) ≡ list_any (takes services request) routes }
{}
