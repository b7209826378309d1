//! The search for the best route.

ghost use Rattle.std.specs.Prelude.{◌≡◌, ◌&&◌, All, IfOk, IsTrue, OnErr, option_map};
ghost use Rattle.std.specs.List.{list_any};
ghost use Rattle.kg_row_types.specs.ValidRows.{IsValidRoute};
ghost use Rattle.kg_match.specs.Fits.{fits_but_path, match_of};
ghost use Rattle.kg_match.specs.RoutePaths.{has_regex_path};
ghost use Rattle.kg_router.specs.Best.{best_choice};
ghost use Rattle.kg_router.specs.Found.{choice_at};
ghost use Rattle.kg_router.specs.RouterRows.{HasDistinctRoutes};

use crate::candidate::{Candidate, in_order};
use kg_match::{BuildError, RouteTest};
use kg_message::Request;
use kg_row_types::route::Route;
use kg_row_types::service::Service;
use kg_text::{List, NoMemory, TryClone, host_part};
use std::alloc::Global;
use std::marker::Model;

/// A route that takes a request, with its service.
#[derive(Clone, Copy)]
pub struct Choice<'a> {
    pub route: &'a Route,
    pub service: &'a Service,
    /// How many bytes of the request's path the route takes.
    pub cut: usize,
}

/// The services and routes of one revision of the configuration, ready to be searched. Contracts
/// see the revision and the rows that it was built from.
#[derive(Drop)]
pub struct RouterGen {
    rev: u64,
    services: List<Service>,
    tests: List<RouteTest>,
    candidates: Vec<Candidate>,
}

impl Model for RouterGen {
    ghost use Rattle.kg_router.specs.RouterRows.{HasDistinctRoutes, RouterRows};
    ghost use Rattle.kg_router.specs.Table.{IsTable};

    ghost Value = { RouterRows };

    ghost view = { λ gen. record { rev = gen.rev; services = gen.services; routes = gen.tests } };

    ghost invariant = { λ gen. HasDistinctRoutes gen.tests × IsTable gen.services gen.tests gen.candidates.items };
}

impl RouterGen {
    /// Copies of these rows, with the routes in the order in which they are tried. The routes are
    /// valid and have distinct ids. A pattern that is too big to compile counts as want of memory.
    pub fn build(
        alloc: Global,
        rev: u64,
        services: &List<Service>,
        routes: &List<Route>,
    ) -> Result<RouterGen, NoMemory>
        requires valid { All IsValidRoute routes.now }
        requires distinct { HasDistinctRoutes routes.now }
        ensures { IfOk result (λ gen. gen ≡ record { rev = rev; services = services.now; routes = routes.now }) }
    {
        let services = services.try_clone(alloc)?;
        RouterGen::of_tests(alloc, rev, services, tests_of(alloc, routes.as_slice())?)
    }

    /// As `build`, of the services and the tests of the routes.
    pub(crate) fn of_tests(
        alloc: Global,
        rev: u64,
        services: List<Service>,
        tests: List<RouteTest>,
    ) -> Result<RouterGen, NoMemory>
        requires { HasDistinctRoutes tests }
        ensures { IfOk result (λ gen. gen ≡ record { rev = rev; services = services; routes = tests }) }
    {
        let candidates = in_order(alloc, services.as_slice(), tests.as_slice())?;
        Ok(RouterGen {
            rev,
            services,
            tests,
            candidates,
        })
    }

    /// The best of the routes that take the request, if one does, with its service. It takes memory
    /// only for the regex paths of a route that all else fits.
    pub fn find(&self, alloc: Global, request: &Request) -> Result<Option<Choice<'_>>, NoMemory>
        ensures found { IfOk result (λ found. option_map choice_at found ≡ best_choice self.now.services self.now.routes request.now) }
        ensures err { OnErr result (IsTrue (list_any (λ route. has_regex_path route && fits_but_path route request.now) self.now.routes)) }
    {
        let services = self.services.as_slice();
        let tests = self.tests.as_slice();
        let host = host_part(request.host.as_slice());
        for candidate in self.candidates.as_slice() {
            let test = &tests[candidate.test];
            match test.matches_at(alloc, host, request)? {
                Some(cut) => {
                    return Ok(Some(Choice {
                        route: test.route(),
                        service: &services[candidate.service],
                        cut,
                    }));
                }
                None => {}
            }
        }
        Ok(None)
    }

    /// The revision that it was built for.
    pub fn rev(&self) -> u64
        ensures { result ≡ self.now.rev }
    {
        self.rev
    }
}

fn tests_of(alloc: Global, routes: &[Route]) -> Result<List<RouteTest>, NoMemory>
    requires { All IsValidRoute routes.now }
    ensures { IfOk result (λ tests. tests ≡ routes.now) }
{
    let mut tests = List::new(alloc);
    for route in routes {
        tests.push(test_of(alloc, route)?)?;
    }
    Ok(tests)
}

fn test_of(alloc: Global, route: &Route) -> Result<RouteTest, NoMemory>
    requires { IsValidRoute route.now }
    ensures { IfOk result (λ test. test ≡ route.now) }
{
    match RouteTest::build(alloc, route) {
        Ok(test) => Ok(test),
        Err(BuildError::BadPattern { .. }) => unreachable!(),
        Err(BuildError::NoMemory) => Err(NoMemory),
    }
}
