//! The routes that can be found, in the order in which they are tried.

ghost use Rattle.std.specs.Prelude.{◌≡◌, ◌==◌, ◌<◌, IfOk, IfSome, MatchOption, None, OnOk, length};
ghost use Rattle.std.specs.List.{position};
ghost use Rattle.std.specs.List.Sorted.{IsPermutation, IsSortedByKey};
ghost use Rattle.kg_router.specs.declared.candidate.Candidate.{Candidate as ACandidate};
ghost use Rattle.kg_router.specs.Best.{service_of};
ghost use Rattle.kg_router.specs.Places.{ArePlaces};
ghost use Rattle.kg_router.specs.Ranks.{rank_cmp};
ghost use Rattle.kg_router.specs.Table.{AreListed, IsTable, LeadsTo};

use crate::places::ServicePlaces;
use crate::rank::Rank;
use kg_match::RouteTest;
use kg_row_types::id::Id;
use kg_row_types::route::Route;
use kg_row_types::service::Service;
use kg_text::NoMemory;
use std::alloc::{AllocError, Global};

/// A route whose service is there and enabled, by its place among the tests and that of its
/// service among the services.
#[derive(Clone, Copy)]
pub struct Candidate {
    pub rank: Rank,
    pub test: usize,
    pub service: usize,
}

/// The candidates among these routes, in the order of routes.
pub fn in_order(
    alloc: Global,
    services: &[Service],
    tests: &[RouteTest],
) -> Result<Vec<Candidate>, NoMemory>
    ensures { IfOk result (λ candidates. IsTable services.now tests.now candidates.items) }
{
    let places = ServicePlaces::of(alloc, services)?;
    let mut candidates = listed(alloc, services, &places, tests)?;
    sort(&mut candidates)?;
    Ok(candidates)
}

// The candidates among these routes, in the order of the tests.
fn listed(
    alloc: Global,
    services: &[Service],
    places: &ServicePlaces,
    tests: &[RouteTest],
) -> Result<Vec<Candidate>, NoMemory>
    requires { ArePlaces services.now places.now }
    ensures { IfOk result (λ candidates. AreListed services.now tests.now (length tests.now) candidates.items) }
{
    let mut candidates = Vec::new(alloc);
    for (place, test) in tests.iter().enumerate() {
        match service_place(services, places, test.route()) {
            Some(service) => candidates.push(Candidate {
                rank: Rank::of(test.route()),
                test: place,
                service,
            })?,
            None => {}
        }
    }
    Ok(candidates)
}

fn sort(candidates: &mut Vec<Candidate>) -> Result<(), AllocError>
    ensures same { IsPermutation candidates.old.items candidates.new.items }
    ensures ordered { OnOk result (IsSortedByKey (λ (candidate : ACandidate). candidate.rank) rank_cmp candidates.new.items) }
{
    candidates.sort_by(|a, b| a.rank.compare(&b.rank))
}

// Where the service stands that the route leads to, if it is there and enabled.
fn service_place(services: &[Service], places: &ServicePlaces, route: &Route) -> Option<usize>
    requires { ArePlaces services.now places.now }
    ensures { MatchOption result (service_of services.now route.now ≡ None) (LeadsTo services.now route.now) }
{
    match place_of(services, places, route.service) {
        Some(place) => {
            if services[place].enabled {
                Some(place)
            } else {
                None
            }
        }
        None => None,
    }
}

// Where the first service of this id stands: `get`, under the contract that the proof of the caller needs.
fn place_of(services: &[Service], places: &ServicePlaces, id: Id) -> Option<usize>
    requires { ArePlaces services.now places.now }
    ensures value { result ≡ position (λ service. service.id == id) services.now }
    ensures within { IfSome result (λ place. place < length services.now) }
{
    places.get(id)
}
