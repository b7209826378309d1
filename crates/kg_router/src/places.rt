//! Where the services stand, by their ids, so that no list is searched for each route.

ghost use Rattle.std.specs.Prelude.{◌≡◌, ◌==◌, ℕ, IfOk, None, OnOk, Some, if◌then◌else◌};
ghost use Rattle.std.specs.Option.{option_or};
ghost use Rattle.kg_router.specs.Places.{place_in, ArePlaces};

use indexmap::IndexMap;
use kg_row_types::id::Id;
use kg_row_types::service::Service;
use kg_text::NoMemory;
use std::alloc::Global;

/// For each id of some service the place of the first one that has it.
#[derive(Drop)]
pub struct ServicePlaces {
    by_id: IndexMap<Id, usize>,
}

impl ServicePlaces {
    /// The places of these services.
    pub fn of(alloc: Global, services: &[Service]) -> Result<ServicePlaces, NoMemory>
        ensures { IfOk result (λ places. ArePlaces services.now places) }
    {
        let mut places = ServicePlaces::new(alloc);
        for (place, service) in services.iter().enumerate() {
            places.note(service.id, place)?;
        }
        Ok(places)
    }

    fn new(alloc: Global) -> ServicePlaces
        ensures { (id : ℕ) → place_in result id ≡ None }
    {
        ServicePlaces {
            by_id: IndexMap::new(alloc),
        }
    }

    // The service of this id stands here, unless an earlier one has the id.
    fn note(&mut self, id: Id, place: usize) -> Result<(), NoMemory>
        ensures { OnOk result ((other : ℕ) → place_in self.new other ≡ option_or (place_in self.old other) (if id == other then Some place else None)) }
    {
        if self.get(id).is_none() {
            self.by_id.insert(id, place)?;
        }
        Ok(())
    }

    /// Where the first service of this id stands.
    pub fn get(&self, id: Id) -> Option<usize>
        ensures { result ≡ place_in self.now id }
    {
        self.by_id.get(&id).copied()
    }
}
