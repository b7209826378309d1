//! What the lines share.

use crate::request::blank_request;
use crate::routes::Routes;
use kg_message::Request;
use kg_row_types::service::Service;
use kg_text::List;
use std::alloc::Global;

/// The services and routes so far, and the request of the last line.
#[derive(Drop)]
pub struct State {
    pub services: List<Service>,
    pub routes: Routes,
    pub request: Request,
}

impl State {
    /// No services and no routes.
    pub fn new(alloc: Global) -> State {
        State {
            services: List::new(alloc),
            routes: Routes::new(alloc),
            request: blank_request(alloc),
        }
    }

    /// Forgets the services and routes.
    pub fn clear(&mut self, alloc: Global) {
        self.services = List::new(alloc);
        self.routes = Routes::new(alloc);
    }
}
