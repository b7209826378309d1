//! Where a request has come to.

use kg_course::Walk;
use kg_message::Request;
use kg_upstream::Way;

/// A request at its route.
#[derive(Drop)]
pub struct Journey {
    pub way: Way,
    pub walk: Walk,
}

/// A request at its route, or one that no route takes.
#[derive(Drop)]
pub enum Stage {
    OnRoute(Box<Journey>),
    NoRoute(Box<Request>),
}
