//! The routes of a gateway, ready to be searched: which route takes a request, and to which
//! service it leads.
#![tactic(auto)]

mod best;
mod candidate;
mod generation;
mod places;
mod rank;

pub use crate::best::some_route_that_takes_a_request_is_the_best;
pub use crate::generation::{Choice, RouterGen};
pub use crate::rank::{compare_routes, route_order_is_strict, route_order_is_total};
