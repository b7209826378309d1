//! The test of one route: does a request fit it, and how much of its path does the route take?
#![tactic(auto)]

mod error;
mod header;
mod host;
mod method;
mod path;
mod pattern;
mod route_test;

pub use crate::error::BuildError;
pub use crate::host::is_wildcard;
pub use crate::path::is_regex_path;
pub use crate::route_test::RouteTest;
