//! Connections, served request after request.
//!
//! [`admin_connection`] answers the requests of the Admin API that come over one connection.
#![tactic(auto)]

mod admin;
mod allowance;
mod end;
mod reply;

pub use crate::admin::{AdminServed, admin_connection};
pub use crate::end::End;
