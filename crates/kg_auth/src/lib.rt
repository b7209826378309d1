//! The plugins key-auth and acl, and what plugins that authenticate have in common.
//!
//! A plugin looks for the sender of a request in the values that the request was given, and changes the request
//! only once it has all that it needs.
#![tactic(auto)]

mod by_key;
mod groups;
mod key_place;
mod sender;
mod single;

pub use crate::by_key::key_auth;
pub use crate::groups::acl;
pub use crate::sender::{KnownBy, Search, Sender, admit, authenticate, basic_cred_in, fail};
pub use crate::single::single_value;
