//! The plugin basic-auth: a name and a password tell whose request it is.
//!
//! Nothing here looks at the rows: a call answers the key that it lacks, and is made again with the key's value.
#![tactic(auto)]

mod by_password;
mod login;
mod password;

pub use crate::by_password::basic_auth;
pub use kg_password::hash_of;
