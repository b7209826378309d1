//! What a request carries through the phases of the gateway: its upstream headers, its query, who sent it,
//! and the reply where a plugin ended it.
//!
//! Plugins read the client's request, which nothing changes, and change the upstream headers and the query.
#![tactic(auto)]

mod client_fields;
mod consumer;
mod context;
mod echo;
mod fields;
mod given;
mod pairs;
mod step;
mod upstream;

pub use crate::client_fields::upstream_fields;
pub use crate::consumer::set_consumer;
pub use crate::context::{Credential, ReqCtx, pairs_of};
pub use crate::echo::echo_of;
pub use crate::fields::{add_field, add_value, joined};
pub use crate::given::Given;
pub use crate::pairs::{add_pair, has_pair, remove_pairs, rename_pairs, replace_pairs};
pub use crate::step::AccessStep;
pub use crate::upstream::{UpRequest, Upstream};
