//! One request of the gateway: its route, the plugins in access, the upstream, and the plugins in header_filter.
//!
//! A `Visit` does no IO. It tells what it wants of its environment, is given it, and goes on from where it stood.
#![tactic(auto)]

mod laws;
mod next;
mod stage;
mod trace;
mod used;
mod visit;

pub use crate::laws::{
    no_key_is_asked_twice, what_was_asked_justifies_the_refusal, what_was_asked_justifies_the_reply,
};
pub use crate::trace::{ReplyKind, Trace};
pub use crate::used::Used;
pub use crate::visit::{GivenUp, Visit, Visited};
pub use kg_course::{
    Want, more_answers_keep_the_reply, the_first_lack_stays, what_is_lacking_was_not_told,
};
