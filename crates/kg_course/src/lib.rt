//! The course of a request: the tree of what it asks, the plain gateway over it, and the walk over the plugins that
//! takes it, one question at a time.
#![tactic(auto)]

mod access;
mod asking;
mod filter;
mod laws;
mod limiting;
mod moment;
mod walk;
mod want;
mod wanted;

pub use crate::laws::{
    an_answer_leads_further, few_questions_are_asked, more_answers_keep_the_reply,
    the_first_lack_stays, the_upstream_is_asked_last, what_is_lacking_was_not_told,
};
pub use crate::moment::Moment;
pub use crate::walk::Walk;
pub use crate::want::Want;
pub use crate::wanted::{no_route, reply_by_echo, reply_to, wanted_on_route};
