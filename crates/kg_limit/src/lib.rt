//! Counted requests: how many of one consumer, address or service may come in a window of time, what is judged of
//! each, and what the client is told (Kong's plugin rate-limiting).
#![tactic(auto)]

mod count_table;
mod counts;
mod hit;
mod identity;
mod limits;
mod quota;
mod reply;
mod window;
mod windows;

pub use crate::hit::{Hit, Verdict, hit_of};
pub use crate::limits::Limits;
pub use crate::reply::{limit_headers, refusal};
pub use crate::window::Window;
pub use crate::windows::Windows;
