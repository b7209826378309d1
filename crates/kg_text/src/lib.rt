//! The texts and lists that the whole gateway shares: header names, paths in normal form, hosts,
//! queries, and the errors of reading them.
//!
//! Everything here is a function of bytes. Nothing does IO, and what takes memory says so.
#![tactic(auto)]

mod bytes;
mod case;
mod clone;
mod copy;
mod error;
mod escape;
mod host;
mod list;
mod name;
mod pair;
mod path;
mod query;
mod segment;
mod text;
mod token;

pub use crate::bytes::Bytes;
pub use crate::case::is_lower_case_of;
pub use crate::clone::TryClone;
pub use crate::copy::CopyKey;
pub use crate::error::{NoMemory, TextError};
pub use crate::host::{has_host_form, host_of, host_part, is_host, is_host_byte};
pub use crate::list::List;
pub use crate::name::Name;
pub use crate::pair::Pair;
pub use crate::path::{into_normal_form, is_normal, is_path, normalise};
pub use crate::query::{query_pairs, query_text};
pub use crate::text::Text;
pub use crate::token::{is_tchar, is_token, token_len};
