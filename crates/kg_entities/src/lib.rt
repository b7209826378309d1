//! The entities of the gateway's configuration: plain rows, and all rows of every kind.
//!
//! Which rows are valid is said by `kg_row_types`; how a body becomes a row, by the crates above.
#![tactic(auto)]

mod rows;

pub use crate::rows::Rows;
pub use kg_row_types::config::{
    Acl, BasicAuth, Config, Cors, Edits, IpRestriction, KeyAuth, LimitBy, RateLimiting,
    RequestTransformer, ResponseTransformer, SizeLimit, SizeUnit, Termination,
};
pub use kg_row_types::consumer::{AclRow, BasicCred, Consumer, KeyCred};
pub use kg_row_types::entity::{Entity, Kind};
pub use kg_row_types::id::Id;
pub use kg_row_types::key::{GenKey, Key};
pub use kg_row_types::plugin::{PluginName, PluginRow, Scope};
pub use kg_row_types::route::{HeaderTest, Route};
pub use kg_row_types::service::Service;
pub use kg_row_types::value::Value;
pub use kg_tables::{Row, RowTable, Walk};
