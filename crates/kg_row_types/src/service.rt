//! Services: the upstreams that routes lead to.

use crate::id::Id;
use kg_text::{NoMemory, Text, TryClone};
use std::alloc::Global;

/// An upstream service (Kong Admin API, "Service").
#[derive(PartialEq, Drop)]
pub struct Service {
    pub id: Id,
    pub name: Option<Text>,
    /// Whom the gateway calls, as it was written.
    pub host: Text,
    /// 1 to 65535.
    pub port: u16,
    /// Put before the rest of a request's path. In its own normal form.
    pub path: Option<Text>,
    /// How many further dials follow one that failed.
    pub retries: u16,
    /// The routes of a service that isn't enabled take no part.
    pub enabled: bool,
    /// In seconds.
    pub created_at: u64,
    /// In seconds.
    pub updated_at: u64,
}

impl TryClone for Service {
    fn try_clone(&self, alloc: Global) -> Result<Service, NoMemory> {
        Ok(Service {
            id: self.id,
            name: self.name.try_clone(alloc)?,
            host: self.host.try_clone(alloc)?,
            port: self.port,
            path: self.path.try_clone(alloc)?,
            retries: self.retries,
            enabled: self.enabled,
            created_at: self.created_at,
            updated_at: self.updated_at,
        })
    }
}
