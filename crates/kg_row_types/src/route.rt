//! Routes: which requests go to which service.

use crate::id::Id;
use kg_text::{List, Name, NoMemory, Text, TryClone};
use std::alloc::Global;

/// One header that a route asks for: a field of this name has one of these values, without regard
/// to ASCII case.
#[derive(PartialEq, Drop)]
pub struct HeaderTest {
    pub name: Name,
    pub values: List<Text>,
}

impl TryClone for HeaderTest {
    fn try_clone(&self, alloc: Global) -> Result<HeaderTest, NoMemory> {
        Ok(HeaderTest {
            name: self.name.try_clone(alloc)?,
            values: self.values.try_clone(alloc)?,
        })
    }
}

/// A route to a service (Kong Admin API, "Route"). An empty list is one that isn't set.
#[derive(Drop)]
pub struct Route {
    pub id: Id,
    pub name: Option<Text>,
    /// The service that the route leads to.
    pub service: Id,
    /// Whether the protocols name `https` beside `http`. It has no effect.
    pub https: bool,
    pub methods: List<Text>,
    /// In lower case. A `*` as the leftmost or rightmost label stands for one or more bytes.
    pub hosts: List<Text>,
    /// Prefixes in normal form, or patterns after a `~`.
    pub paths: List<Text>,
    pub headers: List<HeaderTest>,
    pub regex_priority: i32,
    /// Whether the matching path is taken off the request's path.
    pub strip_path: bool,
    /// Whether the upstream sees the client's Host.
    pub preserve_host: bool,
    /// In seconds.
    pub created_at: u64,
    /// In seconds.
    pub updated_at: u64,
}

impl TryClone for Route {
    fn try_clone(&self, alloc: Global) -> Result<Route, NoMemory> {
        Ok(Route {
            id: self.id,
            name: self.name.try_clone(alloc)?,
            service: self.service,
            https: self.https,
            methods: self.methods.try_clone(alloc)?,
            hosts: self.hosts.try_clone(alloc)?,
            paths: self.paths.try_clone(alloc)?,
            headers: self.headers.try_clone(alloc)?,
            regex_priority: self.regex_priority,
            strip_path: self.strip_path,
            preserve_host: self.preserve_host,
            created_at: self.created_at,
            updated_at: self.updated_at,
        })
    }
}
