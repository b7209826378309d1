//! Consumers, and what they are known by.

use crate::id::Id;
use kg_text::{NoMemory, Text, TryClone};
use std::alloc::Global;

/// A consumer of the services (Kong Admin API, "Consumer"). At least one of the two texts is set.
#[derive(PartialEq, Drop)]
pub struct Consumer {
    pub id: Id,
    pub username: Option<Text>,
    /// The name by which another system knows the consumer.
    pub custom_id: Option<Text>,
    /// In seconds.
    pub created_at: u64,
    /// In seconds.
    pub updated_at: u64,
}

impl TryClone for Consumer {
    fn try_clone(&self, alloc: Global) -> Result<Consumer, NoMemory> {
        Ok(Consumer {
            id: self.id,
            username: self.username.try_clone(alloc)?,
            custom_id: self.custom_id.try_clone(alloc)?,
            created_at: self.created_at,
            updated_at: self.updated_at,
        })
    }
}

/// A key that tells a consumer (Kong's plugin key-auth).
#[derive(PartialEq, Drop)]
pub struct KeyCred {
    pub id: Id,
    pub consumer: Id,
    pub key: Text,
    /// In seconds.
    pub created_at: u64,
}

impl TryClone for KeyCred {
    fn try_clone(&self, alloc: Global) -> Result<KeyCred, NoMemory> {
        Ok(KeyCred {
            id: self.id,
            consumer: self.consumer,
            key: self.key.try_clone(alloc)?,
            created_at: self.created_at,
        })
    }
}

/// A name and password that tell a consumer (Kong's plugin basic-auth).
#[derive(PartialEq, Drop)]
pub struct BasicCred {
    pub id: Id,
    pub consumer: Id,
    pub username: Text,
    /// What is kept of the password: 64 lower-case hexadecimal digits.
    pub hash: Text,
    /// In seconds.
    pub created_at: u64,
}

impl TryClone for BasicCred {
    fn try_clone(&self, alloc: Global) -> Result<BasicCred, NoMemory> {
        Ok(BasicCred {
            id: self.id,
            consumer: self.consumer,
            username: self.username.try_clone(alloc)?,
            hash: self.hash.try_clone(alloc)?,
            created_at: self.created_at,
        })
    }
}

/// A group that a consumer belongs to (Kong's plugin acl).
#[derive(Drop)]
pub struct AclRow {
    pub id: Id,
    pub consumer: Id,
    pub group: Text,
    /// In seconds.
    pub created_at: u64,
}

impl TryClone for AclRow {
    fn try_clone(&self, alloc: Global) -> Result<AclRow, NoMemory> {
        Ok(AclRow {
            id: self.id,
            consumer: self.consumer,
            group: self.group.try_clone(alloc)?,
            created_at: self.created_at,
        })
    }
}
