//! Plugins: what is done to the requests and replies of a scope.

ghost use Rattle.std.specs.Prelude.{◌≡◌};
ghost use Rattle.kg_row_types.specs.PluginNames.{priority, plugin_text, plugin_named, same_plugin};
ghost use Rattle.kg_row_types.specs.RowChanges.{names_part, refers_to};
ghost use Rattle.kg_row_types.specs.ValidRows.{same_id, same_scope};

use crate::config::Config;
use crate::entity::Kind;
use crate::id::Id;
use kg_text::{NoMemory, TryClone};
use std::alloc::Global;

/// The plugins that the gateway has.
#[derive(Clone, Copy, Debug, PartialEq, Eq)]
pub enum PluginName {
    Cors,
    KeyAuth,
    BasicAuth,
    IpRestriction,
    RequestSizeLimiting,
    Acl,
    RateLimiting,
    RequestTransformer,
    ResponseTransformer,
    RequestTermination,
}

impl PluginName {
    /// The plugin with the larger priority runs first. No two have one priority.
    pub fn priority(self) -> u32
        ensures { result ≡ priority self }
    {
        match self {
            PluginName::Cors => 2000,
            PluginName::KeyAuth => 1250,
            PluginName::BasicAuth => 1100,
            PluginName::IpRestriction => 990,
            PluginName::RequestSizeLimiting => 951,
            PluginName::Acl => 950,
            PluginName::RateLimiting => 910,
            PluginName::RequestTransformer => 801,
            PluginName::ResponseTransformer => 800,
            PluginName::RequestTermination => 2,
        }
    }

    /// The name as Kong writes it.
    pub fn as_str(self) -> &'static str
        ensures { result.now ≡ plugin_text self }
    {
        match self {
            PluginName::Cors => "cors",
            PluginName::KeyAuth => "key-auth",
            PluginName::BasicAuth => "basic-auth",
            PluginName::IpRestriction => "ip-restriction",
            PluginName::RequestSizeLimiting => "request-size-limiting",
            PluginName::Acl => "acl",
            PluginName::RateLimiting => "rate-limiting",
            PluginName::RequestTransformer => "request-transformer",
            PluginName::ResponseTransformer => "response-transformer",
            PluginName::RequestTermination => "request-termination",
        }
    }

    /// Whether both have one name.
    pub fn is_same(self, other: PluginName) -> bool
        ensures { result ≡ same_plugin self other }
    {
        self.as_str() == other.as_str()
    }

    /// The plugin with this name.
    pub fn named(text: &str) -> Option<PluginName>
        ensures { result ≡ plugin_named text.now }
    {
        match text {
            "cors" => Some(PluginName::Cors),
            "key-auth" => Some(PluginName::KeyAuth),
            "basic-auth" => Some(PluginName::BasicAuth),
            "ip-restriction" => Some(PluginName::IpRestriction),
            "request-size-limiting" => Some(PluginName::RequestSizeLimiting),
            "acl" => Some(PluginName::Acl),
            "rate-limiting" => Some(PluginName::RateLimiting),
            "request-transformer" => Some(PluginName::RequestTransformer),
            "response-transformer" => Some(PluginName::ResponseTransformer),
            "request-termination" => Some(PluginName::RequestTermination),
            _ => None,
        }
    }
}

/// Which requests a plugin sees: those of every part that is set. With none set, all of them.
#[derive(Clone, Copy, PartialEq, Eq)]
pub struct Scope {
    pub service: Option<Id>,
    pub route: Option<Id>,
    pub consumer: Option<Id>,
}

impl Scope {
    /// Whether the scope names the row of this kind and id.
    pub fn names(&self, kind: Kind, id: Id) -> bool
        ensures { result ≡ names_part kind id self.now }
    {
        match kind {
            Kind::Service => is(self.service, id),
            Kind::Route => is(self.route, id),
            Kind::Consumer => is(self.consumer, id),
            _ => false,
        }
    }

    /// Whether both name the same rows.
    pub fn is_same(&self, other: &Scope) -> bool
        ensures { result ≡ same_scope self.now other.now }
    {
        is_same(self.service, other.service)
            && is_same(self.route, other.route)
            && is_same(self.consumer, other.consumer)
    }
}

fn is_same(a: Option<Id>, b: Option<Id>) -> bool
    ensures { result ≡ same_id a b }
{
    match a {
        Some(a) => match b {
            Some(b) => a == b,
            None => false,
        },
        None => match b {
            Some(_) => false,
            None => true,
        },
    }
}

fn is(reference: Option<Id>, id: Id) -> bool
    ensures { result ≡ refers_to id reference }
{
    match reference {
        Some(other) => other == id,
        None => false,
    }
}

/// A plugin with its scope (Kong Admin API, "Plugin").
#[derive(Drop)]
pub struct PluginRow {
    pub id: Id,
    pub scope: Scope,
    pub enabled: bool,
    pub config: Config,
    /// In seconds.
    pub created_at: u64,
}

impl TryClone for PluginRow {
    fn try_clone(&self, alloc: Global) -> Result<PluginRow, NoMemory> {
        Ok(PluginRow {
            id: self.id,
            scope: self.scope,
            enabled: self.enabled,
            config: self.config.try_clone(alloc)?,
            created_at: self.created_at,
        })
    }
}
