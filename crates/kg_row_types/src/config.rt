//! What each plugin is told. An empty list is one that isn't set.

ghost use Rattle.std.specs.Prelude.{◌≡◌};
ghost use Rattle.kg_row_types.specs.PluginNames.{plugin_of};

use crate::plugin::PluginName;
use kg_text::{List, NoMemory, Text, TryClone};
use std::alloc::Global;

/// The config of one plugin.
#[derive(Drop)]
pub enum Config {
    Cors(Cors),
    KeyAuth(KeyAuth),
    BasicAuth(BasicAuth),
    IpRestriction(IpRestriction),
    RequestSizeLimiting(SizeLimit),
    Acl(Acl),
    RateLimiting(RateLimiting),
    RequestTransformer(RequestTransformer),
    ResponseTransformer(ResponseTransformer),
    RequestTermination(Termination),
}

impl Config {
    /// The plugin that this is the config of.
    pub fn name(&self) -> PluginName
        ensures { result ≡ plugin_of self.now }
    {
        match self {
            Config::Cors(_) => PluginName::Cors,
            Config::KeyAuth(_) => PluginName::KeyAuth,
            Config::BasicAuth(_) => PluginName::BasicAuth,
            Config::IpRestriction(_) => PluginName::IpRestriction,
            Config::RequestSizeLimiting(_) => PluginName::RequestSizeLimiting,
            Config::Acl(_) => PluginName::Acl,
            Config::RateLimiting(_) => PluginName::RateLimiting,
            Config::RequestTransformer(_) => PluginName::RequestTransformer,
            Config::ResponseTransformer(_) => PluginName::ResponseTransformer,
            Config::RequestTermination(_) => PluginName::RequestTermination,
        }
    }
}

impl TryClone for Config {
    fn try_clone(&self, alloc: Global) -> Result<Config, NoMemory> {
        match self {
            Config::Cors(config) => Ok(Config::Cors(config.try_clone(alloc)?)),
            Config::KeyAuth(config) => Ok(Config::KeyAuth(config.try_clone(alloc)?)),
            Config::BasicAuth(config) => Ok(Config::BasicAuth(config.try_clone(alloc)?)),
            Config::IpRestriction(config) => Ok(Config::IpRestriction(config.try_clone(alloc)?)),
            Config::RequestSizeLimiting(config) => Ok(Config::RequestSizeLimiting(config.try_clone(
                alloc,
            )?)),
            Config::Acl(config) => Ok(Config::Acl(config.try_clone(alloc)?)),
            Config::RateLimiting(config) => Ok(Config::RateLimiting(config.try_clone(alloc)?)),
            Config::RequestTransformer(config) => Ok(Config::RequestTransformer(config.try_clone(
                alloc,
            )?)),
            Config::ResponseTransformer(config) => Ok(Config::ResponseTransformer(config.try_clone(
                alloc,
            )?)),
            Config::RequestTermination(config) => Ok(Config::RequestTermination(config.try_clone(
                alloc,
            )?)),
        }
    }
}

/// Which other origins may read the replies (Kong's plugin cors).
#[derive(Drop)]
pub struct Cors {
    /// Not set, it counts as `*`.
    pub origins: List<Text>,
    pub methods: List<Text>,
    pub headers: List<Text>,
    pub exposed_headers: List<Text>,
    pub credentials: bool,
    /// In seconds.
    pub max_age: Option<u64>,
    /// Whether preflight requests go on to the upstream.
    pub preflight_continue: bool,
}

impl TryClone for Cors {
    fn try_clone(&self, alloc: Global) -> Result<Cors, NoMemory> {
        Ok(Cors {
            origins: self.origins.try_clone(alloc)?,
            methods: self.methods.try_clone(alloc)?,
            headers: self.headers.try_clone(alloc)?,
            exposed_headers: self.exposed_headers.try_clone(alloc)?,
            credentials: self.credentials,
            max_age: self.max_age,
            preflight_continue: self.preflight_continue,
        })
    }
}

/// Where a request's key stands (Kong's plugin key-auth).
#[derive(Drop)]
pub struct KeyAuth {
    /// The names of headers and of query arguments, in the order in which they are tried.
    pub key_names: List<Text>,
    pub key_in_header: bool,
    pub key_in_query: bool,
    pub hide_credentials: bool,
    /// The id or username of the consumer for requests that fail.
    pub anonymous: Option<Text>,
}

impl TryClone for KeyAuth {
    fn try_clone(&self, alloc: Global) -> Result<KeyAuth, NoMemory> {
        Ok(KeyAuth {
            key_names: self.key_names.try_clone(alloc)?,
            key_in_header: self.key_in_header,
            key_in_query: self.key_in_query,
            hide_credentials: self.hide_credentials,
            anonymous: self.anonymous.try_clone(alloc)?,
        })
    }
}

/// How names and passwords are asked for (Kong's plugin basic-auth).
#[derive(Drop)]
pub struct BasicAuth {
    pub hide_credentials: bool,
    /// The id or username of the consumer for requests that fail.
    pub anonymous: Option<Text>,
}

impl TryClone for BasicAuth {
    fn try_clone(&self, alloc: Global) -> Result<BasicAuth, NoMemory> {
        Ok(BasicAuth {
            hide_credentials: self.hide_credentials,
            anonymous: self.anonymous.try_clone(alloc)?,
        })
    }
}

/// Which addresses may send requests (Kong's plugin ip-restriction): IPv4 addresses or blocks.
#[derive(Drop)]
pub struct IpRestriction {
    pub allow: List<Text>,
    pub deny: List<Text>,
}

impl TryClone for IpRestriction {
    fn try_clone(&self, alloc: Global) -> Result<IpRestriction, NoMemory> {
        Ok(IpRestriction {
            allow: self.allow.try_clone(alloc)?,
            deny: self.deny.try_clone(alloc)?,
        })
    }
}

/// What a size is counted in.
#[derive(Clone, Copy, PartialEq, Eq)]
pub enum SizeUnit {
    /// 2^20 bytes.
    Megabytes,
    /// 2^10 bytes.
    Kilobytes,
    Bytes,
}

/// How long a request's body may be (Kong's plugin request-size-limiting).
#[derive(Drop)]
pub struct SizeLimit {
    /// 1 to 1000000000.
    pub allowed_payload_size: u64,
    pub size_unit: SizeUnit,
}

impl TryClone for SizeLimit {
    fn try_clone(&self, alloc: Global) -> Result<SizeLimit, NoMemory> {
        Ok(SizeLimit {
            allowed_payload_size: self.allowed_payload_size,
            size_unit: self.size_unit,
        })
    }
}

/// Which groups may send requests (Kong's plugin acl). Exactly one of the lists is set.
#[derive(Drop)]
pub struct Acl {
    pub allow: List<Text>,
    pub deny: List<Text>,
    pub hide_groups_header: bool,
}

impl TryClone for Acl {
    fn try_clone(&self, alloc: Global) -> Result<Acl, NoMemory> {
        Ok(Acl {
            allow: self.allow.try_clone(alloc)?,
            deny: self.deny.try_clone(alloc)?,
            hide_groups_header: self.hide_groups_header,
        })
    }
}

/// Whose requests are counted together.
#[derive(Clone, Copy, PartialEq, Eq)]
pub enum LimitBy {
    Consumer,
    Ip,
    Service,
}

/// How many requests may come in a window of time (Kong's plugin rate-limiting). Each limit is
/// 1 to 1000000000, and at least one is set.
#[derive(Drop)]
pub struct RateLimiting {
    pub second: Option<u64>,
    pub minute: Option<u64>,
    pub hour: Option<u64>,
    pub day: Option<u64>,
    pub limit_by: LimitBy,
    pub hide_client_headers: bool,
}

impl TryClone for RateLimiting {
    fn try_clone(&self, alloc: Global) -> Result<RateLimiting, NoMemory> {
        Ok(RateLimiting {
            second: self.second,
            minute: self.minute,
            hour: self.hour,
            day: self.day,
            limit_by: self.limit_by,
            hide_client_headers: self.hide_client_headers,
        })
    }
}

/// One step of a request's change: members `name` or `name:value`.
#[derive(Drop)]
pub struct Edits {
    pub headers: List<Text>,
    pub querystring: List<Text>,
}

impl TryClone for Edits {
    fn try_clone(&self, alloc: Global) -> Result<Edits, NoMemory> {
        Ok(Edits {
            headers: self.headers.try_clone(alloc)?,
            querystring: self.querystring.try_clone(alloc)?,
        })
    }
}

/// How requests are changed (Kong's plugin request-transformer).
#[derive(Drop)]
pub struct RequestTransformer {
    pub remove: Edits,
    pub rename: Edits,
    pub replace: Edits,
    pub add: Edits,
    pub append: Edits,
}

impl TryClone for RequestTransformer {
    fn try_clone(&self, alloc: Global) -> Result<RequestTransformer, NoMemory> {
        Ok(RequestTransformer {
            remove: self.remove.try_clone(alloc)?,
            rename: self.rename.try_clone(alloc)?,
            replace: self.replace.try_clone(alloc)?,
            add: self.add.try_clone(alloc)?,
            append: self.append.try_clone(alloc)?,
        })
    }
}

/// How the headers of replies are changed (Kong's plugin response-transformer).
#[derive(Drop)]
pub struct ResponseTransformer {
    pub remove: List<Text>,
    pub rename: List<Text>,
    pub replace: List<Text>,
    pub add: List<Text>,
    pub append: List<Text>,
}

impl TryClone for ResponseTransformer {
    fn try_clone(&self, alloc: Global) -> Result<ResponseTransformer, NoMemory> {
        Ok(ResponseTransformer {
            remove: self.remove.try_clone(alloc)?,
            rename: self.rename.try_clone(alloc)?,
            replace: self.replace.try_clone(alloc)?,
            add: self.add.try_clone(alloc)?,
            append: self.append.try_clone(alloc)?,
        })
    }
}

/// The reply that ends every request (Kong's plugin request-termination).
#[derive(Drop)]
pub struct Termination {
    /// 200 to 599.
    pub status_code: u16,
    pub message: Option<Text>,
    /// At most 65,536 bytes.
    pub body: Option<Text>,
    pub content_type: Option<Text>,
}

impl TryClone for Termination {
    fn try_clone(&self, alloc: Global) -> Result<Termination, NoMemory> {
        Ok(Termination {
            status_code: self.status_code,
            message: self.message.try_clone(alloc)?,
            body: self.body.try_clone(alloc)?,
            content_type: self.content_type.try_clone(alloc)?,
        })
    }
}
