//! The configs that plugins have where nothing is set: the defaults of the tables of their fields, and
//! nothing where a table has none.

ghost use Rattle.std.specs.Prelude.{◌≡◌, IfOk};
ghost use Rattle.kg_row_types.specs.declared.config.Config.TheVariants as config_of;
ghost use Rattle.kg_row_making.specs.FinishedConfigs.{default_acl, default_basic_auth, default_config, default_cors, default_ip_restriction, default_key_auth, default_rate_limiting, default_request_transformer, default_response_transformer, default_size_limit, default_termination, no_edits};

use kg_field_tables::default_value::{
    default_flag, default_limit_by, default_number, default_size_unit, default_texts, default_whole,
};
use kg_field_tables::table::Table;
use kg_row_types::config::{
    Acl, BasicAuth, Config, Cors, Edits, IpRestriction, KeyAuth, RateLimiting, RequestTransformer,
    ResponseTransformer, SizeLimit, Termination,
};
use kg_row_types::plugin::PluginName;
use kg_text::{List, NoMemory};
use std::alloc::Global;

/// The config that a plugin has where nothing is set.
pub fn default_config(alloc: Global, name: PluginName) -> Result<Config, NoMemory>
    ensures { IfOk result (λ config. config ≡ default_config name) }
{
    match name {
        PluginName::Cors => default_cors(alloc),
        PluginName::KeyAuth => default_key_auth(alloc),
        PluginName::BasicAuth => Ok(default_basic_auth()),
        PluginName::IpRestriction => Ok(default_ip_restriction(alloc)),
        PluginName::RequestSizeLimiting => Ok(default_size_limit()),
        PluginName::Acl => Ok(default_acl(alloc)),
        PluginName::RateLimiting => Ok(default_rate_limiting()),
        PluginName::RequestTransformer => Ok(default_request_transformer(alloc)),
        PluginName::ResponseTransformer => Ok(default_response_transformer(alloc)),
        PluginName::RequestTermination => Ok(default_termination()),
    }
}

fn default_cors(alloc: Global) -> Result<Config, NoMemory>
    ensures { IfOk result (λ config. config ≡ config_of.Cors default_cors) }
{
    let table = Table::Config(PluginName::Cors);
    let methods = default_texts(alloc, table, "methods")?;
    Ok(Config::Cors(Cors {
        origins: List::new(alloc),
        methods,
        headers: List::new(alloc),
        exposed_headers: List::new(alloc),
        credentials: default_flag(table, "credentials"),
        max_age: default_number(table, "max_age"),
        preflight_continue: default_flag(table, "preflight_continue"),
    }))
}

fn default_key_auth(alloc: Global) -> Result<Config, NoMemory>
    ensures { IfOk result (λ config. config ≡ config_of.KeyAuth default_key_auth) }
{
    let table = Table::Config(PluginName::KeyAuth);
    let key_names = default_texts(alloc, table, "key_names")?;
    Ok(Config::KeyAuth(KeyAuth {
        key_names,
        key_in_header: default_flag(table, "key_in_header"),
        key_in_query: default_flag(table, "key_in_query"),
        hide_credentials: default_flag(table, "hide_credentials"),
        anonymous: None,
    }))
}

fn default_basic_auth() -> Config
    ensures { result ≡ config_of.BasicAuth default_basic_auth }
{
    let table = Table::Config(PluginName::BasicAuth);
    Config::BasicAuth(BasicAuth {
        hide_credentials: default_flag(table, "hide_credentials"),
        anonymous: None,
    })
}

fn default_ip_restriction(alloc: Global) -> Config
    ensures { result ≡ config_of.IpRestriction default_ip_restriction }
{
    Config::IpRestriction(IpRestriction {
        allow: List::new(alloc),
        deny: List::new(alloc),
    })
}

fn default_size_limit() -> Config
    ensures { result ≡ config_of.RequestSizeLimiting default_size_limit }
{
    let table = Table::Config(PluginName::RequestSizeLimiting);
    Config::RequestSizeLimiting(SizeLimit {
        allowed_payload_size: default_whole(table, "allowed_payload_size"),
        size_unit: default_size_unit(table, "size_unit"),
    })
}

fn default_acl(alloc: Global) -> Config
    ensures { result ≡ config_of.Acl default_acl }
{
    Config::Acl(Acl {
        allow: List::new(alloc),
        deny: List::new(alloc),
        hide_groups_header: default_flag(Table::Config(PluginName::Acl), "hide_groups_header"),
    })
}

fn default_rate_limiting() -> Config
    ensures { result ≡ config_of.RateLimiting default_rate_limiting }
{
    let table = Table::Config(PluginName::RateLimiting);
    Config::RateLimiting(RateLimiting {
        second: default_number(table, "second"),
        minute: default_number(table, "minute"),
        hour: default_number(table, "hour"),
        day: default_number(table, "day"),
        limit_by: default_limit_by(table, "limit_by"),
        hide_client_headers: default_flag(table, "hide_client_headers"),
    })
}

fn no_edits(alloc: Global) -> Edits
    ensures { result ≡ no_edits }
{
    Edits {
        headers: List::new(alloc),
        querystring: List::new(alloc),
    }
}

fn default_request_transformer(alloc: Global) -> Config
    ensures { result ≡ config_of.RequestTransformer default_request_transformer }
{
    Config::RequestTransformer(RequestTransformer {
        remove: no_edits(alloc),
        rename: no_edits(alloc),
        replace: no_edits(alloc),
        add: no_edits(alloc),
        append: no_edits(alloc),
    })
}

fn default_response_transformer(alloc: Global) -> Config
    ensures { result ≡ config_of.ResponseTransformer default_response_transformer }
{
    Config::ResponseTransformer(ResponseTransformer {
        remove: List::new(alloc),
        rename: List::new(alloc),
        replace: List::new(alloc),
        add: List::new(alloc),
        append: List::new(alloc),
    })
}

fn default_termination() -> Config
    ensures { result ≡ config_of.RequestTermination default_termination }
{
    let table = Table::Config(PluginName::RequestTermination);
    Config::RequestTermination(Termination {
        status_code: default_whole(table, "status_code") as u16,
        message: None,
        body: None,
        content_type: None,
    })
}
