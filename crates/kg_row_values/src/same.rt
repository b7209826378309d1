//! Rows of generations that are the same.

ghost use Rattle.std.specs.Prelude.{◌≡◌, ◌↔◌, IsTrue};

use kg_entities::{
    Acl, BasicAuth, Config, Cors, Edits, HeaderTest, IpRestriction, KeyAuth, PluginRow,
    RateLimiting, RequestTransformer, ResponseTransformer, Route, Service, SizeLimit, Termination,
};
use kg_text::{List, Text};

/// Whether two services are the same in every field.
pub fn is_same_service(a: &Service, b: &Service) -> bool
    ensures { IsTrue result ↔ (a.now ≡ b.now) }
{
    a == b
}

/// Whether two routes are the same in every field.
pub fn is_same_route(a: &Route, b: &Route) -> bool
    ensures { IsTrue result ↔ (a.now ≡ b.now) }
{
    // in three parts, as the plugins below by their configs: a short proof
    has_same_names(a, b) && has_same_lists(a, b) && has_same_numbers(a, b)
}

fn has_same_names(a: &Route, b: &Route) -> bool
    ensures { IsTrue result ↔ ((a.now.id ≡ b.now.id) × (a.now.name ≡ b.now.name) × (a.now.service ≡ b.now.service) × (a.now.https ≡ b.now.https)) }
{
    a.id == b.id && is_same_text(&a.name, &b.name) && a.service == b.service && a.https == b.https
}

fn has_same_lists(a: &Route, b: &Route) -> bool
    ensures { IsTrue result ↔ ((a.now.methods ≡ b.now.methods) × (a.now.hosts ≡ b.now.hosts) × (a.now.paths ≡ b.now.paths) × (a.now.headers ≡ b.now.headers)) }
{
    are_same_texts(&a.methods, &b.methods)
        && are_same_texts(&a.hosts, &b.hosts)
        && are_same_texts(&a.paths, &b.paths)
        && are_same_headers(&a.headers, &b.headers)
}

fn has_same_numbers(a: &Route, b: &Route) -> bool
    ensures { IsTrue result ↔ ((a.now.regex_priority ≡ b.now.regex_priority) × (a.now.strip_path ≡ b.now.strip_path) × (a.now.preserve_host ≡ b.now.preserve_host) × (a.now.created_at ≡ b.now.created_at) × (a.now.updated_at ≡ b.now.updated_at)) }
{
    a.regex_priority == b.regex_priority
        && a.strip_path == b.strip_path
        && a.preserve_host == b.preserve_host
        && a.created_at == b.created_at
        && a.updated_at == b.updated_at
}

// `==` of one type, under a contract for the proofs; so are the two below.
fn is_same_text(a: &Option<Text>, b: &Option<Text>) -> bool
    ensures { IsTrue result ↔ (a.now ≡ b.now) }
{
    a == b
}

#[tactic(auto, using(crate::proofs::SameLemmas::texts_decide))]
fn are_same_texts(a: &List<Text>, b: &List<Text>) -> bool
    ensures { IsTrue result ↔ (a.now ≡ b.now) }
{
    a == b
}

fn are_same_headers(a: &List<HeaderTest>, b: &List<HeaderTest>) -> bool
    ensures { IsTrue result ↔ (a.now ≡ b.now) }
{
    a == b
}

/// Whether two plugins are the same in every field.
pub fn is_same_plugin(a: &PluginRow, b: &PluginRow) -> bool
    ensures { IsTrue result ↔ (a.now ≡ b.now) }
{
    has_same_name_and_scope(a, b) && is_same_config(&a.config, &b.config)
}

fn has_same_name_and_scope(a: &PluginRow, b: &PluginRow) -> bool
    ensures { IsTrue result ↔ ((a.now.id ≡ b.now.id) × (a.now.scope ≡ b.now.scope) × (a.now.enabled ≡ b.now.enabled) × (a.now.created_at ≡ b.now.created_at)) }
{
    a.id == b.id && a.scope == b.scope && a.enabled == b.enabled && a.created_at == b.created_at
}

fn is_same_config(a: &Config, b: &Config) -> bool
    ensures { IsTrue result ↔ (a.now ≡ b.now) }
{
    match a {
        Config::Cors(a) => match b {
            Config::Cors(b) => is_same_cors(a, b),
            _ => false,
        },
        Config::KeyAuth(a) => match b {
            Config::KeyAuth(b) => is_same_key_auth(a, b),
            _ => false,
        },
        Config::BasicAuth(a) => match b {
            Config::BasicAuth(b) => is_same_basic_auth(a, b),
            _ => false,
        },
        Config::IpRestriction(a) => match b {
            Config::IpRestriction(b) => is_same_ip_restriction(a, b),
            _ => false,
        },
        Config::RequestSizeLimiting(a) => match b {
            Config::RequestSizeLimiting(b) => is_same_size_limit(a, b),
            _ => false,
        },
        Config::Acl(a) => match b {
            Config::Acl(b) => is_same_acl(a, b),
            _ => false,
        },
        Config::RateLimiting(a) => match b {
            Config::RateLimiting(b) => is_same_rate_limiting(a, b),
            _ => false,
        },
        Config::RequestTransformer(a) => match b {
            Config::RequestTransformer(b) => is_same_request_transformer(a, b),
            _ => false,
        },
        Config::ResponseTransformer(a) => match b {
            Config::ResponseTransformer(b) => is_same_response_transformer(a, b),
            _ => false,
        },
        Config::RequestTermination(a) => match b {
            Config::RequestTermination(b) => is_same_termination(a, b),
            _ => false,
        },
    }
}

fn is_same_cors(a: &Cors, b: &Cors) -> bool
    ensures { IsTrue result ↔ (a.now ≡ b.now) }
{
    are_same_texts(&a.origins, &b.origins)
        && are_same_texts(&a.methods, &b.methods)
        && are_same_texts(&a.headers, &b.headers)
        && are_same_texts(&a.exposed_headers, &b.exposed_headers)
        && a.credentials == b.credentials
        && a.max_age == b.max_age
        && a.preflight_continue == b.preflight_continue
}

fn is_same_key_auth(a: &KeyAuth, b: &KeyAuth) -> bool
    ensures { IsTrue result ↔ (a.now ≡ b.now) }
{
    are_same_texts(&a.key_names, &b.key_names)
        && a.key_in_header == b.key_in_header
        && a.key_in_query == b.key_in_query
        && a.hide_credentials == b.hide_credentials
        && is_same_text(&a.anonymous, &b.anonymous)
}

fn is_same_basic_auth(a: &BasicAuth, b: &BasicAuth) -> bool
    ensures { IsTrue result ↔ (a.now ≡ b.now) }
{
    a.hide_credentials == b.hide_credentials && is_same_text(&a.anonymous, &b.anonymous)
}

fn is_same_ip_restriction(a: &IpRestriction, b: &IpRestriction) -> bool
    ensures { IsTrue result ↔ (a.now ≡ b.now) }
{
    are_same_texts(&a.allow, &b.allow) && are_same_texts(&a.deny, &b.deny)
}

fn is_same_size_limit(a: &SizeLimit, b: &SizeLimit) -> bool
    ensures { IsTrue result ↔ (a.now ≡ b.now) }
{
    a.allowed_payload_size == b.allowed_payload_size && a.size_unit == b.size_unit
}

fn is_same_acl(a: &Acl, b: &Acl) -> bool
    ensures { IsTrue result ↔ (a.now ≡ b.now) }
{
    are_same_texts(&a.allow, &b.allow)
        && are_same_texts(&a.deny, &b.deny)
        && a.hide_groups_header == b.hide_groups_header
}

fn is_same_rate_limiting(a: &RateLimiting, b: &RateLimiting) -> bool
    ensures { IsTrue result ↔ (a.now ≡ b.now) }
{
    a.second == b.second
        && a.minute == b.minute
        && a.hour == b.hour
        && a.day == b.day
        && a.limit_by == b.limit_by
        && a.hide_client_headers == b.hide_client_headers
}

fn is_same_request_transformer(a: &RequestTransformer, b: &RequestTransformer) -> bool
    ensures { IsTrue result ↔ (a.now ≡ b.now) }
{
    is_same_edits(&a.remove, &b.remove)
        && is_same_edits(&a.rename, &b.rename)
        && is_same_edits(&a.replace, &b.replace)
        && is_same_edits(&a.add, &b.add)
        && is_same_edits(&a.append, &b.append)
}

fn is_same_response_transformer(a: &ResponseTransformer, b: &ResponseTransformer) -> bool
    ensures { IsTrue result ↔ (a.now ≡ b.now) }
{
    are_same_texts(&a.remove, &b.remove)
        && are_same_texts(&a.rename, &b.rename)
        && are_same_texts(&a.replace, &b.replace)
        && are_same_texts(&a.add, &b.add)
        && are_same_texts(&a.append, &b.append)
}

fn is_same_termination(a: &Termination, b: &Termination) -> bool
    ensures { IsTrue result ↔ (a.now ≡ b.now) }
{
    a.status_code == b.status_code
        && is_same_text(&a.message, &b.message)
        && is_same_text(&a.body, &b.body)
        && is_same_text(&a.content_type, &b.content_type)
}

fn is_same_edits(a: &Edits, b: &Edits) -> bool
    ensures { IsTrue result ↔ (a.now ≡ b.now) }
{
    are_same_texts(&a.headers, &b.headers) && are_same_texts(&a.querystring, &b.querystring)
}
