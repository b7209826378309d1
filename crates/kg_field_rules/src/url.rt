//! The url of a service.

ghost use Rattle.std.specs.Prelude.{◌≡◌, ◌==◌, IfOk, IfSome, is_some, option_map};
ghost use Rattle.std.specs.Str.{IsAscii};
ghost use Rattle.kg_field_rules.specs.UrlParts.{are_ascii, parts_seen};
ghost use Rattle.kg_field_rules.specs.Urls.{after_scheme, host_of, is_numeral, port_number, port_of, url_of, url_path_of};

use crate::parts::{are_digits, number_of, split_before, text_of};
use crate::text_rule::is_normal_path;
use kg_text::{NoMemory, Text, is_host};
use std::alloc::Global;

/// Where a service's url leads to.
#[derive(Drop)]
pub struct Url {
    pub host: Text,
    pub port: u16,
    pub path: Option<Text>,
}

/// The parts of a url, where they stand.
#[derive(Drop)]
pub struct UrlParts<'u> {
    host: &'u [u8],
    port: u16,
    path: Option<&'u [u8]>,
}

/// Is this a url?
pub fn is_url(url: &[u8]) -> bool
    ensures { result ≡ is_some (url_of url.now) }
{
    url_parts(url).is_some()
}

/// Reads a url.
pub fn read_url(alloc: Global, url: &[u8]) -> Result<Option<Url>, NoMemory>
    ensures { IfOk result (λ found. found ≡ url_of url.now) }
{
    match url_parts(url) {
        Some(parts) => Ok(Some(url_of(alloc, &parts)?)),
        None => Ok(None),
    }
}

fn url_of(alloc: Global, parts: &UrlParts<'_>) -> Result<Url, NoMemory>
    requires { are_ascii parts.now }
    ensures { IfOk result (λ url. url ≡ parts_seen parts.now) }
{
    Ok(Url {
        host: text_of(alloc, parts.host)?,
        port: parts.port,
        path: match parts.path {
            Some(path) => Some(text_of(alloc, path)?),
            None => None,
        },
    })
}

#[tactic(auto, unfolding(crate::specs::Urls::url_of))]
fn url_parts(url: &[u8]) -> Option<UrlParts<'_>>
    ensures value { option_map parts_seen result ≡ url_of url.now }
    ensures ascii { IfSome result are_ascii }
{
    let rest = after_scheme(url)?;
    let (authority, path) = split_before(b'/', rest);
    let (host, port) = split_before(b':', authority);
    let host = host_part(host)?;
    let port = port_part(port)?;
    let path = path_part(path)?;
    Some(UrlParts { host, port, path })
}

#[tactic(auto, unfolding(crate::specs::Urls::after_scheme))]
fn after_scheme(url: &[u8]) -> Option<&[u8]>
    ensures { option_map (λ rest. rest.now) result ≡ after_scheme url.now }
{
    url.strip_prefix(b"http://")
}

#[tactic(auto, unfolding(crate::specs::Urls::host_of))]
fn host_part(host: &[u8]) -> Option<&[u8]>
    ensures value { option_map (λ host. host.now) result ≡ host_of host.now }
    ensures ascii { IfSome result (λ host. IsAscii host.now) }
{
    if is_host(host) { Some(host) } else { None }
}

// The port behind a host: none is 80.
#[tactic(auto, unfolding(crate::specs::Urls::port_of))]
fn port_part(text: &[u8]) -> Option<u16>
    ensures { result ≡ port_of text.now }
{
    match text {
        [] => Some(80),
        [_, digits @ ..] => port_number(digits),
    }
}

fn port_number(digits: &[u8]) -> Option<u16>
    ensures { result ≡ port_number digits.now }
{
    if is_numeral(digits) {
        number_of(digits)
    } else {
        None
    }
}

// Decimal digits, the first of which isn't 0.
fn is_numeral(digits: &[u8]) -> bool
    ensures { result ≡ is_numeral digits.now }
{
    match digits {
        [first, ..] => are_digits(digits) && *first > b'0',
        [] => false,
    }
}

#[tactic(auto, unfolding(crate::specs::Urls::url_path_of))]
fn path_part(path: &[u8]) -> Option<Option<&[u8]>>
    ensures value { option_map (λ found. option_map (λ path. path.now) found) result ≡ url_path_of path.now }
    ensures ascii { IfSome result (λ found. IfSome found (λ path. IsAscii path.now)) }
{
    if path.is_empty() {
        return Some(None);
    }
    if is_normal_path(path) {
        Some(Some(path))
    } else {
        None
    }
}
