//! The hosts of a route.

ghost use Rattle.std.specs.Prelude.{◌≡◌, ◌==◌, ◌≤◌, ◌+◌, length, nat_eq, nat_lt};
ghost use Rattle.std.specs.List.{list_any, position, starts_with, ends_with};
ghost use Rattle.std.specs.Str.{str_to_ascii_lowercase};
ghost use Rattle.kg_match.specs.Attributes.{fits_where};
ghost use Rattle.kg_match.specs.Wildcards.{asterisk, is_wildcard, is_between, host_fits};

use kg_text::{Text, is_lower_case_of};

/// Are no hosts set, or does one of them fit this host, in any case?
pub fn hosts_fit(hosts: &[Text], host: &[u8]) -> bool
    ensures { result ≡ fits_where (λ wanted. host_fits wanted (str_to_ascii_lowercase host.now)) hosts.now }
{
    hosts.is_empty() || has(hosts, host)
}

fn has(hosts: &[Text], host: &[u8]) -> bool
    ensures { result ≡ list_any (λ wanted. host_fits wanted (str_to_ascii_lowercase host.now)) hosts.now }
{
    hosts
        .iter()
        .any(|wanted| fits_in_any_case(wanted.as_bytes(), host))
}

/// Has this host of a route an asterisk?
pub fn is_wildcard(host: &Text) -> bool
    ensures { result ≡ is_wildcard host.now }
{
    host.as_bytes().iter().any(|byte| *byte == b'*')
}

fn fits_in_any_case(wanted: &[u8], host: &[u8]) -> bool
    ensures { result ≡ host_fits wanted.now (str_to_ascii_lowercase host.now) }
{
    match asterisk_at(wanted) {
        Some(at) => is_between(&wanted[..at], &wanted[at + 1..], host),
        None => is_lower_case_of(wanted, host),
    }
}

fn asterisk_at(host: &[u8]) -> Option<usize>
    ensures { result ≡ position (λ byte. byte == asterisk) host.now }
{
    host.iter().position(|byte| *byte == b'*')
}

// Does the host, in lower case, begin and end so, with one or more bytes between?
fn is_between(before: &[u8], after: &[u8], host: &[u8]) -> bool
    ensures { result ≡ is_between before.now after.now (str_to_ascii_lowercase host.now) }
{
    has_room(before, after, host) && begins(before, host) && ends(after, host)
}

// Is the host longer than both?
fn has_room(before: &[u8], after: &[u8], host: &[u8]) -> bool
    ensures { result ≡ nat_lt (length before.now + length after.now) (length host.now) }
{
    before.len() < host.len() && after.len() < host.len() - before.len()
}

fn begins(before: &[u8], host: &[u8]) -> bool
    requires { length before.now ≤ length host.now }
    ensures { result ≡ starts_with nat_eq (str_to_ascii_lowercase host.now) before.now }
{
    is_lower_case_of(before, &host[..before.len()])
}

fn ends(after: &[u8], host: &[u8]) -> bool
    requires { length after.now ≤ length host.now }
    ensures { result ≡ ends_with nat_eq (str_to_ascii_lowercase host.now) after.now }
{
    is_lower_case_of(after, &host[host.len() - after.len()..])
}
