//! The Host that the upstream sees, and the bytes of a message with it.

ghost use Rattle.std.specs.Prelude.{◌≡◌, IfOk};
ghost use Rattle.kg_print.specs.UpstreamText.{upstream_text};
ghost use Rattle.kg_upstream.specs.UpstreamPath.{host_and_port, host_seen};

use itoa::Buffer;
use kg_message::{Headers, Request};
use kg_print::upstream::render_request;
use kg_text::{Bytes, NoMemory};
use std::alloc::Global;

/// The bytes of the message for a request, with these further fields. `target` is the path with the query. The Host is
/// the client's where the route keeps it, else that of the service's host and port.
pub fn message_text(
    alloc: Global,
    preserve_host: bool,
    host: &[u8],
    port: u16,
    target: &[u8],
    request: &Request,
    headers: &Headers,
) -> Result<Bytes, NoMemory>
    ensures { IfOk result (λ bytes. bytes ≡ upstream_text request.now.method target.now (host_seen preserve_host host.now port request.now) request.now headers.now) }
{
    let method = request.method.as_slice();
    if preserve_host {
        let host = request.host.as_slice();
        return render_request(alloc, method, target, host, request, headers);
    }
    if port == 80 {
        return render_request(alloc, method, target, host, request, headers);
    }
    let host = host_and_port(alloc, host, port)?;
    render_request(alloc, method, target, host.as_slice(), request, headers)
}

fn host_and_port(alloc: Global, host: &[u8], port: u16) -> Result<Bytes, NoMemory>
    ensures { IfOk result (λ text. text ≡ host_and_port host.now port) }
{
    let mut text = Bytes::from_slice(alloc, host)?;
    text.push(b':')?;
    text.extend_from_slice(Buffer::new().format(port).as_bytes())?;
    Ok(text)
}
