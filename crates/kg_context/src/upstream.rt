//! What is sent to an upstream, and what comes of it.

use kg_message::Response;
use kg_outside::Target;
use kg_text::Bytes;

/// A message to an upstream.
#[derive(Drop)]
pub struct UpRequest {
    /// Whom to call.
    pub target: Target,
    /// How many further dials follow one that failed.
    pub retries: u16,
    /// The whole message.
    pub bytes: Bytes,
    /// Whether its answer has no body, since the request is by HEAD.
    pub head_only: bool,
}

/// What came of a message to an upstream.
#[derive(Drop)]
pub enum Upstream {
    /// This response.
    Answered(Response),
    /// The link failed, at each dial or after one.
    Fault,
    /// The bytes that came are no response.
    NotHttp,
}
