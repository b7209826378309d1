//! What a request wants of its environment.

use kg_context::UpRequest;
use kg_limit::Hit;
use kg_message::Response;
use kg_row_types::key::Key;

/// What a request wants next.
#[derive(Drop)]
pub enum Want {
    /// The value of a key.
    Entity(Key),
    /// The verdict on a hit.
    Count(Hit),
    /// The answer of an upstream.
    Upstream(UpRequest),
    /// Nothing more: this is the reply.
    Done(Response),
}
