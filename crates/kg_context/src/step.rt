//! What a plugin that asks for rows answers.

use kg_message::Response;
use kg_row_types::key::Key;

/// The answer of a plugin in access.
#[derive(Drop)]
pub enum AccessStep {
    /// It can't go on without the value of this key. The context is as it was.
    Ask(Key),
    /// The request goes on.
    Pass,
    /// The request ends with this reply.
    End(Response),
}
