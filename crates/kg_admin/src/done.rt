//! Requests that were answered.

use kg_message::Response;

/// The reply to a request, and where it was made.
#[derive(Drop)]
pub struct AdminDone {
    pub response: Response,
    /// After how many commits. None: the rows weren't asked, or the store failed.
    pub at: Option<u64>,
    /// The store failed.
    pub faulted: bool,
}
