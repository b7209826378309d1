//! Whom a dialer calls.

use kg_text::Text;

/// A host and a port, as an upstream is named.
#[derive(Debug, PartialEq, Eq, Hash, Drop)]
pub struct Target {
    pub host: Text,
    pub port: u16,
}
