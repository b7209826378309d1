//! What a command changed.

use kg_entities::{GenKey, Key};
use kg_text::List;

/// The keys and the generations whose values a command changed, each once.
#[derive(Drop)]
pub struct Touched {
    pub keys: List<Key>,
    pub gens: List<GenKey>,
}
