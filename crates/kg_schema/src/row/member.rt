//! The members of bodies.

ghost use Rattle.std.specs.Prelude.{◌≡◌};
ghost use Rattle.serde_json.specs.View.{view};
ghost use Rattle.kg_schema.specs.Between.{is_set_at};

use kg_bodies::judge::is_set;
use serde_json::Value;

/// Is the member of this name set?
pub fn is_set_at(name: &str, body: &Value) -> bool
    ensures { result ≡ is_set_at name.now (view body.now) }
{
    match body.get(name) {
        Some(value) => is_set(value),
        None => false,
    }
}
