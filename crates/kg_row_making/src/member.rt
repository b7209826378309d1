//! The members of bodies.

ghost use Rattle.std.specs.Prelude.{◌≡◌, unwrap_or};
ghost use Rattle.serde_json.specs.Find.{get};
ghost use Rattle.serde_json.specs.View.{view};

use serde_json::Value;

/// The member of this name, or the other value.
pub fn member_or<'v>(name: &str, body: &'v Value, other: &'v Value) -> &'v Value
    ensures { view result.now ≡ unwrap_or (get name.now (view body.now)) (view other.now) }
{
    match body.get(name) {
        Some(value) => value,
        None => other,
    }
}
