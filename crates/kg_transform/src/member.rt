//! The members of a transformer's lists: `name`, or `name:value`.

ghost use Rattle.std.specs.Prelude.{◌≡◌};
ghost use Rattle.kg_row_types.specs.ConfigTexts.{edit_name, edit_value};

use kg_text::Text;

/// What stands before the first colon.
pub fn name_of(member: &Text) -> &str
    ensures { result.now ≡ edit_name member.now }
{
    match member.as_str().split_once(':') {
        Some((name, _)) => name,
        None => member.as_str(),
    }
}

/// What stands behind it: nothing, where there is none.
pub fn value_of(member: &Text) -> &str
    ensures { result.now ≡ edit_value member.now }
{
    match member.as_str().split_once(':') {
        Some((_, value)) => value,
        None => "",
    }
}
