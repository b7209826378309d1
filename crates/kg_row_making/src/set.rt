//! What is set, over what was there before.

ghost use Rattle.std.specs.Prelude.{◌≡◌, ◌<◌, ◌^◌, IfSome, FitsSigned, unwrap_or};
ghost use Rattle.std.specs.Int.{w32};
ghost use Rattle.std.specs.Option.{option_or};
ghost use Rattle.kg_row_making.specs.FinishedConfigs.{list_over};

use kg_text::List;

/// Writes the value over the target, if there is one.
pub fn set<T: Drop>(target: &mut T, value: Option<T>)
    ensures { target.new ≡ unwrap_or value target.old }
{
    match value {
        Some(value) => *target = value,
        None => {}
    }
}

/// Writes the value over a target that may hold none, if there is one.
pub fn set_option<T: Drop>(target: &mut Option<T>, value: Option<T>)
    ensures { target.new ≡ option_or value target.old }
{
    match value {
        Some(value) => *target = Some(value),
        None => {}
    }
}

/// Writes the list over the target, if it has members.
pub fn set_list<T: Drop>(target: &mut List<T>, list: List<T>)
    ensures { target.new ≡ list_over list target.old }
{
    if !list.as_slice().is_empty() {
        *target = list;
    }
}

/// The number in 16 bits.
pub fn narrow(number: Option<u64>) -> Option<u16>
    requires { IfSome number (λ n. n < 2 ^ 16) }
    ensures { result ≡ number }
{
    match number {
        Some(number) => Some(number as u16),
        None => None,
    }
}

/// The integer in 32 bits.
pub fn narrow_signed(number: Option<i64>) -> Option<i32>
    requires { IfSome number (λ n. FitsSigned w32 n) }
    ensures { result ≡ number }
{
    match number {
        Some(number) => Some(number as i32),
        None => None,
    }
}
