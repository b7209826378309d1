//! What the words of the program set.

ghost use Rattle.std.specs.Prelude.{◌≡◌, ◌^◌, ◌-◌, true, false, Some, None, IfOk, IfNone, IfSome, OnOk};
ghost use Rattle.std.specs.Char.{is_ascii_digit};
ghost use Rattle.std.specs.List.{list_all};
ghost use Rattle.kg_admin_demo.specs.Words.{defaults, is_number, number_of, with_option, with_words};

use kg_text::{List, NoMemory, Text};
use std::alloc::Global;

/// How the store and the connection are set.
#[derive(Drop)]
pub struct Options {
    /// How many rows a kind may have.
    pub rows: u32,
    /// How many requests are answered.
    pub requests: u32,
    /// The numbers of the store's calls that fail, from 1.
    pub fails: List<u64>,
}

/// The options that the words tell, or none where they are other words: `--rows N`, `--requests N` and
/// `--fail N`, each a number, the last as often as wanted.
pub fn options_of(alloc: Global, words: &List<Text>) -> Result<Option<Options>, NoMemory>
    ensures { IfOk result (λ options. options ≡ with_words defaults words.now) }
{
    let mut options = Options {
        rows: 100_000,
        requests: 1000,
        fails: List::new(alloc),
    };
    let mut rest = words.as_slice();
    while let [name, value, more @ ..] = rest {
        if !set(&mut options, name.as_str(), value.as_str())? {
            drop(options);
            return Ok(None);
        }
        rest = more;
    }
    if rest.is_empty() {
        return Ok(Some(options));
    }
    drop(options);
    Ok(None)
}

// Sets the option of this name. False: there is none, or the value is none of it.
fn set(options: &mut Options, name: &str, value: &str) -> Result<bool, NoMemory>
    ensures set { IfOk result (λ known. known ≡ true → with_option options.old name.now value.now ≡ Some options.new) }
    ensures none { IfOk result (λ known. known ≡ false → with_option options.old name.now value.now ≡ None) }
{
    match name {
        "--rows" => Ok(set_number(&mut options.rows, value)),
        "--requests" => Ok(set_number(&mut options.requests, value)),
        "--fail" => match number_of(value) {
            Some(number) => {
                options.fails.push(number)?;
                Ok(true)
            }
            None => Ok(false),
        },
        _ => Ok(false),
    }
}

fn set_number(field: &mut u32, value: &str) -> bool
    ensures set { result ≡ true → number_of (2 ^ 32 - 1) value.now ≡ Some field.new }
    ensures none { result ≡ false → number_of (2 ^ 32 - 1) value.now ≡ None }
{
    let Some(number) = number_of(value) else {
        return false;
    };
    match u32::try_from(number) {
        Ok(number) => {
            *field = number;
            true
        }
        Err(_) => false,
    }
}

// The number that decimal digits tell, without a sign or a leading zero.
fn number_of(value: &str) -> Option<u64>
    ensures { result ≡ number_of (2 ^ 64 - 1) value.now }
{
    if is_number(value.as_bytes()) {
        return value.parse().ok();
    }
    None
}

fn is_number(text: &[u8]) -> bool
    ensures { result ≡ is_number text.now }
{
    !text.is_empty() && are_digits(text) && (text.len() == 1 || text[0] != b'0')
}

fn are_digits(text: &[u8]) -> bool
    ensures { result ≡ list_all is_ascii_digit text.now }
{
    text.iter().all(|b| b.is_ascii_digit())
}
