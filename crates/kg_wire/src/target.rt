//! The target of a request: a path, and then optionally `?` and a query.

ghost use Rattle.std.specs.Prelude.{◌≡◌, ◌≤◌, length};
ghost use Rattle.std.specs.Option.{option_copied};
ghost use Rattle.std.specs.List.{list_all, position_or_len, after_first};
ghost use Rattle.kg_wire.specs.Targets.{is_question, is_query_byte, target_path, target_query, is_target};

use kg_text::is_path;

/// Is it a path, and then optionally `?` and a query?
pub fn is_target(target: &[u8]) -> bool
    ensures { result ≡ is_target target.now }
{
    is_path(target_path(target)) && is_query(after_question(target))
}

/// What stands before the first `?`.
pub fn target_path(target: &[u8]) -> &[u8]
    ensures { result.now ≡ target_path target.now }
{
    target.split_at(path_len(target)).0
}

/// What stands after the first `?`, if there is one.
pub fn target_query(target: &[u8]) -> Option<&[u8]>
    ensures { option_copied result ≡ target_query target.now }
{
    if target.contains(&b'?') {
        Some(after_question(target))
    } else {
        None
    }
}

fn is_query(query: &[u8]) -> bool
    ensures { result ≡ list_all is_query_byte query.now }
{
    query.iter().all(|b| b.is_ascii_graphic() && *b != b'#')
}

/// How many bytes stand before the first `?`.
pub fn path_len(target: &[u8]) -> usize
    ensures value { result ≡ position_or_len is_question target.now }
    ensures within { result ≤ length target.now }
{
    target.iter().take_while(|b| **b != b'?').count()
}

fn after_question(target: &[u8]) -> &[u8]
    ensures { result.now ≡ after_first is_question target.now }
{
    let start = target.len().min(path_len(target) + 1);
    target.split_at(start).1
}
