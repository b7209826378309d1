//! The end of a head, as far as bytes alone show it.

ghost use Rattle.std.specs.Prelude.{◌≡◌, ◌≤◌, ◌∷◌, ◌++◌, List, ℕ, [], IsTrue, MatchOption, false, length, take};
ghost use Rattle.httparse.specs.Grammar.{HasNoRequest, LineEnd, print_end};
ghost use Rattle.kg_wire.specs.HeadEnds.{EndsHead, EndsInText, HasNoReturn};

/// Does a head seem to end behind the first `before` bytes: by an empty line after one that isn't empty? The
/// end of a whole head is never missed.
pub fn has_head_end(bytes: &[u8], before: usize) -> bool
    requires { before ≤ length bytes.now }
    ensures { result ≡ false → HasNoRequest (take before bytes.now) → HasNoRequest bytes.now }
{
    for end in before..bytes.len() {
        if ends_head(bytes.split_at(end + 1).0) {
            return true;
        }
    }
    false
}

// Do the bytes end in an empty line after one that isn't empty?
fn ends_head(bytes: &[u8]) -> bool
    ensures { EndsHead bytes.now → IsTrue result }
{
    match without_line_end(bytes) {
        Some(lines) => ends_line(lines),
        None => false,
    }
}

// Do they end in a line that isn't empty?
fn ends_line(bytes: &[u8]) -> bool
    ensures { (line : List ℕ) (end : LineEnd) → EndsInText line → bytes.now ≡ line ++ print_end end → IsTrue result }
{
    match without_line_end(bytes) {
        Some(line) => ends_in_text(line),
        None => false,
    }
}

fn ends_in_text(line: &[u8]) -> bool
    ensures { EndsInText line.now → IsTrue result }
{
    match line.split_last() {
        Some((last, _)) => *last != b'\n',
        None => false,
    }
}

// The bytes without the end of a line that they end in, if they do.
fn without_line_end(bytes: &[u8]) -> Option<&[u8]>
    ensures { (line : List ℕ) (end : LineEnd) → HasNoReturn line → bytes.now ≡ line ++ print_end end → MatchOption result ⊥ (λ front. front.now ≡ line) }
{
    match bytes.split_last() {
        Some((last, front)) => {
            if *last == b'\n' {
                Some(without_return(front))
            } else {
                None
            }
        }
        None => None,
    }
}

// The bytes without a carriage return at their end.
fn without_return(bytes: &[u8]) -> &[u8]
    ensures same { HasNoReturn bytes.now → result.now ≡ bytes.now }
    ensures shorter { (line : List ℕ) → bytes.now ≡ line ++ 13 ∷ [] → result.now ≡ line }
{
    match bytes.split_last() {
        Some((last, front)) => { if *last == b'\r' { front } else { bytes } }
        None => bytes,
    }
}
