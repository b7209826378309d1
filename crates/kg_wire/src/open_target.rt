//! Targets of which the end isn't there yet: a head that ends in one is open, whatever it spells.

ghost use Rattle.std.specs.Prelude.{◌≡◌, IsTrue, false, if◌then◌else◌};
ghost use Rattle.std.specs.List.{fold};
ghost use Rattle.httparse.specs.Grammar.{EndsInTarget, is_uri_byte};
ghost use Rattle.kg_text.specs.Names.{is_tchar};
ghost use Rattle.kg_wire.specs.OpenTargets.{next_state};
ghost use Rattle.kg_wire.specs.declared.open_target.State.TheVariants.{Blank, Method, Elsewhere};

use kg_text::is_tchar;

/// Where in a request line some bytes end.
#[derive(Clone, Copy)]
pub enum State {
    /// In the empty lines before it.
    Blank,
    /// There, behind a carriage return.
    Return,
    Method,
    Target,
    /// Behind the target, or where no request line is.
    Elsewhere,
}

/// Do the bytes end in a request target that may go on?
pub fn ends_in_target(bytes: &[u8]) -> bool
    ensures ends { IsTrue result → EndsInTarget bytes.now }
    ensures other { result ≡ false → EndsInTarget bytes.now → ⊥ }
{
    matches!(state_after(bytes), State::Target)
}

fn state_after(bytes: &[u8]) -> State
    ensures { result ≡ fold next_state Blank bytes.now }
{
    let mut state = State::Blank;
    for b in bytes {
        state = next_state(state, *b);
    }
    state
}

fn next_state(state: State, b: u8) -> State
    ensures { result ≡ next_state state b }
{
    match state {
        State::Blank => first_state(b),
        State::Return => {
            if b == b'\n' {
                State::Blank
            } else {
                State::Elsewhere
            }
        }
        State::Method => {
            if b == b' ' {
                State::Target
            } else {
                method_state(b)
            }
        }
        State::Target => {
            if is_uri_byte(b) {
                State::Target
            } else {
                State::Elsewhere
            }
        }
        State::Elsewhere => State::Elsewhere,
    }
}

fn first_state(b: u8) -> State
    ensures { result ≡ next_state Blank b }
{
    if b == b'\n' {
        State::Blank
    } else if b == b'\r' {
        State::Return
    } else {
        method_state(b)
    }
}

fn method_state(b: u8) -> State
    ensures { result ≡ (if is_tchar b then Method else Elsewhere) }
{
    if is_tchar(b) {
        State::Method
    } else {
        State::Elsewhere
    }
}

// Visible, or past ASCII.
fn is_uri_byte(b: u8) -> bool
    ensures { result ≡ is_uri_byte b }
{
    b > b' ' && b != 0x7F
}
