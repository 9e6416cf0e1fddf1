//! The variables of a state that a runtime knows.
ghost use Rattle.own_book.specs.Variables.{has_variable, says_asleep, says_halted, says_leader};
ghost use Rattle.std.specs.Prelude.{◌≡◌};

use crate::parts::cut;

/// Whether a state has `asleep=yes`.
///
/// ```text
/// let sleeps = says_asleep(b"level=0;asleep=yes");     // true
/// let halted = says_halted(b"level=0;halted=no");      // false
/// let leads = says_leader(b"leader=yes;halted=yes");   // true
/// ```
pub fn says_asleep(state: &[u8]) -> bool
    ensures { result ≡ says_asleep state.now }
{
    has_variable(state, b"asleep=yes")
}

/// Whether a state has `halted=yes`.
pub fn says_halted(state: &[u8]) -> bool
    ensures { result ≡ says_halted state.now }
{
    has_variable(state, b"halted=yes")
}

/// Whether a state has `leader=yes`.
pub fn says_leader(state: &[u8]) -> bool
    ensures { result ≡ says_leader state.now }
{
    has_variable(state, b"leader=yes")
}

/// Whether a state has this variable with this value.
fn has_variable(state: &[u8], variable: &[u8]) -> bool
    ensures { result ≡ has_variable variable.now state.now }
{
    let mut rest = state;
    while let Some((part, after)) = cut(rest, b';') {
        if part == variable {
            return true;
        }
        rest = after;
    }
    rest == variable
}
