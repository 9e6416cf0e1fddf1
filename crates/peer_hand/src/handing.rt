//! Texts that are handed over in the room that a page gives.
ghost use Rattle.peer_hand.specs.Handing.{IsHandedOver};
ghost use Rattle.peer_hand.specs.Words.{fault_json};
ghost use Rattle.peer_hand.specs.declared.fault.HandFault.TheVariants.{Memory};
ghost use Rattle.std.specs.Prelude.{◌≡◌, ◌⊎◌, MatchResult};

use crate::fault::HandFault;
use crate::words::fault_line;
use std::alloc::Global;

/// The line of the fault that can't be told of for lack of memory.
const NO_MEMORY: &[u8] = b"{\"fault\":\"memory\",\"words\":\"out of memory\"}\n";

/// Hands a text over, or the line of a fault. The answer is how many bytes that has; where they fit into `out` they are its
/// front, and else it is as it was.
///
/// ```text
/// let count = hand_over(alloc, Err(HandFault::TurnLimit), &mut out);
/// // where count is at most out.len(), out[..count] is `{"fault":"run","words":"turn limit reached"}` and a line feed
/// ```
pub fn hand_over(alloc: Global, answer: Result<Vec<u8>, HandFault>, out: &mut [u8]) -> usize
    ensures { IsHandedOver (λ t. MatchResult answer (λ text. t ≡ text.items) (λ fault. t ≡ fault_json fault) ⊎ (t ≡ fault_json Memory)) result out.old out.new }
{
    match answer {
        Ok(text) => give(&text, out),
        Err(fault) => match fault_line(alloc, fault) {
            Ok(text) => give(&text, out),
            Err(_) => give(NO_MEMORY, out),
        },
    }
}

/// Puts a text to the front of the room, where it fits. Answers how many bytes it has.
fn give(text: &[u8], out: &mut [u8]) -> usize
    ensures { IsHandedOver (λ t. t ≡ text.now) result out.old out.new }
{
    if text.len() <= out.len() {
        out[..text.len()].copy_from_slice(text);
    }
    text.len()
}
