//! The lines of what may come next.
ghost use Rattle.peer_hand.specs.Choices.{choice_json, ended_json, place_json, waits_member};
ghost use Rattle.std.specs.Prelude.{◌≡◌, ◌++◌, IfOk};

use ghs_lines::numbers::put_number;
use peer_network::event::Event;
use std::alloc::AllocError;

/// Appends the line of an event that may come next, and says of it where its node would only put its message back.
///
/// ```text
/// put_choice(&mut text, Event::Take(2, 0), false)?;
/// // {"may":[2,0]}
/// ```
#[tactic(auto, unfolding(crate::specs::Choices::choice_json))]
pub fn put_choice(text: &mut Vec<u8>, event: Event, waits: bool) -> Result<(), AllocError>
    ensures { IfOk result (λ _. text.new.items ≡ text.old.items ++ choice_json event waits) }
{
    text.extend_from_slice(b"{\"may\":")?;
    put_place(text, event)?;
    put_waits(text, waits)?;
    text.extend_from_slice(b"}\n")
}

/// Says of an event where it would only put its message back.
fn put_waits(text: &mut Vec<u8>, waits: bool) -> Result<(), AllocError>
    ensures { IfOk result (λ _. text.new.items ≡ text.old.items ++ waits_member waits) }
{
    if waits {
        text.extend_from_slice(b",\"waits\":true")?;
    }
    Ok(())
}

/// The node of an event, and for a Take the port.
fn put_place(text: &mut Vec<u8>, event: Event) -> Result<(), AllocError>
    ensures { IfOk result (λ _. text.new.items ≡ text.old.items ++ place_json event) }
{
    text.extend_from_slice(b"[")?;
    match event {
        Event::Wake(v) => put_number(text, u128::from(v))?,
        Event::Take(v, port) => {
            put_number(text, u128::from(v))?;
            text.extend_from_slice(b",")?;
            put_number(text, u128::from(port))?;
        }
    }
    text.extend_from_slice(b"]")
}

/// Appends a line where the run has ended, and else nothing.
///
/// ```text
/// put_ended(&mut text, true)?;
/// // {"ended":true}
/// ```
pub fn put_ended(text: &mut Vec<u8>, ended: bool) -> Result<(), AllocError>
    ensures { IfOk result (λ _. text.new.items ≡ text.old.items ++ ended_json ended) }
{
    if ended {
        text.extend_from_slice(b"{\"ended\":true}\n")?;
    }
    Ok(())
}
