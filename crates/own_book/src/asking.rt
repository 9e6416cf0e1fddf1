//! Questions, written.
ghost use Rattle.own_book.specs.Asking.{key_behind_blank, open_text, take_text, wake_text};
ghost use Rattle.std.specs.List.{flat_map};
ghost use Rattle.std.specs.Prelude.{IfOk, ◌++◌, ◌≡◌};

use ghs_graph::port::Port;
use ghs_lines::numbers::put_number;
use peer_words::text::put_key;
use std::alloc::AllocError;

/// Appends the question what the first state of a node with these ports is. Refusal: out of memory.
#[tactic(auto, unfolding(crate::specs::Asking::open_text))]
pub fn put_open(text: &mut Vec<u8>, node: u32, ports: &[Port]) -> Result<(), AllocError>
    ensures { IfOk result (λ _. text.new.items ≡ text.old.items ++ open_text node ports.now) }
{
    text.extend_from_slice(b"open ")?;
    put_number(text, node as u128)?;
    put_keys(text, ports)
}

/// The keys of ports, a blank before each.
#[tactic(auto, unfolding(crate::specs::Asking::key_behind_blank))]
fn put_keys(text: &mut Vec<u8>, ports: &[Port]) -> Result<(), AllocError>
    ensures { IfOk result (λ _. text.new.items ≡ text.old.items ++ flat_map key_behind_blank ports.now) }
{
    for port in ports {
        text.extend_from_slice(b" ")?;
        put_key(text, port.key)?;
    }
    Ok(())
}

/// Appends the question what a node does in this state when it wakes by itself.
///
/// ```text
/// put_wake(&mut text, 1, b"asleep=yes")?;                  // appends b"wake 1 asleep=yes"
/// put_take(&mut text, 2, 0, b"test(1)", b"level=0")?;      // appends b"take 2 0 test(1) level=0"
/// ```
pub fn put_wake(text: &mut Vec<u8>, node: u32, state: &[u8]) -> Result<(), AllocError>
    ensures { IfOk result (λ _. text.new.items ≡ text.old.items ++ wake_text node state.now) }
{
    text.extend_from_slice(b"wake ")?;
    put_number(text, node as u128)?;
    text.extend_from_slice(b" ")?;
    text.extend_from_slice(state)
}

/// Appends the question what a node does in this state with this message, which came in at this port.
pub fn put_take(
    text: &mut Vec<u8>,
    node: u32,
    port: u32,
    message: &[u8],
    state: &[u8],
) -> Result<(), AllocError>
    ensures { IfOk result (λ _. text.new.items ≡ text.old.items ++ take_text node port message.now state.now) }
{
    text.extend_from_slice(b"take ")?;
    put_number(text, node as u128)?;
    text.extend_from_slice(b" ")?;
    put_number(text, port as u128)?;
    text.extend_from_slice(b" ")?;
    text.extend_from_slice(message)?;
    text.extend_from_slice(b" ")?;
    text.extend_from_slice(state)?;
    Ok(())
}
