//! The panel of a network.
ghost use Rattle.ghs_chart.specs.Chart.{caption_text, escaped, is_masked, last_strip, name_text, panel_text, strips, top_of};
ghost use Rattle.std.specs.List.{flat_map};
ghost use Rattle.std.specs.Prelude.{◌≡◌, ◌++◌, ◌≤◌, ◌^◌, IfOk, chars, length};

use crate::around::put_around;
use crate::strip::put_strip;
use crate::texts::{
    CAPTION, CHAIN, GROUP_END, NAME, PANEL, PANEL_END, PUT_BACK, SCALE, SENT, TEXT_END,
};
use std::alloc::AllocError;

/// What a panel says of its network and of the runs.
#[derive(Clone, Copy, Debug, PartialEq, Eq)]
pub struct Caption {
    pub nodes: u32,
    pub links: u64,
    pub runs: u64,
    /// The bound on the messages of a run.
    pub bound: u64,
}

/// Puts a network's panel behind a text, at a place counted from 0: its name, which may be empty, what is said of it, and a
/// strip each for what its runs have sent, what was put back and their longest chains, in rising order. There has to be a
/// run, and 2^32 at most. Refusal: out of memory.
///
/// ```text
/// put_chart_head(&mut text, 1)?;                            // a chart of one panel
/// let caption = Caption { nodes: 5, links: 4, runs: 3, bound: 58 };
/// put_panel(&mut text, 0, "five", caption, &[34, 34, 34], &requeued, &chains)?;
/// text.extend_from_slice(CHART_TAIL)?;
/// ```
#[tactic(auto, unfolding(crate::specs::Chart::panel_text))]
pub fn put_panel(
    text: &mut Vec<u8>,
    place: u64,
    name: &str,
    caption: Caption,
    sent: &[u128],
    requeued: &[u128],
    chains: &[u128],
) -> Result<(), AllocError>
    requires sent { (1 ≤ length sent.now) × (length sent.now ≤ 2 ^ 32) }
    requires requeued { (1 ≤ length requeued.now) × (length requeued.now ≤ 2 ^ 32) }
    requires chains { (1 ≤ length chains.now) × (length chains.now ≤ 2 ^ 32) }
    ensures { IfOk result (λ _. text.new.items ≡ text.old.items ++ panel_text place name.now caption sent.now requeued.now chains.now) }
{
    put_around(text, PANEL, top_of(place), PANEL_END)?;
    put_name(text, name)?;
    put_caption(text, caption)?;
    put_strips(text, caption.bound, sent, requeued, chains)
}

/// The scale, and above it the strips.
#[tactic(auto, unfolding(crate::specs::Chart::strips))]
fn put_strips(
    text: &mut Vec<u8>,
    bound: u64,
    sent: &[u128],
    requeued: &[u128],
    chains: &[u128],
) -> Result<(), AllocError>
    requires sent { (1 ≤ length sent.now) × (length sent.now ≤ 2 ^ 32) }
    requires requeued { (1 ≤ length requeued.now) × (length requeued.now ≤ 2 ^ 32) }
    requires chains { (1 ≤ length chains.now) × (length chains.now ≤ 2 ^ 32) }
    ensures { IfOk result (λ _. text.new.items ≡ text.old.items ++ strips bound sent.now requeued.now chains.now) }
{
    text.extend_from_slice(SCALE)?;
    put_strip(text, SENT, 66, bound, sent)?;
    put_strip(text, PUT_BACK, 118, bound, requeued)?;
    put_last_strip(text, bound, chains)
}

/// The last strip, and the end of the panel.
#[tactic(auto, unfolding(crate::specs::Chart::last_strip))]
fn put_last_strip(text: &mut Vec<u8>, bound: u64, chains: &[u128]) -> Result<(), AllocError>
    requires { (1 ≤ length chains.now) × (length chains.now ≤ 2 ^ 32) }
    ensures { IfOk result (λ _. text.new.items ≡ text.old.items ++ last_strip bound chains.now) }
{
    put_strip(text, CHAIN, 170, bound, chains)?;
    text.extend_from_slice(GROUP_END)
}

/// Where the panel at a place begins.
fn top_of(place: u64) -> u128
    ensures { result ≡ top_of place }
{
    u128::from(place) * 200 + 44
}

/// The name.
#[tactic(auto, unfolding(crate::specs::Chart::name_text))]
fn put_name(text: &mut Vec<u8>, name: &str) -> Result<(), AllocError>
    ensures { IfOk result (λ _. text.new.items ≡ text.old.items ++ name_text name.now) }
{
    text.extend_from_slice(NAME)?;
    put_escaped(text, name)?;
    text.extend_from_slice(TEXT_END)
}

/// What is said of the network and its runs.
#[tactic(auto, unfolding(crate::specs::Chart::caption_text))]
fn put_caption(text: &mut Vec<u8>, caption: Caption) -> Result<(), AllocError>
    ensures { IfOk result (λ _. text.new.items ≡ text.old.items ++ caption_text caption) }
{
    put_around(text, CAPTION, u128::from(caption.nodes), b", ")?;
    put_around(text, b"links ", u128::from(caption.links), b", ")?;
    put_around(text, b"runs ", u128::from(caption.runs), b", ")?;
    put_around(text, b"bound ", u128::from(caption.bound), TEXT_END)
}

/// A text as SVG holds it.
fn put_escaped(text: &mut Vec<u8>, name: &str) -> Result<(), AllocError>
    ensures { IfOk result (λ _. text.new.items ≡ text.old.items ++ flat_map escaped (chars name.now)) }
{
    for letter in name.chars() {
        put_escape(text, letter)?;
    }
    Ok(())
}

/// A character of such a text; for one that SVG may not hold, and for each control character, a question mark stands.
fn put_escape(text: &mut Vec<u8>, letter: char) -> Result<(), AllocError>
    ensures { IfOk result (λ _. text.new.items ≡ text.old.items ++ escaped letter) }
{
    if is_masked(letter) {
        text.extend_from_slice(b"?")
    } else if letter == '&' {
        text.extend_from_slice(b"&amp;")
    } else if letter == '<' {
        text.extend_from_slice(b"&lt;")
    } else if letter == '>' {
        text.extend_from_slice(b"&gt;")
    } else {
        text.extend_from_slice(letter.encode_utf8(&mut [0; 4]).as_bytes())
    }
}

/// Whether a question mark stands for a character.
fn is_masked(letter: char) -> bool
    ensures { result ≡ is_masked letter }
{
    letter.is_control() || letter == '\u{fffe}' || letter == '\u{ffff}'
}
