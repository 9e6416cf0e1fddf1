//! The lengths of the messages of a book.
ghost use Rattle.ghs_bits.specs.Length.{key_width, width_of as width_of_number};
ghost use Rattle.own_book.specs.Answer.{are_types, types_in};
ghost use Rattle.own_book.specs.Parts.{closed as closed_of, cut_at};
ghost use Rattle.own_rules.specs.Bits.{argument_bits as bits_of_argument, arguments_bits as bits_of_arguments, closes_bracket, deeper as depth_after, message_bits as bits_of_message, opens_bracket, values_closed, values_from, values_in};
ghost use Rattle.own_rules.specs.Texts.{kinds_of};
ghost use Rattle.std.specs.Prelude.{IfNone, IfSome, [], count_by, drop, length, min, take, true, ◌&&◌, ◌+◌, ◌<◌, ◌==◌, ◌≡◌, ◌≤◌, ◌∷◌, ◌⊎◌, ◌^◌};

use crate::node::Message;
use crate::protocol::{Chosen, Playing, Told};
use crate::rulebook::{Rulebook, kind_name};
use crate::spoken::closed;
use crate::texts::types_of;
use ghs_bits::laws::law_widths;
use ghs_bits::widths::Widths;
use ghs_graph::graph::Graph;
use own_book::kind::{ArgumentType, next_type};
use own_book::parts::cut;
use peer_machine::measured::Measured;

/// A book's rules, and what of a graph the lengths of messages depend on.
#[derive(Clone, Copy)]
pub struct Ruler<'a> {
    rules: &'a Rulebook,
    widths: Widths,
    /// How many bits a number of links has.
    count: u32,
}

/// By the types that the greeting gives to the values of a message.
impl<'a, J: Chosen> Measured for Told<'a, J> {
    ghost use Rattle.std.specs.Prelude.{◌≡◌, length};
    ghost use Rattle.ghs_bits.specs.Length.{width_of, widths_of};

    type Scale = Ruler<'a>;

    ghost is_of = { λ g s. (s.rules.now ≡ J.book) × (s.widths ≡ widths_of g) × (s.count ≡ width_of (length g.keys)) };

    fn scale_of(set: Playing<'a>, graph: &Graph) -> Ruler<'a> {
        Ruler {
            rules: set.rules,
            widths: Widths::of(graph),
            count: width_of(graph.keys().len()),
        }
    }

    /// O(n) for n bytes of the message and the greeting.
    fn bits(scale: Ruler<'a>, message: &Message) -> u32 {
        message_bits(
            scale.rules,
            scale.widths,
            scale.count,
            scale.rules.text(message.text),
        )
    }
}

/// How many bits a number needs: the least number of bits, one at least, in which it can be written.
fn width_of(n: usize) -> u32
    ensures { result ≡ width_of_number n }
{
    law_widths();
    if n == 0 { 1 } else { n.ilog2() + 1 }
}

/// How many bits a message with this text has.
fn message_bits(rules: &Rulebook, widths: Widths, count: u32, text: &[u8]) -> u32
    ensures { result ≡ bits_of_message widths count (kinds_of rules.now) text.now }
{
    let types = types_of(rules.greeted(), kind_name(text));
    let arguments = arguments_bits(widths, count, types, values(text));
    width_of(rules.kinds() - 1).saturating_add(arguments)
}

/// What stands in the brackets of a message; no bytes where it has no values.
fn values(text: &[u8]) -> &[u8]
    ensures { (values_in (cut_at 40 text.now) ≡ values_from 0 result.now) ⊎ ((values_in (cut_at 40 text.now) ≡ []) × (result.now ≡ [])) }
{
    match cut(text, b'(') {
        Some((_, rest)) => values_behind(rest),
        None => b"",
    }
}

/// The same, by what is behind the first bracket.
fn values_behind(rest: &[u8]) -> &[u8]
    ensures { (values_closed (closed_of rest.now) ≡ values_from 0 result.now) ⊎ ((values_closed (closed_of rest.now) ≡ []) × (result.now ≡ [])) }
{
    match closed(rest) {
        Some(values) => values,
        None => b"",
    }
}

/// How many bits values of these types have; one that is missing has no bytes.
fn arguments_bits(widths: Widths, count: u32, types: &[u8], values: &[u8]) -> u32
    requires { are_types types.now ≡ true }
    ensures { result ≡ min 4294967295 (bits_of_arguments widths count (types_in types.now) (values_from 0 values.now)) }
{
    let mut total: u32 = 0;
    let mut rest = types;
    let mut left = values;
    'types: while let Some((argument, after)) = next_type(rest) {
        let (value, others) = first_value(left);
        total = total.saturating_add(argument_bits(widths, count, argument, value));
        rest = after;
        left = others;
    }
    total
}

/// The first value, and the others, which are no bytes where there is one value.
fn first_value(text: &[u8]) -> (&[u8], &[u8])
    ensures { (values_from 0 text.now ≡ result.0.now ∷ values_from 0 result.1.now) ⊎ ((values_from 0 text.now ≡ result.0.now ∷ []) × (result.1.now ≡ [])) }
{
    match value_end(text) {
        Some(end) => {
            let (front, _) = text.split_at(end);
            let (_, back) = text.split_at(end + 1);
            (front, back)
        }
        None => (text, b""),
    }
}

/// The place of the first comma outside brackets.
fn value_end(text: &[u8]) -> Option<usize>
    ensures some { IfSome result (λ end. (end < length text.now) × (values_from 0 text.now ≡ take end text.now ∷ values_from 0 (drop (end + 1) text.now))) }
    ensures none { IfNone result (values_from 0 text.now ≡ text.now ∷ []) }
{
    let mut depth: usize = 0;
    for end in 0..text.len() {
        let byte = text[end];
        if parts_values(depth, byte) {
            return Some(end);
        }
        depth = deeper(depth, byte);
    }
    None
}

/// Whether a byte in so many brackets parts two values: a comma outside them.
fn parts_values(depth: usize, byte: u8) -> bool
    ensures { result ≡ (byte == 44 && depth == 0) }
{
    byte == b',' && depth == 0
}

/// In how many brackets the byte behind this one stands.
fn deeper(depth: usize, byte: u8) -> usize
    requires { depth < 2 ^ 63 }
    ensures { result ≡ depth_after depth byte }
{
    if opens_bracket(byte) {
        depth + 1
    } else if closes_bracket(byte) {
        depth.saturating_sub(1)
    } else {
        depth
    }
}

fn opens_bracket(byte: u8) -> bool
    ensures { result ≡ opens_bracket byte }
{
    byte == b'(' || byte == b'[' || byte == b'{'
}

fn closes_bracket(byte: u8) -> bool
    ensures { result ≡ closes_bracket byte }
{
    byte == b')' || byte == b']' || byte == b'}'
}

/// How many bits a value of this type has, 4,294,967,295 at most.
fn argument_bits(widths: Widths, count: u32, argument: ArgumentType, text: &[u8]) -> u32
    ensures { result ≡ min 4294967295 (bits_of_argument widths count argument text.now) }
{
    match argument {
        ArgumentType::Level => widths.level as u32,
        ArgumentType::Node => widths.number as u32,
        ArgumentType::Weight => widths.weight as u32,
        ArgumentType::Count => count,
        ArgumentType::Key => key_bits(widths),
        ArgumentType::MaybeKey => maybe_key_bits(widths, text),
        ArgumentType::Keys => keys_bits(widths, count, text),
        ArgumentType::Bit => 1,
        ArgumentType::Text => capped(text.len()).saturating_mul(8),
        ArgumentType::Bits(bits) => bits,
    }
}

/// A key has two numbers and a weight.
fn key_bits(widths: Widths) -> u32
    ensures key { result ≡ key_width widths }
    ensures small { result ≤ 765 }
{
    2 * widths.number as u32 + widths.weight as u32
}

/// A bit says whether there is a key.
fn maybe_key_bits(widths: Widths, text: &[u8]) -> u32
    ensures { result ≡ min 4294967295 (bits_of_argument widths 0 ArgumentType.MaybeKey text.now) }
{
    if text == b"-".as_slice() {
        1
    } else {
        1 + key_bits(widths)
    }
}

/// How many keys there are, and each.
fn keys_bits(widths: Widths, count: u32, text: &[u8]) -> u32
    ensures { result ≡ min 4294967295 (bits_of_argument widths count ArgumentType.Keys text.now) }
{
    let keys = capped(colons(text)).saturating_mul(key_bits(widths));
    count.saturating_add(keys)
}

/// A number, 4,294,967,295 at most.
fn capped(n: usize) -> u32
    ensures { result ≡ min 4294967295 n }
{
    n.min(4_294_967_295) as u32
}

/// How many colons a text has.
fn colons(text: &[u8]) -> usize
    ensures { result ≡ count_by (λ b. b == 58) text.now }
{
    let mut count = 0;
    for byte in text {
        if *byte == b':' {
            count += 1;
        }
    }
    count
}
