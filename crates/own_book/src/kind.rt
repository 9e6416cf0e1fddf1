//! The kinds of messages that a greeting names.
ghost use Rattle.own_book.specs.Answer.{are_kinds, are_types, is_type as is_type_of, kind_by, kind_of as kind_of_field, kinds_in, type_of as type_of_field, types_in};
ghost use Rattle.own_book.specs.Parts.{parts_at};
ghost use Rattle.std.specs.List.{list_all};
ghost use Rattle.std.specs.Option.{option_map};
ghost use Rattle.std.specs.Prelude.{IfNone, IfSome, [], true, ◌≡◌, ◌∷◌};

use crate::parts::{closed, cut, first_part};
use crate::words::{is_word, plain_number};

/// The type of an argument of a message, which says how many bits it has.
#[derive(Clone, Copy, Debug, Drop, PartialEq, Eq)]
pub enum ArgumentType {
    /// A level.
    Level,
    /// The number of a node.
    Node,
    /// The weight of a link.
    Weight,
    /// A number of links.
    Count,
    /// The key of a link.
    Key,
    /// The key of a link, or none.
    MaybeKey,
    /// A list of keys.
    Keys,
    /// One bit.
    Bit,
    /// A text.
    Text,
    /// So many bits.
    Bits(u32),
}

/// The type that a word names: `level`, `node`, `weight`, `count`, `key`, `key?`, `keys`, `bit`, `text`, or a number of bits.
pub fn type_of(field: &[u8]) -> Option<ArgumentType>
    ensures { result ≡ type_of_field field.now }
{
    if field == b"level".as_slice() {
        return Some(ArgumentType::Level);
    }
    if field == b"node".as_slice() {
        return Some(ArgumentType::Node);
    }
    if field == b"weight".as_slice() {
        return Some(ArgumentType::Weight);
    }
    if field == b"count".as_slice() {
        return Some(ArgumentType::Count);
    }
    if field == b"key".as_slice() {
        return Some(ArgumentType::Key);
    }
    if field == b"key?".as_slice() {
        return Some(ArgumentType::MaybeKey);
    }
    if field == b"keys".as_slice() {
        return Some(ArgumentType::Keys);
    }
    if field == b"bit".as_slice() {
        return Some(ArgumentType::Bit);
    }
    if field == b"text".as_slice() {
        return Some(ArgumentType::Text);
    }
    let bits = plain_number(field)?;
    Some(ArgumentType::Bits(bits))
}

/// A kind of messages: its name, and the types of its arguments, a `,` between two.
#[derive(Clone, Copy, Drop)]
pub struct Kind<'a> {
    pub name: &'a [u8],
    pub types: &'a [u8],
}

/// The first of the kinds that a greeting names, and the others; none where there is none.
pub fn next_kind(kinds: &[u8]) -> Option<(Kind<'_>, &[u8])>
    requires { are_kinds kinds.now ≡ true }
    ensures some { IfSome result (λ x. kinds_in kinds.now ≡ kind_by x.0 ∷ kinds_in x.1.now) }
    ensures types { IfSome result (λ x. are_types x.0.types.now ≡ true) }
    ensures others { IfSome result (λ x. are_kinds x.1.now ≡ true) }
    ensures none { IfNone result (kinds_in kinds.now ≡ []) }
{
    if kinds.is_empty() {
        return None;
    }
    let (field, others) = first_part(kinds, b' ');
    let kind = kind_of(field)?;
    Some((kind, others))
}

/// The first of the types of a kind's arguments, and the others; none where there is none.
pub fn next_type(types: &[u8]) -> Option<(ArgumentType, &[u8])>
    requires { are_types types.now ≡ true }
    ensures some { IfSome result (λ x. types_in types.now ≡ x.0 ∷ types_in x.1.now) }
    ensures others { IfSome result (λ x. are_types x.1.now ≡ true) }
    ensures none { IfNone result (types_in types.now ≡ []) }
{
    if types.is_empty() {
        return None;
    }
    let (field, others) = first_part(types, b',');
    let argument = type_of(field)?;
    Some((argument, others))
}

/// The kind that a field is: `KIND(TYPE,..)`.
pub(crate) fn kind_of(field: &[u8]) -> Option<Kind<'_>>
    ensures kind { option_map kind_by result ≡ kind_of_field field.now }
    ensures types { IfSome result (λ kind. are_types kind.types.now ≡ true) }
{
    let (name, rest) = cut(field, b'(')?;
    let types = closed(rest)?;
    if is_word(name) && has_types(types) {
        Some(Kind { name, types })
    } else {
        None
    }
}

/// Whether these are types, a `,` between two, or nothing.
fn has_types(types: &[u8]) -> bool
    ensures { result ≡ are_types types.now }
{
    types.is_empty() || all_types(types)
}

/// Whether all parts are types.
fn all_types(types: &[u8]) -> bool
    ensures { result ≡ list_all is_type_of (parts_at 44 types.now) }
{
    let mut rest = types;
    while let Some((field, after)) = cut(rest, b',') {
        if type_of(field).is_none() {
            return false;
        }
        rest = after;
    }
    type_of(rest).is_some()
}
