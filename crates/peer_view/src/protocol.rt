//! The line of the protocol, which tells a page its words.
ghost use Rattle.std.specs.Prelude.{◌≡◌, ◌++◌, ◌<◌, IfOk};
ghost use Rattle.peer_view.specs.Protocol.{kind_json, kinds_json, protocol_line, title_members, whole_kind};

use peer_page::commas::put_comma;
use peer_words::json::put_word_member;
use peer_words::viewed::Viewed;
use std::alloc::AllocError;

/// Appends the line of a protocol: its name and the page's title, its kinds of messages, and what else the page is told of it.
///
/// ```text
/// put_protocol::<Boruvka>(&mut text, ())?;
/// // {"protocol":"boruvka","title":"ghs: Bor&#367;vka in step","kinds":[{"kind":"connect","name":"Connect", ..
/// ```
#[tactic(auto, unfolding(crate::specs::Protocol::protocol_line))]
pub fn put_protocol<P: Viewed>(text: &mut Vec<u8>, setting: P::Setting) -> Result<(), AllocError>
    requires { P.goes_by setting }
    ensures { IfOk result (λ _. text.new.items ≡ text.old.items ++ protocol_line P.rules P.words P.looks) }
{
    put_title(text, P::name().letters(), P::title(&setting))?;
    text.extend_from_slice(b",\"kinds\":[")?;
    put_kinds::<P>(text, setting)?;
    text.extend_from_slice(b"],")?;
    text.extend_from_slice(P::look(&setting))?;
    text.extend_from_slice(b"}\n")
}

#[tactic(auto, unfolding(crate::specs::Protocol::title_members))]
fn put_title(text: &mut Vec<u8>, name: &[u8], title: &[u8]) -> Result<(), AllocError>
    ensures { IfOk result (λ _. text.new.items ≡ text.old.items ++ title_members name.now title.now) }
{
    put_word_member(text, b"{", b"protocol", name)?;
    put_word_member(text, b",", b"title", title)
}

/// The kinds of messages, with a comma between each and the next.
fn put_kinds<P: Viewed>(text: &mut Vec<u8>, setting: P::Setting) -> Result<(), AllocError>
    requires { P.goes_by setting }
    ensures { IfOk result (λ _. text.new.items ≡ text.old.items ++ kinds_json P.rules P.words P.looks) }
{
    for kind in 0..P::kinds(setting) {
        put_comma(text, kind)?;
        put_kind::<P>(text, setting, kind)?;
    }
    Ok(())
}

/// One kind of messages, by its number.
fn put_kind<P: Viewed>(
    text: &mut Vec<u8>,
    setting: P::Setting,
    kind: usize,
) -> Result<(), AllocError>
    requires setting { P.goes_by setting }
    requires known { kind < P.rules.kinds }
    ensures { IfOk result (λ _. text.new.items ≡ text.old.items ++ kind_json P.words P.looks kind) }
{
    let name = P::kind_name(&setting, kind);
    put_whole(text, name.letters(), P::kind_look(&setting, kind))
}

/// The name of a kind and what the page is told of it.
#[tactic(auto, unfolding(crate::specs::Protocol::whole_kind))]
fn put_whole(text: &mut Vec<u8>, name: &[u8], look: &[u8]) -> Result<(), AllocError>
    ensures { IfOk result (λ _. text.new.items ≡ text.old.items ++ whole_kind name.now look.now) }
{
    put_word_member(text, b"{", b"kind", name)?;
    text.extend_from_slice(b",")?;
    text.extend_from_slice(look)?;
    text.extend_from_slice(b"}")
}
