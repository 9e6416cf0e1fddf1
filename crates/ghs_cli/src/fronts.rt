//! What lines and panels say of their protocol, where several are swept.
ghost use Rattle.ghs_cli.specs.Fronts.{are_several, front_by, panel_name, protocol_field, protocol_head, says_protocol};
ghost use Rattle.std.specs.Prelude.{◌≡◌, ◌++◌, IfOk, string_bytes};

use ghs_choices::by::By;
use ghs_choices::form::Form;
use ghs_commands::job::Sheet;
use peer_trace::protocol::Protocol;
use peer_words::json::put_word_member;
use std::alloc::{AllocError, Global};

pub(crate) fn are_several(protocols: &[Protocol]) -> bool
    ensures { result ≡ are_several protocols.now }
{
    protocols.len() >= 2
}

/// Whether lines begin with their protocol: those of runs have a column of protocols, and those of their parts and a summary
/// need one where there are several.
pub(crate) fn says_protocol(sheet: Sheet, by: Option<By>, protocols: &[Protocol]) -> bool
    ensures { result ≡ says_protocol sheet by protocols.now }
{
    match (sheet, by) {
        (Sheet::Runs, None) | (Sheet::Chart, _) => false,
        (Sheet::Runs, Some(_)) | (Sheet::Summary, _) => are_several(protocols),
    }
}

/// The name of that column, and a comma; lines of JSON say it with each name.
pub(crate) fn protocol_head(says: bool, form: Form) -> &'static [u8]
    ensures { result.now ≡ protocol_head says form }
{
    match (says, form) {
        (true, Form::Text) => b"protocol,",
        (true, Form::Json) | (false, _) => b"",
    }
}

/// What lines by a protocol begin with, where all lines of their network begin with this front. Refusal: out of memory.
pub(crate) fn front_by(
    alloc: Global,
    says: bool,
    form: Form,
    front: &[u8],
    protocol: Protocol,
) -> Result<Vec<u8>, AllocError>
    ensures { IfOk result (λ f. f.items ≡ front_by says form front.now protocol) }
{
    let mut all = Vec::from_slice(alloc, front)?;
    if says {
        put_protocol(&mut all, form, protocol)?;
    }
    Ok(all)
}

/// Puts a protocol's name behind a text, as a field or as a member of an object that has been opened, and a comma.
fn put_protocol(text: &mut Vec<u8>, form: Form, protocol: Protocol) -> Result<(), AllocError>
    ensures { IfOk result (λ _. text.new.items ≡ text.old.items ++ protocol_field form protocol) }
{
    let name = protocol.name().as_bytes();
    match form {
        Form::Text => {
            text.extend_from_slice(name)?;
            text.extend_from_slice(b",")
        }
        Form::Json => {
            put_word_member(text, b"", b"protocol", name)?;
            text.extend_from_slice(b",")
        }
    }
}

/// The name of a panel: that of its network, if it has one, and where protocols are several that of its own. Refusal: out of
/// memory.
pub(crate) fn panel_name(
    alloc: Global,
    several: bool,
    name: &str,
    protocol: Protocol,
) -> Result<String, AllocError>
    ensures { IfOk result (λ n. string_bytes n ≡ panel_name several name.now protocol) }
{
    let mut all = String::from_str(alloc, name)?;
    if several {
        if !name.is_empty() {
            all.push_str(", ")?;
        }
        all.push_str(protocol.name())?;
    }
    Ok(all)
}
