//! What the lines of a sweep begin with: a network's name, where several networks are swept.
ghost use Rattle.csv.specs.Writing.{default_writer, field_text};
ghost use Rattle.peer_sweep.specs.Front.{bare_front, front_of, opened_with};
ghost use Rattle.std.specs.Prelude.{◌≡◌, IfOk};

use ghs_choices::form::Form;
use std::alloc::{AllocError, Global};

/// The name of the column of networks, and a comma: what a head line begins with.
pub const FRONT_HEAD: &[u8] = b"graph,";

/// What the lines of a network begin with: its name and a comma. As a field it stands in quotes where it holds a comma, a
/// quote or a line's end; as a string of JSON it has the escapes that it needs. Refusal: out of memory.
pub fn front_of(alloc: Global, form: Form, name: &str) -> Result<Vec<u8>, AllocError>
    ensures { IfOk result (λ front. front.items ≡ front_of form name.now) }
{
    let mut front = match form {
        Form::Text => field_of(alloc, name)?,
        Form::Json => opened_with(alloc, name)?,
    };
    front.extend_from_slice(b",")?;
    Ok(front)
}

/// What lines without a name begin with.
pub fn bare_front(form: Form) -> &'static [u8]
    ensures { result.now ≡ bare_front form }
{
    match form {
        Form::Text => b"",
        Form::Json => b"{",
    }
}

/// A name as a field of comma separated values. What is written to memory fails for lack of memory alone.
fn field_of(alloc: Global, name: &str) -> Result<Vec<u8>, AllocError>
    ensures { IfOk result (λ field. field.items ≡ field_text default_writer name.now) }
{
    let mut row = csv::Writer::from_writer(Vec::new(alloc));
    match row.write_field(name.as_bytes()) {
        Ok(()) => row.into_inner().map_err(|_| AllocError),
        Err(_) => Err(AllocError),
    }
}

/// An object that has been opened, with a name as its first member.
fn opened_with(alloc: Global, name: &str) -> Result<Vec<u8>, AllocError>
    ensures { IfOk result (λ object. object.items ≡ opened_with name.now) }
{
    let mut object = json::Writer::new(Vec::new(alloc));
    object.begin_object()?;
    object.key("graph")?;
    object.string(name)?;
    Ok(object.into_inner())
}
