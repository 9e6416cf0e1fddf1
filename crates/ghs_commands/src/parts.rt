//! The parts by which the messages of a run are counted, read and refused.
ghost use Rattle.ghs_commands.specs.Job.{IsRefused};
ghost use Rattle.ghs_commands.specs.Parts.{by_named, go_together, is_part, is_said};
ghost use Rattle.std.specs.Option.{option_map};
ghost use Rattle.std.specs.Prelude.{◌≡◌};

use crate::job::JobFault;
use ghs_choices::by::By;
use std::alloc::Global;

/// What of this name the messages of a run are counted by.
pub(crate) fn by_named(name: &str) -> Option<By>
    ensures { result ≡ by_named name.now }
{
    if name == "node" {
        Some(By::Node)
    } else if name == "level" {
        Some(By::Level)
    } else if name == "rule" {
        Some(By::Rule)
    } else {
        None
    }
}

/// Whether there is no value, or the name of a part.
pub(crate) fn is_part(value: Option<&str>) -> bool
    ensures { result ≡ is_part (option_map (λ t. t.now) value.entry) }
{
    match value {
        Some(value) => by_named(value).is_some(),
        None => true,
    }
}

/// Whether what a sweep prints goes together with parts and with JSON.
pub(crate) fn go_together(sheet: Option<&str>, by: Option<&str>, json: Option<&str>) -> bool
    ensures { result ≡ go_together (option_map (λ t. t.now) sheet.entry) (option_map (λ t. t.now) by.entry) (option_map (λ t. t.now) json.entry) }
{
    (by.is_none() || is_said(sheet, "runs")) && !(is_said(sheet, "chart") && is_said(json, "true"))
}

/// Whether this is the value.
pub(crate) fn is_said(value: Option<&str>, text: &str) -> bool
    ensures { result ≡ is_said text.now (option_map (λ t. t.now) value.entry) }
{
    match value {
        Some(value) => value == text,
        None => false,
    }
}

/// What is said of a sweep that is printed as it can't be, in `clap`'s words.
pub(crate) fn no_such_sheet(alloc: Global, sheet: Option<&str>) -> JobFault
    ensures { IsRefused result }
{
    let sheet = sheet.unwrap_or("");
    match format!(in alloc;
        "error: the argument '--print {sheet}' cannot be used with '--by <by>', nor '--print chart' with '--json'\n\nFor more information, try '--help'.\n"
    ) {
        Ok(text) => JobFault::Refused(text),
        Err(_) => JobFault::Memory,
    }
}
