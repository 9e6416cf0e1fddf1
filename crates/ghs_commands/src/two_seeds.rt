//! Two seeds, read and refused.
ghost use Rattle.ghs_commands.specs.Job.{IsRefused};
ghost use Rattle.ghs_commands.specs.TwoSeeds.{both, are_two, two_seeds_of};
ghost use Rattle.std.specs.Option.{option_map};
ghost use Rattle.std.specs.Prelude.{◌≡◌};

use crate::job::JobFault;
use crate::values::number_in;
use std::alloc::Global;

/// Two seeds, whose runs are shown beside each other. They may be the same.
#[derive(Clone, Copy, Debug, PartialEq, Eq)]
pub struct TwoSeeds {
    pub first: u64,
    pub second: u64,
}

/// Whether there is no value, or one that names two seeds.
pub(crate) fn are_two(value: Option<&str>) -> bool
    ensures { result ≡ are_two (option_map (λ t. t.now) value.entry) }
{
    match value {
        Some(value) => two_seeds_in(value).is_some(),
        None => true,
    }
}

/// The two seeds that a value names: `FIRST,SECOND`, both numbers of 64 bits.
pub(crate) fn two_seeds_in(value: &str) -> Option<TwoSeeds>
    ensures { result ≡ two_seeds_of value.now }
{
    let Some((first, second)) = value.split_once(',') else {
        return None;
    };
    both(
        number_in(first, 0, u64::MAX),
        number_in(second, 0, u64::MAX),
    )
}

/// Two numbers as seeds, where there are both.
fn both(first: Option<u64>, second: Option<u64>) -> Option<TwoSeeds>
    ensures { result ≡ both first second }
{
    let (Some(first), Some(second)) = (first, second) else {
        return None;
    };
    Some(TwoSeeds { first, second })
}

/// What is said of a value that doesn't name two seeds, in `clap`'s words.
pub(crate) fn no_two_seeds(alloc: Global, name: &str, value: Option<&str>) -> JobFault
    ensures { IsRefused result }
{
    let value = value.unwrap_or("");
    match format!(in alloc;
        "error: invalid value '{value}' for '--{name} <{name}>': not two seeds FIRST,SECOND\n\nFor more information, try '--help'.\n"
    ) {
        Ok(text) => JobFault::Refused(text),
        Err(_) => JobFault::Memory,
    }
}
