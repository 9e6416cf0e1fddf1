//! Long lists of counts whose fronts are quickly summed up.
ghost use Rattle.std.specs.Prelude.{◌≡◌, ◌+◌, ◌-◌, ◌<◌, ◌≤◌, ◌^◌, length, take, replicate, slice_index, slice_set, IfOk};
ghost use Rattle.std.specs.List.{sum};
ghost use Rattle.ghs_flags.specs.Counts.{PassesAt};

use std::alloc::{AllocError, Global};
use std::marker::Model;

/// How many counts of one height the next height adds up.
const WIDTH: usize = 16;

/// A list of counts.
#[derive(Debug, Drop)]
pub struct Counts {
    counts: Vec<u32>,
    /// Above the counts three heights, each of which adds up what stands below it.
    groups: Vec<u32>,
    regions: Vec<u32>,
    zones: Vec<u32>,
    total: u32,
}

impl Model for Counts {
    ghost use Rattle.std.specs.Prelude.{List, ℕ};
    ghost use Rattle.ghs_flags.specs.Counts.{IsTower};

    ghost Value = { List ℕ };

    ghost view = { λ c. c.counts.items };

    ghost invariant = { λ c. IsTower c.counts.items c.groups.items c.regions.items c.zones.items c.total };
}

impl Counts {
    /// So many counts, each of them 0.
    pub fn zeros(alloc: Global, len: usize) -> Result<Counts, AllocError>
        requires { len ≤ 2 ^ 32 }
        ensures { IfOk result (λ c. c ≡ replicate len 0) }
    {
        let groups = len / WIDTH + 1;
        let regions = groups / WIDTH + 1;
        let zones = regions / WIDTH + 1;
        Ok(Counts {
            counts: vec![in alloc; 0u32; len]?,
            groups: vec![in alloc; 0u32; groups]?,
            regions: vec![in alloc; 0u32; regions]?,
            zones: vec![in alloc; 0u32; zones]?,
            total: 0,
        })
    }

    /// The sum of all counts.
    pub fn total(&self) -> u32
        ensures { result ≡ sum self.now }
    {
        self.total
    }

    /// Counts one more at a place.
    pub fn increase(&mut self, at: usize)
        requires within { at < length self.old }
        requires room { sum self.old + 1 < 2 ^ 32 }
        ensures { self.new ≡ slice_set self.old at (slice_index self.old at + 1) }
    {
        let group = at / WIDTH;
        let region = group / WIDTH;
        self.counts[at] += 1;
        self.groups[group] += 1;
        self.regions[region] += 1;
        self.zones[region / WIDTH] += 1;
        self.total += 1;
    }

    /// Counts one less at a place.
    pub fn decrease(&mut self, at: usize)
        requires within { at < length self.old }
        requires some { 0 < slice_index self.old at }
        ensures { self.new ≡ slice_set self.old at (slice_index self.old at - 1) }
    {
        let group = at / WIDTH;
        let region = group / WIDTH;
        self.counts[at] -= 1;
        self.groups[group] -= 1;
        self.regions[region] -= 1;
        self.zones[region / WIDTH] -= 1;
        self.total -= 1;
    }

    /// Where the sum of the counts passes `k`, and what is left of `k` there.
    pub fn find(&self, k: u32) -> (usize, u32)
        requires { k < sum self.now }
        ensures { PassesAt self.now k result.0 result.1 }
    {
        let (zone, rest) = find_from(&self.zones, 0, k);
        let (region, rest) = find_from(&self.regions, zone * WIDTH, rest);
        let (group, rest) = find_from(&self.groups, region * WIDTH, rest);
        find_from(&self.counts, group * WIDTH, rest)
    }

    /// The sum of the counts before a place.
    pub fn sum_before(&self, at: usize) -> u32
        requires { at ≤ length self.now }
        ensures { result ≡ sum (take at self.now) }
    {
        let group = at / WIDTH;
        let region = group / WIDTH;
        let zone = region / WIDTH;
        sum_between(&self.zones, 0, zone)
            + sum_between(&self.regions, zone * WIDTH, region)
            + sum_between(&self.groups, region * WIDTH, group)
            + sum_between(&self.counts, group * WIDTH, at)
    }
}

/// Where the sum of the counts passes what comes before `start` and `rest` more, and what is left there.
fn find_from(counts: &[u32], start: usize, mut rest: u32) -> (usize, u32)
    requires { sum (take start counts.now) + rest < sum counts.now }
    ensures { PassesAt counts.now (sum (take start counts.now) + rest) result.0 result.1 }
{
    let mut at = start;
    // No step asks whether the list ends: the sum is passed before.
    while rest >= counts[at] {
        rest -= counts[at];
        at += 1;
    }
    (at, rest)
}

/// The sum of the counts from one place up to another.
fn sum_between(counts: &[u32], start: usize, end: usize) -> u32
    requires order { start ≤ end }
    requires within { end ≤ length counts.now }
    requires fits { sum counts.now < 2 ^ 32 }
    ensures { sum (take start counts.now) + result ≡ sum (take end counts.now) }
{
    let mut total = 0;
    for at in start..end {
        total += counts[at];
    }
    total
}
