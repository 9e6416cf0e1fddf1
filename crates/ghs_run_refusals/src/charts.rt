//! The panels of charts.
use crate::comparing::assert_same;
use ghs_chart::panel::{Caption, put_panel};
use ghs_refusing::orders::{Turn, order, refuse, turn_of};
use std::alloc::{AllocError, Global};
use std::process::Abort;
use std::test::Fail;

const CAPTION: Caption = Caption {
    nodes: 5,
    links: 4,
    runs: 3,
    bound: 58,
};

/// What three runs have sent, put back and in their longest chains.
const SENT: [u128; 3] = [30, 34, 36];

const REQUEUED: [u128; 3] = [0, 1, 1];

const CHAINS: [u128; 3] = [14, 14, 58];

/// The panel of a network whose name needs escapes, behind what there is.
fn panel_of(alloc: Global) -> Result<Vec<u8>, AllocError> {
    let mut text = Vec::from_slice(alloc, b"<svg>\n")?;
    put_panel(&mut text, 1, "a <five>", CAPTION, &SENT, &REQUEUED, &CHAINS)?;
    Ok(text)
}

/// The panel is the one that is put where nothing is refused.
fn draw(rt: &impl Abort, alloc: Global, k: usize) -> Turn {
    let whole = panel_of(alloc).expect(rt, "a panel");
    order(alloc, k);
    let answer = panel_of(alloc);
    let turn = turn_of(alloc, k, &answer);
    assert_same(rt, answer, &whole);
    turn
}

#[test]
fn panels(host: HostRuntime) -> Result<(), Fail> {
    let (rt, alloc) = (&host, host.alloc());
    refuse(rt, alloc, "put_panel", |k| draw(rt, alloc, k))
}
