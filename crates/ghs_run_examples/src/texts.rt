//! Texts of nets.
use crate::comparing::assert_same;
use crate::nets::{net_of, play};
use ghs_core::event::Event;
use ghs_report::report_text::{ReportFault, report_text};
use ghs_test_graphs::graphs::PAIR_AND_NODE;

/// Where one piece has ended and another hasn't, there is no text.
#[test]
fn a_piece_goes_on(rt: HostRuntime) {
    let alloc = rt.alloc();
    let mut net = net_of(&rt, alloc, PAIR_AND_NODE);
    play(&rt, alloc, &mut net, Event::Wake(3));
    let fault = report_text(alloc, &net).err();
    assert_same(&rt, &fault, &Some(ReportFault::NotEnded));
}
