//! What a check says of runs without an event, whose nodes open with marks.
use ghs_choices::check::Check;
use ghs_test_graphs::build::graph_of;
use own_book::book::read_book;
use own_rules::rulebook::Rulebook;
use own_rules::run::run_book;
use peer_network::wake_set::WakeSet;
use std::alloc::Global;
use std::process::Abort;

/// Three nodes in a row, and a link from end to end that the forest doesn't need.
const TRIANGLE: &[u8] = b"p sp 3 3\na 1 2 5\na 2 3 6\na 1 3 7";

/// Node 1 marks its link to node 2, node 2 both its links, and node 3 that to node 2. Node 1 leads, and has halted.
const TREE: &[u8] =
    b"own 1 = own 1 mine note()\nopen 1 5:1-2 7:1-3 = leader=yes;marks=branch,basic;halted=yes\nopen 2 5:1-2 6:2-3 = marks=branch,branch\nopen 3 6:2-3 7:1-3 = marks=branch\n";

/// Node 2 alone marks, and that its links; nodes 2 and 3 lead; all have halted.
const STAR: &[u8] =
    b"own 1 = own 1 mine note()\nopen 1 5:1-2 7:1-3 = halted=yes\nopen 2 5:1-2 6:2-3 = marks=branch,branch;leader=yes;halted=yes\nopen 3 6:2-3 7:1-3 = leader=yes;halted=yes\n";

fn said(rt: &impl Abort, alloc: Global, book: &[u8], check: Check, text: &[u8]) {
    match wrong(alloc, book, Some(check)) {
        Some(wrong) => assert_eq!(rt; wrong.as_slice(), text),
        None => assert!(rt; false, "run"),
    }
}

fn wrong(alloc: Global, book: &[u8], check: Option<Check>) -> Option<Vec<u8>> {
    let graph = graph_of(alloc, TRIANGLE)?;
    let rules = Rulebook::of(alloc, read_book(alloc, book).ok()?).ok()?;
    let ran = run_book(alloc, &rules, graph, WakeSet::All, 7, 100, check).ok()?;
    Some(ran.wrong)
}

#[test]
fn marks_of_the_forest_are_right(rt: HostRuntime) {
    said(&rt, rt.alloc(), TREE, Check::Tree, b"");
    said(&rt, rt.alloc(), TREE, Check::Spanning, b"");
    said(&rt, rt.alloc(), TREE, Check::Leader, b"");
}

#[test]
fn the_first_node_that_has_not_halted_is_named(rt: HostRuntime) {
    said(
        &rt,
        rt.alloc(),
        TREE,
        Check::Halted,
        b"check: node 2 has not halted\n",
    );
    said(&rt, rt.alloc(), STAR, Check::Halted, b"");
}

#[test]
fn a_tree_is_marked_at_both_ends_and_a_spanning_forest_at_one(rt: HostRuntime) {
    said(
        &rt,
        rt.alloc(),
        STAR,
        Check::Tree,
        b"check: link 5:1-2 is marked branch at one end alone\n",
    );
    said(&rt, rt.alloc(), STAR, Check::Spanning, b"");
}

#[test]
fn two_leaders_are_one_too_many(rt: HostRuntime) {
    said(
        &rt,
        rt.alloc(),
        STAR,
        Check::Leader,
        b"check: the component of node 1 has 2 leaders\n",
    );
}

#[test]
fn nothing_is_said_where_nothing_is_asked(rt: HostRuntime) {
    match wrong(rt.alloc(), STAR, None) {
        Some(wrong) => assert!(&rt; wrong.is_empty()),
        None => assert!(&rt; false, "run"),
    }
}
