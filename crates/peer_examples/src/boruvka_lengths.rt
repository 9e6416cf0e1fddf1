//! Borůvka in step. A message has three bits for its kind; Connect, Initiate and Name have a level besides, Initiate and Name a
//! key, and a Report a bit for whether it has a key, and the key. A key is two numbers of nodes and a weight.
use crate::playing::assert_lengths;
use crate::runs::{FOUR_RUN, PATH_RUN, TRIANGLE_RUN};
use boruvka::protocol::Boruvka;
use ghs_test_graphs::graphs::{PATH_OF_FOUR, PATH_OF_THREE, TRIANGLE};

/// On the path 1-2-3 with weights 5 and 7 node 1 wakes, and each of the eight messages is sent because of the one before. A
/// node's number has 2 bits, a weight 3, a level 1, and so a key 7: 3 Connects of 4, 2 Initiates of 11, a Name of 11, and 2
/// Reports without a key of 4.
#[test]
fn a_path_of_three(rt: HostRuntime) {
    assert_lengths::<Boruvka>(&rt, rt.alloc(), PATH_OF_THREE, &PATH_RUN, 8, 53, 11);
}

/// On the triangle with weights 1, 2 and 3 all wake. Node 1 hears a Connect, and calls node 2, which calls node 3, which reports
/// to node 2, which reports to node 1: five. A weight has 2 bits, a key 6: 3 Connects of 4, 2 Initiates and 2 Names of 10, and 2
/// Reports without a key of 4.
#[test]
fn a_triangle(rt: HostRuntime) {
    assert_lengths::<Boruvka>(&rt, rt.alloc(), TRIANGLE, &TRIANGLE_RUN, 5, 60, 10);
}

/// On the path 1-2-3-4 with weights 1, 3 and 2 two pairs become one fragment. Connect, Initiate, Report, ChangeRoot and Connect
/// bring five messages from node 1 to node 3 over node 2. That Connect leads to nothing, but node 2 has heard of four by then,
/// and calls node 3, which calls node 4: six, and two Reports come back. A number has 3 bits, a weight 2, a level 2, a key 8: 6
/// Connects of 5, 5 Initiates and 2 Names of 13, a Report of 12, 4 of 4, and a ChangeRoot of 3.
#[test]
fn a_path_of_four(rt: HostRuntime) {
    assert_lengths::<Boruvka>(&rt, rt.alloc(), PATH_OF_FOUR, &FOUR_RUN, 8, 152, 13);
}
