//! The runs that are played, measured and told.
use peer_machine::event::Event;

/// The echo wave on the path 1-2-3, where node 1 alone may wake: no other order is possible.
pub const WAVE: [Event; 5] = [
    Event::Wake(1),
    Event::Take(2, 0),
    Event::Take(3, 0),
    Event::Take(2, 1),
    Event::Take(1, 0),
];

/// The echo wave on the same path by seed 0, where all may wake. Of 3, 3, 4, 4, 3, 2 and 1 events that are ready the words
/// (see `echo_runs`) pick the places 2, 1, 0, 2, 1, 0 and 0. All three wake by themselves, so each link is crossed by an
/// Explore in each direction.
pub const THREE_WAVES: [Event; 7] = [
    Event::Wake(3),
    Event::Wake(2),
    Event::Wake(1),
    Event::Take(2, 1),
    Event::Take(2, 0),
    Event::Take(1, 0),
    Event::Take(3, 0),
];

/// The echo wave on the triangle, where node 1 alone wakes. Each of the others hears from the other one as it awaits its answer.
pub const ROUND: [Event; 7] = [
    Event::Wake(1),
    Event::Take(2, 0),
    Event::Take(3, 1),
    Event::Take(3, 0),
    Event::Take(2, 1),
    Event::Take(1, 1),
    Event::Take(1, 0),
];

/// Borůvka in step on the pair: node 2 wakes, and node 1 by its Connect. The link is the core at once, and node 1 its lesser
/// end.
pub const PAIR_RUN: [Event; 5] = [
    Event::Wake(2),
    Event::Take(1, 0),
    Event::Take(2, 0),
    Event::Take(2, 0),
    Event::Take(1, 0),
];

/// Borůvka in step on the path 1-2-3: node 1 wakes, node 2 by its Connect, and node 3 by the Name of node 2. Its own Connect is
/// late.
pub const PATH_RUN: [Event; 9] = [
    Event::Wake(1),
    Event::Take(2, 0),
    Event::Take(1, 0),
    Event::Take(2, 0),
    Event::Take(3, 0),
    Event::Take(2, 1),
    Event::Take(3, 0),
    Event::Take(2, 1),
    Event::Take(1, 0),
];

/// Borůvka in step on the triangle: all wake, and all are of level 1 at once. The heaviest link becomes Inside.
pub const TRIANGLE_RUN: [Event; 12] = [
    Event::Wake(1),
    Event::Wake(2),
    Event::Wake(3),
    Event::Take(2, 0),
    Event::Take(1, 0),
    Event::Take(2, 1),
    Event::Take(2, 0),
    Event::Take(3, 0),
    Event::Take(3, 1),
    Event::Take(1, 1),
    Event::Take(2, 1),
    Event::Take(1, 0),
];

/// Borůvka in step on the path 1-2-3-4: with the first ten events all are of level 1, in two pairs, which choose the middle link
/// and become one fragment of level 2.
pub const FOUR_RUN: [Event; 23] = [
    Event::Wake(1),
    Event::Wake(2),
    Event::Wake(3),
    Event::Wake(4),
    Event::Take(2, 0),
    Event::Take(1, 0),
    Event::Take(4, 0),
    Event::Take(3, 0),
    Event::Take(2, 0),
    Event::Take(4, 0),
    Event::Take(2, 1),
    Event::Take(1, 0),
    Event::Take(2, 0),
    Event::Take(3, 0),
    Event::Take(3, 1),
    Event::Take(3, 1),
    Event::Take(2, 1),
    Event::Take(1, 0),
    Event::Take(3, 1),
    Event::Take(4, 0),
    Event::Take(3, 0),
    Event::Take(2, 0),
    Event::Take(2, 1),
];
