//! Networks, line by line.
use ghs_gr::device::Device;
use ghs_make::fault::MakeFault;
use ghs_make::kind::Kind;
use ghs_make::network::Network;
use ghs_make::plan::Asked;
use ghs_make::weights::Weights;
use ghs_make::write::write_network;
use ghs_refusing::orders::{Turn, order, refuse, turn_of};
use std::alloc::Global;
use std::process::Abort;
use std::test::Fail;

/// A kind, how many nodes, a seed, how many links, and how they weigh.
type Words = (Kind, u32, u64, Option<u32>, Option<Weights>);

fn asked((kind, nodes, seed, links, weights): Words) -> Asked {
    Asked {
        kind,
        nodes,
        seed,
        links,
        weights,
    }
}

/// The text of what is asked for, put behind what is held, if it is made and written.
fn made(alloc: Global, asked: &Asked, held: &mut Vec<u8>) -> Result<(), ()> {
    let network = match Network::of(alloc, asked) {
        Ok(network) => network,
        Err(_) => return Err(()),
    };
    match write_network(alloc, &network, &mut Device::of(held)) {
        Ok(()) => Ok(()),
        Err(_) => Err(()),
    }
}

/// Networks of kinds in which no seed picks anything, by hand.
static BY_HAND: [(Words, &str); 12] = [
    (
        (Kind::Path, 1, 1, None, Some(Weights::Rising)),
        "c ghs make path 1 --seed 1 --weights rising\np sp 1 0\n",
    ),
    (
        (Kind::Path, 3, 1, None, Some(Weights::Rising)),
        "c ghs make path 3 --seed 1 --weights rising\np sp 3 2\na 1 2 1\na 2 3 2\n",
    ),
    (
        (Kind::Ring, 2, 1, None, Some(Weights::Equal)),
        "c ghs make ring 2 --seed 1 --weights equal\np sp 2 1\na 1 2 1\n",
    ),
    (
        (Kind::Ring, 4, 1, None, Some(Weights::Falling)),
        "c ghs make ring 4 --seed 1 --weights falling\np sp 4 4\na 1 2 4\na 2 3 3\na 1 4 2\na 3 4 1\n",
    ),
    (
        (Kind::Star, 4, 1, None, Some(Weights::Equal)),
        "c ghs make star 4 --seed 1 --weights equal\np sp 4 3\na 1 2 1\na 1 3 1\na 1 4 1\n",
    ),
    (
        (Kind::Grid, 6, 1, None, Some(Weights::Rising)),
        "c ghs make grid 6 --seed 1 --weights rising\np sp 6 7\na 1 2 1\na 1 3 2\na 2 4 3\na 3 4 4\na 3 5 5\na 4 6 6\na 5 6 7\n",
    ),
    (
        (Kind::Complete, 4, 1, None, Some(Weights::Falling)),
        "c ghs make complete 4 --seed 1 --weights falling\np sp 4 6\na 1 2 6\na 1 3 5\na 2 3 4\na 1 4 3\na 2 4 2\na 3 4 1\n",
    ),
    (
        (Kind::Slow, 9, 1, None, None),
        "c ghs make slow 9 --seed 1\np sp 9 8\na 1 2 1\na 2 3 1\na 3 4 1\na 4 5 1\na 5 6 1\na 6 7 1\na 1 8 2\na 8 9 1\n",
    ),
    (
        (Kind::Busy, 7, 1, None, None),
        "c ghs make busy 7 --seed 1\np sp 7 11\na 1 2 1\na 2 3 1\na 3 4 1\na 4 5 1\na 1 6 2\na 2 6 64\na 4 6 64\na 6 7 1\na 1 7 64\na 3 7 64\na 5 7 64\n",
    ),
    (
        (Kind::FarCore, 3, 1, None, None),
        "c ghs make farcore 3 --seed 1\np sp 3 2\na 1 2 1\na 2 3 1\n",
    ),
    (
        (Kind::FarCore, 16, 1, None, None),
        "c ghs make farcore 16 --seed 1\np sp 16 37\na 1 2 1\na 2 3 1\na 3 4 1\na 4 5 1\na 5 6 1\na 6 7 1\na 7 8 1\na 8 9 1\na 9 10 1\na 10 11 1\na 11 12 1\na 12 13 1\na 1 13 65\na 2 13 65\na 3 13 65\na 4 13 65\na 5 13 65\na 6 13 65\na 7 13 65\na 8 13 65\na 9 13 65\na 10 13 65\na 11 13 65\na 13 14 1\na 14 15 33\na 2 15 64\na 3 15 64\na 4 15 64\na 5 15 64\na 6 15 64\na 7 15 64\na 8 15 64\na 9 15 64\na 10 15 64\na 11 15 64\na 12 15 64\na 15 16 1\n",
    ),
    (
        (Kind::ChainWake, 5, 1, None, None),
        "c ghs make chainwake 5 --seed 1\np sp 5 7\na 1 2 3\na 1 3 4\na 1 4 5\na 3 4 3\na 1 5 6\na 3 5 5\na 4 5 4\n",
    ),
];

fn assert_text(rt: &impl Abort, alloc: Global, words: Words, text: &str) {
    let mut found = Vec::new(alloc);
    assert!(rt;
        made(alloc, &asked(words), &mut found).is_ok(),
        "of {text:?}"
    );
    assert_eq!(rt; found.as_slice(), text.as_bytes());
}

fn assert_texts(rt: &impl Abort, alloc: Global, rows: &[(Words, &str)]) {
    for (words, text) in rows {
        assert_text(rt, alloc, *words, text);
    }
}

#[test]
fn kinds_have_their_links(rt: HostRuntime) {
    assert_texts(&rt, rt.alloc(), &BY_HAND);
}

/// Networks that seeds pick, as a program in another language reckons them from the words of SplitMix64.
static PICKED: [(Words, &str); 5] = [
    (
        (Kind::Tree, 6, 1, None, Some(Weights::Equal)),
        "c ghs make tree 6 --seed 1 --weights equal\np sp 6 5\na 1 2 1\na 1 3 1\na 2 4 1\na 2 5 1\na 3 6 1\n",
    ),
    (
        (Kind::Random, 6, 1, Some(8), Some(Weights::Equal)),
        "c ghs make random 6 --seed 1 --links 8 --weights equal\np sp 6 8\na 1 2 1\na 1 3 1\na 2 4 1\na 2 5 1\na 4 5 1\na 1 6 1\na 3 6 1\na 5 6 1\n",
    ),
    (
        (Kind::Forest, 6, 1, Some(3), Some(Weights::Equal)),
        "c ghs make forest 6 --seed 1 --links 3 --weights equal\np sp 6 3\na 1 3 1\na 3 5 1\na 3 6 1\n",
    ),
    (
        (Kind::Road, 12, 3, None, Some(Weights::Equal)),
        "c ghs make road 12 --seed 3 --weights equal\np sp 12 14\na 1 2 1\na 2 3 1\na 1 4 1\na 4 5 1\na 3 6 1\na 4 7 1\na 5 8 1\na 7 8 1\na 6 9 1\na 8 9 1\na 7 10 1\na 8 11 1\na 10 11 1\na 9 12 1\n",
    ),
    (
        (Kind::Road, 12, 4, None, Some(Weights::Random)),
        "c ghs make road 12 --seed 4 --weights random\np sp 12 14\na 1 2 832137\na 2 3 646687\na 1 4 999316\na 2 5 802621\na 3 6 489249\na 5 6 534428\na 4 7 181792\na 5 8 538913\na 7 8 583219\na 6 9 390657\na 7 10 482209\na 8 11 160381\na 9 12 573407\na 11 12 723192\n",
    ),
];

#[test]
fn seeds_pick_links_and_weights(rt: HostRuntime) {
    assert_texts(&rt, rt.alloc(), &PICKED);
}

/// What isn't made, and why.
static REFUSED: [(Words, MakeFault); 11] = [
    (
        (Kind::Slow, 0, 1, Some(3), Some(Weights::Equal)),
        MakeFault::Nodes,
    ),
    ((Kind::Path, 1_048_577, 1, None, None), MakeFault::Nodes),
    (
        (Kind::Slow, 9, 1, Some(3), Some(Weights::Equal)),
        MakeFault::LinksGiven,
    ),
    (
        (Kind::Busy, 9, 1, None, Some(Weights::Equal)),
        MakeFault::WeightsGiven,
    ),
    (
        (Kind::FarCore, 20, 1, None, Some(Weights::Equal)),
        MakeFault::WeightsGiven,
    ),
    (
        (Kind::ChainWake, 9, 1, None, Some(Weights::Equal)),
        MakeFault::WeightsGiven,
    ),
    (
        (Kind::Random, 5, 1, Some(3), None),
        MakeFault::Links { least: 4, most: 10 },
    ),
    (
        (Kind::Random, 5, 1, Some(11), None),
        MakeFault::Links { least: 4, most: 10 },
    ),
    (
        (Kind::Random, 5000, 1, Some(8_388_609), None),
        MakeFault::Links {
            least: 4999,
            most: 8_388_608,
        },
    ),
    (
        (Kind::Forest, 5, 1, Some(5), None),
        MakeFault::Links { least: 0, most: 4 },
    ),
    (
        (Kind::Complete, 4097, 1, None, None),
        MakeFault::TooManyLinks,
    ),
];

fn assert_refused(rt: &impl Abort, alloc: Global, words: Words, fault: MakeFault) {
    let found = Network::of(alloc, &asked(words)).err();
    assert_eq!(rt; found, Some(fault));
}

fn assert_all_refused(rt: &impl Abort, alloc: Global, rows: &[(Words, MakeFault)]) {
    for (words, fault) in rows {
        assert_refused(rt, alloc, *words, *fault);
    }
}

/// Of several faults the first one counts.
#[test]
fn what_is_asked_for_is_refused(rt: HostRuntime) {
    assert_all_refused(&rt, rt.alloc(), &REFUSED);
}

/// A network is made whole, or memory runs out.
fn make(rt: &impl Abort, alloc: Global, k: usize) -> Turn {
    let asked = asked((Kind::Busy, 7, 1, None, None));
    let mut held = Vec::with_capacity(alloc, 1 << 16).expect(rt, "memory");
    order(alloc, k);
    let answer = made(alloc, &asked, &mut held);
    let turn = turn_of(alloc, k, &answer);
    match answer {
        Ok(()) => assert!(rt; held.ends_with(b"a 5 7 64\n")),
        Err(()) => assert!(rt; held.is_empty()),
    }
    turn
}

#[test]
fn making_is_refused_memory(rt: HostRuntime) -> Result<(), Fail> {
    refuse(&rt, rt.alloc(), "make", |k| make(&rt, rt.alloc(), k))
}
