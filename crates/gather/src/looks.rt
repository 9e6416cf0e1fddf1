//! What a page is told of the protocol, besides its words. `page/pack` writes it here from `page/protocols/gather.json`; change it there.

/// The page's title, as HTML.
pub const TITLE: &[u8] = br##"ghs: Gather"##;

/// What it is told of `explore`.
pub const EXPLORE: &[u8] =
    br##""name":"Explore","short":"Explore","letter":"X","has":["wave"],"bits":2"##;

/// What it is told of `back`.
pub const BACK: &[u8] =
    br##""name":"Back","short":"Back","letter":"B","has":["wave","links"],"bits":2"##;

/// What it is told of `tree`.
pub const TREE: &[u8] = br##""name":"Tree","short":"Tree","letter":"T","has":["links"],"bits":2"##;

/// What it is told behind the kinds.
pub const LOOK: &[u8] =
    br##""lengths":"It has 2 bits for its kind, {number} for a wave, and for links {count} for how many they are and {key} for each, which is two nodes of {number} and a weight of {weight}.","marks":[{"mark":"basic","name":"Basic","look":"open"},{"mark":"child","name":"Child","look":"asked"},{"mark":"branch","name":"Branch","look":"tree"}],"phases":[{"phase":"sleeping","name":"Sleeping","look":"asleep","legend":"sleeps"},{"phase":"asking","name":"Asking","look":"searching","legend":"Asking"},{"phase":"answered","name":"Answered","look":"plain","legend":"Answered"}],"variables":[["phase","wave","halted"],["parent","awaits"]],"opening":{"phase":"sleeping","wave":0,"parent":null,"awaits":0,"halted":false},"ports":["parent"],"rows":{"Wakes":"The node wakes by itself and starts a wave of its own number. It sends Explore over each link; without links it is its own tree, and halts.","Joins":"The Explore wakes the node, which joins its wave. Its sender becomes the parent, and the node sends Explore over its other links. Without another link it answers with Back, which carries its link.","Leaves":"The Explore is of a smaller wave. The node leaves its own, forgets what has come, and asks on in the smaller one.","Hears":"An Explore of the node's own wave counts as an answer. The node awaits one less. Once it awaits none, it sends the forest of all links that it knows to its parent. A leader, which has no parent, knows the tree then.","Gathers":"A Back of the node's own wave: the links behind its sender. The node awaits one answer less. Once it awaits none, it sends the forest of all links that it knows to its parent. A leader, which has no parent, knows the tree then.","Ignores":"The message is of a wave that has lost. The node ignores it.","Told":"The parent sends the tree's links. The node tells its children, and halts."},"waits":{}"##;
