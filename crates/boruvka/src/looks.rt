//! What a page is told of the protocol, besides its words. `page/pack` writes it here from `page/protocols/boruvka.json`; change it there.

/// The page's title, as HTML.
pub const TITLE: &[u8] = br##"ghs: Bor&#367;vka in step"##;

/// What it is told of `connect`.
pub const CONNECT: &[u8] =
    br##""name":"Connect","short":"Connect","letter":"C","has":["level"],"bits":3"##;

/// What it is told of `initiate`.
pub const INITIATE: &[u8] =
    br##""name":"Initiate","short":"Init","letter":"I","has":["level","key"],"bits":3"##;

/// What it is told of `name`.
pub const NAME: &[u8] =
    br##""name":"Name","short":"Name","letter":"N","has":["level","key"],"bits":3"##;

/// What it is told of `report`.
pub const REPORT: &[u8] =
    br##""name":"Report","short":"Report","letter":"R","has":["key"],"none":["nothing","none"],"bits":4"##;

/// What it is told of `changeroot`.
pub const CHANGEROOT: &[u8] =
    br##""name":"ChangeRoot","short":"Root","letter":"G","has":[],"bits":3"##;

/// What it is told behind the kinds.
pub const LOOK: &[u8] =
    br##""lengths":"It has 3 bits for its kind, {level} for a level and {key} for a key, which is two nodes of {number} and a weight of {weight}. A Report has one more for whether it has a key.","marks":[{"mark":"basic","name":"Basic","look":"open"},{"mark":"asked","name":"Asked","look":"asked"},{"mark":"branch","name":"Branch","look":"tree"},{"mark":"inside","name":"Inside","look":"closed"}],"phases":[{"phase":"sleeping","name":"Sleeping","look":"asleep","legend":"sleeps"},{"phase":"rest","name":"Rest","look":"plain","legend":"Rest"},{"phase":"search","name":"Search","look":"searching","legend":"Search"}],"variables":[["level","phase","halted"],["parent","out"],["name"],["best"]],"opening":{"level":0,"name":null,"phase":"sleeping","parent":null,"best":null,"out":null,"halted":false},"ports":["out"],"rows":{"Wakes":"The node wakes by itself. It sends Connect over its lightest link; without links it halts.","Connect_noted":"A Connect of the same level comes over a link that this node has not chosen. The port is Asked: it becomes Branch once the node enters the next level.","Connect_core":"Both ends have sent Connect over the link: it is the core of a new fragment. The end with the smaller number enters the next level, the other end waits to be called.","Connect_late":"A Connect of one level below. The link becomes Branch, and Initiate calls the fragment to this level and name.","Initiate_enters":"A call to the next level and name. The node passes it on over its Branch links, and tells its name over the Basic ones.","Name_heard":"The neighbor tells its level and name. If they are the node's own, the link is Inside: it is not in the tree.","Report_heard":"A Report from below. The node keeps the lighter link. If it awaits nothing more, it reports in its turn; the root moves, or halts.","Root_moves":"The root moves on towards the best link, or sends Connect over it."},"waits":{}"##;
