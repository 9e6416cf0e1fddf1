//! What a page is told of the protocol, besides its words. `page/pack` writes it here from `page/protocols/echo.json`; change it there.

/// The page's title, as HTML.
pub const TITLE: &[u8] = br##"ghs: the echo wave"##;

/// What it is told of `explore`.
pub const EXPLORE: &[u8] =
    br##""name":"Explore","short":"Explore","letter":"X","has":[],"bits":1"##;

/// What it is told of `echo`.
pub const ECHO: &[u8] = br##""name":"Echo","short":"Echo","letter":"E","has":[],"bits":1"##;

/// What it is told behind the kinds.
pub const LOOK: &[u8] =
    br##""lengths":"It has one bit, which says its kind.","marks":[{"mark":"basic","name":"Basic","look":"open"},{"mark":"asked","name":"Asked","look":"asked"},{"mark":"parent","name":"Parent","look":"tree"}],"ends":1,"phases":[{"phase":"sleeping","name":"Sleeping","look":"asleep","legend":"sleeps"},{"phase":"asking","name":"Asking","look":"searching","legend":"Asking"},{"phase":"answered","name":"Answered","look":"plain","legend":"Answered"}],"variables":[["phase","awaits","halted"],["parent"]],"opening":{"phase":"sleeping","parent":null,"awaits":0,"halted":false},"ports":["parent"],"rows":{"Wakes":"The node wakes by itself. It sends Explore over each link; without links it halts.","Joins":"The Explore wakes the node. Its sender becomes the parent, and the node sends Explore over its other links. Without another link it answers with Echo.","Hears":"The node awaits one message less. Once it awaits none, it answers its parent with Echo; a node that woke by itself halts."},"waits":{}"##;
