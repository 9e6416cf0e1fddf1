//! Kinds of networks.
ghost use Rattle.ghs_make.specs.Kind.{kind_name, kind_named, has_own_weights as has_own_weights_of, takes_links as takes_links_of};
ghost use Rattle.std.specs.Prelude.{◌≡◌};

/// A kind of networks. Nodes are numbered from 1, and each link stands at its larger end.
#[derive(Clone, Copy, Debug, Drop, PartialEq, Eq)]
pub enum Kind {
    /// Each node is linked with the one before it.
    Path,
    /// A path whose ends are linked.
    Ring,
    /// Each node is linked with node 1.
    Star,
    /// Nodes in rows, each linked with those beside it and above it.
    Grid,
    /// Any two nodes are linked.
    Complete,
    /// Each node is linked with one of those before it.
    Tree,
    /// A tree and more links, so many in all as are asked for.
    Random,
    /// A grid that lacks links, as roads do.
    Road,
    /// Trees side by side, so many links in all as are asked for.
    Forest,
    /// A path on which a run takes a time that grows as N log N.
    Slow,
    /// A sparse network on which a run sends nearly as many messages as the bound allows.
    Busy,
    /// A path with its core at one end, on which a run in which all nodes wake takes nearly as many rounds as it may.
    FarCore,
    /// A dense network, whose nodes wake one after the other where node 1 alone wakes by itself.
    ChainWake,
}

impl Kind {
    /// Its name, as a command line has it.
    pub fn name(self) -> &'static str
        ensures { result.now ≡ kind_name self }
    {
        match self {
            Kind::Path => "path",
            Kind::Ring => "ring",
            Kind::Star => "star",
            Kind::Grid => "grid",
            Kind::Complete => "complete",
            Kind::Tree => "tree",
            Kind::Random => "random",
            Kind::Road => "road",
            Kind::Forest => "forest",
            Kind::Slow => "slow",
            Kind::Busy => "busy",
            Kind::FarCore => "farcore",
            Kind::ChainWake => "chainwake",
        }
    }

    /// The kind of this name.
    pub fn named(name: &str) -> Option<Kind>
        ensures { result ≡ kind_named name.now }
    {
        if name == "path" {
            return Some(Kind::Path);
        }
        if name == "ring" {
            return Some(Kind::Ring);
        }
        if name == "star" {
            return Some(Kind::Star);
        }
        if name == "grid" {
            return Some(Kind::Grid);
        }
        if name == "complete" {
            return Some(Kind::Complete);
        }
        if name == "tree" {
            return Some(Kind::Tree);
        }
        if name == "random" {
            return Some(Kind::Random);
        }
        if name == "road" {
            return Some(Kind::Road);
        }
        if name == "forest" {
            return Some(Kind::Forest);
        }
        if name == "slow" {
            return Some(Kind::Slow);
        }
        if name == "busy" {
            return Some(Kind::Busy);
        }
        if name == "farcore" {
            return Some(Kind::FarCore);
        }
        if name == "chainwake" {
            return Some(Kind::ChainWake);
        }
        None
    }

    /// Whether it takes a number of links.
    pub fn takes_links(self) -> bool
        ensures { result ≡ takes_links_of self }
    {
        matches!(self, Kind::Random | Kind::Forest)
    }

    /// Whether its weights are part of what it is.
    pub fn has_own_weights(self) -> bool
        ensures { result ≡ has_own_weights_of self }
    {
        matches!(
            self,
            Kind::Slow | Kind::Busy | Kind::FarCore | Kind::ChainWake
        )
    }
}
