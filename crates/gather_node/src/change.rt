//! How a node changes in one reaction.
ghost use Rattle.std.specs.Prelude.{◌≡◌, false, None};

use crate::head::Head;
use crate::links::Links;

/// A node's new variables, and what becomes of its ports.
#[derive(Debug, Drop)]
pub struct Change<'s> {
    pub head: Head,
    /// Whether it forgets what has come at its ports.
    pub forgets: bool,
    /// Links that have come with an answer at a port.
    pub brought: Option<(u32, Links<'s>)>,
    /// Links of the tree: its ports in them become Branch, and no others.
    pub tree: Option<Links<'s>>,
}

impl<'s> Change<'s> {
    /// Nothing changes but the variables.
    pub(crate) fn to(head: Head) -> Change<'s>
        ensures { result ≡ record { head = head; forgets = false; brought = None; tree = None } }
    {
        Change {
            head,
            forgets: false,
            brought: None,
            tree: None,
        }
    }
}
