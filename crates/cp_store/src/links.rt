// Links from keys to names.
ghost use Rattle.std.specs.Prelude.{◌≡◌};

use crate::ranked::{Rank, Ranked};
use cp_base::Memory;

// A link from a key to a name.
#[derive(Clone, Copy, Debug)]
pub(crate) struct Link {
    pub(crate) key: usize,
    pub(crate) name: usize,
}

// The roots of the trees of the links of pipes: from degrees to names counted down, and from ends to names.
#[derive(Clone, Copy, Debug)]
pub(crate) struct PipeRoots {
    pub(crate) ranks: usize,
    pub(crate) poles: usize,
}

// The roots of the trees of links of an instance: from the ends of edges to the edges, and those of pipes.
#[derive(Clone, Copy, Debug)]
pub(crate) struct Roots {
    pub(crate) ends: usize,
    pub(crate) pipes: PipeRoots,
}

// The roots of trees without links.
pub(crate) fn no_roots() -> Roots
    ensures ends { result.ends ≡ 0 }
    ensures ranks { result.pipes.ranks ≡ 0 }
    ensures poles { result.pipes.poles ≡ 0 }
{
    Roots {
        ends: 0,
        pipes: PipeRoots { ranks: 0, poles: 0 },
    }
}

impl Ranked for Link {
    ghost use Rattle.cp_store.specs.Links.{link_number};

    ghost number = { link_number };

    fn rank(&self) -> Rank {
        (self.key, self.name)
    }

    fn shared(&self) -> Result<Self, Memory> {
        Ok(*self)
    }
}
