// Trees with a hole.
ghost use Rattle.std.specs.Prelude.{◌≡◌, ◌∷◌, [], IfOk};
ghost use Rattle.cp_pq.specs.declared.node.Node.{Node};
ghost use Rattle.cp_pq.specs.Trees.{IsWellFormed, make_tree};
ghost use Rattle.cp_pq.specs.Frames.{fill};

use crate::frame::{Frames, row_filled};
use crate::node::Nodes;
use crate::tree::Tree;
use cp_base::{Equations, Memory};
use std::alloc::Global;

/// An order tree without a part of its body: the root leaf, the inner nodes round the hole from the hole up, the number of
/// vars and the equations over their bits.
#[derive(Drop)]
pub struct Hole {
    pub root: usize,
    pub frames: Frames,
    pub vars: usize,
    pub equations: Equations,
}

impl Hole {
    /// The tree with this row of nodes in the hole. Linear in the nodes beside the hole and in the row.
    pub fn filled(self, alloc: Global, row: Nodes) -> Result<Tree, Memory>
        requires { (body : Node) × (body ∷ [] ≡ fill self.frames row)
            × IsWellFormed (make_tree self.root body self.vars self.equations) }
        ensures body { IfOk result (λ tree. tree.body ∷ [] ≡ fill self.frames row) }
        ensures root { IfOk result (λ tree. tree.root ≡ self.root) }
        ensures vars { IfOk result (λ tree. tree.vars ≡ self.vars) }
        ensures equations { IfOk result (λ tree. tree.equations ≡ self.equations) }
    {
        let Hole {
            root,
            frames,
            vars,
            equations,
        } = self;
        let mut whole = row_filled(alloc, frames, row)?;
        let Some(body) = whole.pop() else {
            unreachable!()
        };
        Ok(Tree::from_parts(root, body, vars, equations))
    }
}
