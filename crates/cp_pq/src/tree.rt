// Order trees: a root leaf, a body, a number of vars, and equations over their bits.
ghost use Rattle.std.specs.Prelude.{◌≡◌, IfOk};
ghost use Rattle.cp_pq.specs.Trees.{IsWellFormed, make_tree};

use crate::node::Node;
use cp_base::{Equation, Equations};
use std::marker::Model;

/// An order tree. Contracts see its root leaf, its body, its number of vars and its list of equations.
#[derive(Drop)]
pub struct Tree {
    root: usize,
    body: Node,
    vars: usize,
    equations: Equations,
}

impl Model for Tree {
    ghost use Rattle.cp_pq.specs.Trees.{PQTree, IsWellFormed, make_tree};
    ghost use Rattle.cp_pq.specs.contracts.node.Node as node;
    ghost use Rattle.std.specs.Coded.{codes};

    ghost Value = { PQTree };

    ghost coded = { Prim.hlevel (codes, node.the_row.coded) };

    ghost view = { λ t. make_tree t.root t.body t.vars t.equations };

    ghost invariant = { λ t. IsWellFormed (make_tree t.root t.body t.vars t.equations) };
}

impl Tree {
    /// The tree of these parts. It takes no memory.
    pub fn from_parts(root: usize, body: Node, vars: usize, equations: Equations) -> Tree
        requires { IsWellFormed (make_tree root body vars equations) }
        ensures { result ≡ make_tree root body vars equations }
    {
        Tree {
            root,
            body,
            vars,
            equations,
        }
    }

    /// The root leaf, the body, the number of vars and the equations. It takes no memory.
    pub fn into_parts(self) -> (usize, Node, usize, Equations)
        ensures parts { self ≡ make_tree result.0 result.1 result.2 result.3 }
        ensures well_formed { IsWellFormed self }
    {
        let Tree {
            root,
            body,
            vars,
            equations,
        } = self;
        (root, body, vars, equations)
    }

    /// The root leaf.
    pub fn root(&self) -> usize
        ensures value { result ≡ self.now.root }
        ensures well_formed { IsWellFormed self.now }
    {
        self.root
    }

    /// All that hangs below the root leaf.
    pub fn body(&self) -> &Node
        ensures value { result.now ≡ self.now.body }
        ensures well_formed { IsWellFormed self.now }
    {
        &self.body
    }

    /// The number of vars.
    pub fn vars(&self) -> usize
        ensures value { result ≡ self.now.vars }
        ensures well_formed { IsWellFormed self.now }
    {
        self.vars
    }

    /// The equations over the bits of the vars.
    pub fn equations(&self) -> &[Equation]
        ensures value { result.now ≡ self.now.equations }
        ensures well_formed { IsWellFormed self.now }
    {
        self.equations.items()
    }
}
