// Copies of order trees.
ghost use Rattle.std.specs.Prelude.{◌≡◌, IfOk};

use cp_base::{Equation, Equations, Items, Memory};
use cp_pq::{Node, Nodes, Tree};
use std::alloc::Global;

// An equal node. Linear in its size.
#[cycle(copies)]
pub(crate) fn copy_of_node(alloc: Global, node: &Node) -> Result<Node, Memory>
    ensures { IfOk result (λ copy. copy ≡ node.now) }
{
    match node {
        Node::Leaf(x) => Ok(Node::Leaf(*x)),
        Node::P { owner, kids } => {
            let copies = copies_of(alloc, kids.items())?;
            Ok(Node::P {
                owner: *owner,
                kids: copies,
            })
        }
        Node::Q { var, kids } => {
            let copied = copies_of(alloc, kids.items())?;
            Ok(Node::Q {
                var: *var,
                kids: copied,
            })
        }
    }
}

// An equal row of nodes.
#[cycle(copies)]
fn copies_of(alloc: Global, nodes: &[Node]) -> Result<Nodes, Memory>
    ensures { IfOk result (λ copies. copies ≡ nodes.now) }
{
    let mut copies = Items::new(alloc);
    for node in nodes {
        copies.push(copy_of_node(alloc, node)?)?;
    }
    Ok(copies)
}

// The same equations.
fn copies_of_equations(alloc: Global, equations: &[Equation]) -> Result<Equations, Memory>
    ensures { IfOk result (λ copies. copies ≡ equations.now) }
{
    let mut copies = Equations::new(alloc);
    for equation in equations {
        copies.push(*equation)?;
    }
    Ok(copies)
}

/// An equal tree. Linear in its size.
pub fn copy_of(alloc: Global, tree: &Tree) -> Result<Tree, Memory>
    ensures { IfOk result (λ copy. copy ≡ tree.now) }
{
    let body = copy_of_node(alloc, tree.body())?;
    let equations = copies_of_equations(alloc, tree.equations())?;
    Ok(Tree::from_parts(tree.root(), body, tree.vars(), equations))
}
