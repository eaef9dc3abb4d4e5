// Trees whose orders have a set of leaves consecutive.
ghost use Rattle.std.specs.Prelude.{◌≡◌, ℕ, true, List, ◌++◌, IfOk, IfErr};
ghost use Rattle.cp_pq.specs.declared.node.Node.{Node};
ghost use Rattle.cp_pq.specs.declared.fault.ReduceFault.TheVariants.{NotConsecutive};
ghost use Rattle.cp_pq.specs.Trees.{PQTree, make_tree, IsWellFormed};
ghost use Rattle.cp_pq.specs.Orders.{inside, outside};
ghost use Rattle.cp_pq.specs.Promises.{IsLeafSet, IsReduced, IsNeverConsecutive};
ghost use Rattle.cp_pq.specs.Steps.{IsPlace};
ghost use Rattle.cp_pq.specs.Ties.{tie_equations};

use crate::change::{Change, changed};
use crate::fault::ReduceFault;
use crate::found::Ties;
use crate::frame::filled;
use crate::gather::step_of;
use crate::step::{Place, Step};
use crate::tree::Tree;
use cp_base::{Equation, Equations, Memory};
use std::alloc::Global;

/// The equations, and behind them one for each tie to the var.
fn tied(equations: Equations, var: usize, ties: Ties) -> Result<Equations, Memory>
    ensures { IfOk result (λ all. all ≡ equations ++ tie_equations var ties) }
{
    let mut all = equations;
    for tie in ties.items() {
        all.push(Equation {
            x: tie.0,
            y: var,
            odd: tie.1,
        })?;
    }
    Ok(all)
}

/// The tree with the change at the place.
fn reduced_at(
    alloc: Global,
    root: usize,
    place: Place,
    vars: usize,
    equations: Equations,
) -> Result<Tree, ReduceFault>
    requires { (body : Node) × (set : List ℕ) × IsWellFormed (make_tree root body vars equations) × (outside set root ≡ true)
        × IsPlace (outside set) (inside set) body place }
    ensures reduced { IfOk result (λ t. (body : Node) (set : List ℕ) → IsWellFormed (make_tree root body vars equations)
        → outside set root ≡ true → IsPlace (outside set) (inside set) body place
        → IsReduced set (make_tree root body vars equations) t) }
    ensures refused { IfErr result (λ e. e ≡ NotConsecutive → (body : Node) (set : List ℕ)
        → IsWellFormed (make_tree root body vars equations) → outside set root ≡ true
        → IsPlace (outside set) (inside set) body place → IsNeverConsecutive set (make_tree root body vars equations)) }
{
    if vars == usize::MAX {
        return Err(ReduceFault::Memory);
    }
    let Place { frames, top } = place;
    let change = changed(alloc, top, vars)?;
    match change {
        Change::Never => Err(ReduceFault::NotConsecutive),
        Change::Kept(node) => {
            let kept = filled(alloc, frames, node)?;
            Ok(Tree::from_parts(root, kept, vars, equations))
        }
        Change::Old { node, var, ties } => {
            let body = filled(alloc, frames, node)?;
            let all = tied(equations, var, ties)?;
            Ok(Tree::from_parts(root, body, vars, all))
        }
        Change::New { node, ties } => {
            let new_body = filled(alloc, frames, node)?;
            let new_all = tied(equations, vars, ties)?;
            Ok(Tree::from_parts(root, new_body, vars + 1, new_all))
        }
    }
}

/// The tree that keeps exactly the orders in which the set is consecutive. New vars are numbered behind the old ones; a
/// reduction takes one at most. Each leaf is looked up in the set, and else the cost is linear in the tree. Where the number
/// of vars is the greatest that there is, memory is wanting.
pub fn reduce(alloc: Global, tree: Tree, set: &[usize]) -> Result<Tree, ReduceFault>
    requires { IsLeafSet set.now tree }
    ensures reduced { IfOk result (λ t. IsReduced set.now tree t) }
    ensures refused { IfErr result (λ e. e ≡ NotConsecutive → IsNeverConsecutive set.now tree) }
{
    let (root, body, vars, equations) = tree.into_parts();
    let step = step_of(alloc, body, set, set.len())?;
    match step {
        Step::Open { .. } => unreachable!(),
        Step::Root(place) => reduced_at(alloc, root, place, vars, equations),
    }
}
