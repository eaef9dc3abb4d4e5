// The part of a tree that a set of leaves fills, taken out.
ghost use Rattle.std.specs.Prelude.{◌≡◌, ℕ, Bool, true, List, [], ◌∷◌, IfOk};
ghost use Rattle.cp_pq.specs.declared.node.Node.{Node};
ghost use Rattle.cp_pq.specs.Orders.{IsConsecutive};
ghost use Rattle.cp_pq.specs.Trees.{Admits, IsWellFormed};
ghost use Rattle.cp_pq.specs.Promises.{IsLeafSet};
ghost use Rattle.cp_pq.specs.Words.{Opposite};
ghost use Rattle.cp_pq.specs.Steps.{IsTop, IsPlace};
ghost use Rattle.cp_pq.specs.Holes.{IsTakenOut};
ghost use Rattle.cp_pq.specs.Cuts.{IsAlwaysTogether, IsTaken};

use crate::cut::{Cut, cut_row};
use crate::frame::{Frame, Frames, Label};
use crate::gather::step_of;
use crate::hole::Hole;
use crate::lists::{joined, one};
use crate::part::Part;
use crate::step::{Place, Step, Top};
use crate::tree::Tree;
use cp_base::{Items, Memory};
use std::alloc::Global;

/// The part in the node that holds the whole set, and the frames round it in this node.
fn top_part(alloc: Global, top: Top) -> Result<(Frames, Part), Memory>
    requires { (q p : ℕ → Bool) × (k : Node) × Opposite q p × IsTop q p k top × IsAlwaysTogether q p k }
    ensures { IfOk result (λ r. (q p : ℕ → Bool) (k : Node) → Opposite q p → IsTop q p k top → IsAlwaysTogether q p k
        → IsTaken q p k r.0 r.1) }
{
    match top {
        Top::Whole(node) => {
            let kids = one(alloc, node)?;
            let frames = Items::new(alloc);
            Ok((frames, Part { kids, var: None }))
        }
        Top::Met { label, founds } => match label {
            Label::P(_) => unreachable!(),
            Label::Q(var) => {
                let Cut { before, run, after } = cut_row(alloc, founds)?;
                let inner = one(
                    alloc,
                    Frame {
                        label: Label::Q(var),
                        before,
                        after,
                    },
                )?;
                Ok((
                    inner,
                    Part {
                        kids: run,
                        var: Some(var),
                    },
                ))
            }
        },
    }
}

/// The part at the place, and all frames round it.
fn part_at(alloc: Global, place: Place) -> Result<(Frames, Part), Memory>
    requires { (q p : ℕ → Bool) × (n : Node) × Opposite q p × IsPlace q p n place × IsAlwaysTogether q p n }
    ensures { IfOk result (λ r. (q p : ℕ → Bool) (n : Node) → Opposite q p → IsPlace q p n place → IsAlwaysTogether q p n
        → IsTaken q p n r.0 r.1) }
{
    let Place { frames, top } = place;
    let (inner, part) = top_part(alloc, top)?;
    let all = joined(alloc, inner, frames)?;
    Ok((all, part))
}

/// The part that the set fills, and the tree without it. Each leaf is looked up in the set, and else the cost is linear in
/// the tree.
pub fn taken_out(alloc: Global, tree: Tree, set: &[usize]) -> Result<(Hole, Part), Memory>
    requires leaf_set { IsLeafSet set.now tree }
    requires consecutive { (order : List ℕ) → Admits tree order → IsConsecutive set.now order }
    ensures taken { IfOk result (λ r. IsTakenOut set.now tree r.0 r.1) }
    ensures well_formed { IfOk result (λ _. IsWellFormed tree) }
{
    let (root, body, vars, equations) = tree.into_parts();
    let step = step_of(alloc, body, set, set.len())?;
    match step {
        Step::Open { .. } => unreachable!(),
        Step::Root(place) => {
            let (frames, part) = part_at(alloc, place)?;
            Ok((
                Hole {
                    root,
                    frames,
                    vars,
                    equations,
                },
                part,
            ))
        }
    }
}
