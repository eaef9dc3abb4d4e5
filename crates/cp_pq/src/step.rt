// What leaves, rows and inner nodes are against a set of leaves, up to the node that holds the whole set, and the frames
// above it.
ghost use Rattle.std.specs.Prelude.{◌≡◌, ℕ, Bool, true, IsTrue, ◌≤◌, ◌<◌, ◌^◌, length, List, [], ◌∷◌, ◌++◌, filter, IfOk};
ghost use Rattle.std.specs.List.{list_all, AllZip};
ghost use Rattle.std.specs.List.Sorted.{IsStrictlyIncreasing};
ghost use Rattle.cp_pq.specs.Words.{Opposite, is_met};
ghost use Rattle.cp_pq.specs.Founds.{IsGiven, flat_line};
ghost use Rattle.cp_pq.specs.Nodes.{is_branching};
ghost use Rattle.cp_pq.specs.Orders.{inside, outside};
ghost use Rattle.cp_pq.specs.Frames.{node_of};
ghost use Rattle.cp_pq.specs.Steps.{IsStep, IsGathered, IsTop, count_in, count_all};
ghost use Rattle.cp_pq.specs.declared.node.Node.{Node};
ghost use Rattle.cp_pq.specs.declared.node.Node.TheVariants.{Leaf};

use crate::close::close;
use crate::found::{Found, Founds};
use crate::frame::{Frame, Frames, Label};
use crate::lists::reversed;
use crate::look::is_in_set;
use crate::node::Node;
use crate::pour::row_of;
use crate::row::are_in;
use cp_base::{Items, Memory};
use std::alloc::Global;

/// The node that holds the whole set, where none of its kids does.
#[derive(Drop)]
pub enum Top {
    /// All its leaves are in the set.
    Whole(Node),
    /// An inner node, by its kids.
    Met { label: Label, founds: Founds },
}

/// Where the set stands in a tree.
#[derive(Drop)]
pub struct Place {
    pub frames: Frames,
    pub top: Top,
}

/// What a node is against the set.
#[derive(Drop)]
pub enum Step {
    /// It holds `count` leaves of the set, which are not all.
    Open { found: Found, count: usize },
    /// It holds them all.
    Root(Place),
}

/// A row of nodes.
#[derive(Drop)]
pub enum Row {
    /// None holds the whole set. Together they hold `count` leaves of it.
    Open {
        founds: Founds,
        count: usize,
    },
    /// One of them does.
    Root {
        before: Founds,
        place: Place,
        after: Founds,
    },
}

impl Row {
    /// The row with one more node. It is not inlined, so that the functions that go down a tree have small frames.
    #[inline(never)]
    pub fn add(self, alloc: Global, step: Step) -> Result<Row, Memory>
        ensures { IfOk result (λ r. (q p : ℕ → Bool) (total : ℕ) (ks : List Node) (k : Node) → Opposite q p → 0 < total
            → total < 2 ^ 64 → count_all p (ks ++ k ∷ []) ≤ total → IsStep q p total k step → IsGathered q p total ks self
            → IsGathered q p total (ks ++ k ∷ []) r) }
    {
        match self {
            Row::Open { founds, count } => {
                let mut so_far = founds;
                match step {
                    Step::Open { found, count: more } => {
                        so_far.push(found)?;
                        Ok(Row::Open {
                            founds: so_far,
                            count: count.saturating_add(more),
                        })
                    }
                    Step::Root(place) => Ok(Row::Root {
                        before: so_far,
                        place,
                        after: Items::new(alloc),
                    }),
                }
            }
            Row::Root {
                before,
                place,
                after,
            } => {
                let mut behind = after;
                if let Step::Open { found, .. } = step {
                    behind.push(found)?;
                    return Ok(Row::Root {
                        before,
                        place,
                        after: behind,
                    });
                }
                Ok(Row::Root {
                    before,
                    place,
                    after: behind,
                })
            }
        }
    }
}

/// The place with one more frame round it.
fn framed(
    alloc: Global,
    label: Label,
    before: Founds,
    place: Place,
    after: Founds,
) -> Result<Place, Memory>
    ensures { IfOk result (λ r. (r.frames ≡ place.frames ++ record { label = label; before = flat_line before; after = flat_line after } ∷ [])
        × (r.top ≡ place.top)) }
{
    let before_back = reversed(alloc, before)?;
    let before_nodes = row_of(alloc, before_back)?;
    let after_back = reversed(alloc, after)?;
    let after_nodes = row_of(alloc, after_back)?;
    let Place { frames, top } = place;
    let mut all = frames;
    all.push(Frame {
        label,
        before: before_nodes,
        after: after_nodes,
    })?;
    Ok(Place { frames: all, top })
}

/// An inner node that holds the whole set, where none of its kids does.
fn top_of(alloc: Global, label: Label, founds: Founds) -> Result<Top, Memory>
    ensures { IfOk result (λ r. (q p : ℕ → Bool) (ks : List Node) → Opposite q p → AllZip (IsGiven q p) ks founds
        → 2 ≤ length (filter (is_met q) ks) → IsTop q p (node_of label ks) r) }
{
    if are_in(founds.items()) {
        let back = reversed(alloc, founds)?;
        let kids = row_of(alloc, back)?;
        return Ok(Top::Whole(label.node(kids)));
    }
    Ok(Top::Met { label, founds })
}

/// What an inner node is, from its kids. Linear in their number.
pub fn close_row(alloc: Global, label: Label, row: Row, total: usize) -> Result<Step, Memory>
    ensures { IfOk result (λ s. (q p : ℕ → Bool) (ks : List Node) → Opposite q p → IsGathered q p total ks row
        → 2 ≤ length ks → 0 < total → count_all p ks ≤ total → IsStep q p total (node_of label ks) s) }
{
    match row {
        Row::Open { founds, count } => {
            if count < total {
                let found = close(alloc, label, founds)?;
                return Ok(Step::Open { found, count });
            }
            let top = top_of(alloc, label, founds)?;
            Ok(Step::Root(Place {
                frames: Items::new(alloc),
                top,
            }))
        }
        Row::Root {
            before,
            place,
            after,
        } => {
            let outer = framed(alloc, label, before, place, after)?;
            Ok(Step::Root(outer))
        }
    }
}

/// What a leaf is.
pub fn leaf_step(alloc: Global, x: usize, set: &[usize], total: usize) -> Step
    ensures { IsStrictlyIncreasing set.now → 0 < total → IsStep (outside set.now) (inside set.now) total (Leaf x) result }
{
    if !is_in_set(set, x) {
        return Step::Open {
            found: Found::Out(Node::Leaf(x)),
            count: 0,
        };
    }
    if total > 1 {
        return Step::Open {
            found: Found::In(Node::Leaf(x)),
            count: 1,
        };
    }
    let frames = Items::new(alloc);
    Step::Root(Place {
        frames,
        top: Top::Whole(Node::Leaf(x)),
    })
}
