// Walks outward through nested clusters.
ghost use Rattle.std.specs.Prelude.{◌≡◌, ◌<◌, ◌≤◌, ◌^◌, ◌++◌, IfOk, length, reverse};
ghost use Rattle.cp_cgraph.specs.Clustered.{IsClustered, clusters, edges};
ghost use Rattle.cp_cgraph.specs.Crossings.{crossings};

use crate::stored::Stored;
use cp_base::Memory;
use std::alloc::Global;

// The clusters that edge `e` leaves, those that contain its source and those that contain its
// target, both from the innermost outward. Of the two clusters that are reached, the one of the
// higher number is no cluster round the other, so it is left next.
pub(crate) fn sides(g: &Stored, alloc: Global, e: usize) -> Result<(Vec<usize>, Vec<usize>), Memory>
    requires clustered { IsClustered g.now }
    requires edge { e < edges g.now }
    ensures { IfOk result (λ lists. lists.0.items ++ reverse lists.1.items ≡ crossings g.now e) }
{
    let (source, target) = g.ends(e);
    let mut left = Vec::new(alloc);
    let mut entered = Vec::new(alloc);
    let mut outer = g.home(source);
    let mut inner = g.home(target);
    while outer != inner {
        if outer > inner {
            left.push(outer)?;
            outer = g.parent(outer);
        } else {
            entered.push(inner)?;
            inner = g.parent(inner);
        }
    }
    Ok((left, entered))
}

// The first list, and behind it the second one from its end.
pub(crate) fn with_reversed(first: Vec<usize>, second: Vec<usize>) -> Result<Vec<usize>, Memory>
    ensures { IfOk result (λ list. list.items ≡ first.items ++ reverse second.items) }
{
    let mut list = first;
    let mut rest = second;
    while let Some(item) = rest.pop() {
        list.push(item)?;
    }
    Ok(list)
}

// The number of clusters that edge `e` leaves.
pub(crate) fn crossing_count(g: &Stored, e: usize) -> usize
    requires clustered { IsClustered g.now }
    requires few_clusters { clusters g.now ≤ 2 ^ 60 }
    requires edge { e < edges g.now }
    ensures value { result ≡ length (crossings g.now e) }
    ensures bound { result < 2 ^ 61 }
{
    let (source, target) = g.ends(e);
    let mut left = 0;
    let mut entered = 0;
    let mut outer = g.home(source);
    let mut inner = g.home(target);
    while outer != inner {
        if outer > inner {
            left += 1;
            outer = g.parent(outer);
        } else {
            entered += 1;
            inner = g.parent(inner);
        }
    }
    left + entered
}
