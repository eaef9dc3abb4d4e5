// Lists for each cluster or node.
ghost use Rattle.std.specs.Prelude.{◌≡◌, ◌<◌, [], ◌∷◌, ◌++◌, IfOk, OnOk, length, map, slice_index, slice_index_or, slice_set};
ghost use Rattle.std.specs.List.{filter};
ghost use Rattle.cp_cgraph.specs.Clustered.{IsClustered, clusters, home, nodes, parent};
ghost use Rattle.cp_skel.specs.Skeletons.{below, is_left};
ghost use Rattle.cp_skel.specs.SkeletonTables.{AreEmpty, AreGathered, left_clusters};

use cp_base::{Items, Memory};
use cp_board::Names;
use cp_cgraph::CGraph;
use std::alloc::Global;

// As many empty lists. Linear.
pub(crate) fn empty_lists<T: Drop>(alloc: Global, n: usize) -> Result<Vec<Items<T>>, Memory>
    ensures { IfOk result (λ lists. AreEmpty n lists.items) }
{
    let mut lists = Vec::new(alloc);
    'emptying: while lists.len() < n {
        lists.push(Items::new(alloc))?;
    }
    Ok(lists)
}

// Adds an item to the list at a place.
pub(crate) fn push_at<T: Drop>(lists: &mut Vec<Items<T>>, place: usize, x: T) -> Result<(), Memory>
    requires { place < length lists.old.items }
    ensures { OnOk result (lists.new.items ≡ slice_set lists.old.items place (slice_index_or lists.old.items place [] ++ x ∷ [])) }
{
    lists[place].push(x)?;
    Ok(())
}

// For each cluster the nodes whose home it is, rising. Linear.
pub(crate) fn nodes_by_home(alloc: Global, g: &CGraph) -> Result<Vec<Names>, Memory>
    ensures clustered { IsClustered g.now }
    ensures lists { IfOk result (λ lists. AreGathered (home g.now) (clusters g.now) (below (nodes g.now)) lists.items) }
{
    let count = g.nodes();
    let mut lists = empty_lists(alloc, g.clusters())?;
    for v in 0..count {
        push_at(&mut lists, g.home(v), v)?;
    }
    Ok(lists)
}

// For each cluster its children that some edge leaves, rising. Linear.
pub(crate) fn children_by_parent(
    alloc: Global,
    g: &CGraph,
    left: &[bool],
) -> Result<Vec<Names>, Memory>
    requires { left.now ≡ left_clusters g.now }
    ensures { IfOk result (λ lists. AreGathered (parent g.now) (clusters g.now) (filter (is_left g.now) (below (clusters g.now))) lists.items) }
{
    let mut lists = empty_lists(alloc, g.clusters())?;
    for c in 1..g.clusters() {
        if left[c] {
            push_at(&mut lists, g.parent(c), c)?;
        }
    }
    Ok(lists)
}
