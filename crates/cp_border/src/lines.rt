// Which line of a layout is the first wrong one.
ghost use Rattle.std.specs.Prelude.{◌≡◌, ℕ, ◌+◌, ◌*◌, ◌<◌, ◌≤◌, ◌↔◌, ◌==◌, false, IsTrue, IfOk, MatchOption, length, slice_index, slice_index_or};
ghost use Rattle.cp_lists.specs.Count.{count};
ghost use Rattle.cp_cgraph.specs.Clustered.{nodes, edges, clusters, node_of};
ghost use Rattle.cp_cgraph.specs.Crossings.{leaves};
ghost use Rattle.cp_border.specs.Good.{IsRightNode, IsFirstWrongNode, IsRightCluster};
ghost use Rattle.cp_border.specs.Lines.{HasNodeList, HasBorderList, IsFirstWrongBorder};

use crate::exact::holds_exactly;
use crate::wanted::{LeavingEdges, NodeDarts, node_at};
use cp_base::Memory;
use cp_cgraph::{CGraph, Layout};
use std::alloc::Global;

// Writes for each node the number of darts that stand there, over places that hold 0.
fn count_darts(g: &CGraph, counts: &mut [usize])
    requires room { nodes g.now ≤ length counts.old }
    requires clear { (v : ℕ) → v < nodes g.now → slice_index counts.old v ≡ 0 }
    ensures { (v : ℕ) → v < nodes g.now → slice_index counts.new v ≡ count (2 * edges g.now) (λ d. node_of g.now d == v) }
{
    for d in 0..2 * g.edges() {
        counts[node_at(g, d)] += 1;
    }
}

// Whether node `v` has a list, of exactly the darts that stand there.
fn has_node_list(g: &CGraph, lay: &Layout, v: usize, degree: usize, seen: &mut [bool]) -> bool
    requires degree { degree ≡ count (2 * edges g.now) (λ d. node_of g.now d == v) }
    requires room { 2 * edges g.now ≤ length seen.old }
    requires unseen { (d : ℕ) → slice_index_or seen.old d false ≡ false }
    ensures right { IsTrue result ↔ HasNodeList g.now lay.now v }
    ensures seen { (d : ℕ) → slice_index_or seen.new d false ≡ false }
{
    let lists = lay.nodes.items();
    v < lists.len() && holds_exactly(&NodeDarts { g, v }, degree, lists[v].items(), seen)
}

// The first node of the graph whose list is wrong or missing.
fn first_wrong_list(g: &CGraph, lay: &Layout, counts: &[usize], seen: &mut [bool]) -> Option<usize>
    requires size { nodes g.now ≤ length counts.now }
    requires counts { (v : ℕ) → v < nodes g.now → slice_index counts.now v ≡ count (2 * edges g.now) (λ d. node_of g.now d == v) }
    requires room { 2 * edges g.now ≤ length seen.old }
    requires unseen { (d : ℕ) → slice_index_or seen.old d false ≡ false }
    ensures { MatchOption result ((i : ℕ) → i < nodes g.now → HasNodeList g.now lay.now i) (λ v. (v < nodes g.now) × ¬ HasNodeList g.now lay.now v × ((i : ℕ) → i < v → HasNodeList g.now lay.now i)) }
{
    for v in 0..g.nodes() {
        if !has_node_list(g, lay, v, counts[v], seen) {
            return Some(v);
        }
    }
    None
}

/// The number of the first node whose list is missing, or is no arrangement of the darts that stand
/// at the node, or of the first list that has no node. `None` where each node has its list and each
/// list its node. Takes no memory: `counts` has at least as many places as there are nodes, `seen`
/// as there are darts; what stands in them before and after is open. Linear in the numbers of
/// places, edges and items.
pub fn first_wrong_node_in(
    g: &CGraph,
    lay: &Layout,
    counts: &mut [usize],
    seen: &mut [bool],
) -> Option<usize>
    requires counts { nodes g.now ≤ length counts.old }
    requires seen { 2 * edges g.now ≤ length seen.old }
    ensures { MatchOption result ((i : ℕ) → IsRightNode g.now lay.now i) (λ i. IsFirstWrongNode g.now lay.now i) }
{
    clear_counts(counts);
    clear_marks(seen);
    count_darts(g, counts);
    if let Some(v) = first_wrong_list(g, lay, counts, seen) {
        return Some(v);
    }
    if g.nodes() < lay.nodes.items().len() {
        Some(g.nodes())
    } else {
        None
    }
}

/// The same as `first_wrong_node_in`, with places of its own.
pub fn first_wrong_node(alloc: Global, g: &CGraph, lay: &Layout) -> Result<Option<usize>, Memory>
    ensures { IfOk result (λ o. MatchOption o ((i : ℕ) → IsRightNode g.now lay.now i) (λ i. IsFirstWrongNode g.now lay.now i)) }
{
    let mut counts = vec![in alloc; 0; g.nodes()]?;
    let mut seen = vec![in alloc; false; 2 * g.edges()]?;
    Ok(first_wrong_node_in(g, lay, &mut counts, &mut seen))
}

// Counts edge `e` at each cluster that it leaves. Of the two clusters that are reached outward from
// its ends, the one of the higher number is no cluster round the other, so it is left next.
fn count_edge(g: &CGraph, e: usize, counts: &mut [usize])
    requires edge { e < edges g.now }
    requires room { clusters g.now ≤ length counts.old }
    requires counted { (c : ℕ) → c < clusters g.now → slice_index counts.old c ≡ count e (leaves g.now c) }
    ensures { (c : ℕ) → c < clusters g.now → slice_index counts.new c ≡ count (e + 1) (leaves g.now c) }
{
    g.is_clustered();
    let (source, target) = g.ends(e);
    let mut outer = g.home(source);
    let mut inner = g.home(target);
    while outer != inner {
        if outer > inner {
            counts[outer] += 1;
            outer = g.parent(outer);
        } else {
            counts[inner] += 1;
            inner = g.parent(inner);
        }
    }
}

// Writes for each cluster the number of edges that leave it, over places that hold 0.
fn count_leaving(g: &CGraph, counts: &mut [usize])
    requires room { clusters g.now ≤ length counts.old }
    requires clear { (c : ℕ) → c < clusters g.now → slice_index counts.old c ≡ 0 }
    ensures { (c : ℕ) → c < clusters g.now → slice_index counts.new c ≡ count (edges g.now) (leaves g.now c) }
{
    for e in 0..g.edges() {
        count_edge(g, e, counts);
    }
}

// Whether cluster `c` has a list, of exactly the edges that leave it.
fn has_border_list(g: &CGraph, lay: &Layout, c: usize, left: usize, seen: &mut [bool]) -> bool
    requires inner { 0 < c }
    requires cluster { c < clusters g.now }
    requires left { left ≡ count (edges g.now) (leaves g.now c) }
    requires room { edges g.now ≤ length seen.old }
    requires unseen { (e : ℕ) → slice_index_or seen.old e false ≡ false }
    ensures right { IsTrue result ↔ HasBorderList g.now lay.now c }
    ensures seen { (e : ℕ) → slice_index_or seen.new e false ≡ false }
{
    let lists = lay.clusters.items();
    c - 1 < lists.len() && holds_exactly(&LeavingEdges { g, c }, left, lists[c - 1].items(), seen)
}

// The first cluster of the graph whose list is wrong or missing.
fn first_wrong_border(
    g: &CGraph,
    lay: &Layout,
    counts: &[usize],
    seen: &mut [bool],
) -> Option<usize>
    requires size { clusters g.now ≤ length counts.now }
    requires counts { (c : ℕ) → c < clusters g.now → slice_index counts.now c ≡ count (edges g.now) (leaves g.now c) }
    requires room { edges g.now ≤ length seen.old }
    requires unseen { (e : ℕ) → slice_index_or seen.old e false ≡ false }
    ensures { MatchOption result ((k : ℕ) → 0 < k → k < clusters g.now → HasBorderList g.now lay.now k) (λ c. (0 < c) × (c < clusters g.now) × ¬ HasBorderList g.now lay.now c × ((k : ℕ) → 0 < k → k < c → HasBorderList g.now lay.now k)) }
{
    for c in 1..g.clusters() {
        if !has_border_list(g, lay, c, counts[c], seen) {
            return Some(c);
        }
    }
    None
}

// Takes all marks away.
fn clear_marks(marks: &mut [bool])
    ensures { (x : ℕ) → slice_index_or marks.new x false ≡ false }
{
    for x in 0..marks.len() {
        marks[x] = false;
    }
}

// Sets all counts to 0.
fn clear_counts(counts: &mut [usize])
    ensures { (x : ℕ) → slice_index counts.new x ≡ 0 }
{
    for x in 0..counts.len() {
        counts[x] = 0;
    }
}

/// The number of the first cluster whose list is missing, or does not hold exactly the edges that
/// leave the cluster, each once, or of the first list that has no cluster. Clusters are counted from
/// 1 on, since the root has no list. `None` where each cluster has its list and each list its
/// cluster. Takes no memory: `counts` has at least as many places as there are clusters, `seen` as
/// there are edges; what stands in them before and after is open. Linear in the numbers of places,
/// items and crossings.
pub fn first_wrong_cluster_in(
    g: &CGraph,
    lay: &Layout,
    counts: &mut [usize],
    seen: &mut [bool],
) -> Option<usize>
    requires counts { clusters g.now ≤ length counts.old }
    requires seen { edges g.now ≤ length seen.old }
    ensures { MatchOption result ((k : ℕ) → IsRightCluster g.now lay.now k) (λ k. IsFirstWrongBorder g.now lay.now k) }
{
    clear_counts(counts);
    clear_marks(seen);
    count_leaving(g, counts);
    if let Some(c) = first_wrong_border(g, lay, counts, seen) {
        return Some(c);
    }
    if g.clusters() - 1 < lay.clusters.items().len() {
        Some(g.clusters())
    } else {
        None
    }
}

/// The same as `first_wrong_cluster_in`, with places of its own.
pub fn first_wrong_cluster(alloc: Global, g: &CGraph, lay: &Layout) -> Result<Option<usize>, Memory>
    ensures { IfOk result (λ o. MatchOption o ((k : ℕ) → IsRightCluster g.now lay.now k) (λ k. IsFirstWrongBorder g.now lay.now k)) }
{
    let mut counts = vec![in alloc; 0; g.clusters()]?;
    let mut seen = vec![in alloc; false; g.edges()]?;
    Ok(first_wrong_cluster_in(g, lay, &mut counts, &mut seen))
}
