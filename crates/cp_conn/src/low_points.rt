// The low points of the vertices of a search forest.
ghost use Rattle.std.specs.Prelude.{◌≡◌, ℕ, ◌*◌, ◌<◌, min, length, slice_index, slice_set, IfOk, OnOk};
ghost use Rattle.cp_base.specs.Graphs.{AreWithin};
ghost use Rattle.cp_conn.specs.Deepening.{IsGrown};
ghost use Rattle.cp_conn.specs.SearchForest.{forest_of, IsSearchForest};
ghost use Rattle.cp_conn.specs.LowPoints.{AreLowPoints, AreReached, AreLow};

use crate::darts::{finish_of, start_of};
use crate::search_forest::SearchForest;
use cp_base::Memory;
use std::alloc::Global;

// Lowers the value at a place to another one, where that is lower.
fn lower_to(low: &mut Vec<usize>, place: usize, value: usize)
    requires { place < length low.old.items }
    ensures { low.new.items ≡ slice_set low.old.items place (min (slice_index low.old.items place) value) }
{
    low[place] = low[place].min(value);
}

// The least number that an edge leads to from each vertex, or the number of vertices.
fn lowest_near(
    alloc: Global,
    vertices: usize,
    ends: &[(usize, usize)],
    forest: &SearchForest,
) -> Result<Vec<usize>, Memory>
    requires ends_within { AreWithin vertices ends.now }
    requires grown { IsGrown ends.now vertices (forest_of forest.now) }
    requires all_met { (v : ℕ) → v < vertices → slice_index forest.now.number.items v < vertices }
    ensures reached { IfOk result (λ low. AreReached ends.now vertices (forest_of forest.now) low.items) }
    ensures low { IfOk result (λ low. AreLow ends.now (forest_of forest.now) low.items (2 * length ends.now)) }
{
    let mut low = vec![in alloc; vertices; vertices]?;
    for dart in 0..2 * ends.len() {
        let from = start_of(ends, dart);
        let to = finish_of(ends, dart);
        lower_to(&mut low, from, forest.number[to]);
    }
    Ok(low)
}

// The least number that an edge leads to from each vertex or from a vertex below it, or the number of
// vertices where there is none. Linear in the numbers of vertices and edges.
pub(crate) fn low_points(
    alloc: Global,
    vertices: usize,
    ends: &[(usize, usize)],
    forest: &SearchForest,
) -> Result<Vec<usize>, Memory>
    requires ends_within { AreWithin vertices ends.now }
    requires grown { IsGrown ends.now vertices (forest_of forest.now) }
    requires all_met { (v : ℕ) → v < vertices → slice_index forest.now.number.items v < vertices }
    requires forest { IsSearchForest ends.now vertices (forest_of forest.now) }
    ensures { IfOk result (λ low. AreLowPoints ends.now vertices (forest_of forest.now) low.items) }
{
    let mut low = lowest_near(alloc, vertices, ends, forest)?;
    let mut left = forest.order.len();
    while left > 0 {
        left -= 1;
        let vertex = forest.order[left];
        let value = low[vertex];
        lower_to(&mut low, forest.parent[vertex], value);
    }
    Ok(low)
}
