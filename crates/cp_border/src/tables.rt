// The tables by which the border graph is looked up.
ghost use Rattle.std.specs.Prelude.{◌≡◌, ◌+◌, ◌*◌, ◌^◌, ◌<◌, ◌≤◌, IfOk, IfSome, length};
ghost use Rattle.cp_cgraph.specs.Clustered.{nodes, edges};
ghost use Rattle.cp_border.specs.Borders.{sum_below, crossed};
ghost use Rattle.cp_border.specs.Good.{IsArranged};
ghost use Rattle.cp_border.specs.Tables.{HasPlacesFor, HoldsTable};
ghost use Rattle.cp_border.specs.Views.{IsTold};

use crate::arranged::Arranged;
use cp_base::Memory;
use cp_cgraph::{CGraph, Layout};
use std::alloc::Global;
use std::marker::Model;

// No memory holds the tables of a border graph of as many vertices or edges, and below it no sum of
// sizes overflows.
const MOST: usize = 1 << 59;

// The number of border vertices, unless the border graph is too great.
fn border_count(g: &CGraph) -> Option<usize>
    ensures { IfSome result (λ n. (n ≡ sum_below (crossed g.now) (edges g.now)) × (nodes g.now + n < 2 ^ 59) × (edges g.now + 2 * n < 2 ^ 59)) }
{
    let mut count = 0;
    for e in 0..g.edges() {
        let crossed = g.crossed(e);
        if crossed >= MOST - count {
            return None;
        }
        count += crossed;
    }
    if g.nodes() + count < MOST && g.edges() + 2 * count < MOST {
        Some(count)
    } else {
        None
    }
}

/// The tables by which the border graph of an arranged layout is looked up: for each edge the number
/// of border vertices before it, for each dart its vertex and the dart behind it, and for each
/// border vertex the first dart of its list. They serve each graph with the same numbers of nodes,
/// edges and border vertices; what stands in them is written by `write_tables`.
#[derive(Drop)]
pub struct BorderTables {
    pub(crate) first: Vec<usize>,
    pub(crate) at: Vec<usize>,
    pub(crate) next: Vec<usize>,
    pub(crate) begins: Vec<usize>,
}

impl Model for BorderTables {
    ghost use Rattle.cp_border.specs.Tables.{Tables};

    ghost Value = { Tables };

    ghost view = { λ t. record { first = t.first.items; at = t.at.items; following = t.next.items; begins = t.begins.items } };
}

impl BorderTables {
    /// The tables for layouts of the graph, not written yet. `Memory` where an allocation fails, or
    /// where the border graph has more vertices or edges than any memory holds. Linear in the
    /// numbers of edges and border vertices.
    pub fn for_graph(alloc: Global, g: &CGraph) -> Result<BorderTables, Memory>
        ensures { IfOk result (λ tables. HasPlacesFor g.now tables) }
    {
        match border_count(g) {
            None => Err(Memory),
            Some(borders) => {
                let darts = 2 * (g.edges() + 2 * borders);
                let first = vec![in alloc; 0; g.edges() + 1]?;
                let at = vec![in alloc; 0; darts]?;
                let next = vec![in alloc; 0; darts]?;
                let begins = vec![in alloc; 0; borders]?;
                Ok(BorderTables {
                    first,
                    at,
                    next,
                    begins,
                })
            }
        }
    }

    /// The number of border vertices for which there are places.
    pub fn borders(&self) -> usize
        ensures { result ≡ length self.now.begins }
    {
        self.begins.len()
    }
}

// Writes for each edge the number of border vertices of the edges before it, and last that of all.
fn write_first(g: &CGraph, first: &mut [usize])
    requires room { edges g.now + 1 ≤ length first.old }
    requires size { sum_below (crossed g.now) (edges g.now) < 2 ^ 60 }
    ensures { HoldsTable (edges g.now + 1) first.new (sum_below (crossed g.now)) }
{
    first[0] = 0;
    for e in 0..g.edges() {
        first[e + 1] = first[e] + g.crossed(e);
    }
}

// Writes the tables into four slices.
fn write_slices(
    g: &CGraph,
    lay: &Layout,
    first: &mut [usize],
    at: &mut [usize],
    next: &mut [usize],
    begins: &mut [usize],
)
    requires arranged { IsArranged g.now lay.now }
    requires places { HasPlacesFor g.now record { first = first.old; at = at.old; following = next.old; begins = begins.old } }
    ensures { IsTold g.now lay.now record { first = first.new; at = at.new; following = next.new; begins = begins.new } }
{
    g.is_clustered();
    write_first(g, first);
    let arranged = Arranged {
        graph: g,
        layout: lay,
        first,
    };
    arranged.write_at(at);
    arranged.write_turns(next, begins);
}

/// Writes the tables by which the border graph of an arranged layout is looked up. Takes no memory.
/// Linear in the numbers of nodes, clusters, edges, items and crossings.
pub fn write_tables(g: &CGraph, lay: &Layout, tables: &mut BorderTables)
    requires arranged { IsArranged g.now lay.now }
    requires places { HasPlacesFor g.now tables.old }
    ensures { IsTold g.now lay.now tables.new }
{
    write_slices(
        g,
        lay,
        &mut tables.first,
        &mut tables.at,
        &mut tables.next,
        &mut tables.begins,
    );
}
