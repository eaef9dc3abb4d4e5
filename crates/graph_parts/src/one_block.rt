// Whether a graph is one block.
ghost use Rattle.std.specs.Prelude.{◌≡◌, ◌↔◌, ◌<◌, ℕ, true, false, EachIndex, IfOk, IsTrue, length, slice_index, slice_index_or};
ghost use Rattle.cp_base.specs.Graphs.{AreWithin};
ghost use Rattle.cp_conn.specs.Blocks.{HaveNoLoop};
ghost use Rattle.cp_ears.specs.Bipolar.{HaveEdges, IsOneBlock};
ghost use Rattle.graph_parts.specs.Fitting.{AreTouched, IsBlock};

use cp_base::{Graph, Memory};
use cp_conn::blocks;
use std::alloc::Global;

/// Whether no edge is a loop.
pub fn have_no_loop(ends: &[(usize, usize)]) -> bool
    ensures { IsTrue result ↔ HaveNoLoop ends.now }
{
    ends.iter().all(|pair| pair.0 != pair.1)
}

// Whether all numbers are 0.
fn are_zero(numbers: &[usize]) -> bool
    ensures { IsTrue result ↔ EachIndex numbers.now (λ k. slice_index numbers.now k ≡ 0) }
{
    numbers.iter().all(|number| *number == 0)
}

// Which of the vertices the edges touch. Linear.
fn touched(alloc: Global, vertices: usize, ends: &[(usize, usize)]) -> Result<Vec<bool>, Memory>
    requires { AreWithin vertices ends.now }
    ensures { IfOk result (λ found. AreTouched vertices ends.now (length ends.now) found.items) }
{
    let mut found = vec![in alloc; false; vertices]?;
    for edge in 0..ends.len() {
        let (first, second) = ends[edge];
        found[first] = true;
        found[second] = true;
    }
    Ok(found)
}

// Whether all are true.
fn are_all(found: &[bool]) -> bool
    ensures { IsTrue result ↔ ((v : ℕ) → v < length found.now → slice_index_or found.now v false ≡ true) }
{
    found.iter().all(|one| *one)
}

// Whether each vertex is an end of some edge. Linear.
fn have_edges(alloc: Global, g: &Graph) -> Result<bool, Memory>
    ensures { IfOk result (λ each. IsTrue each ↔ HaveEdges g.now.vertices g.now.ends) }
{
    let found = touched(alloc, g.vertices(), g.ends())?;
    Ok(are_all(found.as_slice()))
}

// Whether all edges are in one block. Linear.
fn is_one_block(alloc: Global, g: &Graph) -> Result<bool, Memory>
    requires { HaveNoLoop g.now.ends }
    ensures { IfOk result (λ one. IsTrue one ↔ IsOneBlock g.now.ends) }
{
    let numbers = blocks(alloc, g)?;
    Ok(are_zero(numbers.as_slice()))
}

/// Whether the graph is one block without loops, with an edge at each vertex. Linear.
pub fn is_block(alloc: Global, g: &Graph) -> Result<bool, Memory>
    ensures { IfOk result (λ one. IsTrue one ↔ IsBlock g.now) }
{
    let ends = g.ends();
    if ends.is_empty() || !have_no_loop(ends) || !is_one_block(alloc, g)? {
        return Ok(false);
    }
    have_edges(alloc, g)
}
