// The numbers that are asked for.
ghost use Rattle.std.specs.Prelude.{IfOk, MatchOption};
ghost use Rattle.graph_parts.specs.Fitting.{AreAsked, IsFittingRequest};
ghost use Rattle.graph_parts.specs.declared.ask.Asked.TheVariants as asks;

use crate::ask::Asked;
use crate::one_block::{have_no_loop, is_block};
use cp_base::{Graph, Memory};
use cp_conn::{blocks, components};
use cp_ears::bipolar;
use std::alloc::Global;

// The number of the block of each edge, where there is no loop.
fn block_numbers(alloc: Global, g: &Graph) -> Result<Option<Vec<usize>>, Memory>
    ensures { IfOk result (λ found. MatchOption found (¬ IsFittingRequest asks.Blocks g.now) (λ numbers. IsFittingRequest asks.Blocks g.now × AreAsked asks.Blocks g.now numbers.items)) }
{
    if !have_no_loop(g.ends()) {
        return Ok(None);
    }
    let numbers = blocks(alloc, g)?;
    Ok(Some(numbers))
}

// A bipolar order between the ends of edge 0, where the graph is one block.
fn order(alloc: Global, g: &Graph) -> Result<Option<Vec<usize>>, Memory>
    ensures { IfOk result (λ found. MatchOption found (¬ IsFittingRequest asks.Bipolar g.now) (λ numbers. IsFittingRequest asks.Bipolar g.now × AreAsked asks.Bipolar g.now numbers.items)) }
{
    if !is_block(alloc, g)? {
        return Ok(None);
    }
    let (s, t) = g.ends()[0];
    let numbers = bipolar(alloc, g, s, t)?;
    Ok(Some(numbers))
}

/// The numbers that are asked for, where the graph has them. Linear in the numbers of vertices and edges.
pub fn numbers_of(alloc: Global, asked: Asked, g: &Graph) -> Result<Option<Vec<usize>>, Memory>
    ensures { IfOk result (λ found. MatchOption found (¬ IsFittingRequest asked g.now) (λ numbers. IsFittingRequest asked g.now × AreAsked asked g.now numbers.items)) }
{
    match asked {
        Asked::Edges => Ok(Some(vec![in alloc; g.vertices(), g.ends().len()]?)),
        Asked::Components => Ok(Some(components(alloc, g)?)),
        Asked::Blocks => block_numbers(alloc, g),
        Asked::Bipolar => order(alloc, g),
    }
}
