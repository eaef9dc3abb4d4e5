// What decides clustered planarity.
ghost use Rattle.std.specs.Prelude.{IfOk, MatchOption};
ghost use Rattle.cp_border.specs.Good.{IsGood, IsCPlanar};

use cp_base::Memory;
use cp_cgraph::{CGraph, Layout};
use std::alloc::Global;

/// What decides whether a clustered graph has a c-planar drawing (Feng, Cohen and Eades 1995).
pub trait Decide {
    /// A good layout of the graph, or `None` where the graph has none. `Memory` where an allocation
    /// failed.
    fn decide(&mut self, alloc: Global, g: &CGraph) -> Result<Option<Layout>, Memory>
        ensures { IfOk result (λ o. MatchOption o (¬ IsCPlanar g.now) (λ l. IsGood g.now l)) };
}
