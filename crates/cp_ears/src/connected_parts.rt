// What the parts of a bipolar order induce.
ghost use Rattle.std.specs.Prelude.{ℕ, take, drop};
ghost use Rattle.cp_ears.specs.Bipolar.{AreAdjacent, IsBipolar};
ghost use Rattle.cp_ears.specs.Induced.{InduceConnected};

use cp_base::Graph;

/// A law, which does nothing when it runs: the vertices of each beginning of a bipolar order, and
/// those of each of its ends, induce a connected graph.
pub fn prefixes_are_connected(g: &Graph, s: usize, t: usize, order: &[usize])
    requires joined { AreAdjacent g.now.ends s t }
    requires bipolar { IsBipolar g.now s t order.now }
    ensures prefixes { (count : ℕ) → InduceConnected g.now.ends (take count order.now) }
    ensures suffixes { (count : ℕ) → InduceConnected g.now.ends (drop count order.now) }
{}
