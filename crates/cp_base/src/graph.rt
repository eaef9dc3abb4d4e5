// Plain graphs.
ghost use Rattle.std.specs.Prelude.{◌≡◌, ◌<◌, IfOk};
ghost use Rattle.cp_base.specs.Graphs.{AreWithin};

use crate::Memory;
use std::alloc::Global;
use std::marker::Model;

/// A graph: a number of vertices, and the two ends of each edge. Loops and parallel edges are
/// allowed. Vertices and edges are numbered from 0.
#[derive(Debug, Drop)]
pub struct Graph {
    vertices: usize,
    ends: Vec<(usize, usize)>,
}

impl Model for Graph {
    ghost use Rattle.cp_base.specs.Graphs.{PlainGraph, AreWithin};

    ghost Value = { PlainGraph };

    ghost view = { λ g. record { vertices = g.vertices; ends = g.ends.items } };

    ghost invariant = { λ g. AreWithin g.vertices g.ends.items };
}

impl Graph {
    /// The graph with these edges. Linear in their number.
    pub fn from_ends(
        alloc: Global,
        vertices: usize,
        ends: &[(usize, usize)],
    ) -> Result<Graph, Memory>
        requires { AreWithin vertices ends.now }
        ensures { IfOk result (λ g. g ≡ record { vertices = vertices; ends = ends.now }) }
    {
        let ends = Vec::from_slice(alloc, ends)?;
        Ok(Graph { vertices, ends })
    }

    /// The number of vertices.
    pub fn vertices(&self) -> usize
        ensures value { result ≡ self.now.vertices }
        ensures within { AreWithin self.now.vertices self.now.ends }
    {
        let _ = &self.ends;
        self.vertices
    }

    /// The two ends of each edge.
    pub fn ends(&self) -> &[(usize, usize)]
        ensures value { result.now ≡ self.now.ends }
        ensures within { AreWithin self.now.vertices self.now.ends }
    {
        self.ends.as_slice()
    }
}
