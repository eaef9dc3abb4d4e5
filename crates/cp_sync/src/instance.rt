// A stored instance.
ghost use Rattle.std.specs.Prelude.{◌≡◌, ℕ, ◌<◌, length, IfOk, IfErr};
ghost use Rattle.cp_board.specs.Instances.{IsSynchronized};
ghost use Rattle.cp_board.specs.Rewrites.{names_of as live_names_of, rewritten, IsRewriteOf};
ghost use Rattle.cp_sync.specs.Faults.{IsFaultOf, with_parts};
ghost use Rattle.cp_sync.specs.Tables.{IsGreatestPlace};

use crate::checked::tables;
use crate::copies::{append_copies, copied_list};
use crate::free::{cells_of, least_free, names_of};
use crate::named::{item_named, lower_place};
use crate::piping::piping;
use crate::rewriting::{edges_after, pipes_after, verts_after};
use crate::tables::adjacency;
use crate::{Board, PartsFault};
use cp_base::{CycList, Memory};
use cp_board::{EdgeRow, EdgeRows, Kind, NameKind, Names, Pipe, Pipes, Rewrite, Vert, Verts};
use std::alloc::Global;
use std::marker::Model;

/// An instance, seen as its lists of vertices, edges and pipes, rising by name.
#[derive(Debug, Drop)]
pub struct Instance {
    verts: Verts,
    edges: EdgeRows,
    pipes: Pipes,
    // The edges of each vertex, by its place.
    at: Vec<Names>,
    // The pipe of each vertex, by its place.
    piped: Vec<Option<usize>>,
}

impl Model for Instance {
    ghost use Rattle.cp_board.specs.Instances.{Synchronized, IsSynchronized};
    ghost use Rattle.cp_sync.specs.Tables.{AreAdjacent, ArePiped};

    ghost Value = { Synchronized };

    ghost view = { λ i. record { verts = i.verts; edges = i.edges; pipes = i.pipes } };

    ghost invariant = { λ i. IsSynchronized record { verts = i.verts; edges = i.edges; pipes = i.pipes } × AreAdjacent i.verts i.edges i.at.items × ArePiped i.verts i.pipes i.piped.items };
}

// The first place of a pipe of greatest degree. Linear in the number of pipes.
fn greatest(pipes: &[Pipe]) -> usize
    requires { 0 < length pipes.now }
    ensures { IsGreatestPlace pipes.now (length pipes.now) result }
{
    let mut best = 0;
    for k in 1..pipes.len() {
        if pipes[k].pairs.len() > pipes[best].pairs.len() {
            best = k;
        }
    }
    best
}

/// An equal instance, in memory of its own. Linear in the parts of the instance.
pub fn first_instance_copy(alloc: Global, i: &Instance) -> Result<Instance, Memory>
    ensures { IfOk result (λ copy. copy ≡ i.now) }
{
    let verts = copied_list(alloc, i.verts.items())?;
    let edges = copied_list(alloc, i.edges.items())?;
    let pipes = copied_list(alloc, i.pipes.items())?;
    let mut at = Vec::new(alloc);
    append_copies(alloc, i.at.as_slice(), &mut at)?;
    let piped = Vec::from_slice(alloc, i.piped.as_slice())?;
    Ok(Instance {
        verts,
        edges,
        pipes,
        at,
        piped,
    })
}

impl Instance {
    /// The instance of these parts. Linear in them, up to a logarithm. Broken comes exactly where one of the five rules
    /// is broken, want of memory aside; the parts are dropped then.
    pub fn from_parts(
        alloc: Global,
        verts: Verts,
        edges: EdgeRows,
        pipes: Pipes,
    ) -> Result<Instance, PartsFault>
        ensures parts { IfOk result (λ i. i ≡ with_parts verts edges pipes) }
        ensures rules { IfOk result IsSynchronized }
        ensures fault { IfErr result (IsFaultOf (with_parts verts edges pipes)) }
    {
        let (at, piped) = tables(alloc, verts.items(), edges.items(), pipes.items())?;
        Ok(Instance {
            verts,
            edges,
            pipes,
            at,
            piped,
        })
    }

    /// The vertices, rising by name. Constant time.
    pub fn vert_rows(&self) -> &[Vert]
        ensures { result.now ≡ self.now.verts }
    {
        self.verts.items()
    }

    /// The edges, rising by name. Constant time.
    pub fn edge_rows(&self) -> &[EdgeRow]
        ensures { result.now ≡ self.now.edges }
    {
        self.edges.items()
    }

    /// The pipes, rising by name. Constant time.
    pub fn pipe_rows(&self) -> &[Pipe]
        ensures { result.now ≡ self.now.pipes }
    {
        self.pipes.items()
    }

    // The instance of parts that are known to keep the rules: nothing is tested. Linear, up to a logarithm.
    fn from_right_parts(
        alloc: Global,
        verts: Verts,
        edges: EdgeRows,
        pipes: Pipes,
    ) -> Result<Instance, Memory>
        requires { IsSynchronized (with_parts verts edges pipes) }
        ensures { IfOk result (λ i. i ≡ with_parts verts edges pipes) }
    {
        let at = adjacency(alloc, verts.items(), edges.items())?;
        let piped = piping(alloc, verts.items(), pipes.items())?;
        Ok(Instance {
            verts,
            edges,
            pipes,
            at,
            piped,
        })
    }

    // The live names of a kind. Linear in them, and for cells in the vertices.
    fn live_names(&self, alloc: Global, kind: NameKind) -> Result<Vec<usize>, Memory>
        ensures { IfOk result (λ names. names.items ≡ live_names_of self.now kind) }
    {
        match kind {
            NameKind::Vert => names_of(alloc, self.verts.items()),
            NameKind::Edge => names_of(alloc, self.edges.items()),
            NameKind::Pipe => names_of(alloc, self.pipes.items()),
            NameKind::Cell => cells_of(alloc, self.verts.items()),
        }
    }

    // The instance after a rewrite, in memory of its own. Linear in both, up to a logarithm.
    fn after_rewrite(&self, alloc: Global, w: &Rewrite) -> Result<Instance, Memory>
        requires { IsRewriteOf self.now w.now }
        ensures { IfOk result (λ after. after ≡ rewritten w.now self.now) }
    {
        let verts = verts_after(alloc, self.verts.items(), w)?;
        let edges = edges_after(alloc, self.edges.items(), w)?;
        let pipes = pipes_after(alloc, self.pipes.items(), w)?;
        Instance::from_right_parts(alloc, verts, edges, pipes)
    }
}

/// The calls at one vertex, edge or pipe take logarithmic time, beside the length of a list that they give.
/// `free_names` is linear in `n` and in the number of live names, and for cells in the number of vertices. `rewrite`
/// stores all lists anew, so it is linear in the instance and in the rewrite, up to a logarithm, and takes all memory
/// before the instance changes. All else is linear.
impl Board for Instance {
    ghost instance = { λ i. i };

    fn verts(&self, alloc: Global) -> Result<Vec<usize>, Memory> {
        let _ = &self.edges;
        names_of(alloc, self.verts.items())
    }

    fn edges(&self, alloc: Global) -> Result<Vec<usize>, Memory> {
        let _ = &self.verts;
        names_of(alloc, self.edges.items())
    }

    fn edges_at(&self, alloc: Global, v: usize) -> Result<Vec<usize>, Memory> {
        let at = &self.at[lower_place(self.verts.items(), v)];
        names_of(alloc, at.items())
    }

    fn is_q(&self, v: usize) -> bool {
        let _ = &self.edges;
        match item_named(self.verts.items(), v) {
            None => false,
            Some(x) => match &x.kind {
                Kind::P => false,
                Kind::Q { .. } => true,
            },
        }
    }

    fn cell(&self, v: usize) -> usize {
        match item_named(self.verts.items(), v) {
            None => 0,
            Some(x) => match &x.kind {
                Kind::P => 0,
                Kind::Q { cell, .. } => *cell,
            },
        }
    }

    fn psi(&self, v: usize) -> &CycList {
        match item_named(self.verts.items(), v) {
            None => unreachable!(),
            Some(x) => match &x.kind {
                Kind::P => unreachable!(),
                Kind::Q { psi, .. } => psi,
            },
        }
    }

    fn ends(&self, e: usize) -> (usize, usize) {
        match item_named(self.edges.items(), e) {
            None => (0, 0),
            Some(x) => (x.a, x.b),
        }
    }

    fn pipe_at(&self, v: usize) -> Option<usize> {
        self.piped[lower_place(self.verts.items(), v)]
    }

    fn pipe_ends(&self, p: usize) -> (usize, usize) {
        let _ = &self.verts;
        match item_named(self.pipes.items(), p) {
            None => (0, 0),
            Some(x) => (x.a, x.b),
        }
    }

    fn pairs(&self, p: usize) -> &[(usize, usize)] {
        match item_named(self.pipes.items(), p) {
            None => &[],
            Some(x) => x.pairs.items(),
        }
    }

    fn free_names(&self, alloc: Global, kind: NameKind, n: usize) -> Result<Vec<usize>, Memory> {
        let live = self.live_names(alloc, kind)?;
        least_free(alloc, live.as_slice(), n)
    }

    fn max_pipe(&self) -> Option<usize> {
        let _ = &self.verts;
        let pipes = self.pipes.items();
        if pipes.is_empty() {
            return None;
        }
        Some(pipes[greatest(pipes)].name)
    }

    fn rewrite(&mut self, alloc: Global, w: &Rewrite) -> Result<(), Memory> {
        *self = self.after_rewrite(alloc, w)?;
        Ok(())
    }

    fn follows_rules(&self) {
        let _ = &self.verts;
    }
}
