// A store.
ghost use Rattle.std.specs.Prelude.{◌≡◌, ◌+◌, ◌∷◌, [], length, true, false, ltb, IfOk, OnOk, OnErr};
ghost use Rattle.cp_board.specs.Instances.{IsSynchronized};
ghost use Rattle.cp_board.specs.Rewrites.{rewritten, IsRewriteOf};
ghost use Rattle.cp_board.specs.Runs.{slots};
ghost use Rattle.cp_store.specs.Histories.{present_of};

use crate::forest::Forest;
use crate::gaps::least_gaps;
use crate::greatest::best_pipe;
use crate::indexing::{roots_of, with_rewrite};
use crate::linking::{name_under, push_names};
use crate::links::{Link, Roots};
use crate::lists::table_of;
use crate::lookups::{cell_under, ends_under, has_list, pairs_under, pipe_ends_under, psi_under};
use crate::names::live_names;
use crate::parts::{
    Change, Parts, empty_for, make_change, reserve_change, undo_change, with_links,
};
use crate::plan::plan_of;
use crate::reading::{copied_table, slots_of};
use cp_base::{CycList, Memory};
use cp_board::{NameKind, Rewrite};
use cp_sync::{Board, Instance, PartsFault};
use std::alloc::Global;
use std::marker::Model;

/// A store: the instances of a run so far, of which the present one is stored, and for each rewrite what it changed.
/// Contracts see it as the list of these instances, the present one first.
#[derive(Debug, Drop)]
pub struct Store {
    parts: Parts,
    log: Vec<Change>,
    // Links from the ends of edges to the edges, and from degrees and ends of pipes to the pipes: those of the present
    // instance are the trees of `roots`.
    links: Forest<Link>,
    roots: Roots,
}

impl Model for Store {
    ghost use Rattle.std.specs.Prelude.{List, reverse};
    ghost use Rattle.cp_board.specs.Instances.{Synchronized};
    ghost use Rattle.cp_store.specs.Parts.{told, states, IsStore};
    ghost use Rattle.cp_store.specs.Indexes.{IsIndexed};

    ghost Value = { List Synchronized };

    ghost view = { λ s. states (reverse s.log.items) (told s.parts) };

    ghost invariant = { λ s. IsStore s.parts s.log.items × IsIndexed s.links s.roots s.log.items (told s.parts) };
}

impl Store {
    /// A store of an instance, in memory of its own, with no rewrite to undo. Linear in the instance up to a logarithm.
    pub fn from_instance(alloc: Global, i: &Instance) -> Result<Store, Memory>
        ensures { IfOk result (λ s. s ≡ i.now ∷ []) }
    {
        i.follows_rules();
        let verts = table_of(alloc, i.vert_rows())?;
        let edges = table_of(alloc, i.edge_rows())?;
        let pipes = table_of(alloc, i.pipe_rows())?;
        let mut links = Forest::new(alloc);
        let roots = roots_of(&mut links, i.edge_rows(), i.pipe_rows())?;
        Ok(Store {
            parts: Parts {
                verts,
                edges,
                pipes,
            },
            log: Vec::new(alloc),
            links,
            roots,
        })
    }

    // The law of each store: its present instance follows the rules.
    fn present_follows_rules(&self)
        ensures { IsSynchronized (present_of self.now) }
    {
        let _ = &self.parts;
    }

    /// The present instance, in memory of its own. Linear in the store's names and in the instance, up to a logarithm.
    pub fn present(&self, alloc: Global) -> Result<Instance, Memory>
        ensures { IfOk result (λ i. i ≡ present_of self.now) }
    {
        let verts = copied_table(alloc, &self.parts.verts)?;
        let edges = copied_table(alloc, &self.parts.edges)?;
        let pipes = copied_table(alloc, &self.parts.pipes)?;
        match Instance::from_parts(alloc, verts, edges, pipes) {
            Ok(i) => Ok(i),
            Err(PartsFault::Memory) => Err(Memory),
            Err(PartsFault::Broken { .. }) => unreachable!(),
        }
    }

    /// The number of vertices, edges and pipes of the present instance. Linear in the store's names.
    pub fn slots(&self) -> usize
        ensures { result ≡ slots (present_of self.now) }
    {
        slots_of(&self.parts)
    }

    /// The number of rewrites that can be undone. Constant time.
    pub fn depth(&self) -> usize
        ensures { result + 1 ≡ length self.now }
    {
        self.log.len()
    }

    /// Takes the last rewrite back that is not undone, and answers true; or answers false, where there is none, and
    /// changes nothing. It takes no memory, and as much time as the rewrite changed, up to a logarithm.
    pub fn undo(&mut self) -> bool
        ensures some { result ≡ true → self.old ≡ present_of self.old ∷ self.new }
        ensures none { result ≡ false → self.new ≡ self.old }
        ensures answer { result ≡ ltb 1 (length self.old) }
    {
        match self.log.pop() {
            None => false,
            Some(change) => {
                self.links.cut(change.mark);
                self.roots = change.roots;
                undo_change(&mut self.parts, change);
                true
            }
        }
    }

    // Rewrites the present instance. The old one stays behind it.
    fn rewrite_present(&mut self, alloc: Global, w: &Rewrite) -> Result<(), Memory>
        requires { IsRewriteOf (present_of self.old) w.now }
        ensures ok { OnOk result (self.new ≡ rewritten w.now (present_of self.old) ∷ self.old) }
        ensures err { OnErr result (self.new ≡ self.old) }
    {
        let plan = plan_of(alloc, w)?;
        let mut done = empty_for(alloc, &plan, w.moves.len())?;
        self.log.reserve(1)?;
        reserve_change(&mut self.parts, &plan)?;
        let mark = self.links.len();
        let roots = with_rewrite(&mut self.links, self.roots, &self.parts.pipes, w)?;
        make_change(&mut self.parts, plan, w.moves.items(), &mut done);
        self.log.push_reserved(with_links(done, self.roots, mark));
        self.roots = roots;
        Ok(())
    }
}

/// `is_q`, `cell`, `psi`, `ends`, `pipe_ends`, `pairs`, `edges_at`, `pipe_at` and `max_pipe` take logarithmic time,
/// beside the length of a list that they give, and `verts` and `edges` linear time in the names of vertices and edges.
/// `rewrite` takes logarithmic time for each part that it drops, adds or changes and for each end of an edge that
/// moves or comes, beside copies of what it brings, and time linear in the names of a kind for each new name that lies
/// below others and was never live. `free_names` takes logarithmic time for each name that it gives and for each live
/// name less than the last of them; for cells it copies the present instance.
impl Board for Store {
    ghost instance = { λ s. present_of s };

    fn verts(&self, alloc: Global) -> Result<Vec<usize>, Memory> {
        self.present_follows_rules();
        live_names(alloc, &self.parts.verts)
    }

    fn edges(&self, alloc: Global) -> Result<Vec<usize>, Memory> {
        self.present_follows_rules();
        live_names(alloc, &self.parts.edges)
    }

    fn edges_at(&self, alloc: Global, v: usize) -> Result<Vec<usize>, Memory> {
        self.present_follows_rules();
        let mut names = Vec::new(alloc);
        push_names(&self.links, self.roots.ends, v, &mut names)?;
        Ok(names)
    }

    fn is_q(&self, v: usize) -> bool {
        self.present_follows_rules();
        has_list(&self.parts, v)
    }

    fn cell(&self, v: usize) -> usize {
        cell_under(&self.parts, v)
    }

    fn psi(&self, v: usize) -> &CycList {
        psi_under(&self.parts, v)
    }

    fn ends(&self, e: usize) -> (usize, usize) {
        self.present_follows_rules();
        ends_under(&self.parts, e)
    }

    fn pipe_at(&self, v: usize) -> Option<usize> {
        name_under(&self.links, self.roots.pipes.poles, v)
    }

    fn pipe_ends(&self, p: usize) -> (usize, usize) {
        self.present_follows_rules();
        pipe_ends_under(&self.parts, p)
    }

    fn pairs(&self, p: usize) -> &[(usize, usize)] {
        pairs_under(&self.parts, p)
    }

    fn free_names(&self, alloc: Global, kind: NameKind, n: usize) -> Result<Vec<usize>, Memory> {
        match kind {
            NameKind::Vert => least_gaps(alloc, &self.parts.verts, n),
            NameKind::Edge => least_gaps(alloc, &self.parts.edges, n),
            NameKind::Pipe => least_gaps(alloc, &self.parts.pipes, n),
            NameKind::Cell => {
                let i = self.present(alloc)?;
                i.free_names(alloc, NameKind::Cell, n)
            }
        }
    }

    fn max_pipe(&self) -> Option<usize> {
        self.present_follows_rules();
        match best_pipe(&self.links, self.roots.pipes.ranks) {
            None => None,
            Some((_, name)) => Some(name),
        }
    }

    fn rewrite(&mut self, alloc: Global, w: &Rewrite) -> Result<(), Memory>
        requires { IsRewriteOf (present_of self.old) w.now }
        ensures ok { OnOk result (present_of self.new ≡ rewritten w.now (present_of self.old)) }
        ensures err { OnErr result (self.new ≡ self.old) }
        ensures appended { OnOk result (self.new ≡ rewritten w.now (present_of self.old) ∷ self.old) }
    {
        self.rewrite_present(alloc, w)
    }

    fn follows_rules(&self) {
        self.present_follows_rules();
    }
}
