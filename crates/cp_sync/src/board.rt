// What reductions need to know of an instance, and what they may do to it.
ghost use Rattle.std.specs.Prelude.{◌≡◌, ℕ, List, [], ◌∷◌, length, true, false, IsTrue, IfOk, IfSome, IfNone, OnOk, OnErr, option_map};
ghost use Rattle.std.specs.List.{Contains};
ghost use Rattle.cp_board.specs.Names.{new_names};
ghost use Rattle.cp_board.specs.Instances.{Synchronized, IsSynchronized, vert_names, edge_names, pipe_names, edges_of, is_q, cell_at, psi_at, ends_of, pipe_at, pipe_ends_of, pairs_of};
ghost use Rattle.cp_board.specs.Runs.{IsGreatestName};
ghost use Rattle.cp_board.specs.Rewrites.{names_of, rewritten, IsRewriteOf};

use cp_base::{CycList, Memory};
use cp_board::{NameKind, Rewrite};
use std::alloc::Global;

/// What stands for an instance. The names that its calls take are live.
pub trait Board {
    // the instance that a board stands for
    ghost instance: { Self → Synchronized };

    /// The names of the vertices, rising.
    fn verts(&self, alloc: Global) -> Result<Vec<usize>, Memory>
        ensures names { IfOk result (λ names. names.items ≡ vert_names (instance self.now)) }
        ensures rules { IsSynchronized (instance self.now) };

    /// The names of the edges, rising.
    fn edges(&self, alloc: Global) -> Result<Vec<usize>, Memory>
        ensures names { IfOk result (λ names. names.items ≡ edge_names (instance self.now)) }
        ensures rules { IsSynchronized (instance self.now) };

    /// The edges of `v`, rising.
    fn edges_at(&self, alloc: Global, v: usize) -> Result<Vec<usize>, Memory>
        requires { Contains (vert_names (instance self.now)) v }
        ensures names { IfOk result (λ names. names.items ≡ edges_of (instance self.now) v) }
        ensures rules { IsSynchronized (instance self.now) };

    /// Whether `v` is a Q-vertex.
    fn is_q(&self, v: usize) -> bool
        requires { Contains (vert_names (instance self.now)) v }
        ensures value { result ≡ is_q (instance self.now) v }
        ensures rules { IsSynchronized (instance self.now) };

    /// The cell of a Q-vertex.
    fn cell(&self, v: usize) -> usize
        requires { IsTrue (is_q (instance self.now) v) }
        ensures { result ≡ cell_at (instance self.now) v };

    /// The list of a Q-vertex, from its least edge.
    fn psi(&self, v: usize) -> &CycList
        requires { IsTrue (is_q (instance self.now) v) }
        ensures { result.now ≡ psi_at (instance self.now) v };

    /// The two ends of an edge.
    fn ends(&self, e: usize) -> (usize, usize)
        requires { Contains (edge_names (instance self.now)) e }
        ensures value { result ≡ ends_of (instance self.now) e }
        ensures rules { IsSynchronized (instance self.now) };

    /// The pipe of which `v` is an end, or `None` where there is none.
    fn pipe_at(&self, v: usize) -> Option<usize>
        requires { Contains (vert_names (instance self.now)) v }
        ensures { result ≡ option_map (λ p. p.name) (pipe_at (instance self.now) v) };

    /// The two ends of a pipe.
    fn pipe_ends(&self, p: usize) -> (usize, usize)
        requires { Contains (pipe_names (instance self.now)) p }
        ensures value { result ≡ pipe_ends_of (instance self.now) p }
        ensures rules { IsSynchronized (instance self.now) };

    /// The pairs of a pipe, rising by their first edges.
    fn pairs(&self, p: usize) -> &[(usize, usize)]
        requires { Contains (pipe_names (instance self.now)) p }
        ensures { result.now ≡ pairs_of (instance self.now) p };

    /// The `n` least numbers that are no live names of this kind, rising.
    fn free_names(&self, alloc: Global, kind: NameKind, n: usize) -> Result<Vec<usize>, Memory>
        ensures { IfOk result (λ names. names.items ≡ new_names (names_of (instance self.now) kind) n) };

    /// The pipe of greatest degree, and of equal ones that of least name, or `None` where there is no pipe.
    fn max_pipe(&self) -> Option<usize>
        ensures some { IfSome result (IsGreatestName (instance self.now)) }
        ensures none { IfNone result ((instance self.now).pipes ≡ []) }
        ensures rules { IsSynchronized (instance self.now) };

    /// Changes the instance. After want of memory the board is unchanged.
    fn rewrite(&mut self, alloc: Global, w: &Rewrite) -> Result<(), Memory>
        requires { IsRewriteOf (instance self.old) w.now }
        ensures ok { OnOk result (instance self.new ≡ rewritten w.now (instance self.old)) }
        ensures err { OnErr result (self.new ≡ self.old) };

    /// The law of each value: what it stands for follows the rules. Constant time.
    fn follows_rules(&self)
        ensures { IsSynchronized (instance self.now) };
}
