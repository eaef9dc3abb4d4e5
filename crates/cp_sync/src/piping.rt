// The fourth rule of an instance: the ends of a pipe are two different P-vertices that no earlier pipe has.
ghost use Rattle.std.specs.Prelude.{◌≡◌, ◌<◌, ℕ, true, false, [], length, IfNone, IfOk, MatchOption};
ghost use Rattle.std.specs.List.{Contains};
ghost use Rattle.std.specs.List.Sorted.{IsStrictlyIncreasing};
ghost use Rattle.cp_board.specs.Instances.{names_of_verts};
ghost use Rattle.cp_board.specs.Faults.{Keeps, PipeEnds, PipeAt};
ghost use Rattle.cp_sync.specs.Tables.{ArePiped, AreUnpiped, IsFreeEnd, IsFreePipe, IsMarked};
ghost use Rattle.cp_sync.specs.Checks.{AllBelow, IsFirstFailing};

use crate::named::lower_place;
use cp_base::Memory;
use cp_board::{Kind, Pipe, Vert};
use std::alloc::Global;

// As many vertices of no pipe. Linear.
pub(crate) fn unpiped(alloc: Global, n: usize) -> Result<Vec<Option<usize>>, Memory>
    ensures { IfOk result (λ piped. AreUnpiped n piped.items) }
{
    let mut piped = Vec::new(alloc);
    'filling: while piped.len() < n {
        piped.push(None)?;
    }
    Ok(piped)
}

// Whether `v` is a P-vertex that has no pipe. Logarithmic.
fn is_free_end(verts: &[Vert], piped: &[Option<usize>], v: usize) -> bool
    requires rising { IsStrictlyIncreasing (names_of_verts verts.now) }
    requires one_each { length piped.now ≡ length verts.now }
    ensures yes { result ≡ true → IsFreeEnd verts.now piped.now v }
    ensures no { result ≡ false → ¬ IsFreeEnd verts.now piped.now v }
{
    let place = lower_place(verts, v);
    if place == verts.len() {
        return false;
    }
    if verts[place].name != v {
        return false;
    }
    match &verts[place].kind {
        Kind::P => piped[place].is_none(),
        Kind::Q { .. } => false,
    }
}

// Whether the ends of a pipe are two different P-vertices that have no pipe. Logarithmic.
fn is_free_pipe(verts: &[Vert], piped: &[Option<usize>], p: &Pipe) -> bool
    requires rising { IsStrictlyIncreasing (names_of_verts verts.now) }
    requires one_each { length piped.now ≡ length verts.now }
    ensures yes { result ≡ true → IsFreePipe verts.now piped.now p.now }
    ensures no { result ≡ false → ¬ IsFreePipe verts.now piped.now p.now }
{
    if !is_free_end(verts, piped, p.a) {
        return false;
    }
    if !is_free_end(verts, piped, p.b) {
        return false;
    }
    p.a != p.b
}

// Gives a pipe to its two ends. Logarithmic.
fn mark(verts: &[Vert], p: &Pipe, piped: &mut Vec<Option<usize>>)
    requires rising { IsStrictlyIncreasing (names_of_verts verts.now) }
    requires live { Contains (names_of_verts verts.now) p.now.a × Contains (names_of_verts verts.now) p.now.b }
    requires one_each { length piped.old.items ≡ length verts.now }
    ensures { IsMarked verts.now p.now piped.old.items piped.new.items }
{
    let a = lower_place(verts, p.a);
    let b = lower_place(verts, p.b);
    piped[a] = Some(p.name);
    piped[b] = Some(p.name);
}

// Gives each pipe to its two ends, up to the first pipe whose ends are not two different P-vertices that no earlier
// pipe has: it answers the place of this one. Linear in the pipes, up to a logarithm.
pub(crate) fn mark_all(
    verts: &[Vert],
    pipes: &[Pipe],
    piped: &mut Vec<Option<usize>>,
) -> Option<usize>
    requires rising { IsStrictlyIncreasing (names_of_verts verts.now) }
    requires empty { AreUnpiped (length verts.now) piped.old.items }
    ensures none { IfNone result (ArePiped verts.now pipes.now piped.new.items) }
    ensures first { MatchOption result (AllBelow (λ k. Keeps record { verts = verts.now; edges = []; pipes = pipes.now } PipeEnds (PipeAt k)) (length pipes.now)) (IsFirstFailing (λ k. Keeps record { verts = verts.now; edges = []; pipes = pipes.now } PipeEnds (PipeAt k)) (length pipes.now)) }
{
    for k in 0..pipes.len() {
        if !is_free_pipe(verts, piped.as_slice(), &pipes[k]) {
            return Some(k);
        }
        mark(verts, &pipes[k], piped);
    }
    None
}

// The pipe of each vertex, by its place, where the ends of pipes are right. Linear in the vertices and the pipes, up to
// a logarithm.
pub(crate) fn piping(
    alloc: Global,
    verts: &[Vert],
    pipes: &[Pipe],
) -> Result<Vec<Option<usize>>, Memory>
    requires rising { IsStrictlyIncreasing (names_of_verts verts.now) }
    requires right { AllBelow (λ k. Keeps record { verts = verts.now; edges = []; pipes = pipes.now } PipeEnds (PipeAt k)) (length pipes.now) }
    ensures { IfOk result (λ piped. ArePiped verts.now pipes.now piped.items) }
{
    let mut piped = unpiped(alloc, verts.len())?;
    for p in pipes {
        mark(verts, p, &mut piped);
    }
    Ok(piped)
}
