// The names of the pipes of an instance.
ghost use Rattle.std.specs.Prelude.{◌≡◌, ◌++◌, IfOk, OnOk};
ghost use Rattle.std.specs.List.{All, Contains, flat_map};
ghost use Rattle.cp_board.specs.Instances.{IsSynchronized, pipe_names, vert_names};
ghost use Rattle.cp_trace.specs.Parts.{pipes_by_ends, pipes_from};

use cp_base::Memory;
use cp_sync::{Board, Instance};
use std::alloc::Global;

// Appends the name of the pipe whose first end is `v`.
fn push_pipe_from(i: &Instance, v: usize, names: &mut Vec<usize>) -> Result<(), Memory>
    requires { Contains (vert_names i.now) v }
    ensures { OnOk result (names.new.items ≡ names.old.items ++ pipes_from i.now v) }
{
    if let Some(p) = i.pipe_at(v) {
        if i.pipe_ends(p).0 == v {
            names.push(p)?;
        }
    }
    Ok(())
}

// Appends the names of the pipes whose first ends are these vertices.
fn push_pipes_from(i: &Instance, verts: &[usize], names: &mut Vec<usize>) -> Result<(), Memory>
    requires { All (Contains (vert_names i.now)) verts.now }
    ensures { OnOk result (names.new.items ≡ names.old.items ++ flat_map (pipes_from i.now) verts.now) }
{
    for v in verts {
        push_pipe_from(i, *v, names)?;
    }
    Ok(())
}

// The names of the pipes, in the order of their first ends.
fn names_by_ends(alloc: Global, i: &Instance) -> Result<Vec<usize>, Memory>
    ensures names { IfOk result (λ names. names.items ≡ pipes_by_ends i.now) }
    ensures rules { IsSynchronized i.now }
{
    let verts = i.verts(alloc)?;
    let mut names = Vec::new(alloc);
    push_pipes_from(i, verts.as_slice(), &mut names)?;
    Ok(names)
}

// The names of the pipes, rising. Linear in the vertices, up to a logarithm.
pub(crate) fn pipe_names_of(alloc: Global, i: &Instance) -> Result<Vec<usize>, Memory>
    ensures names { IfOk result (λ names. names.items ≡ pipe_names i.now) }
    ensures rules { IsSynchronized i.now }
{
    let mut names = names_by_ends(alloc, i)?;
    names.sort()?;
    Ok(names)
}
