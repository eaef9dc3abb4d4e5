// Reductions of small instances, worked out by hand, where memory suffices.
ghost use Rattle.std.specs.Prelude.{◌≡◌, ◌≢◌, ◌⊎◌, length, IfOk, IsTrue, None, Some};
ghost use Rattle.std.specs.List.{Contains};
ghost use Rattle.cp_board.specs.declared.parts.Pipe.{Pipe};
ghost use Rattle.cp_board.specs.Instances.{IsPVertex, graph, pairs_of, pipe_at, pipe_ends_of, pipe_names, vert_names};
ghost use Rattle.cp_board.specs.Steps.{degree};
ghost use Rattle.cp_conn.specs.Bonds.{IsBond};

use crate::tests_parts::{Parts, Want, instance, wanted};
use crate::{TorusFault, free_pole, fuse_poles, is_bond, small, toroidal};
use cp_base::Memory;
use cp_board::Rewrite;
use cp_sync::{Board, Instance};
use std::alloc::Global;
use std::test::Fail;

// Whether this is the name of a vertex.
fn is_live(alloc: Global, i: &Instance, v: usize) -> Result<bool, Memory>
    ensures { IfOk result (λ yes. IsTrue yes → Contains (vert_names i.now) v) }
{
    let verts = i.verts(alloc)?;
    Ok(verts.contains(&v))
}

// Whether two vertices are the poles of a bond; what is no vertex is none.
fn are_poles(alloc: Global, i: &Instance, u: usize, v: usize) -> Result<bool, Memory> {
    if !is_live(alloc, i, u)? || !is_live(alloc, i, v)? {
        return Ok(false);
    }
    is_bond(alloc, i, u, v)
}

// The rewrite of Small at the greatest pipe, where it has at most three pairs.
fn small_at(alloc: Global, i: &Instance) -> Result<Option<Rewrite>, Memory> {
    let Some(pipe) = i.max_pipe() else {
        return Ok(None);
    };
    if i.pairs(pipe).len() > 3 {
        return Ok(None);
    }
    let rewrite = small(alloc, i, pipe)?;
    Ok(Some(rewrite))
}

// The rewrite of Toroidal at the greatest pipe, where its ends are the poles of a bond.
fn torus_at(alloc: Global, i: &Instance) -> Result<Option<Rewrite>, TorusFault> {
    let Some(pipe) = i.max_pipe() else {
        return Ok(None);
    };
    let (a, b) = i.pipe_ends(pipe);
    if !is_bond(alloc, i, a, b)? {
        return Ok(None);
    }
    let rewrite = toroidal(alloc, i, pipe)?;
    Ok(Some(rewrite))
}

// Whether a pipe has this end.
fn has_end(i: &Instance, pipe: usize, end: usize) -> bool
    requires { Contains (pipe_names i.now) pipe }
    ensures { IsTrue result → ((pipe_ends_of i.now pipe).0 ≡ end) ⊎ ((pipe_ends_of i.now pipe).1 ≡ end) }
{
    let (a, b) = i.pipe_ends(pipe);
    if a == end {
        return true;
    }
    b == end
}

// Whether a vertex is a P-vertex without a pipe.
fn is_free(i: &Instance, v: usize) -> bool
    requires { Contains (vert_names i.now) v }
    ensures kind { IsTrue result → IsPVertex i.now v }
    ensures pipe { IsTrue result → pipe_at i.now v ≡ None }
{
    if i.is_q(v) {
        return false;
    }
    i.pipe_at(v).is_none()
}

// Whether `u` and `v` are the poles of a bond, and `v` is a P-vertex without a pipe.
fn has_pole(alloc: Global, i: &Instance, u: usize, v: usize) -> Result<bool, Memory>
    ensures bond { IfOk result (λ yes. IsTrue yes → IsBond (graph i.now) u v) }
    ensures kind { IfOk result (λ yes. IsTrue yes → IsPVertex i.now v) }
    ensures pipe { IfOk result (λ yes. IsTrue yes → pipe_at i.now v ≡ None) }
{
    let first = is_live(alloc, i, u)?;
    let second = is_live(alloc, i, v)?;
    if !first || !second {
        return Ok(false);
    }
    if !is_free(i, v) {
        return Ok(false);
    }
    let bond = is_bond(alloc, i, u, v)?;
    Ok(bond)
}

// The rewrite of FreePole at the greatest pipe, where it is allowed at this end and this pole.
fn freed_at(
    alloc: Global,
    i: &Instance,
    end: usize,
    pole: usize,
) -> Result<Option<Rewrite>, Memory> {
    let Some(pipe) = i.max_pipe() else {
        return Ok(None);
    };
    let ended = has_end(i, pipe, end);
    let poled = has_pole(alloc, i, end, pole)?;
    if !ended || !poled {
        return Ok(None);
    }
    let rewrite = free_pole(alloc, i, pipe, end, pole)?;
    Ok(Some(rewrite))
}

// Whether the pole is an end of another pipe, which has as many pairs.
fn has_fitting_pipe(i: &Instance, pipe: usize, pole: usize) -> bool
    requires pipe { Contains (pipe_names i.now) pipe }
    requires pole { Contains (vert_names i.now) pole }
    ensures { IsTrue result → (q : Pipe) × (pipe_at i.now pole ≡ Some q) × (q.name ≢ pipe) × (degree q ≡ length (pairs_of i.now pipe)) }
{
    i.follows_rules();
    let Some(other) = i.pipe_at(pole) else {
        return false;
    };
    if other == pipe {
        return false;
    }
    i.pairs(other).len() == i.pairs(pipe).len()
}

// The rewrite of FusePoles at the greatest pipe, where it is allowed at this end and this pole.
fn fused_at(
    alloc: Global,
    i: &Instance,
    end: usize,
    pole: usize,
) -> Result<Option<Rewrite>, Memory> {
    let Some(pipe) = i.max_pipe() else {
        return Ok(None);
    };
    if !is_live(alloc, i, end)? || !is_live(alloc, i, pole)? {
        return Ok(None);
    }
    let ended = has_end(i, pipe, end);
    let fitting = has_fitting_pipe(i, pipe, pole);
    let bonded = is_bond(alloc, i, end, pole)?;
    if !ended || !fitting || !bonded {
        return Ok(None);
    }
    let rewrite = fuse_poles(alloc, i, pipe, end, pole)?;
    Ok(Some(rewrite))
}

// Whether a call gave this rewrite.
fn is_wanted(alloc: Global, found: &Option<Rewrite>, want: Want<'_>) -> Result<bool, Fail> {
    let want = wanted(alloc, want)?;
    let found = format!(in alloc; "{found:?}")?;
    let want = format!(in alloc; "Some({want:?})")?;
    Ok(found.as_str() == want.as_str())
}

// The rewrite that drops this pipe alone.
const DROP: Want<'static> = Want {
    drops: &[0],
    fixed: &[],
    pipes: &[],
};

// Two direct edges between 0 and 1, a component 2 with one edge to 0 and two to 1, and a further edge.
const MIXED: Parts<'static> = Parts {
    verts: &[0, 1, 2, 3, 4, 5],
    edges: &[
        (0, 0, 1),
        (1, 0, 2),
        (2, 2, 1),
        (3, 0, 1),
        (4, 1, 2),
        (5, 3, 4),
    ],
    pipes: &[],
};

// Four edges between 0 and 1, and as many between 2 and 3.
const TWO_POLES: &'static [usize] = &[0, 1];

const FOUR: &'static [(usize, usize, usize)] = &[(0, 0, 1), (1, 0, 1), (2, 0, 1), (3, 0, 1)];

const FOUR_POLES: &'static [usize] = &[0, 1, 2, 3];

const EIGHT: &'static [(usize, usize, usize)] = &[
    (0, 0, 1),
    (1, 0, 1),
    (2, 0, 1),
    (3, 0, 1),
    (4, 2, 3),
    (5, 2, 3),
    (6, 2, 3),
    (7, 2, 3),
];

#[test]
fn pipes_of_few_pairs_go(rt: HostRuntime) -> Result<(), Fail> {
    let alloc = rt.alloc();
    let rows: [(Parts<'_>, Want<'_>); 4] = [
        (
            Parts {
                verts: &[0, 1],
                edges: &[],
                pipes: &[(0, 0, 1, &[])],
            },
            DROP,
        ),
        (
            Parts {
                verts: &[0, 1, 2],
                edges: &[(0, 0, 2), (1, 1, 2)],
                pipes: &[(0, 0, 1, &[(0, 1)])],
            },
            DROP,
        ),
        (
            Parts {
                verts: &[0, 1, 2],
                edges: &[(0, 0, 2), (1, 0, 2), (2, 1, 2), (3, 1, 2)],
                pipes: &[(0, 0, 1, &[(0, 3), (1, 2)])],
            },
            DROP,
        ),
        (
            Parts {
                verts: &[0, 1, 2],
                edges: &[
                    (0, 0, 2),
                    (1, 0, 2),
                    (2, 0, 2),
                    (3, 1, 2),
                    (4, 1, 2),
                    (5, 1, 2),
                ],
                pipes: &[(0, 0, 1, &[(0, 5), (1, 4), (2, 3)])],
            },
            Want {
                drops: &[0],
                fixed: &[(0, 0, &[0, 1, 2]), (1, 0, &[3, 4, 5])],
                pipes: &[],
            },
        ),
    ];
    for (parts, want) in rows {
        let i = instance(alloc, parts)?;
        let found = small_at(alloc, &i)?;
        assert!(rt; is_wanted(alloc, &found, want)?, "{found:?}");
    }
    Ok(())
}

#[test]
fn direct_edges_and_components_make_a_bond(rt: HostRuntime) -> Result<(), Fail> {
    let alloc = rt.alloc();
    let mixed = instance(alloc, MIXED)?;
    let rows = [
        // two direct edges, and a component that meets the other pole
        (0, 1, true),
        // two edges enter one component
        (1, 0, false),
        // a component that does not meet the other pole
        (4, 5, false),
        // no edge
        (5, 4, true),
        (2, 2, false),
    ];
    for (u, v, want) in rows {
        assert_eq!(rt; are_poles(alloc, &mixed, u, v)?, want, "{u} {v}");
    }
    Ok(())
}

#[test]
fn pipes_between_poles_go_where_all_cycles_have_one_length(rt: HostRuntime) -> Result<(), Fail> {
    let alloc = rt.alloc();
    let rows: [(Parts<'_>, Option<TorusFault>); 3] = [
        (
            Parts {
                verts: TWO_POLES,
                edges: FOUR,
                pipes: &[(0, 0, 1, &[(0, 1), (1, 0), (2, 3), (3, 2)])],
            },
            None,
        ),
        (
            Parts {
                verts: TWO_POLES,
                edges: FOUR,
                pipes: &[(0, 0, 1, &[(0, 0), (1, 2), (2, 3), (3, 1)])],
            },
            Some(TorusFault::CyclesDiffer { a: 1, b: 3 }),
        ),
        // a direct edge and two components
        (
            Parts {
                verts: FOUR_POLES,
                edges: &[(0, 0, 1), (1, 0, 2), (2, 2, 1), (3, 0, 3), (4, 3, 1)],
                pipes: &[(0, 0, 1, &[(0, 0), (1, 4), (3, 2)])],
            },
            Some(TorusFault::CyclesDiffer { a: 1, b: 2 }),
        ),
    ];
    for (parts, fault) in rows {
        let i = instance(alloc, parts)?;
        match torus_at(alloc, &i) {
            Ok(found) => {
                assert_eq!(rt; fault, None);
                assert!(rt; is_wanted(alloc, &found, DROP)?, "{found:?}");
            }
            Err(told) => assert_eq!(rt; Some(told), fault),
        }
    }
    Ok(())
}

#[test]
fn a_pipe_with_a_free_pole_goes(rt: HostRuntime) -> Result<(), Fail> {
    let alloc = rt.alloc();
    let i = instance(
        alloc,
        Parts {
            verts: FOUR_POLES,
            edges: EIGHT,
            pipes: &[(0, 0, 2, &[(0, 4), (1, 5), (2, 6), (3, 7)])],
        },
    )?;
    let found = freed_at(alloc, &i, 0, 1)?;
    assert!(rt; is_wanted(alloc, &found, DROP)?, "{found:?}");
    Ok(())
}

#[test]
fn two_pipes_become_one_past_a_pole(rt: HostRuntime) -> Result<(), Fail> {
    let alloc = rt.alloc();
    let rows: [(Parts<'_>, &[(usize, usize)]); 2] = [
        (
            Parts {
                verts: FOUR_POLES,
                edges: EIGHT,
                pipes: &[
                    (0, 0, 2, &[(0, 4), (1, 5), (2, 6), (3, 7)]),
                    (1, 1, 3, &[(0, 4), (1, 5), (2, 6), (3, 7)]),
                ],
            },
            &[(4, 4), (5, 5), (6, 6), (7, 7)],
        ),
        // a direct edge and two components between the end and its pole, and the pipes read from their second ends
        (
            Parts {
                verts: &[0, 1, 2, 3, 4, 5],
                edges: &[
                    (0, 0, 4),
                    (1, 4, 1),
                    (2, 0, 5),
                    (3, 5, 1),
                    (4, 0, 1),
                    (5, 2, 3),
                    (6, 2, 3),
                    (7, 2, 3),
                ],
                pipes: &[
                    (0, 2, 0, &[(5, 0), (6, 4), (7, 2)]),
                    (1, 3, 1, &[(5, 3), (6, 1), (7, 4)]),
                ],
            },
            &[(5, 6), (6, 7), (7, 5)],
        ),
    ];
    for (parts, pairs) in rows {
        let i = instance(alloc, parts)?;
        let found = fused_at(alloc, &i, 0, 1)?;
        let want = Want {
            drops: &[0, 1],
            fixed: &[],
            pipes: &[(2, 2, 3, pairs)],
        };
        assert!(rt; is_wanted(alloc, &found, want)?, "{found:?}");
    }
    Ok(())
}
