// Texts of runs, whole.
use crate::read_instance::read_instance;
use crate::read_steps::step_of;
use crate::write::{push_body, push_instance, push_reason, push_step};
use crate::{TraceFault, one_run, read_trace, write_trace};
use cp_base::{Branch, Branches, CycList, Items, Memory};
use cp_board::{EdgeRow, EdgeRows, Kind, Pairs, Pipe, Pipes, Reason, Step, Vert, Verts};
use cp_sync::{Instance, Outcome, PartsFault, Solution};
use std::alloc::Global;
use std::test::Fail;

const WORKED: &str = "cplan-trace 1
instance
vertex 0 P
vertex 1 P
vertex 2 P
vertex 3 P
vertex 4 P
vertex 5 P
edge 0 3 5
edge 1 2 0
edge 2 3 5
edge 3 2 0
edge 4 3 5
edge 5 2 1
edge 6 4 5
edge 7 2 0
pipe 0 2 5: 1/0 3/2 5/4 7/6
instance end
step join 0
step small 1
step small 3
step small 2
step small 4
instance
vertex 0 P
vertex 1 P
vertex 3 P
vertex 4 P
vertex 6 Q 0: 1 3 7
vertex 7 P
vertex 8 Q 0: 8 11 9
vertex 9 P
vertex 10 Q 1: 0 2 4
vertex 11 P
vertex 12 Q 1: 8 10 9
vertex 13 P
edge 0 3 10
edge 1 6 0
edge 2 3 10
edge 3 6 0
edge 4 3 10
edge 5 7 1
edge 6 4 11
edge 7 6 0
edge 8 8 12
edge 9 8 12
edge 10 9 12
edge 11 8 13
instance end
solved
end
";

// P-vertices.
fn push_free(verts: &mut Verts, names: &[usize]) -> Result<(), Memory> {
    for name in names {
        verts.push(Vert {
            name: *name,
            kind: Kind::P,
        })?;
    }
    Ok(())
}

// A Q-vertex.
fn push_fixed(
    alloc: Global,
    verts: &mut Verts,
    name: usize,
    cell: usize,
    psi: &[usize],
) -> Result<(), Memory> {
    let psi = CycList::from_slice(alloc, psi)?;
    verts.push(Vert {
        name,
        kind: Kind::Q { cell, psi },
    })
}

// Edges with their names and ends.
fn edges(alloc: Global, rows: &[(usize, usize, usize)]) -> Result<EdgeRows, Memory> {
    let mut edges = EdgeRows::new(alloc);
    for (name, a, b) in rows {
        edges.push(EdgeRow {
            name: *name,
            a: *a,
            b: *b,
        })?;
    }
    Ok(edges)
}

// The pairs of a pipe.
fn pairs(alloc: Global, rows: &[(usize, usize)]) -> Result<Pairs, Memory> {
    let mut pairs = Items::new(alloc);
    for row in rows {
        pairs.push(*row)?;
    }
    Ok(pairs)
}

// The instance that the worked run begins with.
fn first(alloc: Global) -> Result<Instance, PartsFault> {
    let mut verts = Verts::new(alloc);
    push_free(&mut verts, &[0, 1, 2, 3, 4, 5])?;
    let edges = edges(
        alloc,
        &[
            (0, 3, 5),
            (1, 2, 0),
            (2, 3, 5),
            (3, 2, 0),
            (4, 3, 5),
            (5, 2, 1),
            (6, 4, 5),
            (7, 2, 0),
        ],
    )?;
    let mut pipes = Pipes::new(alloc);
    pipes.push(Pipe {
        name: 0,
        a: 2,
        b: 5,
        pairs: pairs(alloc, &[(1, 0), (3, 2), (5, 4), (7, 6)])?,
    })?;
    Instance::from_parts(alloc, verts, edges, pipes)
}

// The vertices of the instance that it ends with.
fn last_verts(alloc: Global) -> Result<Verts, Memory> {
    let mut verts = Verts::new(alloc);
    push_free(&mut verts, &[0, 1, 3, 4])?;
    push_fixed(alloc, &mut verts, 6, 0, &[1, 3, 7])?;
    push_free(&mut verts, &[7])?;
    push_fixed(alloc, &mut verts, 8, 0, &[8, 11, 9])?;
    push_free(&mut verts, &[9])?;
    push_fixed(alloc, &mut verts, 10, 1, &[0, 2, 4])?;
    push_free(&mut verts, &[11])?;
    push_fixed(alloc, &mut verts, 12, 1, &[8, 10, 9])?;
    push_free(&mut verts, &[13])?;
    Ok(verts)
}

// The instance that it ends with.
fn last(alloc: Global) -> Result<Instance, PartsFault> {
    let verts = last_verts(alloc)?;
    let edges = edges(
        alloc,
        &[
            (0, 3, 10),
            (1, 6, 0),
            (2, 3, 10),
            (3, 6, 0),
            (4, 3, 10),
            (5, 7, 1),
            (6, 4, 11),
            (7, 6, 0),
            (8, 8, 12),
            (9, 8, 12),
            (10, 9, 12),
            (11, 8, 13),
        ],
    )?;
    Instance::from_parts(alloc, verts, edges, Pipes::new(alloc))
}

#[test]
fn the_worked_run_is_written(rt: HostRuntime) -> Result<(), Fail> {
    let first = first(rt.alloc())?;
    let last = last(rt.alloc())?;
    let steps = [
        Step::Join { pipe: 0 },
        Step::Small { pipe: 1 },
        Step::Small { pipe: 3 },
        Step::Small { pipe: 2 },
        Step::Small { pipe: 4 },
    ];
    let solved = Outcome::Solved(Solution::new(rt.alloc()));
    let text = write_trace(rt.alloc(), &first, &steps, &last, &solved)?;
    assert_eq!(rt; text.as_slice(), WORKED.as_bytes());
    Ok(())
}

// The shape of a Q-node over a leaf, a P-node of two leaves and one without kids.
fn shape(alloc: Global) -> Result<Branch, Memory> {
    let mut leaves = Branches::new(alloc);
    leaves.push(Branch::Leaf(2))?;
    leaves.push(Branch::Leaf(30))?;
    let mut kids = Branches::new(alloc);
    kids.push(Branch::Leaf(1))?;
    kids.push(Branch::P(leaves))?;
    kids.push(Branch::P(Branches::new(alloc)))?;
    Ok(Branch::Q(kids))
}

#[test]
fn shapes_steps_and_reasons_are_written(rt: HostRuntime) -> Result<(), Fail> {
    let mut body = Vec::new(rt.alloc());
    push_body(rt.alloc(), &mut body, &shape(rt.alloc())?)?;
    assert_eq!(rt; body.as_slice(), b"Q[1 P[2 30] P[]]".as_slice());
    let mut step = Vec::new(rt.alloc());
    push_step(
        rt.alloc(),
        &mut step,
        &Step::FusePoles {
            pipe: 1,
            end: 2,
            pole: 3,
        },
    )?;
    assert_eq!(rt; step.as_slice(), b"step fuse 1 2 3".as_slice());
    let mut reason = Vec::new(rt.alloc());
    push_reason(rt.alloc(), &mut reason, Reason::CyclesDiffer { a: 1, b: 3 })?;
    assert_eq!(rt; reason.as_slice(), b"failed cycles 1 3".as_slice());
    Ok(())
}

const READ: &[u8] = b"instance
vertex 0 P
vertex 1 P
vertex 2 Q 3: 1 2
edge 0 0 1
edge 1 0 2
edge 2 1 2
pipe 0 0 1: 0/2 1/0
instance end
";

#[test]
fn an_instance_is_read_back(rt: HostRuntime) -> Result<(), Fail> {
    let mut text = Vec::new(rt.alloc());
    text.extend_from_slice(READ)?;
    text.extend_from_slice(b"step small 0\n")?;
    let (found, rest) = read_instance(rt.alloc(), text.as_slice())?;
    assert_eq!(rt; rest, b"step small 0\n".as_slice());
    let instance = found.ok_or("no instance")?;
    let mut back = Vec::new(rt.alloc());
    push_instance(rt.alloc(), &mut back, &instance)?;
    assert_eq!(rt; back.as_slice(), READ);
    Ok(())
}

// Texts of no instance, and how many bytes are left from the first line that does not go on with one.
const WRONG: [(&str, usize); 6] = [
    ("instanc\n", 8),
    ("instance\nvertex 1 P\nvertex 0 P\ninstance end\n", 24),
    ("instance\nvertex 0 Q 0: 2 1\ninstance end\n", 31),
    ("instance\nvertex 9223372036854775808 P\ninstance end\n", 42),
    ("instance\nvertex 0 P\nedge 0 0 0\ninstance end\n", 13),
    ("instance\nvertex 0 P", 10),
];

#[test]
fn wrong_lines_of_instances_are_found(rt: HostRuntime) -> Result<(), Fail> {
    for (text, left) in WRONG {
        let (found, rest) = read_instance(rt.alloc(), text.as_bytes())?;
        assert!(rt; found.is_none(), "{text}");
        assert_eq!(rt; rest.len(), left, "{text}");
    }
    Ok(())
}

#[test]
fn steps_are_read_back(rt: HostRuntime) -> Result<(), Fail> {
    for line in [
        "step small 1",
        "step fuse 1 20 3",
        "step tree 1 2 3 Q[1 P[2 30] P[]]",
    ] {
        let step = step_of(rt.alloc(), line.as_bytes())?.ok_or("no step")?;
        let mut back = Vec::new(rt.alloc());
        push_step(rt.alloc(), &mut back, &step)?;
        assert_eq!(rt; back.as_slice(), line.as_bytes());
    }
    for line in [
        "step small 01",
        "step free 1 2",
        "step tree 1 2 3 P[1  2]",
        "step join 1 ",
    ] {
        assert!(rt; step_of(rt.alloc(), line.as_bytes())?.is_none(), "{line}");
    }
    Ok(())
}

// Writes the run that the text tells.
fn again(alloc: Global, text: &str) -> Result<Vec<u8>, TraceFault> {
    let trace = read_trace(alloc, text.as_bytes())?;
    let outcome = match trace.solved {
        None => Outcome::Solved(Solution::new(alloc)),
        Some(reason) => Outcome::Failed(reason),
    };
    Ok(write_trace(
        alloc,
        &trace.first,
        trace.steps.items(),
        &trace.last,
        &outcome,
    )?)
}

#[test]
fn the_worked_run_is_read_back(rt: HostRuntime) -> Result<(), Fail> {
    let trace = read_trace(rt.alloc(), WORKED.as_bytes())?;
    assert_eq!(rt; trace.steps.len(), 5);
    assert!(rt; trace.solved.is_none());
    let text = again(rt.alloc(), WORKED)?;
    assert_eq!(rt; text.as_slice(), WORKED.as_bytes());
    one_run();
    Ok(())
}

// Texts of no run, and the line at fault.
const FAULTS: [(&str, usize); 14] = [
    ("", 1),
    ("cplan-trace 2\n", 1),
    ("cplan-trace 1", 1),
    ("cplan-trace 1\n", 2),
    ("cplan-trace 1\ninstance\nvertex 1 P\nvertex 0 P\n", 4),
    ("cplan-trace 1\ninstance\nvertex 0 Q 0: 2 1\n", 3),
    ("cplan-trace 1\ninstance\nvertex 9223372036854775808 P\n", 3),
    ("cplan-trace 1\ninstance\npipe 0 0 1: 1/0 1/1\n", 3),
    (
        "cplan-trace 1\ninstance\nvertex 0 P\nedge 0 0 0\ninstance end\n",
        5,
    ),
    (
        "cplan-trace 1\ninstance\ninstance end\nstep small 0\nstep small 00\n",
        5,
    ),
    (
        "cplan-trace 1\ninstance\ninstance end\ninstance\ninstance end\nfailed\n",
        6,
    ),
    (
        "cplan-trace 1\ninstance\ninstance end\ninstance\ninstance end\nsolved\n",
        7,
    ),
    (
        "cplan-trace 1\ninstance\ninstance end\ninstance\ninstance end\nsolved\nend",
        7,
    ),
    (
        "cplan-trace 1\ninstance\ninstance end\ninstance\ninstance end\nsolved\nend\n\n",
        8,
    ),
];

#[test]
fn the_line_at_fault_is_told(rt: HostRuntime) -> Result<(), Fail> {
    for (text, line) in FAULTS {
        let fault = read_trace(rt.alloc(), text.as_bytes()).err();
        assert_eq!(rt; fault, Some(TraceFault::Bad { line }), "{text}");
    }
    Ok(())
}
