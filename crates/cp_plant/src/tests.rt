// Small shapes by hand, where memory suffices.
use crate::planting::{count_nodes, plant};
use crate::rewriting::{PlantedEnd, rewrite_of};
use cp_base::{Branch, Branches, CycList, Items, Memory, Shape};
use cp_board::{Kind, Rewrite, Vert, Verts};
use std::alloc::Global;
use std::test::Fail;

// Leaves of these names.
fn leaves(alloc: Global, names: &[usize]) -> Result<Branches, Memory> {
    let mut kids = Items::new(alloc);
    for name in names {
        kids.push(Branch::Leaf(*name))?;
    }
    Ok(kids)
}

// The shape of the centre of a wheel with the spokes 0 to 3.
fn wheel(alloc: Global) -> Result<Shape, Memory> {
    let kids = leaves(alloc, &[1, 2, 3])?;
    Ok(Shape {
        root: 0,
        body: Branch::Q(kids),
    })
}

// A shape of this many inner nodes, each the kid of the next.
fn deep(alloc: Global, depth: usize) -> Result<Shape, Memory> {
    let mut body = Branch::Leaf(0);
    for k in 0..depth {
        let mut kids = leaves(alloc, &[k])?;
        kids.push(body)?;
        body = Branch::P(kids);
    }
    Ok(Shape { root: depth, body })
}

// The rewrite at a wheel whose spokes 0 to 3 have the partners 4 to 7, or none where the shape is another.
fn wheel_rewrite(alloc: Global) -> Result<Option<Rewrite>, Memory> {
    let shape = wheel(alloc)?;
    if count_nodes(alloc, &shape)? != 1 {
        return Ok(None);
    }
    let u = PlantedEnd {
        end: 0,
        own: Vec::from_slice(alloc, &[0, 1, 2, 3])?,
        rows: plant(alloc, &shape, &[], 0, &[10], &[])?,
        edges: Vec::new(alloc),
    };
    let partners = [(0, 4), (1, 5), (2, 6), (3, 7)];
    let w = PlantedEnd {
        end: 1,
        own: Vec::from_slice(alloc, &[4, 5, 6, 7])?,
        rows: plant(alloc, &shape, &partners, 4, &[11], &[])?,
        edges: Vec::new(alloc),
    };
    let rewrite = rewrite_of(alloc, 0, &u, &w, &[0], &[])?;
    Ok(Some(rewrite))
}

// The two Q-vertices of one cell that come in the place of a wheel's centre and its partner.
fn wheel_verts(alloc: Global) -> Result<Verts, Memory> {
    let mut verts = Verts::new(alloc);
    verts.push(Vert {
        name: 10,
        kind: Kind::Q {
            cell: 0,
            psi: CycList::from_slice(alloc, &[0, 1, 2, 3])?,
        },
    })?;
    verts.push(Vert {
        name: 11,
        kind: Kind::Q {
            cell: 0,
            psi: CycList::from_slice(alloc, &[4, 7, 6, 5])?,
        },
    })?;
    Ok(verts)
}

#[test]
fn a_wheel_gives_two_fixed_vertices_and_no_pipe(rt: HostRuntime) -> Result<(), Fail> {
    let alloc = rt.alloc();
    let rewrite = wheel_rewrite(alloc)?;
    let Some(rewrite) = rewrite else {
        assert!(rt; false);
        return Ok(());
    };
    assert!(rt; rewrite.add_pipes.len() == 0);
    assert!(rt; rewrite.add_edges.len() == 0);
    assert!(rt; rewrite.moves.len() == 8);
    let wanted = wheel_verts(alloc)?;
    let wanted = format!(in alloc; "{wanted:?}")?;
    let verts = &rewrite.add_verts;
    let found = format!(in alloc; "{verts:?}")?;
    assert_eq!(rt; found.as_str(), wanted.as_str());
    Ok(())
}

#[test]
fn a_deep_shape_has_its_inner_nodes(rt: HostRuntime) -> Result<(), Fail> {
    let alloc = rt.alloc();
    let shape = deep(alloc, 500)?;
    let number = count_nodes(alloc, &shape)?;
    assert!(rt; number == 500);
    Ok(())
}
