// An order tree that is put in the place of a vertex.
ghost use Rattle.std.specs.Prelude.{◌≡◌, ◌<◌, ◌^◌, ℕ, ◌+◌, suc, ◌++◌, ◌∷◌, [], length, slice_index, slice_set, IfOk};
ghost use Rattle.cp_base.specs.declared.shape.Branch.TheVariants.{Leaf};
ghost use Rattle.cp_board.specs.Plantings.{Plants};
ghost use Rattle.cp_plant.specs.Growing.{IsGrown, inner_nodes, node_of, partner_in};

use cp_base::{Branch, Memory, Shape};
use std::alloc::Global;
use std::marker::Model;

// One inner node that is put in the place of a vertex: the new vertex, whether it is a Q-node, and its edges, the one
// from above first and then those to the kids.
#[derive(Debug, Drop)]
pub(crate) struct PlantedNode {
    pub(crate) vertex: usize,
    pub(crate) fixed: bool,
    pub(crate) edges: Vec<usize>,
}

impl Model for PlantedNode {
    ghost use Rattle.cp_board.specs.Plantings.{Planted};

    ghost Value = { Planted };

    ghost view = { λ n. record { vertex = n.vertex; fixed = n.fixed; edges = n.edges.items } };
}

// The partner of an edge, or the edge itself where it has none. Linear in the number of pairs.
pub(crate) fn partner_of(partners: &[(usize, usize)], x: usize) -> usize
    ensures { result ≡ partner_in partners.now x }
{
    for pair in partners {
        if pair.0 == x {
            return pair.1;
        }
    }
    x
}

// The name in place k, and 0 where there is none.
fn name_at(names: &[usize], k: usize) -> usize
    ensures { result ≡ slice_index names.now k }
{
    names.get(k).copied().unwrap_or(0)
}

// Puts a row in place k, if there is one.
fn set_row(rows: &mut Vec<PlantedNode>, k: usize, row: PlantedNode)
    ensures { rows.new.items ≡ slice_set rows.old.items k row }
{
    if k < rows.len() {
        rows[k] = row;
    }
}

// Plants a branch behind the rows, with the vertices and the edges from above of its places, and answers the edge from
// above of the branch. Linear in the branch, up to the search for partners.
#[cycle(planting)]
fn plant_branch(
    alloc: Global,
    branch: &Branch,
    partners: &[(usize, usize)],
    verts: &[usize],
    edges: &[usize],
    rows: &mut Vec<PlantedNode>,
) -> Result<usize, Memory>
    ensures { IfOk result (λ top. IsGrown (partner_in partners.now) verts.now edges.now branch.now top rows.old.items rows.new.items) }
{
    match branch {
        Branch::Leaf(x) => Ok(partner_of(partners, *x)),
        Branch::P(kids) => plant_node(alloc, false, kids.items(), partners, verts, edges, rows),
        Branch::Q(row) => plant_node(alloc, true, row.items(), partners, verts, edges, rows),
    }
}

// Plants a node in front of its kids.
#[cycle(planting)]
fn plant_node(
    alloc: Global,
    fixed: bool,
    kids: &[Branch],
    partners: &[(usize, usize)],
    verts: &[usize],
    edges: &[usize],
    rows: &mut Vec<PlantedNode>,
) -> Result<usize, Memory>
    ensures { IfOk result (λ top. IsGrown (partner_in partners.now) verts.now edges.now (node_of fixed kids.now) top rows.old.items rows.new.items) }
{
    let place = rows.len();
    let vertex = name_at(verts, place);
    let top = name_at(edges, place);
    rows.push(PlantedNode {
        vertex,
        fixed,
        edges: Vec::new(alloc),
    })?;
    let mut row = Vec::new(alloc);
    row.push(top)?;
    for kid in kids {
        row.push(plant_branch(alloc, kid, partners, verts, edges, rows)?)?;
    }
    set_row(
        rows,
        place,
        PlantedNode {
            vertex,
            fixed,
            edges: row,
        },
    );
    Ok(top)
}

// The number of inner nodes of a shape. Linear in the shape.
pub(crate) fn count_nodes(alloc: Global, shape: &Shape) -> Result<usize, Memory>
    ensures value { IfOk result (λ number. number ≡ inner_nodes shape.now.body) }
    ensures leaf { IfOk result (λ number. number ≡ 0 → (x : ℕ) × (shape.now.body ≡ Leaf x)) }
    ensures few { IfOk result (λ number. number < 2 ^ 60) }
{
    let mut rows = Vec::new(alloc);
    plant_branch(alloc, &shape.body, &[], &[], &[], &mut rows)?;
    Ok(rows.as_slice().len())
}

// Plants the body of a shape below the edge `top`, with these vertices and these edges between them, each node before
// its kids; a leaf is the partner of its edge. Linear in the shape, up to the search for partners.
pub(crate) fn plant(
    alloc: Global,
    shape: &Shape,
    partners: &[(usize, usize)],
    top: usize,
    verts: &[usize],
    edges: &[usize],
) -> Result<Vec<PlantedNode>, Memory>
    requires verts { length verts.now ≡ inner_nodes shape.now.body }
    requires edges { suc (length edges.now) ≡ inner_nodes shape.now.body }
    ensures { IfOk result (λ rows. Plants (partner_in partners.now) shape.now.body top verts.now (top ∷ edges.now) rows.items) }
{
    let mut tops = Vec::new(alloc);
    tops.push(top)?;
    tops.extend_from_slice(edges)?;
    let mut rows = Vec::new(alloc);
    plant_branch(
        alloc,
        &shape.body,
        partners,
        verts,
        tops.as_slice(),
        &mut rows,
    )?;
    Ok(rows)
}
