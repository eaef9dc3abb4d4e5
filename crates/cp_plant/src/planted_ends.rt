// What is planted at both ends of the pipe of a step Propagate.
ghost use Rattle.std.specs.Prelude.{◌≡◌, ◌≤◌, ℕ, ◌∷◌, true, false, suc, cond, eqb, length, map, IfOk, Some};
ghost use Rattle.cp_board.specs.Instances.{pipe_named};
ghost use Rattle.cp_board.specs.Plantings.{Plants, fixed_nodes};
ghost use Rattle.cp_board.specs.Steps.{Allowed};
ghost use Rattle.cp_board.specs.declared.parts.Pipe.{Pipe};
ghost use Rattle.cp_board.specs.declared.steps.Step.TheVariants.{Propagate};
ghost use Rattle.cp_plant.specs.Growing.{inner_nodes, partner_in};
ghost use Rattle.cp_plant.specs.Rewriting.{ArePlanted};

use crate::partners::with_partners;
use crate::planting::{PlantedNode, count_nodes, partner_of, plant};
use crate::rewriting::PlantedEnd;
use cp_base::{Memory, Shape};
use cp_board::NameKind;
use cp_sync::Board;
use std::alloc::Global;

// Of two ends the one that is not `end`.
fn end_beside(ends: (usize, usize), end: usize) -> usize
    ensures { result ≡ cond (eqb ends.0 end) ends.1 ends.0 }
{
    if ends.0 == end { ends.1 } else { ends.0 }
}

// The number of Q-nodes. Linear.
pub(crate) fn fixed_count(rows: &[PlantedNode]) -> usize
    ensures value { result ≡ length (fixed_nodes rows.now) }
    ensures within { result ≤ length rows.now }
{
    let mut count = 0;
    for k in 0..rows.len() {
        let row = &rows[k];
        if row.fixed {
            count += 1;
        }
    }
    count
}

// What is planted at one end, with these names. Linear in the shape, up to the search for partners.
fn planted_end(
    alloc: Global,
    shape: &Shape,
    partners: &[(usize, usize)],
    top: usize,
    own: Vec<usize>,
    end: usize,
    verts: &[usize],
    edges: &[usize],
) -> Result<PlantedEnd, Memory>
    requires verts { length verts.now ≡ inner_nodes shape.now.body }
    requires edges { suc (length edges.now) ≡ inner_nodes shape.now.body }
    ensures end { IfOk result (λ e. e.end ≡ end) }
    ensures own { IfOk result (λ e. e.own ≡ own.items) }
    ensures edges { IfOk result (λ e. e.edges ≡ edges.now) }
    ensures rows { IfOk result (λ e. Plants (partner_in partners.now) shape.now.body top verts.now (top ∷ edges.now) e.rows) }
{
    let rows = plant(alloc, shape, partners, top, verts, edges)?;
    let mut names = Vec::new(alloc);
    names.extend_from_slice(edges)?;
    Ok(PlantedEnd {
        end,
        own,
        rows,
        edges: names,
    })
}

// What is planted at both ends of a pipe. At most quadratic in the degree of the pipe.
pub(crate) fn planted_ends<B: Board>(
    alloc: Global,
    board: &B,
    pipe: usize,
    end: usize,
    shape: &Shape,
) -> Result<(PlantedEnd, PlantedEnd), Memory>
    requires { Allowed (B.instance board.now) (Propagate pipe end shape.now) }
    ensures { (p : Pipe) → pipe_named (B.instance board.now) pipe ≡ Some p → IfOk result (λ r. ArePlanted (B.instance board.now) p end shape.now r.0 r.1) }
{
    board.follows_rules();
    let ends = board.pipe_ends(pipe);
    let pairs = board.pairs(pipe);
    let other = end_beside(ends, end);
    let own = board.edges_at(alloc, end)?;
    let own_other = board.edges_at(alloc, other)?;
    let partners = with_partners(alloc, pairs, ends.0 == end, own.as_slice())?;
    let top = partner_of(partners.as_slice(), shape.root);
    let count = count_nodes(alloc, shape)?;
    let verts = board.free_names(alloc, NameKind::Vert, count + count)?;
    let edges = board.free_names(alloc, NameKind::Edge, (count - 1) + (count - 1))?;
    let (verts_u, verts_w) = verts.as_slice().split_at(count);
    let (edges_u, edges_w) = edges.as_slice().split_at(count - 1);
    let u = planted_end(alloc, shape, &[], shape.root, own, end, verts_u, edges_u)?;
    let w = planted_end(
        alloc,
        shape,
        partners.as_slice(),
        top,
        own_other,
        other,
        verts_w,
        edges_w,
    )?;
    Ok((u, w))
}
