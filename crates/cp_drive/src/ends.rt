// Whether a vertex of a board is a cut vertex.
ghost use Rattle.std.specs.Prelude.{◌↔◌, IsTrue, IfOk};
ghost use Rattle.std.specs.List.{Contains};
ghost use Rattle.cp_conn.specs.NamedGraphs.{IsCut};
ghost use Rattle.cp_board.specs.Instances.{graph, vert_names};

use cp_base::Memory;
use cp_join::parts_at;
use cp_sync::Board;
use std::alloc::Global;

// Whether `v` is a cut vertex: its edges are in more than one part. It costs what `parts_at` costs.
pub(crate) fn is_cut_vertex<B: Board>(alloc: Global, board: &B, v: usize) -> Result<bool, Memory>
    requires { Contains (vert_names (B.instance board.now)) v }
    ensures { IfOk result (λ yes. IsTrue yes ↔ IsCut (graph (B.instance board.now)) v) }
{
    board.follows_rules();
    let parts = parts_at(alloc, board, v)?;
    Ok(parts.len() > 1)
}
