// The components of a graph, and of what is left where some of its vertices are removed.
ghost use Rattle.std.specs.Prelude.{◌≡◌, length, IfOk};
ghost use Rattle.cp_base.specs.Graphs.{AreWithin};
ghost use Rattle.cp_orbits.specs.Connected.{Connected};
ghost use Rattle.cp_conn.specs.Numbering.{AreNumbered};
ghost use Rattle.cp_conn.specs.Removed.{without_removed};

use crate::numbering::numbers_of;
use crate::search::least_connected;
use cp_base::{Graph, Memory};
use std::alloc::Global;

// The number of the component of each vertex.
fn numbers_of_components(
    alloc: Global,
    vertices: usize,
    ends: &[(usize, usize)],
) -> Result<Vec<usize>, Memory>
    requires { AreWithin vertices ends.now }
    ensures { IfOk result (λ numbers. AreNumbered (Connected ends.now) vertices numbers.items) }
{
    let least = least_connected(alloc, vertices, ends)?;
    let numbers = numbers_of(alloc, least.as_slice())?;
    Ok(numbers)
}

// The edges that touch no removed vertex.
fn edges_without_removed(
    alloc: Global,
    ends: &[(usize, usize)],
    removed: &[bool],
) -> Result<Vec<(usize, usize)>, Memory>
    requires { AreWithin (length removed.now) ends.now }
    ensures { IfOk result (λ left. left.items ≡ without_removed removed.now ends.now) }
{
    let mut left = Vec::new(alloc);
    for (first, second) in ends {
        if !removed[*first] && !removed[*second] {
            left.push((*first, *second))?;
        }
    }
    Ok(left)
}

/// The number of the component of each vertex. Components are numbered from 0 by their least
/// vertices. Linear in the numbers of vertices and edges.
pub fn components(alloc: Global, g: &Graph) -> Result<Vec<usize>, Memory>
    ensures { IfOk result (λ numbers. AreNumbered (Connected g.now.ends) g.now.vertices numbers.items) }
{
    numbers_of_components(alloc, g.vertices(), g.ends())
}

/// The number of the component of each vertex where some vertices are removed: `removed` tells for
/// each vertex whether it is. A removed vertex is a component of its own. Components are numbered
/// from 0 by their least vertices. Linear in the numbers of vertices and edges.
pub fn components_without(alloc: Global, g: &Graph, removed: &[bool]) -> Result<Vec<usize>, Memory>
    requires { length removed.now ≡ g.now.vertices }
    ensures { IfOk result (λ numbers. AreNumbered (Connected (without_removed removed.now g.now.ends)) g.now.vertices numbers.items) }
{
    let left = edges_without_removed(alloc, g.ends(), removed)?;
    numbers_of_components(alloc, g.vertices(), left.as_slice())
}
