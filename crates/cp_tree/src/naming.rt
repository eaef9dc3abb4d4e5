// Shapes over numbers of edges, and over their names.
ghost use Rattle.std.specs.Prelude.{◌≡◌, map, slice_index, IfOk};
ghost use Rattle.cp_tree.specs.Naming.{renamed, renamed_shape};

use cp_base::{Branch, Branches, Items, Memory, Shape};
use std::alloc::Global;

// The name with a number, and 0 where there is none.
fn name_of(names: &[usize], number: usize) -> usize
    ensures { result ≡ slice_index names.now number }
{
    names.get(number).copied().unwrap_or(0)
}

// The branch with names in the place of numbers. Linear in its size.
#[cycle(naming)]
fn named_branch(alloc: Global, names: &[usize], branch: &Branch) -> Result<Branch, Memory>
    ensures { IfOk result (λ named. named ≡ renamed (slice_index names.now) branch.now) }
{
    match branch {
        Branch::Leaf(x) => Ok(Branch::Leaf(name_of(names, *x))),
        Branch::P(kids) => {
            let branches = named_branches(alloc, names, kids.items())?;
            Ok(Branch::P(branches))
        }
        Branch::Q(kids) => {
            let row = named_branches(alloc, names, kids.items())?;
            Ok(Branch::Q(row))
        }
    }
}

// The branches of a row with names in the place of numbers.
#[cycle(naming)]
fn named_branches(alloc: Global, names: &[usize], row: &[Branch]) -> Result<Branches, Memory>
    ensures { IfOk result (λ named. named ≡ map (renamed (slice_index names.now)) row.now) }
{
    let mut named = Items::new(alloc);
    for branch in row {
        named.push(named_branch(alloc, names, branch)?)?;
    }
    Ok(named)
}

// The shape with names in the place of numbers. Linear in its size.
pub(crate) fn named_shape(alloc: Global, names: &[usize], shape: &Shape) -> Result<Shape, Memory>
    ensures { IfOk result (λ named. named ≡ renamed_shape (slice_index names.now) shape.now) }
{
    let body = named_branch(alloc, names, &shape.body)?;
    Ok(Shape {
        root: name_of(names, shape.root),
        body,
    })
}
