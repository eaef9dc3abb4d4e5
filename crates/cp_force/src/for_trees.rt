// Order trees as nodes: the calls on `Tree`.

use crate::copying::copy_of;
use crate::fault::ForceFault;
use crate::forcing::force;
use crate::order_tree::OrderTree;
use crate::ownership::owner_of;
use crate::reading::order_of;
use crate::shaping::shape_of;
use cp_base::{CycList, Equation, Memory, Shape};
use cp_pq::{Node, Part, ReduceFault, Tree, reduce, replace, star};
use std::alloc::Global;

impl OrderTree for Tree {
    ghost use Rattle.cp_pq.specs.Trees.{PQTree};

    ghost tree = { λ tree. tree };

    fn star(
        alloc: Global,
        root: usize,
        leaves: &[usize],
        owner: usize,
        vars: usize,
    ) -> Result<Tree, Memory> {
        let made = star(alloc, root, leaves, owner, vars)?;
        Ok(made)
    }

    fn reduce(self, alloc: Global, set: &[usize]) -> Result<Tree, ReduceFault> {
        match reduce(alloc, self, set) {
            Ok(reduced) => Ok(reduced),
            Err(fault) => Err(fault),
        }
    }

    fn replace(self, alloc: Global, set: &[usize], new: Node) -> Result<(Tree, Part), Memory> {
        let replaced = replace(alloc, self, set, new)?;
        Ok(replaced)
    }

    fn force(self, alloc: Global, order: &[usize], var: usize) -> Result<Tree, ForceFault> {
        match force(alloc, self, order, var) {
            Ok(forced) => Ok(forced),
            Err(fault) => Err(fault),
        }
    }

    fn shape(&self, alloc: Global) -> Result<Shape, Memory> {
        let shape = shape_of(alloc, self)?;
        Ok(shape)
    }

    fn vars(&self) -> usize {
        Tree::vars(self)
    }

    fn equations(&self) -> &[Equation] {
        Tree::equations(self)
    }

    fn order_by(&self, alloc: Global, bits: &[bool]) -> Result<CycList, Memory> {
        let order = order_of(alloc, self, bits)?;
        Ok(order)
    }

    fn copy_tree(&self, alloc: Global) -> Result<Tree, Memory> {
        let copy = copy_of(alloc, self)?;
        Ok(copy)
    }

    fn sole_owner(&self) -> Option<usize> {
        owner_of(self)
    }
}
