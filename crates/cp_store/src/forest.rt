// Search trees that share what they have in common, each named by its root.
ghost use Rattle.std.specs.Prelude.{◌≡◌, ◌+◌, ◌<◌, ◌≤◌, ◌∷◌, ◌++◌, [], length, IfOk};

use crate::nodes::Node;
use crate::ranked::Ranked;
use cp_base::Memory;
use std::alloc::Global;
use std::marker::Model;

// Search trees in one list of nodes. Contracts see the items of each node.
#[derive(Debug, Drop)]
pub(crate) struct Forest<T> {
    nodes: Vec<Node<T>>,
}

impl<T> Model for Forest<T> {
    ghost use Rattle.std.specs.Prelude.{List, []};
    ghost use Rattle.cp_store.specs.Forests.{grown, AreNodes};

    ghost Value = { List (List T) };

    ghost view = { λ f. grown [] f.nodes.items };

    ghost invariant = { λ f. AreNodes [] f.nodes.items };
}

// More items than this have no room in memory.
const MOST_ITEMS: usize = 1152921504606846976;

impl<T> Forest<T> {
    ghost use Rattle.cp_store.specs.Forests.{items_at, Keeps, IsTree, IsNodeOf, IsOpened};

    // A forest without nodes.
    pub(crate) fn new(alloc: Global) -> Forest<T>
        ensures { result ≡ [] }
    {
        Forest {
            nodes: Vec::new(alloc),
        }
    }

    // The number of nodes.
    pub(crate) fn len(&self) -> usize
        ensures { result ≡ length self.now }
    {
        self.nodes.len()
    }

    // The node of this root.
    pub(crate) fn node(&self, root: usize) -> &Node<T>
        requires live { 0 < root }
        requires within { root ≤ length self.now }
        ensures { IsNodeOf self.now root result.now }
    {
        &self.nodes[root - 1]
    }

    // The number of items of a tree. Constant time.
    pub(crate) fn count(&self, root: usize) -> usize
        requires { root ≤ length self.now }
        ensures value { result ≡ length (items_at self.now root) }
        ensures small { result ≤ 1152921504606846976 }
    {
        if root == 0 { 0 } else { self.node(root).count }
    }

    // The tree before the item of this root, the item, and the tree behind it. Constant time.
    pub(crate) fn opened(&self, root: usize) -> Result<(usize, T, usize), Memory>
    where
        T: Ranked,
        requires live { 0 < root }
        requires within { root ≤ length self.now }
        ensures { IfOk result (λ p. IsOpened self.now root p.0 p.1 p.2) }
    {
        let node = self.node(root);
        let item = node.item.shared()?;
        Ok((node.before, item, node.behind))
    }

    // A tree of the items of one tree, an item, and those of another tree. Constant time on average.
    pub(crate) fn fork(&mut self, before: usize, item: T, behind: usize) -> Result<usize, Memory>
    where
        T: Drop,
        requires before { before ≤ length self.old }
        requires behind { behind ≤ length self.old }
        ensures keeps { Keeps self.old self.new }
        ensures tree { IfOk result
            (λ root. IsTree self.new root (items_at self.old before ++ item ∷ items_at self.old behind)) }
    {
        let count = self.count(before) + self.count(behind) + 1;
        if count > MOST_ITEMS {
            return Err(Memory);
        }
        self.nodes.push(Node {
            before,
            item,
            behind,
            count,
        })?;
        Ok(self.nodes.len())
    }

    // Takes the nodes behind the first `mark` away.
    pub(crate) fn cut(&mut self, mark: usize)
    where
        T: Drop,
        requires { mark ≤ length self.old }
        ensures length { length self.new ≡ mark }
        ensures keeps { Keeps self.new self.old }
    {
        self.nodes.truncate(mark);
    }
}
