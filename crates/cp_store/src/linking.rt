// Links that are put into trees, taken out and read.
ghost use Rattle.std.specs.Prelude.{◌≡◌, ◌++◌, [], ℕ, Bool, true, eqb, map, IfOk, OnOk, MatchOption};
ghost use Rattle.std.specs.List.{filter};
ghost use Rattle.cp_store.specs.Forests.{items_at, Keeps};
ghost use Rattle.cp_board.specs.Names.{has};
ghost use Rattle.cp_store.specs.Links.{HasLinks, IsLinkTree, with_link, without_link, down, names_under};

use crate::forest::Forest;
use crate::links::Link;
use crate::putting::{with_item, without_item};
use cp_base::Memory;

// The links with one more. Logarithmic.
pub(crate) fn linked(
    forest: &mut Forest<Link>,
    root: usize,
    key: usize,
    name: usize,
) -> Result<usize, Memory>
    requires { IsLinkTree forest.old root }
    ensures keeps { Keeps forest.old forest.new }
    ensures tree { IfOk result (IsLinkTree forest.new) }
    ensures links { IfOk result (λ new. (test : ℕ → ℕ → Bool) → HasLinks forest.old root test
        → HasLinks forest.new new (with_link test key name)) }
{
    with_item(forest, root, Link { key, name })
}

// The links without one. Logarithmic.
pub(crate) fn unlinked(
    forest: &mut Forest<Link>,
    root: usize,
    key: usize,
    name: usize,
) -> Result<usize, Memory>
    requires { IsLinkTree forest.old root }
    ensures keeps { Keeps forest.old forest.new }
    ensures tree { IfOk result (IsLinkTree forest.new) }
    ensures links { IfOk result (λ new. (test : ℕ → ℕ → Bool) → HasLinks forest.old root test
        → HasLinks forest.new new (without_link test key name)) }
{
    without_item(forest, root, (key, name))
}

// The links with one more, whose name is counted down. Logarithmic.
pub(crate) fn linked_down(
    forest: &mut Forest<Link>,
    root: usize,
    key: usize,
    name: usize,
) -> Result<usize, Memory>
    requires { IsLinkTree forest.old root }
    ensures keeps { Keeps forest.old forest.new }
    ensures tree { IfOk result (IsLinkTree forest.new) }
    ensures links { IfOk result (λ new. (test : ℕ → ℕ → Bool) → HasLinks forest.old root (down test)
        → HasLinks forest.new new (down (with_link test key name))) }
{
    linked(forest, root, key, usize::MAX - name)
}

// The links without one, whose name is counted down. Logarithmic.
pub(crate) fn unlinked_down(
    forest: &mut Forest<Link>,
    root: usize,
    key: usize,
    name: usize,
) -> Result<usize, Memory>
    requires { IsLinkTree forest.old root }
    ensures keeps { Keeps forest.old forest.new }
    ensures tree { IfOk result (IsLinkTree forest.new) }
    ensures links { IfOk result (λ new. (test : ℕ → ℕ → Bool) → HasLinks forest.old root (down test)
        → HasLinks forest.new new (down (without_link test key name))) }
{
    unlinked(forest, root, key, usize::MAX - name)
}

// A name that has a key, or `None` where none has it. Logarithmic.
pub(crate) fn name_under(forest: &Forest<Link>, root: usize, key: usize) -> Option<usize>
    requires { IsLinkTree forest.now root }
    ensures { MatchOption result (names_under key (items_at forest.now root) ≡ [])
        (λ name. has (names_under key (items_at forest.now root)) name ≡ true) }
{
    if root == 0 {
        return None;
    }
    let node = forest.node(root);
    if node.item.key < key {
        name_under(forest, node.behind, key)
    } else if key < node.item.key {
        name_under(forest, node.before, key)
    } else {
        Some(node.item.name)
    }
}

// Appends the names that have a key, rising. Logarithmic, beside their number.
pub(crate) fn push_names(
    forest: &Forest<Link>,
    root: usize,
    key: usize,
    to: &mut Vec<usize>,
) -> Result<(), Memory>
    requires { IsLinkTree forest.now root }
    ensures { OnOk result (to.new.items ≡ to.old.items
        ++ map (λ x. x.name) (filter (λ x. eqb x.key key) (items_at forest.now root))) }
{
    if root == 0 {
        return Ok(());
    }
    let node = forest.node(root);
    if node.item.key < key {
        return push_names(forest, node.behind, key, to);
    }
    push_names(forest, node.before, key, to)?;
    if key < node.item.key {
        return Ok(());
    }
    to.push(node.item.name)?;
    push_names(forest, node.behind, key, to)
}
