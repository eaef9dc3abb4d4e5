// Orders that order trees have by given bits.
ghost use Rattle.std.specs.Prelude.{◌≡◌, ◌+◌, ◌-◌, ◌<◌, ◌++◌, Bool, Option, cond, length, reverse, IfOk, OnOk};
ghost use Rattle.std.specs.List.{AllByRecursion};
ghost use Rattle.cp_pq.specs.Bits.{bit_of, IsMet};
ghost use Rattle.cp_pq.specs.Trees.{IsPair};
ghost use Rattle.cp_force.specs.Words.{word_by, words_by, is_read_back, part_word};
ghost use Rattle.cp_pq.specs.Promises.{in_direction};

use cp_base::{CycList, Memory};
use cp_pq::{Node, Part, Tree};
use std::alloc::Global;

// The bit of a var.
fn bit(bits: &[bool], var: usize) -> bool
    ensures { result ≡ bit_of bits.now var }
{
    var < bits.len() && bits[var]
}

// The place that comes at turn `i` where a row is read in its order or turned.
fn place(count: usize, turned: bool, i: usize) -> usize
    requires { i < count }
    ensures { result ≡ cond turned (count - 1 - i) i }
{
    if turned { count - 1 - i } else { i }
}

// Appends the leaves of a node as the bits read it. Linear in its size.
#[cycle(words)]
pub(crate) fn push_word(node: &Node, bits: &[bool], word: &mut Vec<usize>) -> Result<(), Memory>
    ensures { OnOk result (word.new.items ≡ word.old.items ++ word_by bits.now node.now) }
{
    match node {
        Node::Leaf(x) => {
            word.push(*x)?;
            Ok(())
        }
        Node::P { kids, .. } => {
            push_words(kids.items(), false, bits, word)?;
            Ok(())
        }
        Node::Q { var, kids } => {
            let turned = bit(bits, *var);
            push_words(kids.items(), turned, bits, word)?;
            Ok(())
        }
    }
}

// Appends the leaves of a row, in its order or turned.
#[cycle(words)]
fn push_words(
    nodes: &[Node],
    turned: bool,
    bits: &[bool],
    word: &mut Vec<usize>,
) -> Result<(), Memory>
    ensures { OnOk result (word.new.items ≡ word.old.items ++ words_by bits.now (in_direction turned nodes.now)) }
{
    for i in 0..nodes.len() {
        push_word(&nodes[place(nodes.len(), turned, i)], bits, word)?;
    }
    Ok(())
}

// Whether the kids of a part with this var are read from the end.
fn is_back(bits: &[bool], var: Option<usize>) -> bool
    ensures { result ≡ is_read_back bits.now var }
{
    match var {
        None => false,
        Some(var) => bit(bits, var),
    }
}

/// Appends the leaves of a part that was taken out of a tree, as the bits read it: a reading of the part wherever the
/// part has one by these bits or by the first of them. A P-node reads its kids as they stand. Linear in the size of the
/// part.
pub fn push_part(part: &Part, bits: &[bool], word: &mut Vec<usize>) -> Result<(), Memory>
    ensures { OnOk result (word.new.items ≡ word.old.items ++ part_word bits.now part.now) }
{
    push_words(part.kids.items(), is_back(bits, part.var), bits, word)?;
    Ok(())
}

/// An order that makes a pair of the tree with the bits, from the root on. A P-node reads its kids as they stand.
/// Linear in the size of the tree.
pub fn order_of(alloc: Global, tree: &Tree, bits: &[bool]) -> Result<CycList, Memory>
    requires one_each { length bits.now ≡ tree.now.vars }
    requires met { AllByRecursion (IsMet bits.now) tree.now.equations }
    ensures { IfOk result (λ order. IsPair tree.now order bits.now) }
{
    let mut word = Vec::new(alloc);
    word.push(tree.root())?;
    push_word(tree.body(), bits, &mut word)?;
    let order = CycList::from_slice(alloc, word.as_slice())?;
    Ok(order)
}
