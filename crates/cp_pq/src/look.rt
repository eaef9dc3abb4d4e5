// What the nodes of a tree are against a set of leaves, found by reading alone.
ghost use Rattle.std.specs.Prelude.{◌≡◌, ◌<◌, ◌^◌, ◌+◌, ℕ, true, false, not, ◌&&◌, List, [], ◌∷◌, ◌++◌, length, take, IfOk};
ghost use Rattle.std.specs.List.Sorted.{IsStrictlyIncreasing};
ghost use Rattle.cp_pq.specs.declared.node.Node.{Node};
ghost use Rattle.cp_pq.specs.declared.node.Node.TheVariants.{Leaf};
ghost use Rattle.cp_pq.specs.Orders.{inside};
ghost use Rattle.cp_pq.specs.declared.frame.Label.{Label};
ghost use Rattle.cp_pq.specs.Frames.{node_of};
ghost use Rattle.cp_pq.specs.Marks.{IsLooked};

use crate::node::Node;
use cp_base::{Items, Memory};

/// What a node or a row of nodes is against the set.
#[derive(Clone, Copy)]
pub struct Mark {
    /// How many of its leaves are in the set.
    pub count: usize,
    /// Whether no leaf is.
    pub outs: bool,
    /// Whether all are.
    pub ins: bool,
}

/// A stack of marks: those of the inner nodes of a tree, kids before their parent, but for the nodes below one that is
/// outside or inside as a whole.
pub type Marks = Items<Mark>;

impl Mark {
    /// Whether all leaves are outside, or all are inside; but not both, as where there is none.
    pub fn is_whole(self) -> bool
        ensures whole { result ≡ true → self.outs ≡ not self.ins }
        ensures parted { result ≡ false → self.outs ≡ self.ins }
    {
        self.outs != self.ins
    }

    /// Whether it has leaves and all are outside.
    pub fn is_out(self) -> bool
        ensures { result ≡ (self.outs && not self.ins) }
    {
        self.outs && !self.ins
    }

    /// Whether it has leaves and all are inside.
    pub fn is_in(self) -> bool
        ensures { result ≡ (self.ins && not self.outs) }
    {
        self.ins && !self.outs
    }

    /// The mark of the row with one more node.
    fn with(self, next: Mark) -> Mark
        ensures outs { result.outs ≡ (self.outs && next.outs) }
        ensures ins { result.ins ≡ (self.ins && next.ins) }
        ensures count { self.count + next.count < 2 ^ 64 → result.count ≡ self.count + next.count }
    {
        Mark {
            count: self.count.saturating_add(next.count),
            outs: self.outs && next.outs,
            ins: self.ins && next.ins,
        }
    }
}

/// Whether the leaf is in the set, which is rising. Logarithmic in the set.
pub fn is_in_set(set: &[usize], x: usize) -> bool
    ensures { IsStrictlyIncreasing set.now → result ≡ inside set.now x }
{
    set.binary_search(&x).is_ok()
}

/// The mark of a leaf.
fn leaf_mark(x: usize, set: &[usize]) -> Mark
    ensures { (marks : List Mark) → IsLooked set.now (Leaf x ∷ []) marks marks result }
{
    if is_in_set(set, x) {
        return Mark {
            count: 1,
            outs: false,
            ins: true,
        };
    }
    Mark {
        count: 0,
        outs: true,
        ins: false,
    }
}

/// The last of the marks and the others. Where there is none, a mark of a node that is neither outside nor inside.
pub fn last_mark(marks: Marks) -> (Mark, Marks)
    ensures { (before : List Mark) (m : Mark) → marks ≡ before ++ m ∷ [] → (result.0 ≡ m) × (result.1 ≡ before) }
{
    let mut left = marks;
    match left.pop() {
        Some(mark) => (mark, left),
        None => (
            Mark {
                count: 0,
                outs: false,
                ins: false,
            },
            left,
        ),
    }
}

/// The first of the marks, so many. Linear in the others.
fn shortened(marks: Marks, count: usize) -> Marks
    ensures { result ≡ take count marks }
{
    let mut left = marks;
    while left.len() > count {
        left.pop();
    }
    left
}

/// The marks with that of an inner node, whose kids have their marks behind the first `start`.
fn closed(marks: Marks, start: usize, mark: Mark) -> Result<Marks, Memory>
    ensures { IfOk result (λ all. (set : List ℕ) (label : Label) (ks : List Node) (old : List Mark) → start ≡ length old
        → IsLooked set ks old marks mark → IsLooked set (node_of label ks ∷ []) old all mark) }
{
    if mark.is_whole() {
        let mut first = shortened(marks, start);
        first.push(mark)?;
        return Ok(first);
    }
    let mut all = marks;
    all.push(mark)?;
    Ok(all)
}

/// The mark of the node, and the marks of its inner nodes behind the others. One pass over the node; each leaf is looked
/// up in the set.
#[cycle(looks)]
pub fn look(node: &Node, set: &[usize], marks: Marks) -> Result<(Mark, Marks), Memory>
    ensures { IfOk result (λ r. IsLooked set.now (node.now ∷ []) marks r.1 r.0) }
{
    let start = marks.len();
    match node {
        Node::Leaf(x) => Ok((leaf_mark(*x, set), marks)),
        Node::P { kids, .. } => {
            let (mark, seen) = look_row(kids.items(), set, marks)?;
            Ok((mark, closed(seen, start, mark)?))
        }
        Node::Q { kids: row, .. } => {
            let (row_mark, row_seen) = look_row(row.items(), set, marks)?;
            Ok((row_mark, closed(row_seen, start, row_mark)?))
        }
    }
}

/// The mark of the row, and the marks of its inner nodes behind the others.
#[cycle(looks)]
fn look_row(kids: &[Node], set: &[usize], marks: Marks) -> Result<(Mark, Marks), Memory>
    ensures { IfOk result (λ r. IsLooked set.now kids.now marks r.1 r.0) }
{
    let mut sum = Mark {
        count: 0,
        outs: true,
        ins: true,
    };
    let mut seen = marks;
    for kid in kids {
        let (mark, more) = look(kid, set, seen)?;
        seen = more;
        sum = sum.with(mark);
    }
    Ok((sum, seen))
}
