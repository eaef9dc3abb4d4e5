// Nodes fitted to an order of their leaves.
ghost use Rattle.std.specs.Prelude.{◌≡◌, ◌≤◌, ℕ, Bool, true, false, List, length, reverse, IfOk, IsTrue, ◌↔◌, MatchOption, ◌++◌, ◌∷◌, []};
ghost use Rattle.std.specs.List.{list_all, AllZip};
ghost use Rattle.cp_lists.specs.CyclicLists.{Distinct};
ghost use Rattle.cp_pq.specs.declared.node.Node.{Node};
ghost use Rattle.cp_pq.specs.declared.node.Node.TheVariants.{Leaf, P, Q};
ghost use Rattle.cp_pq.specs.Nodes.{is_branching};
ghost use Rattle.cp_pq.specs.Readings.{Reads, ReadsAll};
ghost use Rattle.cp_pq.specs.Promises.{in_direction};
ghost use Rattle.cp_force.specs.Fits.{place_in, Rises, IsFitted, IsFittedRow, IsTiedReading, IsTiedRow, words_of, ties_of, first_key, is_turned};

use cp_base::Memory;
use cp_pq::Node;
use std::alloc::Global;
use std::collections::{HashMap, LinkedList};

/// Vars with the bit that each takes.
pub(crate) type Ties = LinkedList<(usize, bool)>;

/// The place of each leaf of an order.
type Places = HashMap<usize, usize>;

/// What a node reads where its leaves stand by rising places.
#[derive(Drop)]
pub(crate) struct Fitted {
    /// The place of one of its leaves.
    key: usize,
    word: LinkedList<usize>,
    ties: Ties,
}

// The places of the leaves of an order. Linear in the order.
fn places_of(alloc: Global, order: &[usize]) -> Result<Places, Memory>
    ensures { IfOk result (λ places. Distinct order.now → Rises (place_in places) order.now) }
{
    let mut places = HashMap::new(alloc);
    for i in 0..order.len() {
        places.insert(order[i], i)?;
    }
    Ok(places)
}

// The place of a leaf.
fn place(places: &Places, leaf: usize) -> usize
    ensures { result ≡ place_in places.now leaf }
{
    places.get(&leaf).copied().unwrap_or(0)
}

// A leaf reads itself.
fn fit_leaf(alloc: Global, leaf: usize, places: &Places) -> Result<Fitted, Memory>
    ensures { IfOk result (λ f. IsFitted (place_in places.now) (Leaf leaf) f) }
{
    let key = place(places, leaf);
    let mut word = LinkedList::new(alloc);
    word.push_back(leaf)?;
    Ok(Fitted {
        key,
        word,
        ties: LinkedList::new(alloc),
    })
}

// The words and the ties of a row, one behind the other. Linear in the row.
fn joined(alloc: Global, key: usize, row: Vec<Fitted>) -> Result<Fitted, Memory>
    ensures key { IfOk result (λ f. f.key ≡ key) }
    ensures word { IfOk result (λ f. f.word ≡ words_of row.items) }
    ensures ties { IfOk result (λ f. f.ties ≡ ties_of row.items) }
{
    let mut word = LinkedList::new(alloc);
    let mut ties = LinkedList::new(alloc);
    for mut fitted in row {
        word.append(&mut fitted.word)?;
        ties.append(&mut fitted.ties)?;
    }
    Ok(Fitted { key, word, ties })
}

// The key of the first node of a row.
fn key_of(row: &[Fitted]) -> usize
    ensures { result ≡ first_key row.now }
{
    if row.is_empty() { 0 } else { row[0].key }
}

// Whether the second node of a row comes before the first.
fn comes_turned(row: &[Fitted]) -> bool
    ensures { result ≡ is_turned row.now }
{
    row.len() > 1 && row[1].key < row[0].key
}

// A P-node reads its kids by their keys. As the kids are sorted, n log n in their number.
fn fit_p(alloc: Global, row: Vec<Fitted>) -> Result<Fitted, Memory>
    ensures { IfOk result (λ f. (place : ℕ → ℕ) (owner : ℕ) (kids : List Node) → AllZip (IsFitted place) kids row.items
        → 2 ≤ length kids → IsFitted place (P owner kids) f) }
{
    let key = key_of(row.as_slice());
    let mut sorted = row;
    sorted.sort_unstable_by_key(|fitted| fitted.key);
    let fitted = joined(alloc, key, sorted)?;
    Ok(fitted)
}

// A row reads in the direction in which its first two nodes rise.
fn fit_directed(alloc: Global, row: Vec<Fitted>) -> Result<(bool, Fitted), Memory>
    ensures { IfOk result (λ r. (place : ℕ → ℕ) (kids : List Node) → AllZip (IsFitted place) kids row.items
        → 2 ≤ length kids → IsFittedRow place kids r.0 r.1) }
{
    let key = key_of(row.as_slice());
    let turned = comes_turned(row.as_slice());
    let directed = directed(row, turned);
    let fitted = joined(alloc, key, directed)?;
    Ok((turned, fitted))
}

/// The ties, and behind them one more.
pub(crate) fn with_tie(ties: Ties, var: usize, turned: bool) -> Result<Ties, Memory>
    ensures { IfOk result (λ all. all ≡ ties ++ (var, turned) ∷ []) }
{
    let mut all = ties;
    all.push_back((var, turned))?;
    Ok(all)
}

// A Q-node is tied to the direction of its kids.
fn fit_q(alloc: Global, var: usize, row: Vec<Fitted>) -> Result<Fitted, Memory>
    ensures { IfOk result (λ f. (place : ℕ → ℕ) (kids : List Node) → AllZip (IsFitted place) kids row.items
        → 2 ≤ length kids → IsFitted place (Q var kids) f) }
{
    let (turned, row_fitted) = fit_directed(alloc, row)?;
    let Fitted { key, word, ties } = row_fitted;
    let all = with_tie(ties, var, turned)?;
    Ok(Fitted {
        key,
        word,
        ties: all,
    })
}

// The row, or the row from its end.
fn directed(row: Vec<Fitted>, turned: bool) -> Vec<Fitted>
    ensures { result.items ≡ in_direction turned row.items }
{
    let mut row = row;
    if turned {
        row.reverse();
    }
    row
}

// What a node reads where its leaves stand by rising places. One pass over the node, whose kids at P-nodes are sorted.
#[cycle(fits)]
fn fit_node(alloc: Global, node: &Node, places: &Places) -> Result<Fitted, Memory>
    ensures { IfOk result (λ f. IsTrue (is_branching node.now) → IsFitted (place_in places.now) node.now f) }
{
    match node {
        Node::Leaf(x) => fit_leaf(alloc, *x, places),
        Node::P { kids, .. } => {
            let row = fit_row(alloc, kids.items(), places)?;
            fit_p(alloc, row)
        }
        Node::Q { var, kids } => {
            let kids_row = fit_row(alloc, kids.items(), places)?;
            fit_q(alloc, *var, kids_row)
        }
    }
}

// The same of each node of a row.
#[cycle(fits)]
fn fit_row(alloc: Global, nodes: &[Node], places: &Places) -> Result<Vec<Fitted>, Memory>
    ensures { IfOk result (λ row. list_all is_branching nodes.now ≡ true
        → AllZip (IsFitted (place_in places.now)) nodes.now row.items) }
{
    let mut row = Vec::new(alloc);
    for node in nodes {
        row.push(fit_node(alloc, node, places)?)?;
    }
    Ok(row)
}

// Whether the word is the order. Linear in the order.
fn is_order(word: LinkedList<usize>, order: &[usize]) -> bool
    ensures { IsTrue result ↔ (word ≡ order.now) }
{
    let mut left = word;
    for leaf in order {
        match left.pop_front() {
            Some(x) if x == *leaf => {}
            _ => return false,
        }
    }
    left.is_empty()
}

/// The ties under which the order is a reading of the node, or `None` where it is none whatever the bits. The cost is n
/// log n in the size of the node.
pub(crate) fn fit(alloc: Global, node: &Node, order: &[usize]) -> Result<Option<Ties>, Memory>
    requires branching { IsTrue (is_branching node.now) }
    requires distinct { Distinct order.now }
    ensures { IfOk result (λ r. MatchOption r ((may : ℕ → Bool → Bool) → Reads may node.now order.now → ⊥)
        (IsTiedReading node.now order.now)) }
{
    let places = places_of(alloc, order)?;
    let node_fitted = fit_node(alloc, node, &places)?;
    let Fitted { word, ties, .. } = node_fitted;
    if is_order(word, order) {
        return Ok(Some(ties));
    }
    Ok(None)
}

/// The direction and the ties in which the order is a reading of the row, or `None` where it is none in either
/// direction. The cost is n log n in the size of the row.
pub(crate) fn fit_run(
    alloc: Global,
    nodes: &[Node],
    order: &[usize],
) -> Result<Option<(bool, Ties)>, Memory>
    requires branching { list_all is_branching nodes.now ≡ true }
    requires two { 2 ≤ length nodes.now }
    requires distinct { Distinct order.now }
    ensures { IfOk result (λ r. MatchOption r
        ((may : ℕ → Bool → Bool) (way : Bool) → ReadsAll may (in_direction way nodes.now) order.now → ⊥)
        (λ run. IsTiedRow nodes.now order.now run.0 run.1)) }
{
    let places = places_of(alloc, order)?;
    let row = fit_row(alloc, nodes, &places)?;
    let (turned, row_fitted) = fit_directed(alloc, row)?;
    let Fitted { word, ties, .. } = row_fitted;
    if is_order(word, order) {
        return Ok(Some((turned, ties)));
    }
    Ok(None)
}
