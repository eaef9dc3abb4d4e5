// The order of the edges of a vertex, read from the lists of the tree that was planted in its place.
ghost use Rattle.std.specs.Prelude.{◌≡◌, ℕ, suc, ◌+◌, ◌≤◌, ◌∷◌, ◌++◌, drop, length, map, reverse, take, IfOk, OnOk};
ghost use Rattle.std.specs.List.{All, Contains, zip};
ghost use Rattle.std.specs.List.Sorted.{IsStrictlyIncreasing};
ghost use Rattle.cp_board.specs.Solutions.{list_in};
ghost use Rattle.cp_plant.specs.TreeWords.{behind, in_front, read, read_tree, round_from, vertex_below};

use cp_base::Memory;
use cp_sync::Solution;
use std::alloc::Global;

// The place of the first `x`, or the length of a list without it. Linear.
fn first_place(list: &[usize], x: usize) -> usize
    ensures within { result ≤ length list.now }
    ensures front { take result list.now ≡ in_front x list.now }
    ensures behind { drop (result + 1) list.now ≡ behind x list.now }
{
    for (place, item) in list.iter().enumerate() {
        if *item == x {
            return place;
        }
    }
    list.len()
}

// Puts the edges of a cyclic list, from behind `x` round to in front of it, on the pile. Linear in the list.
fn push_round(list: &[usize], x: usize, pile: &mut Vec<usize>) -> Result<(), Memory>
    ensures { OnOk result (pile.new.items ≡ pile.old.items ++ round_from x list.now) }
{
    let place = first_place(list, x);
    if place < list.len() {
        pile.extend_from_slice(&list[place + 1..])?;
    }
    pile.extend_from_slice(&list[..place])?;
    Ok(())
}

// The vertex below an edge from above, if it is one: of the root edge, or of one of the others. Logarithmic.
fn found_vertex(root: usize, edges: &[usize], verts: &[usize], x: usize) -> Option<usize>
    requires rising { IsStrictlyIncreasing edges.now }
    requires one_each { length verts.now ≡ length edges.now + 1 }
    ensures { result ≡ vertex_below (zip (root ∷ edges.now) verts.now) x }
{
    if x == root {
        return Some(verts[0]);
    }
    match edges.binary_search(&x) {
        Ok(place) => Some(verts[place + 1]),
        Err(_) => None,
    }
}

// Reads an edge that was on top of the pile: it goes to the word, or the edges below it go on the pile. Linear in the
// list of the vertex below it, up to a logarithm.
fn read_edge(
    root: usize,
    edges: &[usize],
    verts: &[usize],
    after: &Solution,
    x: usize,
    pile: &mut Vec<usize>,
    word: &mut Vec<usize>,
) -> Result<(), Memory>
    requires rising { IsStrictlyIncreasing edges.now }
    requires one_each { length verts.now ≡ length edges.now + 1 }
    requires live { All (Contains (map (λ row. row.0) after.now)) verts.now }
    ensures { OnOk result ((n : ℕ) → word.new.items ++ read (zip (root ∷ edges.now) verts.now) (list_in after.now) n (reverse pile.new.items) ≡ word.old.items ++ read (zip (root ∷ edges.now) verts.now) (list_in after.now) (suc n) (x ∷ reverse pile.old.items)) }
{
    match found_vertex(root, edges, verts, x) {
        Some(v) => push_round(after.list_of(v).items(), x, pile),
        None => {
            word.push(x)?;
            Ok(())
        }
    }
}

// Reads the edge on top of the pile, if there is one. Linear in the list of the vertex below it, up to a logarithm.
fn read_top(
    root: usize,
    edges: &[usize],
    verts: &[usize],
    after: &Solution,
    pile: &mut Vec<usize>,
    word: &mut Vec<usize>,
) -> Result<(), Memory>
    requires rising { IsStrictlyIncreasing edges.now }
    requires one_each { length verts.now ≡ length edges.now + 1 }
    requires live { All (Contains (map (λ row. row.0) after.now)) verts.now }
    ensures { OnOk result ((n : ℕ) → word.new.items ++ read (zip (root ∷ edges.now) verts.now) (list_in after.now) n (reverse pile.new.items) ≡ word.old.items ++ read (zip (root ∷ edges.now) verts.now) (list_in after.now) (suc n) (reverse pile.old.items)) }
{
    match pile.pop() {
        Some(x) => read_edge(root, edges, verts, after, x, pile, word),
        None => Ok(()),
    }
}

// What is read of a pile of edges in some steps, the last edge first. Linear in the lists, up to a logarithm.
fn read_pile(
    alloc: Global,
    root: usize,
    edges: &[usize],
    verts: &[usize],
    after: &Solution,
    first: Vec<usize>,
    steps: usize,
) -> Result<Vec<usize>, Memory>
    requires rising { IsStrictlyIncreasing edges.now }
    requires one_each { length verts.now ≡ length edges.now + 1 }
    requires live { All (Contains (map (λ row. row.0) after.now)) verts.now }
    ensures { IfOk result (λ word. word.items ≡ read (zip (root ∷ edges.now) verts.now) (list_in after.now) steps (reverse first.items)) }
{
    let mut pile = first;
    let mut word = Vec::new(alloc);
    for _step in 0..steps {
        read_top(root, edges, verts, after, &mut pile, &mut word)?;
    }
    Ok(word)
}

// The word of a tree, from its last edge to its root edge, by the root edge, the other edges from above, and the vertices
// below them all. Linear in the lists, up to a logarithm.
pub(crate) fn word_of_tree(
    alloc: Global,
    root: usize,
    edges: &[usize],
    verts: &[usize],
    after: &Solution,
    steps: usize,
) -> Result<Vec<usize>, Memory>
    requires rising { IsStrictlyIncreasing edges.now }
    requires one_each { length verts.now ≡ length edges.now + 1 }
    requires live { All (Contains (map (λ row. row.0) after.now)) verts.now }
    ensures { IfOk result (λ word. word.items ≡ read_tree (zip (root ∷ edges.now) verts.now) (list_in after.now) steps root) }
{
    let mut first = Vec::new(alloc);
    first.push(root)?;
    let mut word = read_pile(alloc, root, edges, verts, after, first, steps)?;
    word.push(root)?;
    Ok(word)
}
