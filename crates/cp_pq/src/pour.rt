// A row of compared nodes made one line.
ghost use Rattle.std.specs.Prelude.{◌≡◌, ◌∷◌, ◌++◌, [], ◌||◌, reverse};
ghost use Rattle.std.specs.List.{list_any};
ghost use Rattle.std.specs.Result.{OnOk, IfOk};
ghost use Rattle.cp_pq.specs.Founds.{is_torn, flat_line, flat_ties};

use crate::found::{Found, Founds, Ties};
use crate::lists::{joined, reversed, with_reversed};
use crate::node::Nodes;
use cp_base::{Items, Memory};
use std::alloc::Global;

/// The line of a row: its first half stands in `front` from last to first.
#[derive(Drop)]
pub struct Poured {
    pub front: Nodes,
    pub back: Nodes,
    pub ties: Ties,
    pub torn: bool,
}

/// Two lines one behind the other. Linear in the first half of the first one and in what stands behind it.
fn line_behind(alloc: Global, front: Nodes, back: Nodes, next_front: Nodes) -> Result<Nodes, Memory>
    ensures { IfOk result (λ all. reverse all ≡ (reverse front ++ back) ++ reverse next_front) }
{
    let half = with_reversed(next_front, back)?;
    joined(alloc, half, front)
}

impl Poured {
    /// Adds the line of one more node. Linear in what has been added so far where this node is a line, and otherwise
    /// constant.
    pub fn add(self, alloc: Global, found: Found) -> Result<Poured, Memory>
        ensures line { IfOk result (λ r. reverse r.front ++ r.back ≡ (reverse self.front ++ self.back) ++ flat_line (found ∷ [])) }
        ensures ties { IfOk result (λ r. r.ties ≡ flat_ties (found ∷ []) ++ self.ties) }
        ensures torn { IfOk result (λ r. r.torn ≡ (self.torn || is_torn found)) }
    {
        let Poured {
            front,
            back,
            ties,
            torn,
        } = self;
        match found {
            Found::Out(node) | Found::In(node) => {
                let mut back = back;
                back.push(node)?;
                Ok(Poured {
                    front,
                    back,
                    ties,
                    torn,
                })
            }
            Found::Line {
                front: next_front,
                back: next_back,
                ties: next_ties,
            } => {
                let half = line_behind(alloc, front, back, next_front)?;
                let all_ties = joined(alloc, next_ties, ties)?;
                Ok(Poured {
                    front: half,
                    back: next_back,
                    ties: all_ties,
                    torn,
                })
            }
            Found::Torn => Ok(Poured {
                front,
                back,
                ties,
                torn: true,
            }),
        }
    }
}

/// The line of a row, which is given from its end, and its ties before the given ones. Linear in the row, where at most
/// one of its nodes is a line.
pub fn pour(alloc: Global, founds: Founds, ties: Ties) -> Result<Poured, Memory>
    ensures line { IfOk result (λ r. reverse r.front ++ r.back ≡ flat_line (reverse founds)) }
    ensures ties { IfOk result (λ r. r.ties ≡ flat_ties founds ++ ties) }
    ensures torn { IfOk result (λ r. r.torn ≡ list_any is_torn founds) }
{
    let mut poured = Poured {
        front: Items::new(alloc),
        back: Items::new(alloc),
        ties,
        torn: false,
    };
    let mut left = founds;
    while let Some(found) = left.pop() {
        poured = poured.add(alloc, found)?;
    }
    Ok(poured)
}

/// The line as one row. Linear in it.
pub fn whole_row(alloc: Global, front: Nodes, back: Nodes) -> Result<Nodes, Memory>
    ensures { IfOk result (λ row. row ≡ reverse front ++ back) }
{
    let half = reversed(alloc, front)?;
    joined(alloc, half, back)
}

/// The nodes of a row, which is given from its end. Linear in the row.
pub fn row_of(alloc: Global, founds: Founds) -> Result<Nodes, Memory>
    ensures { IfOk result (λ row. row ≡ flat_line (reverse founds)) }
{
    let poured = pour(alloc, founds, Items::new(alloc))?;
    let Poured { front, back, .. } = poured;
    whole_row(alloc, front, back)
}
