// A closed walk of equations with an odd number of odd ones.
ghost use Rattle.std.specs.Prelude.{◌≡◌, ◌++◌, ◌<◌, ◌≤◌, Some, length, reverse, slice_get, IfOk, OnOk, List, ℕ};
ghost use Rattle.cp_base.specs.declared.equation.Equation.{Equation};
ghost use Rattle.cp_orbits.specs.Connected.{Joins};
ghost use Rattle.cp_parity.specs.declared.found.Found.{Found};
ghost use Rattle.cp_parity.specs.Equations.{differ, IsOddCycle};
ghost use Rattle.cp_parity.specs.Search.{AreRooted, IsTree, Leads};

use crate::fault::Places;
use crate::found::Found;
use cp_base::{Items, Memory};
use std::alloc::Global;

// The links from a var that was found up to the root of its search. Linear in their number.
fn climb(alloc: Global, found: &[Found], from: usize, root: usize) -> Result<Places, Memory>
    requires rooted { AreRooted root found.now }
    requires from_within { from < length found.now }
    requires below { root ≤ from }
    ensures { IfOk result (λ walk. (eqs : List Equation) (f g : Found) → IsTree eqs root found.now → slice_get found.now from ≡ Some f → slice_get found.now root ≡ Some g → Leads eqs f walk g) }
{
    let mut walk = Items::new(alloc);
    let mut place = from;
    while place > root {
        let Found { up, link, .. } = found[place];
        walk.push(link)?;
        place = up;
    }
    Ok(walk)
}

// Appends the items of a list, the last one first.
fn append_reversed(items: &mut Places, mut others: Places) -> Result<(), Memory>
    ensures { OnOk result (items.new ≡ items.old ++ reverse others) }
{
    while let Some(item) = others.pop() {
        items.push(item)?;
    }
    Ok(())
}

// The walk from a var up to the root, down to another var and back by an equation that their bits do not meet.
pub(crate) fn odd_cycle(
    alloc: Global,
    found: &[Found],
    from: usize,
    to: usize,
    root: usize,
    link: usize,
) -> Result<Places, Memory>
    requires rooted { AreRooted root found.now }
    requires from_within { from < length found.now }
    requires from_below { root ≤ from }
    requires to_within { to < length found.now }
    requires to_below { root ≤ to }
    ensures { IfOk result (λ cycle. (eqs : List Equation) (e : Equation) (f g : Found) → IsTree eqs root found.now → slice_get found.now from ≡ Some f → slice_get found.now to ≡ Some g → slice_get eqs link ≡ Some e → Joins (e.x, e.y) g.var f.var → (differ f.bit g.bit ≡ e.odd → ⊥) → IsOddCycle eqs cycle) }
{
    let mut cycle = climb(alloc, found, from, root)?;
    let down = climb(alloc, found, to, root)?;
    append_reversed(&mut cycle, down)?;
    cycle.push(link)?;
    Ok(cycle)
}
