// Bits that meet all equations.
ghost use Rattle.std.specs.Prelude.{◌≡◌, ℕ, ◌+◌, ◌<◌, Bool, List, length, IfErr, IfOk, OnOk};
ghost use Rattle.std.specs.List.{All};
ghost use Rattle.cp_parity.specs.Equations.{IsOverVars, IsMet, HasOddCycle, HaveNoBits};
ghost use Rattle.cp_parity.specs.EquationLists.{AreListed};
ghost use Rattle.cp_parity.specs.Search.{ArePlaced, AreAllDone, IsFound, HasBits};

use crate::equation_lists::equations_by_var;
use crate::fault::{ParityFault, Places};
use crate::found::Found;
use crate::search::{Search, empty_search, find, run};
use cp_base::{Equation, Memory};
use std::alloc::Global;

// Searches from a var, where it was not found before.
fn visit(
    alloc: Global,
    eqs: &[Equation],
    lists: &[Places],
    var: usize,
    search: &mut Search,
) -> Result<(), ParityFault>
    requires vars_within { All (IsOverVars (length search.old.places.items)) eqs.now }
    requires listed { AreListed eqs.now (length search.old.places.items) (length eqs.now) lists.now }
    requires var_within { var < length search.old.places.items }
    requires placed { ArePlaced search.old.found.items search.old.places.items }
    requires done { AreAllDone eqs.now search.old.found.items }
    requires lower { (x : ℕ) → x < var → IsFound search.old.found.items x }
    ensures size { OnOk result (length search.new.places.items ≡ length search.old.places.items) }
    ensures placed { OnOk result (ArePlaced search.new.found.items search.new.places.items) }
    ensures done { OnOk result (AreAllDone eqs.now search.new.found.items) }
    ensures more { OnOk result ((x : ℕ) → x < var + 1 → IsFound search.new.found.items x) }
    ensures odd_cycle { IfErr result (HasOddCycle eqs.now) }
{
    if search.places[var].is_some() {
        return Ok(());
    }
    let root = search.found.len();
    find(
        search,
        Found {
            var,
            bit: false,
            up: root,
            link: 0,
        },
    )?;
    run(alloc, eqs, lists, root, search)?;
    Ok(())
}

// The bits of all vars that were found.
fn bits_of(alloc: Global, search: &Search) -> Result<Vec<bool>, Memory>
    requires { ArePlaced search.now.found.items search.now.places.items }
    ensures size { IfOk result (λ bits. length bits.items ≡ length search.now.places.items) }
    ensures bits { IfOk result (λ bits. HasBits search.now.found.items (length search.now.found.items) bits.items) }
{
    let mut bits = vec![in alloc; false; search.places.len()]?;
    for f in &search.found {
        bits[f.var] = f.bit;
    }
    Ok(bits)
}

/// Bits that meet all equations, one for each var. Linear in the numbers of vars and equations.
pub fn solve(alloc: Global, vars: usize, eqs: &[Equation]) -> Result<Vec<bool>, ParityFault>
    requires { All (IsOverVars vars) eqs.now }
    ensures size { IfOk result (λ bits. length bits.items ≡ vars) }
    ensures met { IfOk result (λ bits. All (IsMet bits.items) eqs.now) }
    ensures odd_cycle { IfErr result (HasOddCycle eqs.now) }
    ensures none { IfErr result (HaveNoBits eqs.now) }
{
    let lists = equations_by_var(alloc, vars, eqs)?;
    let mut search = empty_search(alloc, vars)?;
    for var in 0..vars {
        visit(alloc, eqs, lists.as_slice(), var, &mut search)?;
    }
    let bits = bits_of(alloc, &search)?;
    Ok(bits)
}
