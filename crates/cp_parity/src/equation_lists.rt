// The equations of each var.
ghost use Rattle.std.specs.Prelude.{◌≡◌, [], length, replicate, IfOk};
ghost use Rattle.std.specs.List.{All};
ghost use Rattle.cp_parity.specs.Equations.{IsOverVars};
ghost use Rattle.cp_parity.specs.EquationLists.{AreListed};

use crate::fault::Places;
use cp_base::{Equation, Items, Memory};
use std::alloc::Global;

// An empty list for each var.
fn empty_lists(alloc: Global, vars: usize) -> Result<Vec<Places>, Memory>
    ensures { IfOk result (λ lists. lists.items ≡ replicate vars []) }
{
    let mut lists = Vec::with_capacity(alloc, vars)?;
    for _ in 0..vars {
        lists.push(Items::new(alloc))?;
    }
    Ok(lists)
}

// The places of the equations of each var. Linear in the numbers of vars and equations.
pub(crate) fn equations_by_var(
    alloc: Global,
    vars: usize,
    eqs: &[Equation],
) -> Result<Vec<Places>, Memory>
    requires { All (IsOverVars vars) eqs.now }
    ensures { IfOk result (λ lists. AreListed eqs.now vars (length eqs.now) lists.items) }
{
    let mut lists = empty_lists(alloc, vars)?;
    for place in 0..eqs.len() {
        let equation = eqs[place];
        lists[equation.x].push(place)?;
        lists[equation.y].push(place)?;
    }
    Ok(lists)
}
