// A search through the vars, breadth first, along the equations in both directions.
ghost use Rattle.std.specs.Prelude.{◌≡◌, ℕ, ◌+◌, ◌<◌, ◌≤◌, ◌++◌, ◌∷◌, [], Some, None, length, replicate, slice_get, slice_set, IfErr, IfOk, OnOk};
ghost use Rattle.std.specs.List.{All, Contains};
ghost use Rattle.cp_base.specs.declared.equation.Equation.{Equation};
ghost use Rattle.cp_orbits.specs.Connected.{Joins};
ghost use Rattle.cp_parity.specs.declared.found.Found.{Found};
ghost use Rattle.cp_parity.specs.Equations.{IsOverVars, Touches, HasOddCycle};
ghost use Rattle.cp_parity.specs.EquationLists.{AreListed};
ghost use Rattle.cp_parity.specs.Search.{IsSearch, GoesOn, AreDone, IsSettled};

use crate::fault::{ParityFault, Places};
use crate::found::Found;
use crate::odd_cycle::odd_cycle;
use cp_base::{Equation, Memory};
use std::alloc::Global;

// A search: what it has found, in order, and for each var its place in this order.
#[derive(Drop)]
pub(crate) struct Search {
    pub(crate) found: Vec<Found>,
    pub(crate) places: Vec<Option<usize>>,
}

// A search that has found nothing.
pub(crate) fn empty_search(alloc: Global, vars: usize) -> Result<Search, Memory>
    ensures found { IfOk result (λ search. search.found.items ≡ []) }
    ensures places { IfOk result (λ search. search.places.items ≡ replicate vars None) }
{
    let places = vec![in alloc; None; vars]?;
    Ok(Search {
        found: Vec::new(alloc),
        places,
    })
}

// Finds a var.
pub(crate) fn find(search: &mut Search, found: Found) -> Result<(), Memory>
    requires { found.var < length search.old.places.items }
    ensures found { OnOk result (search.new.found.items ≡ search.old.found.items ++ found ∷ []) }
    ensures places { OnOk result (search.new.places.items ≡ slice_set search.old.places.items found.var (Some (length search.old.found.items))) }
{
    search.places[found.var] = Some(search.found.len());
    search.found.push(found)?;
    Ok(())
}

// The other var of an equation of `var`.
fn other_var(equation: Equation, var: usize) -> usize
    requires { Touches equation var }
    ensures { Joins (equation.x, equation.y) var result }
{
    if equation.x == var {
        equation.y
    } else {
        equation.x
    }
}

// Follows an equation of the var at a place: finds its other var, or tests the bits of both.
fn follow(
    alloc: Global,
    eqs: &[Equation],
    link: usize,
    from: usize,
    root: usize,
    search: &mut Search,
) -> Result<(), ParityFault>
    requires vars_within { All (IsOverVars (length search.old.places.items)) eqs.now }
    requires link_within { link < length eqs.now }
    requires from_within { from < length search.old.found.items }
    requires below { root ≤ from }
    requires is_search { IsSearch eqs.now root search.old.found.items search.old.places.items }
    requires done { AreDone eqs.now root search.old.found.items from }
    requires touches { (e : Equation) (f : Found) → slice_get eqs.now link ≡ Some e → slice_get search.old.found.items from ≡ Some f → Touches e f.var }
    ensures goes_on { OnOk result (GoesOn eqs.now root search.old.found.items search.old.places.items search.new.found.items search.new.places.items) }
    ensures settled { OnOk result ((e : Equation) → slice_get eqs.now link ≡ Some e → IsSettled root search.new.found.items e) }
    ensures odd_cycle { IfErr result (HasOddCycle eqs.now) }
{
    let equation = eqs[link];
    let above = search.found[from];
    let var = other_var(equation, above.var);
    let bit = above.bit ^ equation.odd;
    match search.places[var] {
        None => {
            find(
                search,
                Found {
                    var,
                    bit,
                    up: from,
                    link,
                },
            )?;
            Ok(())
        }
        Some(to) => {
            if search.found[to].bit == bit {
                return Ok(());
            }
            let cycle = odd_cycle(alloc, search.found.as_slice(), from, to, root, link)?;
            Err(ParityFault::Conflict { cycle })
        }
    }
}

// Follows all equations of the var at a place.
fn follow_all(
    alloc: Global,
    eqs: &[Equation],
    lists: &[Places],
    from: usize,
    root: usize,
    search: &mut Search,
) -> Result<(), ParityFault>
    requires vars_within { All (IsOverVars (length search.old.places.items)) eqs.now }
    requires listed { AreListed eqs.now (length search.old.places.items) (length eqs.now) lists.now }
    requires from_within { from < length search.old.found.items }
    requires below { root ≤ from }
    requires is_search { IsSearch eqs.now root search.old.found.items search.old.places.items }
    requires done { AreDone eqs.now root search.old.found.items from }
    ensures goes_on { OnOk result (GoesOn eqs.now root search.old.found.items search.old.places.items search.new.found.items search.new.places.items) }
    ensures done { OnOk result (AreDone eqs.now root search.new.found.items (from + 1)) }
    ensures odd_cycle { IfErr result (HasOddCycle eqs.now) }
{
    let var = search.found[from].var;
    let links = lists[var].items();
    for link in links {
        follow(alloc, eqs, *link, from, root, search)?;
    }
    Ok(())
}

// Finds all vars that equations tie to the root, and tests all their equations.
pub(crate) fn run(
    alloc: Global,
    eqs: &[Equation],
    lists: &[Places],
    root: usize,
    search: &mut Search,
) -> Result<(), ParityFault>
    requires vars_within { All (IsOverVars (length search.old.places.items)) eqs.now }
    requires listed { AreListed eqs.now (length search.old.places.items) (length eqs.now) lists.now }
    requires root_within { root ≤ length search.old.found.items }
    requires is_search { IsSearch eqs.now root search.old.found.items search.old.places.items }
    requires done { AreDone eqs.now root search.old.found.items root }
    ensures goes_on { OnOk result (GoesOn eqs.now root search.old.found.items search.old.places.items search.new.found.items search.new.places.items) }
    ensures done { OnOk result (AreDone eqs.now root search.new.found.items (length search.new.found.items)) }
    ensures odd_cycle { IfErr result (HasOddCycle eqs.now) }
{
    let mut done = root;
    while done < search.found.len() {
        follow_all(alloc, eqs, lists, done, root, search)?;
        done += 1;
    }
    Ok(())
}
