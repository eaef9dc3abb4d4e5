// A list of numbers that is meant up to turning.
ghost use Rattle.std.specs.Prelude.{◌≡◌, ◌<◌, ◌↔◌, All, IfOk, IsTrue, length, reverse, slice_index_or, false};
ghost use Rattle.std.specs.List.{filter};
ghost use Rattle.cp_lists.specs.Turns.{IsTurn, turned_to_least};

use crate::Memory;
use crate::turns::{is_turn, least_place};
use std::alloc::Global;
use std::marker::Model;

/// A cyclic list of numbers, counterclockwise where it lies in a drawing. Contracts see the list as
/// it is stored; what is meant up to turning says so.
#[derive(Debug, Drop)]
pub struct CycList {
    items: Vec<usize>,
}

impl Model for CycList {
    ghost use Rattle.std.specs.Prelude.{List, ℕ};

    ghost Value = { List ℕ };

    ghost view = { λ list. list.items.items };
}

impl CycList {
    /// Keeps the items in their order. Linear in their number.
    pub fn from_slice(alloc: Global, items: &[usize]) -> Result<CycList, Memory>
        ensures { IfOk result (λ list. list ≡ items.now) }
    {
        let items = Vec::from_slice(alloc, items)?;
        Ok(CycList { items })
    }

    /// All items, from the one that is stored first.
    pub fn items(&self) -> &[usize]
        ensures { result.now ≡ self.now }
    {
        self.items.as_slice()
    }

    /// Whether one list is a turn of the other. Linear where no item repeats, and at most quadratic.
    pub fn same_cycle(&self, other: &CycList) -> bool
        ensures { IsTrue result ↔ IsTurn self.now other.now }
    {
        is_turn(self.items.as_slice(), other.items.as_slice())
    }

    /// The list in reverse. Linear in the number of items.
    pub fn reversed(&self, alloc: Global) -> Result<CycList, Memory>
        ensures { IfOk result (λ list. list ≡ reverse self.now) }
    {
        let mut items = Vec::from_slice(alloc, self.items.as_slice())?;
        items.reverse();
        Ok(CycList { items })
    }
    /// The items `x` with `keep[x]`, in their order. Linear in the number of items.
    pub fn restricted(&self, alloc: Global, keep: &[bool]) -> Result<CycList, Memory>
        requires { All (λ x. x < length keep.now) self.now }
        ensures { IfOk result (λ list. list ≡ filter (λ x. slice_index_or keep.now x false) self.now) }
    {
        let mut items = Vec::new(alloc);
        for x in self.items.as_slice() {
            if keep[*x] {
                items.push(*x)?;
            }
        }
        Ok(CycList { items })
    }

    /// Turns the list so that the first of its least items stands first. Linear in the number of items.
    pub fn turn_to_least(&mut self)
        ensures { self.new ≡ turned_to_least self.old }
    {
        let place = least_place(self.items.as_slice());
        self.items.rotate_left(place);
    }
}
