// Solutions of an instance.
ghost use Rattle.std.specs.Prelude.{◌≡◌, ◌<◌, map, ◌∷◌, ◌++◌, [], OnOk, OnErr};
ghost use Rattle.std.specs.List.{All, Contains};
ghost use Rattle.cp_board.specs.Solutions.{list_in, with_list};

use crate::named::lower_place;
use cp_base::{CycList, Memory};
use std::alloc::Global;
use std::marker::Model;

/// A cyclic list of edges for each vertex, seen as the list of the vertices' names with their lists, rising by name.
#[derive(Debug, Drop)]
pub struct Solution {
    names: Vec<usize>,
    lists: Vec<CycList>,
}

impl Model for Solution {
    ghost use Rattle.std.specs.Prelude.{◌≡◌, ℕ, List, length};
    ghost use Rattle.std.specs.List.{zip};
    ghost use Rattle.std.specs.List.Sorted.{IsStrictlyIncreasing};

    ghost Value = { List (ℕ × List ℕ) };

    ghost view = { λ s. zip s.names.items s.lists.items };

    ghost invariant = { λ s. (length s.names.items ≡ length s.lists.items) × IsStrictlyIncreasing s.names.items };
}

impl Solution {
    /// No vertices. It takes no memory, and keeps the allocator.
    pub fn new(alloc: Global) -> Solution
        ensures { result ≡ [] }
    {
        Solution {
            names: Vec::new(alloc),
            lists: Vec::new(alloc),
        }
    }

    /// Appends a vertex with its list, in constant time on average. The name is greater than each name before. After
    /// want of memory the solution is unchanged, and the list is dropped.
    pub fn push(&mut self, name: usize, list: CycList) -> Result<(), Memory>
        requires { All (λ row. row.0 < name) self.old }
        ensures ok { OnOk result (self.new ≡ self.old ++ (name, list) ∷ []) }
        ensures err { OnErr result (self.new ≡ self.old) }
    {
        self.names.push(name)?;
        match self.lists.push(list) {
            Ok(()) => Ok(()),
            Err(_) => {
                self.names.pop();
                Err(Memory)
            }
        }
    }

    /// The names of the vertices, rising.
    pub fn names(&self) -> &[usize]
        ensures { result.now ≡ map (λ row. row.0) self.now }
    {
        let _ = &self.lists;
        self.names.as_slice()
    }

    /// The list of the vertex of this name, in logarithmic time.
    pub fn list_of(&self, name: usize) -> &CycList
        requires { Contains (map (λ row. row.0) self.now) name }
        ensures { result.now ≡ list_in self.now name }
    {
        &self.lists[lower_place(self.names.as_slice(), name)]
    }

    /// Exchanges the list of the vertex of this name, in logarithmic time. Nothing else changes.
    pub fn set_list(&mut self, name: usize, list: CycList)
        requires { Contains (map (λ row. row.0) self.old) name }
        ensures { self.new ≡ with_list name list self.old }
    {
        let place = lower_place(self.names.as_slice(), name);
        self.lists[place] = list;
    }
}
