// Ids in their order, with the place of each.
ghost use Rattle.std.specs.Prelude.{◌≡◌, [], ◌∷◌, ◌++◌, IfOk};
ghost use Rattle.std.specs.List.{position};
ghost use Rattle.std.specs.Ordering.{int_eq};

use crate::hashes::Seeded;
use cp_base::Memory;
use indexmap::IndexMap;
use std::alloc::Global;
use std::marker::Model;

// A row of ids, which contracts see as the list of them, and a table of the first place of each id, in the
// order of the first places.
#[derive(Drop)]
pub(crate) struct Ids {
    ids: Vec<i32>,
    places: IndexMap<i32, usize, Seeded>,
}

impl Model for Ids {
    ghost use Rattle.std.specs.Prelude.{List, ℤ, ◌≡◌};
    ghost use Rattle.std.specs.List.{position};
    ghost use Rattle.indexmap.specs.IndexMap.{get};
    ghost use Rattle.std.specs.Ordering.{int_eq};

    ghost Value = { List ℤ };

    ghost view = { λ t. t.ids.items };

    ghost invariant = { λ t. (n : ℤ) → get int_eq t.places n ≡ position (int_eq n) t.ids.items };
}

impl Ids {
    // No ids, where those to come have the digest.
    pub fn new(alloc: Global, digest: u64) -> Ids
        ensures { result ≡ [] }
    {
        Ids {
            ids: Vec::new(alloc),
            places: IndexMap::with_hasher(alloc, Seeded::by(digest)),
        }
    }

    // The ids in their order.
    pub fn ids(&self) -> &[i32]
        ensures { result.now ≡ self.now }
    {
        self.ids.as_slice()
    }

    // The first place of the id.
    pub fn place(&self, id: i32) -> Option<usize>
        ensures { result ≡ position (int_eq id) self.now }
    {
        self.places.get(&id).copied()
    }

    // Appends an id.
    pub fn with(self, id: i32) -> Result<Ids, Memory>
        ensures { IfOk result (λ ids. ids ≡ self ++ id ∷ []) }
    {
        let Ids {
            mut ids,
            mut places,
        } = self;
        if places.get(&id).is_none() {
            places.insert(id, ids.len())?;
        }
        ids.push(id)?;
        Ok(Ids { ids, places })
    }
}
