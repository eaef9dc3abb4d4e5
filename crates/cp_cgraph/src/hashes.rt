// Hashes of ids whose seed is a digest of all ids, so that no ids can be chosen beforehand that all fall into
// one place of a table.

use crate::clusters::Name;
use cp_gml::{Entry, GmlValue};
use std::hash::{BuildHasher, DefaultHasher, Hasher};

// Makes each hasher as one that has taken the digest.
#[derive(Clone, Copy)]
pub(crate) struct Seeded {
    seed: DefaultHasher,
}

impl Seeded {
    // Hashers that take the digest before each id.
    pub fn by(digest: u64) -> Seeded {
        let mut seed = DefaultHasher::new();
        seed.write_u64(digest);
        Seeded { seed }
    }
}

impl BuildHasher for Seeded {
    type Hasher = DefaultHasher;

    ghost build_hasher = { λ hashes. hashes.seed };

    fn build_hasher(&self) -> DefaultHasher {
        self.seed
    }
}

// Takes the whole numbers among the values of some entries.
fn take_numbers(entries: &[Entry], hasher: &mut DefaultHasher) {
    'numbers: for entry in entries {
        if let GmlValue::Int(number) = &entry.value {
            hasher.write_i32(*number);
        }
    }
}

// A digest of the whole numbers in the lists of some entries: of a graph list, of the ids of its nodes among
// others. Linear.
pub(crate) fn digest_of_lists(entries: &[Entry]) -> u64 {
    let mut hasher = DefaultHasher::new();
    'lists: for entry in entries {
        if let GmlValue::List(list) = &entry.value {
            take_numbers(list.entries.items(), &mut hasher);
        }
    }
    hasher.finish()
}

// A digest of the ids of some names. Linear.
pub(crate) fn digest_of_names(names: &[Name]) -> u64 {
    let mut hasher = DefaultHasher::new();
    'names: for name in names {
        hasher.write_i32(name.id);
    }
    hasher.finish()
}
