// Entries by their keys.
ghost use Rattle.std.specs.Prelude.{◌≡◌, ◌≤◌, length};
ghost use Rattle.cp_cgraph.specs.Entries.{has_key, vertex_id, id_value};
ghost use Rattle.cp_cgraph.specs.Passes.{from_first, until};

use crate::spelled;
use cp_gml::{Entry, GmlValue};

// Whether the entry has the key.
pub(crate) fn has_key(entry: &Entry, key: &[u8]) -> bool
    ensures { result ≡ has_key key.now entry.now }
{
    entry.key.bytes() == key
}

// The entries from the first one with the key on.
pub(crate) fn from_first<'a>(entries: &'a [Entry], key: &[u8]) -> &'a [Entry]
    ensures { result.now ≡ from_first key.now entries.now }
{
    'seeking: for (i, entry) in entries.iter().enumerate() {
        if has_key(entry, key) {
            return &entries[i..];
        }
    }
    &[]
}

// The id that a value is.
pub(crate) fn id_value(value: &GmlValue) -> Option<i32>
    ensures { result ≡ id_value value.now }
{
    match value {
        GmlValue::Int(n) => Some(*n),
        _ => None,
    }
}

// The id by which a value of `vertex` names a node.
pub(crate) fn vertex_id(value: &GmlValue) -> Option<i32>
    ensures { result ≡ vertex_id value.now }
{
    match value {
        GmlValue::Int(n) => Some(*n),
        GmlValue::Str(text) => spelled::spelled_id(text.bytes()),
        _ => None,
    }
}

// The number of entries before the first one with the key.
pub(crate) fn until(entries: &[Entry], key: &[u8]) -> usize
    ensures value { result ≡ until key.now entries.now }
    ensures within { result ≤ length entries.now }
{
    'seeking: for (i, entry) in entries.iter().enumerate() {
        if has_key(entry, key) {
            return i;
        }
    }
    entries.len()
}
