// The list of a text as plain data.
ghost use Rattle.std.specs.Prelude.{◌≡◌, IfOk};

use cp_base::{Items, Memory};
use std::alloc::Global;
use std::marker::Model;

/// A row of bytes: a key, or what stands between the two quotes of a string. Contracts see the bytes.
#[derive(Debug, Drop)]
pub struct Text {
    bytes: Vec<u8>,
}

impl Model for Text {
    ghost use Rattle.std.specs.Prelude.{List, ℕ};

    ghost Value = { List ℕ };

    ghost view = { λ text. text.bytes.items };
}

impl Text {
    /// The bytes, without the quotes of a string.
    pub fn bytes(&self) -> &[u8]
        ensures { result.now ≡ self.now }
    {
        self.bytes.as_slice()
    }

    // Keeps the bytes.
    pub(crate) fn from_bytes(alloc: Global, bytes: &[u8]) -> Result<Text, Memory>
        ensures { IfOk result (λ text. text ≡ bytes.now) }
    {
        let bytes = Vec::from_slice(alloc, bytes)?;
        Ok(Text { bytes })
    }
}

/// A row of entries, which contracts see as the list of them.
pub type Entries = Items<Entry>;

/// The value of an entry.
#[cycle(gml)]
#[derive(Debug, Drop)]
pub enum GmlValue {
    /// An integer from -2147483648 to 2147483647, the range of ids.
    Int(i32),
    /// Any other number: a real, or an integer beyond that range.
    Number,
    /// A string, without its quotes.
    Str(Text),
    /// A list between brackets.
    List(GmlList),
}

/// A key with its value. Offsets count the bytes from the first one of the text, the three of a byte
/// order mark too.
#[cycle(gml)]
#[derive(Debug, Drop)]
pub struct Entry {
    /// The word that names the entry.
    pub key: Text,
    /// The offset of the key's first byte.
    pub key_at: usize,
    /// What the entry holds.
    pub value: GmlValue,
    /// The offset of the value's first byte: of a string its quote, of a list its bracket.
    pub value_at: usize,
}

/// A row of entries: what stands between two brackets, or the whole text. Two are equal where they have
/// the same keys and values at the same offsets, which takes a call inside the other for each level.
#[cycle(gml)]
#[derive(Debug, Drop)]
pub struct GmlList {
    /// The entries, in the order of the text.
    pub entries: Entries,
    /// The offset of the closing bracket, or for the whole text its length.
    pub end: usize,
}
