// Reads the entries of a list one after the other.
ghost use Rattle.std.specs.Prelude.{◌≡◌, ℕ, ◌+◌, ◌-◌, ◌<◌, ◌≤◌, List, length, true, false, IfOk, IfErr};
ghost use Rattle.cp_gml.specs.Lists.{IfFault, IfGrammar, IsListOf, IsFaultOf};
ghost use Rattle.cp_gml.specs.declared.tree.GmlList.{out-GmlList};
ghost use Rattle.cp_gml.specs.Machine.{state, StopsHere, Faults};
ghost use Rattle.cp_gml.specs.Moves.{IsKeyMove, IsValueMove, IsEntry, IsRead};
ghost use Rattle.cp_gml.specs.Scans.{leaf_over, IsInside};
ghost use Rattle.cp_gml.specs.Trees.{Tree, leaf, tree, with_value};

use crate::fault::{GmlFault, ListFault, with_number};
use crate::kind::GrammarKind;
use crate::scan::{self, Plain, Scan};
use crate::tree::{Entry, GmlList, GmlValue, Text};
use cp_base::{Items, Memory};
use std::alloc::Global;

// How deep lists may be nested.
const DEEPEST: usize = 512;

// What stands where a key is due.
#[derive(Clone, Copy)]
enum KeyMove {
    // A word between two offsets.
    Key { at: usize, behind: usize },
    // The end of the list.
    End { at: usize },
}

// What stands where a value is due.
#[derive(Clone, Copy)]
enum ValueMove {
    // A string or a number between two offsets.
    Leaf {
        at: usize,
        behind: usize,
        plain: Plain,
    },
    // The bracket of a list.
    Opens {
        at: usize,
    },
}

// An entry and the offset behind its last byte.
#[derive(Drop)]
struct EntryRead {
    entry: Entry,
    behind: usize,
}

fn key_move(text: &[u8], from: usize, level: usize) -> Result<KeyMove, ListFault>
    requires { from ≤ length text.now }
    ensures fits { IfOk result (IsKeyMove text.now from level) }
    ensures fault { IfErr result (λ e. IfFault e (StopsHere text.now from (state level false))) }
{
    let at = from + scan::gap_len(&text[from..]);
    match scan::scan_piece(&text[at..]) {
        Scan::Name(len) => Ok(KeyMove::Key {
            at,
            behind: at + len,
        }),
        Scan::Closing if level > 0 => Ok(KeyMove::End { at }),
        Scan::Over if level == 0 => Ok(KeyMove::End { at: text.len() }),
        Scan::Closing => Err(ListFault::Grammar {
            kind: GrammarKind::StrayClose,
            at,
        }),
        Scan::Over => Err(ListFault::Grammar {
            kind: GrammarKind::ListOpen,
            at: text.len(),
        }),
        Scan::Wrong(kind) => Err(ListFault::Grammar { kind, at }),
        Scan::Opening | Scan::Valued(_, _) => Err(ListFault::Grammar {
            kind: GrammarKind::KeyExpected,
            at,
        }),
    }
}

fn value_move(text: &[u8], from: usize, level: usize) -> Result<ValueMove, ListFault>
    requires { from ≤ length text.now }
    ensures fits { IfOk result (IsValueMove text.now from level) }
    ensures fault { IfErr result (λ e. IfFault e (StopsHere text.now from (state level true))) }
{
    let at = from + scan::gap_len(&text[from..]);
    match scan::scan_piece(&text[at..]) {
        Scan::Valued(plain, len) => Ok(ValueMove::Leaf {
            at,
            behind: at + len,
            plain,
        }),
        Scan::Opening if level < DEEPEST => Ok(ValueMove::Opens { at }),
        Scan::Opening => Err(ListFault::Grammar {
            kind: GrammarKind::TooDeep,
            at,
        }),
        Scan::Wrong(kind) => Err(ListFault::Grammar { kind, at }),
        Scan::Over => Err(ListFault::Grammar {
            kind: GrammarKind::ValueExpected,
            at: text.len(),
        }),
        Scan::Name(_) | Scan::Closing => Err(ListFault::Grammar {
            kind: GrammarKind::ValueExpected,
            at,
        }),
    }
}

// Keeps a value that is no list, which begins with the first byte.
fn plain_value(alloc: Global, bytes: &[u8], plain: Plain) -> Result<GmlValue, Memory>
    requires { IsInside plain (length bytes.now) }
    ensures { IfOk result (λ value. (key : List ℕ) (key_at at : ℕ) (rest : Tree) →
        with_value key key_at value at rest ≡ leaf key key_at (leaf_over plain bytes.now) at rest) }
{
    match plain {
        Plain::Quoted(len) => Ok(GmlValue::Str(Text::from_bytes(alloc, &bytes[1..len + 1])?)),
        Plain::Integer(value) => Ok(GmlValue::Int(value)),
        Plain::Real => Ok(GmlValue::Number),
    }
}

// Reads the value whose key stands between the two offsets.
#[cycle(reader)]
fn entry_at(
    alloc: Global,
    text: &[u8],
    key_at: usize,
    from: usize,
    level: usize,
) -> Result<EntryRead, ListFault>
    requires order { key_at ≤ from }
    requires within { from ≤ length text.now }
    requires shallow { level ≤ DEEPEST }
    ensures entry { IfOk result (λ read. IsEntry text.now key_at from level read.entry read.behind) }
    ensures fault { IfErr result (λ e. IfFault e (Faults text.now from (state level true))) }
{
    let key = Text::from_bytes(alloc, &text[key_at..from])?;
    match value_move(text, from, level)? {
        ValueMove::Leaf { at, behind, plain } => {
            let value = plain_value(alloc, &text[at..], plain)?;
            Ok(EntryRead {
                entry: Entry {
                    key,
                    key_at,
                    value,
                    value_at: at,
                },
                behind,
            })
        }
        ValueMove::Opens { at } => {
            let list = entries_from(alloc, text, at + 1, level + 1)?;
            let behind = list.end + 1;
            Ok(EntryRead {
                entry: Entry {
                    key,
                    key_at,
                    value: GmlValue::List(list),
                    value_at: at,
                },
                behind,
            })
        }
    }
}

// Reads the entries of a list up to its end. `level` is the number of open brackets.
#[cycle(reader)]
fn entries_from(alloc: Global, text: &[u8], from: usize, level: usize) -> Result<GmlList, ListFault>
    requires within { from ≤ length text.now }
    requires shallow { level ≤ DEEPEST }
    ensures list { IfOk result (IsRead text.now from level) }
    ensures fault { IfErr result (λ e. IfFault e (Faults text.now from (state level false))) }
{
    let mut at = from;
    let mut entries = Items::new(alloc);
    'reading: loop {
        match key_move(text, at, level)? {
            KeyMove::End { at: end } => return Ok(GmlList { entries, end }),
            KeyMove::Key { at: key_at, behind } => {
                let read = entry_at(alloc, text, key_at, behind, level)?;
                entries.push(read.entry)?;
                at = read.behind;
            }
        }
    }
}

/// The list of a text in GML, or its first fault with its kind. Costs what `parse` costs.
///
/// # Errors
///
/// `Grammar` exactly where the text is no such list, as `parse` has it. `Memory` where an allocation fails.
pub fn read_list(alloc: Global, text: &[u8]) -> Result<GmlList, ListFault>
    ensures list { IfOk result (λ list. IsListOf text.now (tree (out-GmlList list).entries)) }
    ensures whole { IfOk result (λ list. (out-GmlList list).end ≡ length text.now) }
    ensures fault { IfErr result (λ e. IfFault e (IsFaultOf text.now)) }
{
    let from = scan::start_of(text);
    entries_from(alloc, text, from, 0)
}

/// The list of a text in GML, or its first fault. Linear in the length of the text, in time and in
/// memory; a call inside the other for each list that is open, so at most 1024 deep.
///
/// The text is one list: a row of keys, each with a value, which is a number, a string or a list in
/// brackets. Lists are nested at most 512 deep. A byte order mark EF BB BF at the front is skipped,
/// and so are blanks, and comments from `#` to the end of the line. The format is Himsolt's GML.
///
/// # Errors
///
/// `Grammar` exactly where the text is no such list: the fault stands at what follows the longest row
/// of its tokens that begins such a list. `Memory` where an allocation fails.
pub fn parse(alloc: Global, text: &[u8]) -> Result<GmlList, GmlFault>
    ensures list { IfOk result (λ list. IsListOf text.now (tree (out-GmlList list).entries)) }
    ensures whole { IfOk result (λ list. (out-GmlList list).end ≡ length text.now) }
    ensures fault { IfErr result (λ e. IfGrammar e (IsFaultOf text.now)) }
{
    match read_list(alloc, text) {
        Ok(list) => Ok(list),
        Err(fault) => Err(with_number(fault)),
    }
}
