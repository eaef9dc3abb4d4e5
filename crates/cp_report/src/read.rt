// From bytes to the report at their front.
ghost use Rattle.std.specs.Prelude.{◌≡◌, ◌++◌, ◌∷◌, [], ◌+◌, ◌<◌, ◌^◌, length, map, MatchOption, IfOk, IfErr};
ghost use Rattle.std.specs.Fmt.{decimal};
ghost use Rattle.cp_report.specs.Faults.{IfBad, IsFaultOf};
ghost use Rattle.cp_report.specs.Reading.{AreItems, row_item, row_key, IsListLine, AreListLines, HasNoRow, IsLate, behind_heading, behind_no, behind_yes};
ghost use Rattle.cp_report.specs.Texts.{BeginsWith, IsWithinLimits, report_text};

use crate::kind::ReportKind;
use crate::number::{is_label, item_of};
use crate::report::{Report, ReportFault};
use crate::row::{Row, key_of};
use crate::word::{Words, after_line, cut};
use cp_base::{CycList, Items, Memory};
use cp_cgraph::{CycLists, Layout};
use std::alloc::Global;

/// Takes the two words in front of the items.
fn take_head(words: &mut Words<'_>, row: Row, number: usize) -> Option<()>
    ensures { MatchOption result ((later : _) → number < 2 ^ 32 → words.old ≡ row_key row ∷ (decimal number ++ 58 ∷ []) ∷ later → ⊥) (λ _. (number < 2 ^ 32) × (words.old ≡ row_key row ∷ (decimal number ++ 58 ∷ []) ∷ words.new)) }
{
    if words.next()? == key_of(row) && is_label(words.next()?, number) {
        Some(())
    } else {
        None
    }
}

/// The items that the words spell.
fn items_of(alloc: Global, mut words: Words<'_>, row: Row) -> Result<Option<CycList>, Memory>
    ensures { IfOk result (λ found. MatchOption found ((items : _) → AreItems row items → words.entry ≡ map (row_item row) items → ⊥) (λ items. AreItems row items × (words.entry ≡ map (row_item row) items))) }
{
    let mut items = Vec::new(alloc);
    while let Some(word) = words.next() {
        match item_of(word, row) {
            Some(item) => items.push(item)?,
            None => return Ok(None),
        }
    }
    Ok(Some(CycList::from_slice(alloc, &items)?))
}

/// The items of a line of this number.
fn list_of(alloc: Global, line: &[u8], row: Row, number: usize) -> Result<Option<CycList>, Memory>
    ensures { IfOk result (λ found. MatchOption found ((items : _) → IsListLine row number line.now items → ⊥) (IsListLine row number line.now)) }
{
    let mut words = Words::new(line);
    match take_head(&mut words, row, number) {
        Some(()) => items_of(alloc, words, row),
        None => Ok(None),
    }
}

/// The lists of the lines that are numbered from `first` on, and what stands behind them.
fn read_rows(
    alloc: Global,
    bytes: &[u8],
    row: Row,
    first: usize,
) -> Result<(CycLists, &[u8]), Memory>
    requires { first < 2 ^ 32 }
    ensures { IfOk result (λ r. AreListLines row first bytes.now r.0 r.1.now × HasNoRow row (first + length r.0) r.1.now) }
{
    let mut lists = Items::new(alloc);
    let mut rest = bytes;
    let mut number = first;
    while let Some((line, after)) = cut(rest, b'\n') {
        match list_of(alloc, line, row, number)? {
            Some(list) => lists.push(list)?,
            None => return Ok((lists, rest)),
        }
        number += 1;
        rest = after;
    }
    Ok((lists, rest))
}

/// The kind of the fault where a line is due that is not there: another whole line, or none.
fn late_kind(bytes: &[u8]) -> ReportKind
    ensures { IsLate bytes.now result }
{
    match cut(bytes, b'\n') {
        Some(_) => ReportKind::WrongLine,
        None => ReportKind::NoLine,
    }
}

/// Reads the lines behind `yes`, and tells what stands behind the report.
fn read_layout(alloc: Global, bytes: &[u8]) -> Result<(Layout, &[u8]), ReportFault>
    ensures found { IfOk result (λ r. IsWithinLimits (Report.Yes r.0) × (behind_yes bytes.now ≡ report_text (Report.Yes r.0) ++ r.1.now)) }
    ensures fault { IfErr result (λ e. IfBad e (IsFaultOf (behind_yes bytes.now))) }
{
    let (nodes, behind_nodes) = read_rows(alloc, bytes, Row::Nodes, 0)?;
    let (clusters, rest) = read_rows(alloc, behind_nodes, Row::Clusters, 1)?;
    match after_line(rest, b"end") {
        Some(after) => Ok((Layout { nodes, clusters }, after)),
        None => Err(ReportFault::Bad {
            kind: late_kind(rest).number(),
            line: nodes.len() + clusters.len() + 3,
        }),
    }
}

/// Reads the line behind `no`, and tells what stands behind the report.
fn read_no(bytes: &[u8]) -> Result<&[u8], ReportFault>
    ensures found { IfOk result (λ rest. behind_no bytes.now ≡ report_text Report.No ++ rest.now) }
    ensures fault { IfErr result (λ e. IfBad e (IsFaultOf (behind_no bytes.now))) }
{
    match after_line(bytes, b"end") {
        Some(rest) => Ok(rest),
        None => Err(ReportFault::Bad {
            kind: late_kind(bytes).number(),
            line: 3,
        }),
    }
}

/// Reads the lines behind the heading, and tells what stands behind the report.
fn read_verdict(alloc: Global, bytes: &[u8]) -> Result<(Report, &[u8]), ReportFault>
    ensures found { IfOk result (λ r. IsWithinLimits r.0 × (behind_heading bytes.now ≡ report_text r.0 ++ r.1.now)) }
    ensures fault { IfErr result (λ e. IfBad e (IsFaultOf (behind_heading bytes.now))) }
{
    if let Some(rest) = after_line(bytes, b"yes") {
        return match read_layout(alloc, rest) {
            Ok((layout, after)) => Ok((Report::Yes(layout), after)),
            Err(fault) => Err(fault),
        };
    }
    match after_line(bytes, b"no") {
        Some(rest) => match read_no(rest) {
            Ok(after) => Ok((Report::No, after)),
            Err(fault) => Err(fault),
        },
        None => Err(ReportFault::Bad {
            kind: ReportKind::NoVerdict.number(),
            line: 2,
        }),
    }
}

/// Reads the report whose text stands at the front of the bytes, and tells how many bytes the text
/// is long. What follows the line `end` is not looked at. A fault tells the first line that is wrong
/// or missing. Linear in the length of the text, or, at a fault, in that of the bytes.
pub fn read_report(alloc: Global, bytes: &[u8]) -> Result<(Report, usize), ReportFault>
    ensures found { IfOk result (λ r. BeginsWith bytes.now r.0 r.1) }
    ensures fault { IfErr result (λ e. IfBad e (IsFaultOf bytes.now)) }
{
    let Some(rest) = after_line(bytes, b"cplan-report 1") else {
        return Err(ReportFault::Bad {
            kind: ReportKind::NoHeading.number(),
            line: 1,
        });
    };
    match read_verdict(alloc, rest) {
        Ok((report, after)) => Ok((report, bytes.len() - after.len())),
        Err(fault) => Err(fault),
    }
}
