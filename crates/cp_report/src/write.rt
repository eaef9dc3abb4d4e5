// From a report to its text.
ghost use Rattle.std.specs.Prelude.{◌≡◌, ◌++◌, ◌∷◌, [], ◌+◌, ◌<◌, ◌≤◌, ◌^◌, length, codes, IfOk, OnOk};
ghost use Rattle.std.specs.Fmt.{decimal};
ghost use Rattle.std.specs.List.{flat_map};
ghost use Rattle.cp_report.specs.Reading.{row_item, row_key, row_line};
ghost use Rattle.cp_report.specs.Texts.{numbered, report_text, text_of};

use crate::report::Report;
use crate::row::{Row, key_of};
use cp_base::{CycList, Memory};
use cp_cgraph::Layout;
use std::alloc::Global;

/// Appends a line and its line feed.
fn push_line(text: &mut Vec<u8>, line: &[u8]) -> Result<(), Memory>
    ensures { OnOk result (text.new.items ≡ text.old.items ++ (line.now ++ 10 ∷ [])) }
{
    text.extend_from_slice(line)?;
    text.push(b'\n')?;
    Ok(())
}

/// Appends a number in decimal.
fn push_number(alloc: Global, text: &mut Vec<u8>, number: usize) -> Result<(), Memory>
    ensures { OnOk result (text.new.items ≡ text.old.items ++ decimal number) }
{
    let digits = format!(in alloc; "{number}")?;
    text.extend_from_slice(digits.as_bytes())?;
    Ok(())
}

/// Appends an item behind its blank.
fn push_item(alloc: Global, text: &mut Vec<u8>, row: Row, item: usize) -> Result<(), Memory>
    ensures { OnOk result (text.new.items ≡ text.old.items ++ 32 ∷ row_item row item) }
{
    text.push(b' ')?;
    match row {
        Row::Nodes => {
            push_number(alloc, text, item / 2)?;
            text.push(if item % 2 == 0 { b's' } else { b't' })?;
            Ok(())
        }
        Row::Clusters => push_number(alloc, text, item),
    }
}

/// Appends all items of a line.
fn push_items(alloc: Global, text: &mut Vec<u8>, row: Row, items: &[usize]) -> Result<(), Memory>
    ensures { OnOk result (text.new.items ≡ text.old.items ++ flat_map (λ item. 32 ∷ row_item row item) items.now) }
{
    for item in items {
        push_item(alloc, text, row, *item)?;
    }
    Ok(())
}

/// Appends key and number of a line.
fn push_head(alloc: Global, text: &mut Vec<u8>, row: Row, number: usize) -> Result<(), Memory>
    ensures { OnOk result (text.new.items ≡ text.old.items ++ (row_key row ++ 32 ∷ decimal number)) }
{
    text.extend_from_slice(key_of(row))?;
    text.push(b' ')?;
    push_number(alloc, text, number)
}

/// Appends the line of a list.
fn push_list(
    alloc: Global,
    text: &mut Vec<u8>,
    row: Row,
    number: usize,
    items: &[usize],
) -> Result<(), Memory>
    ensures { OnOk result (text.new.items ≡ text.old.items ++ (row_line row number items.now ++ 10 ∷ [])) }
{
    push_head(alloc, text, row, number)?;
    text.push(b':')?;
    push_items(alloc, text, row, items)?;
    text.push(b'\n')?;
    Ok(())
}

/// Appends a line for each list, numbered from `first` on.
fn push_rows(
    alloc: Global,
    text: &mut Vec<u8>,
    row: Row,
    first: usize,
    lists: &[CycList],
) -> Result<(), Memory>
    requires { first ≤ 1 }
    ensures { OnOk result (text.new.items ≡ text.old.items ++ text_of (numbered (row_line row) first lists.now)) }
{
    let mut number = first;
    for list in lists {
        push_list(alloc, text, row, number, list.items())?;
        number += 1;
    }
    Ok(())
}

/// Appends what stands between the heading and `end` for a layout.
fn push_layout(alloc: Global, text: &mut Vec<u8>, layout: &Layout) -> Result<(), Memory>
    ensures { OnOk result (text.new.items ≡ text.old.items ++ text_of (codes "yes" ∷ numbered (row_line Row.Nodes) 0 layout.now.nodes ++ numbered (row_line Row.Clusters) 1 layout.now.clusters)) }
{
    push_line(text, b"yes")?;
    push_rows(alloc, text, Row::Nodes, 0, layout.nodes.items())?;
    push_rows(alloc, text, Row::Clusters, 1, layout.clusters.items())
}

/// Writes the one text of a report. Linear in the length of the text.
pub fn write_report(alloc: Global, report: &Report) -> Result<Vec<u8>, Memory>
    ensures { IfOk result (λ text. text.items ≡ report_text report.now) }
{
    let mut text = Vec::new(alloc);
    push_line(&mut text, b"cplan-report 1")?;
    match report {
        Report::Yes(layout) => push_layout(alloc, &mut text, layout)?,
        Report::No => push_line(&mut text, b"no")?,
    }
    push_line(&mut text, b"end")?;
    Ok(text)
}
