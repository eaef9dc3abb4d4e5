// Worked texts: what clauses cannot say is that the definitions mean the format.
use crate::{GmlFault, GmlList, GmlValue, one_answer, parse};
use std::alloc::{AllocError, Global};
use std::process::Abort;
use std::test::Fail;

// What a row of the table expects.
#[derive(Clone, Copy, Debug)]
enum Want {
    // The fault with its kind and offset.
    Fault(u8, usize),
    // A list of so many entries, whose first value is this integer.
    Int(usize, i32),
    // Or a number that is no id.
    Number(usize),
    // Or a string of these bytes.
    Str(usize, &'static [u8]),
    // Or a list of so many entries, which ends there.
    List(usize, usize, usize),
    // No entry.
    Empty,
}

fn is_wanted(want: Want, answer: &Result<GmlList, GmlFault>) -> bool {
    match answer {
        Err(GmlFault::Grammar { kind, at }) => {
            matches!(want, Want::Fault(k, a) if k == *kind && a == *at)
        }
        Err(GmlFault::Memory) => false,
        Ok(list) => match list.entries.items() {
            [] => matches!(want, Want::Empty),
            [first, ..] => is_value(want, list.entries.len(), &first.value),
        },
    }
}

fn is_value(want: Want, count: usize, value: &GmlValue) -> bool {
    match value {
        GmlValue::Int(n) => matches!(want, Want::Int(c, m) if c == count && m == *n),
        GmlValue::Number => matches!(want, Want::Number(c) if c == count),
        GmlValue::Str(text) => match want {
            Want::Str(c, bytes) => c == count && bytes == text.bytes(),
            _ => false,
        },
        GmlValue::List(list) => match want {
            Want::List(c, inner, end) => {
                c == count && inner == list.entries.len() && end == list.end
            }
            _ => false,
        },
    }
}

// Lists that hold one another so deep, the innermost with these entries, and an entry behind them.
fn nested(alloc: Global, levels: usize, inner: &[u8]) -> Result<Vec<u8>, AllocError> {
    let mut text = Vec::new(alloc);
    for _ in 0..levels {
        text.extend_from_slice(b"a[")?;
    }
    text.extend_from_slice(inner)?;
    for _ in 0..levels {
        text.push(b']')?;
    }
    text.extend_from_slice(b"graph[]")?;
    Ok(text)
}

fn check(rt: &impl Abort, alloc: Global, text: &[u8], want: Want) {
    let answer = parse(alloc, text);
    assert!(rt;
        is_wanted(want, &answer),
        "{text:?}: {want:?}, not {answer:?}"
    );
}

#[test]
fn texts_have_the_lists_and_faults_of_the_table(rt: HostRuntime) -> Result<(), Fail> {
    let alloc = rt.alloc();
    let rows: [(&[u8], Want); 60] = [
        (b"graph [ ] ;", Want::Fault(1, 10)),
        (b"a \"x", Want::Fault(2, 2)),
        (b"a 1.2.3", Want::Fault(3, 2)),
        (b"graph [ ] 5", Want::Fault(4, 10)),
        (b"graph", Want::Fault(5, 5)),
        (b"graph [ node [ id 1", Want::Fault(6, 19)),
        (b"graph [ ] ]", Want::Fault(7, 10)),
        (b"[ a 1 ]", Want::Fault(4, 0)),
        (b"a 1 \"x\"", Want::Fault(4, 4)),
        (b"a b", Want::Fault(5, 2)),
        (b"a [ b ]", Want::Fault(5, 6)),
        (b"a [ b", Want::Fault(5, 5)),
        (b"a # 1", Want::Fault(5, 5)),
        (b"]", Want::Fault(7, 0)),
        (b"a \x00", Want::Fault(1, 2)),
        (b"1.2.3 1", Want::Fault(3, 0)),
        (b"a -2147483648", Want::Int(1, -2_147_483_648)),
        (b"a 2147483647", Want::Int(1, 2_147_483_647)),
        (b"a 2147483648", Want::Number(1)),
        (b"a -2147483649", Want::Number(1)),
        (
            b"a 00000000000000000000000000000000000000000000000007",
            Want::Int(1, 7),
        ),
        (
            b"a 9999999999999999999999999999999999999999",
            Want::Number(1),
        ),
        (b"a +5", Want::Int(1, 5)),
        (b"a -0", Want::Int(1, 0)),
        (b"a +", Want::Fault(3, 2)),
        (b"a --5", Want::Fault(3, 2)),
        (b"a 1-2", Want::Fault(3, 2)),
        (b"a 1_000", Want::Fault(3, 2)),
        (b"a 5x", Want::Fault(3, 2)),
        (b"a .", Want::Fault(3, 2)),
        (b"a .5", Want::Number(1)),
        (b"a 5.", Want::Number(1)),
        (b"a 1e5", Want::Number(1)),
        (b"a -3.0E+1", Want::Number(1)),
        (b"a 1.e-5", Want::Number(1)),
        (b"a .e5", Want::Fault(3, 2)),
        (b"a 1e", Want::Fault(3, 2)),
        (b"a 1e+", Want::Fault(3, 2)),
        (b"a 1e5.0", Want::Fault(3, 2)),
        (b"\xEF\xBB\xBFa 1", Want::Int(1, 1)),
        (b"\xEF\xBB\xBF", Want::Empty),
        (b"\xEF\xBB\xBFa", Want::Fault(5, 4)),
        (b"\xEF\xBB\xBF\xEF\xBB\xBFa 1", Want::Fault(1, 3)),
        (b" \xEF\xBB\xBFa 1", Want::Fault(1, 1)),
        (b"\xEF\xBBa 1", Want::Fault(1, 0)),
        (b"", Want::Empty),
        (b" \t\r\n# nothing", Want::Empty),
        (b"# c\r\na 1\r\nb 2\r\n", Want::Int(2, 1)),
        (b"# c\ra 1", Want::Int(1, 1)),
        (b"# c\na 1", Want::Int(1, 1)),
        (b"a 1 # b 2", Want::Int(1, 1)),
        (b"a #[\n1", Want::Int(1, 1)),
        (b"a \"x # y\" # z", Want::Str(1, b"x # y")),
        (b"a \"\"", Want::Str(1, b"")),
        (b"a \"x\ny\"", Want::Str(1, b"x\ny")),
        (b"a\"x\"b[c 1]d 2", Want::Str(3, b"x")),
        (b"a[b 1c 2]", Want::Fault(3, 4)),
        (b"a[b 1 c 2]", Want::List(1, 2, 9)),
        (b"a[]b 1", Want::List(2, 0, 2)),
        (b"_a9Z .25", Want::Number(1)),
    ];
    for (text, want) in rows {
        check(&rt, alloc, text, want);
    }
    check(
        &rt,
        alloc,
        nested(alloc, 512, b"")?.as_slice(),
        Want::List(2, 1, 1535),
    );
    check(
        &rt,
        alloc,
        nested(alloc, 513, b"")?.as_slice(),
        Want::Fault(8, 1025),
    );
    let list = parse(alloc, b"\xEF\xBB\xBF# c\r\nkey [ inner -7 ]\r\n")?;
    let [entry] = list.entries.items() else {
        rt.abort();
    };
    assert_eq!(rt; (list.end, entry.key_at, entry.value_at), (26, 8, 12));
    assert_eq!(rt; entry.key.bytes(), b"key".as_slice());
    one_answer();
    Ok(())
}

// Whether the lists of two texts, or their entries, are equal.
fn are_equal(alloc: Global, text: &[u8], other: &[u8]) -> Result<(bool, bool), GmlFault> {
    let list = parse(alloc, text)?;
    let other = parse(alloc, other)?;
    Ok((list == other, list.entries.items() == other.entries.items()))
}

#[test]
fn lists_are_equal_as_in_the_table(rt: HostRuntime) -> Result<(), Fail> {
    let alloc = rt.alloc();
    let rows: [(&[u8], &[u8], bool, bool); 14] = [
        (b"", b"# c", false, true),
        (b"a 1", b"a 1", true, true),
        (b"a 1 # c", b"a 1 # d", true, true),
        (b"a 1", b"a 2", false, false),
        (b"a 1", b"b 1", false, false),
        (b"a  1", b"a 1", false, false),
        (b" a 1", b"a  1", false, false),
        (b"a 1", b"a 1 b 2", false, false),
        (b"a 1", b"a \"\"", false, false),
        (b"a 1.5", b"a 2.5", true, true),
        (b"a \"x\"", b"a \"y\"", false, false),
        (b"a[b 1 c 2]", b"a[b 1 c 2]", true, true),
        (b"a[b 1 c 2]", b"a[b 1 c 3]", false, false),
        (b"a[ ]b 1", b"a[] b 1", false, false),
    ];
    for (text, other, lists, entries) in rows {
        assert_eq!(rt;
            are_equal(alloc, text, other)?,
            (lists, entries),
            "{text:?} {other:?}"
        );
    }
    let deep = nested(alloc, 512, b"b 1")?;
    let changed = nested(alloc, 512, b"b 2")?;
    assert_eq!(rt;
        are_equal(alloc, deep.as_slice(), deep.as_slice())?,
        (true, true)
    );
    assert_eq!(rt;
        are_equal(alloc, deep.as_slice(), changed.as_slice())?,
        (false, false)
    );
    Ok(())
}
