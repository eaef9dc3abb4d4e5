// What no clause says: that calls succeed where memory suffices, and that real bytes pass the adapters.
use crate::{
    Failed, MOST_BYTES, MemSink, MemSource, ReadEnd, StdSink, StdSource, read_all, tell, write_all,
};
use std::io;
use std::io::Read;
use std::test::Fail;

#[test]
fn all_bytes_come_or_the_fault_is_told(rt: HostRuntime) -> Result<(), Fail> {
    // The bytes, the most that one read gives, the reads that fail, and the answer.
    let rows: [(&[u8], usize, &[u64], Result<&[u8], ReadEnd>); 6] = [
        (b"", 1, &[], Ok(b"")),
        (b"graph", 2, &[], Ok(b"graph")),
        (b"graph", 100_000, &[], Ok(b"graph")),
        (b"graph", 2, &[2], Err(ReadEnd::Fault)),
        (b"graph", 2, &[4], Err(ReadEnd::Fault)),
        (b"graph", 2, &[5, 7], Ok(b"graph")),
    ];
    for (bytes, step, failing, want) in rows {
        assert!(rt; step > 0);
        let mut source = MemSource::new(rt.alloc(), bytes, step, failing)?;
        match read_all(rt.alloc(), &mut source) {
            Ok(got) => assert_eq!(rt; Ok(got.as_slice()), want, "{bytes:?} by {step}"),
            Err(end) => assert_eq!(rt; Err(end), want, "{bytes:?} by {step}"),
        }
    }
    Ok(())
}

#[test]
fn a_text_is_written_whole_or_a_front_of_it(rt: HostRuntime) -> Result<(), Fail> {
    // The room, the most that one write takes, the calls that fail, the answer and the bytes taken.
    let rows: [(usize, usize, &[u64], Result<(), Failed>, &[u8]); 6] = [
        (64, 5, &[], Ok(()), b"node 1: 0 4\n"),
        (12, 100, &[5], Ok(()), b"node 1: 0 4\n"),
        (64, 5, &[2], Err(Failed), b"node "),
        (64, 5, &[1], Err(Failed), b""),
        (64, 5, &[4], Err(Failed), b"node 1: 0 4\n"),
        (7, 5, &[], Err(Failed), b"node 1:"),
    ];
    for (room, step, failing, want, taken) in rows {
        assert!(rt; step > 0);
        let mut sink = MemSink::new(rt.alloc(), room, step, failing)?;
        let got = write_all(&mut sink, b"node 1: 0 4\n");
        assert_eq!(rt; got, want, "room {room} by {step}");
        assert_eq!(rt; sink.bytes(), taken, "room {room} by {step}");
    }
    Ok(())
}

#[test]
fn the_end_is_told_or_the_failure(rt: HostRuntime) -> Result<(), Fail> {
    // The calls that fail, the answer and the bytes taken.
    let rows: [(&[u64], char, &[u8]); 3] = [
        (&[], 'e', b"accepted\n"),
        (&[2], 'f', b"accep"),
        (&[3], 'f', b"accepted\n"),
    ];
    for (failing, want, taken) in rows {
        let mut sink = MemSink::new(rt.alloc(), 64, 5, failing)?;
        let got = tell(&mut sink, b"accepted\n", 'e', 'f');
        assert_eq!(rt; got, want, "{failing:?}");
        assert_eq!(rt; sink.bytes(), taken, "{failing:?}");
    }
    Ok(())
}

#[test]
fn real_bytes_pass_the_adapters(rt: HostRuntime) -> Result<(), Fail> {
    let text: &[u8] = b"graph [ node [ id 1 ] ]\n";
    let got = read_all(rt.alloc(), &mut StdSource::new(text))?;
    assert_eq!(rt; got.as_slice(), text);

    let mut held: Vec<u8> = Vec::new(rt.alloc());
    assert_eq!(rt; write_all(&mut StdSink::new(&mut held), text), Ok(()));
    assert_eq!(rt; held.as_slice(), text);

    // A writer that takes nothing more is a fault.
    let mut small = [0u8; 5];
    let mut sink = StdSink::new(small.as_mut_slice());
    assert_eq!(rt; write_all(&mut sink, text), Err(Failed));
    assert_eq!(rt; small.as_slice(), b"graph".as_slice());
    Ok(())
}

#[test]
fn an_input_is_too_long_above_64_mebibytes(rt: HostRuntime) -> Result<(), Fail> {
    let most = 67_108_864u64;
    let got = read_all(rt.alloc(), &mut StdSource::new(io::repeat(b' ').take(most)))?;
    assert_eq!(rt; got.len(), MOST_BYTES);
    let got = read_all(
        rt.alloc(),
        &mut StdSource::new(io::repeat(b' ').take(most + 1)),
    );
    assert!(rt; matches!(got, Err(ReadEnd::TooLong)));
    Ok(())
}
