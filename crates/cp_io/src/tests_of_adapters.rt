// What no clause says of real readers and writers: their errors are told, and what they hold back is handed on.
use crate::{Failed, ReadEnd, Sink, Source, StdSink, StdSource, read_all, write_all};
use std::io;
use std::io::{BufWriter, ErrorKind, Read, Write};
use std::test::Fail;

// A device that takes and gives bytes `a` for so many calls, and then errs; `flushes` tells whether it can hand
// bytes on.
#[derive(Drop)]
struct Device {
    calls: usize,
    flushes: bool,
}

impl Device {
    // Whether one more call succeeds.
    fn call(&mut self) -> io::Result<()> {
        if self.calls == 0 {
            return Err(io::Error::from(ErrorKind::ConnectionReset));
        }
        self.calls -= 1;
        Ok(())
    }
}

impl Read for Device {
    fn read(&mut self, buf: &mut [u8]) -> io::Result<usize> {
        self.call()?;
        let count = buf.len().min(3);
        buf[..count].fill(b'a');
        Ok(count)
    }
}

impl Write for Device {
    fn write(&mut self, buf: &[u8]) -> io::Result<usize> {
        self.call()?;
        Ok(buf.len().min(3))
    }

    fn flush(&mut self) -> io::Result<()> {
        if self.flushes {
            Ok(())
        } else {
            Err(io::Error::from(ErrorKind::ConnectionReset))
        }
    }
}

#[test]
fn an_error_of_a_reader_is_told(rt: HostRuntime) -> Result<(), Fail> {
    let mut source = StdSource::new(Device {
        calls: 1,
        flushes: true,
    });
    let mut piece = [0u8; 8];
    assert_eq!(rt; source.read(&mut piece), Ok(3));
    assert_eq!(rt; &piece[..3], b"aaa".as_slice());
    assert_eq!(rt; source.read(&mut piece), Err(Failed));
    let mut source = StdSource::new(Device {
        calls: 2,
        flushes: true,
    });
    assert!(rt; matches!(read_all(rt.alloc(), &mut source), Err(ReadEnd::Fault)));
    Ok(())
}

#[test]
fn an_error_of_a_writer_is_told(rt: HostRuntime) -> Result<(), Fail> {
    // The writes that succeed, whether flushing does, and the answer for seven bytes.
    for (calls, flushes, want) in [
        (3usize, true, Ok(())),
        (2, true, Err(Failed)),
        (3, false, Err(Failed)),
    ] {
        let mut sink = StdSink::new(Device { calls, flushes });
        assert_eq!(rt; write_all(&mut sink, b"node 1:"), want, "{calls} calls");
    }
    let mut sink = StdSink::new(Device {
        calls: 0,
        flushes: false,
    });
    assert_eq!(rt; sink.finish(), Err(Failed));
    Ok(())
}

#[test]
fn a_buffered_writer_hands_on_all_bytes(rt: HostRuntime) -> Result<(), Fail> {
    let text: &[u8] = b"graph [ node [ id 1 ] ]\n";
    let mut writer = BufWriter::new(rt.alloc(), Vec::new(rt.alloc()))?;
    assert_eq!(rt; write_all(&mut StdSink::new(&mut writer), text), Ok(()));
    assert_eq!(rt; writer.get_ref().as_slice(), text);
    assert!(rt; writer.buffer().is_empty());
    let mut small = [0u8; 5];
    let mut sink = StdSink::new(BufWriter::new(rt.alloc(), small.as_mut_slice())?);
    assert_eq!(rt; write_all(&mut sink, text), Err(Failed));
    Ok(())
}
