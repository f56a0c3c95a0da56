// That a counted stream calls the stream inside, which no contract sees, and counts its faults.

use crate::same::same;
use counted_io::{Counted, CountedRead, CountedWrite};
use std::io::{self, ErrorKind, Read, Write};

// Counts its calls, and fails at every second one.
#[derive(Drop)]
struct Shaky {
    calls: usize,
}

impl Shaky {
    fn call(&mut self) -> io::Result<()> {
        self.calls = self.calls.saturating_add(1);
        if self.calls % 2 == 0 {
            Err(io::Error::from(ErrorKind::Other))
        } else {
            Ok(())
        }
    }
}

impl Read for Shaky {
    fn read(&mut self, _buf: &mut [u8]) -> io::Result<usize> {
        self.call()?;
        Ok(0)
    }
}

impl Write for Shaky {
    fn write(&mut self, _bytes: &[u8]) -> io::Result<usize> {
        self.call()?;
        Ok(0)
    }

    fn flush(&mut self) -> io::Result<()> {
        self.call()
    }
}

// A call of a stream.
#[derive(Clone, Copy)]
enum Call {
    Read,
    Write(&'static [u8]),
    Flush,
}

// Makes the call twice, counted and not, and then once more. Returns the number of faults, and of calls inside.
fn thrice(call: Call) -> (usize, usize) {
    let mut stream = Counted::new(Shaky { calls: 0 });
    let mut room = [0u8; 4];
    for is_counted in [true, true, false] {
        let _ = match call {
            Call::Read if is_counted => stream.read_counted(&mut room).is_ok(),
            Call::Read => stream.read(&mut room).is_ok(),
            Call::Write(bytes) if is_counted => stream.write_counted(bytes).is_ok(),
            Call::Write(bytes) => stream.write(bytes).is_ok(),
            Call::Flush if is_counted => stream.flush_counted().is_ok(),
            Call::Flush => stream.flush().is_ok(),
        };
    }
    (stream.faults(), stream.into_inner().calls)
}

#[test]
fn counted_streams_call_the_stream_inside(rt: HostRuntime) {
    let rows = [
        (Call::Read, (1, 3)),
        (Call::Write(b"a"), (3, 3)),
        (Call::Write(b""), (1, 3)),
        (Call::Flush, (1, 3)),
    ];
    for (call, wanted) in rows {
        same(&rt, thrice(call), wanted);
    }
}
