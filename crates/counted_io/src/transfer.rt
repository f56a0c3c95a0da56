// Sends bytes to a sink.

ghost use Rattle.counted_io.specs.Streams.{Sends, IsSameSink};

use crate::write::CountedWrite;
use std::io;

/// Sends all the bytes. If a write fails, a proper prefix of them was sent, and no further write is made. The error is
/// that of the write, or `None` if the write accepted no byte.
///
/// ```text
/// let mut output = Counted::new(Vec::new(alloc));
/// send(&mut output, b"a=b\n").is_ok();
/// ```
#[inline(always)]
pub fn send<W: CountedWrite>(sink: &mut W, bytes: &[u8]) -> Result<(), Option<io::Error>>
    ensures sends { Sends W.CountedWrite sink.old bytes.now result sink.new }
    ensures same_sink { IsSameSink W.CountedWrite sink.old sink.new }
{
    let mut rest = bytes;
    while !rest.is_empty() {
        match sink.write_counted(rest) {
            Ok(0) => return Err(None),
            Ok(taken) => rest = &rest[taken..],
            Err(error) => return Err(Some(error)),
        }
    }
    Ok(())
}
