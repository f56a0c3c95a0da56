// A converter that copies pairs: all of them, or some at a time.

use counted_io::{CountedRead, CountedWrite};
use java_properties::{
    ContentRef, CopyError, Encoding, PropertiesError, PropertiesIter, PropertiesWriter,
};
use std::alloc::Global;

/// Copies the pairs of an input in one encoding to an output in another, without the comments. The pairs before an
/// error are written.
pub fn copy_pairs<R: CountedRead, W: CountedWrite>(
    alloc: Global,
    input: &mut R,
    from: Encoding,
    output: &mut W,
    to: Encoding,
) -> Result<(), PropertiesError> {
    let mut items = PropertiesIter::new_with_encoding(alloc, input, from)?;
    let mut writer = PropertiesWriter::new_with_encoding(alloc, output, to)?;
    match writer.copy_pairs(&mut items) {
        Ok(()) => writer.finish(),
        Err(CopyError::Read(error)) => {
            // The error of the reading is returned, whatever the flush returns.
            let _ = writer.flush();
            Err(error)
        }
        Err(CopyError::Write(error)) => Err(error),
    }
}

/// Copies at most so many pairs and returns how many. A further call goes on after them.
pub fn copy_some<R: CountedRead, W: CountedWrite>(
    items: &mut PropertiesIter<R>,
    writer: &mut PropertiesWriter<W>,
    most: usize,
) -> Result<usize, PropertiesError> {
    let mut copied = 0;
    for _ in 0..u64::MAX {
        if copied >= most {
            break;
        }
        let Some(found) = items.advance() else {
            break;
        };
        let line = items.get(found?);
        if let ContentRef::KVPair(key, value) = line.content() {
            writer.write(key.as_str(), value.as_str())?;
            copied += 1;
        }
    }
    Ok(copied)
}

#[cfg(test)]
mod tests {
    use super::*;
    use crate::same::same;
    use counted_io::Counted;
    use java_properties::ErrorKind;

    // An error has its kind and its line.
    type Failure = (ErrorKind, Option<usize>);

    #[test]
    fn copies_the_pairs_before_an_error(rt: HostRuntime) {
        let malformed = Some((ErrorKind::NotEnoughDigits, Some(2)));
        let rows: [(&[u8], Encoding, Encoding, &[u8], Option<Failure>); 4] = [
            (
                b"# caf\xe9\nprice = 3 \x80\nlong = 1\\\n  2",
                Encoding::WINDOWS_1252,
                Encoding::WINDOWS_1252,
                b"price=3\\ \x80\nlong=12\n",
                None,
            ),
            (
                b"# caf\xe9\nprice = 3 \x80",
                Encoding::WINDOWS_1252,
                Encoding::UTF_8,
                "price=3\\ €\n".as_bytes(),
                None,
            ),
            (
                "k=\u{65e5}".as_bytes(),
                Encoding::UTF_8,
                Encoding::WINDOWS_1252,
                b"k=\\u65e5\n",
                None,
            ),
            (
                b"a=1\nb=\\u12",
                Encoding::WINDOWS_1252,
                Encoding::WINDOWS_1252,
                b"a=1\n",
                malformed,
            ),
        ];
        for (bytes, from, to, wanted, failure) in rows {
            let mut input = bytes;
            let mut output = Counted::new(Vec::new(rt.alloc()));
            let answer = copy_pairs(rt.alloc(), &mut input, from, &mut output, to);
            same(&rt, failure_of(&answer), failure);
            same(&rt, output.into_inner().as_slice(), wanted);
        }
    }

    #[test]
    fn copies_some_pairs_at_a_time(rt: HostRuntime) {
        let alloc = rt.alloc();
        let input: &[u8] = b"a=1\n# between\nb=2\nc=3";
        let mut items = PropertiesIter::new(alloc, input).expect(&rt, "an iterator");
        let output = Counted::new(Vec::new(alloc));
        let mut writer = PropertiesWriter::new(alloc, output).expect(&rt, "a writer");
        for wanted in [2, 1, 0] {
            let copied = copy_some(&mut items, &mut writer, 2).expect(&rt, "a count");
            same(&rt, copied, wanted);
        }
        let wanted: &[u8] = b"a=1\nb=2\nc=3\n";
        same(&rt, writer.into_inner().into_inner().as_slice(), wanted);
    }

    fn failure_of(answer: &Result<(), PropertiesError>) -> Option<Failure> {
        match answer {
            Ok(()) => None,
            Err(error) => Some((error.kind(), error.line_number())),
        }
    }
}
