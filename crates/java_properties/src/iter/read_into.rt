// Passes the pairs of a reader to a closure.

ghost use Rattle.java_properties.specs.ReadLines.{CallableOnPairs, ReadsInto};

use crate::iter::PropertiesIter;
use counted_io::CountedRead;
use properties_items::error::PropertiesError;
use properties_items::line::LineContent;

impl<R: CountedRead> PropertiesIter<R> {
    /// Reads to the end and calls `f` with the key and the value of each remaining pair, in order.
    ///
    /// An error of the input ends the reading. It is returned after the calls for the pairs before it. In both cases
    /// the iterator is at its end afterwards.
    ///
    /// ```text
    /// let mut input: &[u8] = b"# greetings\nhello = world";
    /// let mut items = PropertiesIter::new(alloc, &mut input)?;
    /// items.read_into(|key, value| {
    ///     let _ = println!(rt; "{key} is {value}");
    /// })?;
    /// ```
    pub fn read_into<F: FnMut(String, String)>(&mut self, mut f: F) -> Result<(), PropertiesError>
        requires callable { CallableOnPairs R.CountedRead F.step F.pre self.old f }
        ensures reads { ReadsInto R.CountedRead F.step self.old f result self.new }
    {
        while let Some(item) = self.next() {
            let line = item?;
            let LineContent::KVPair(key, value) = line.consume_content() else {
                continue;
            };
            f(key, value);
        }
        Ok(())
    }
}
