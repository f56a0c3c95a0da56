// Pairs in the order of their file.

use counted_io::CountedRead;
use java_properties::{Encoding, LineContent, PropertiesError, PropertiesIter};
use std::alloc::Global;
use std::collections::BTreeMap;

/// The pairs of a file in UTF-8, by the first line of each key, and each with its last value.
pub fn pairs_in_file_order<R: CountedRead>(
    alloc: Global,
    input: &mut R,
) -> Result<Vec<(String, String)>, PropertiesError> {
    let mut pairs: Vec<(String, String)> = Vec::new(alloc);
    let mut places: BTreeMap<String, usize> = BTreeMap::new(alloc);
    for item in PropertiesIter::new_with_encoding(alloc, input, Encoding::UTF_8)? {
        let LineContent::KVPair(key, value) = item?.consume_content() else {
            continue;
        };
        let place = places.get(key.as_str()).copied();
        match place.and_then(|place| pairs.get_mut(place)) {
            Some(pair) => pair.1 = value,
            None => {
                places.insert(key.clone()?, pairs.len())?;
                pairs.push((key, value))?;
            }
        }
    }
    Ok(pairs)
}

#[cfg(test)]
mod tests {
    use super::*;
    use crate::same::same;
    use std::test::Fail;

    #[test]
    fn keeps_the_order_of_the_file(rt: HostRuntime) -> Result<(), Fail> {
        let mut input: &[u8] = b"z=1\n# c\na=2\nz=3\nm=4";
        let pairs = pairs_in_file_order(rt.alloc(), &mut input)?;
        let wanted = [("z", "3"), ("a", "2"), ("m", "4")];
        same(&rt, pairs.len(), wanted.len());
        for (pair, wanted) in pairs.iter().zip(wanted) {
            same(&rt, (pair.0.as_str(), pair.1.as_str()), wanted);
        }
        Ok(())
    }
}
