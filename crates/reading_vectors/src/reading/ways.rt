// The ways to read an input.

use counted_io::CountedRead;
use java_properties::{Encoding, Line, PropertiesError, PropertiesIter, read_sorted};
use std::alloc::{AllocError, Global};
use std::collections::BTreeMap;
use vector_notation::items::{Item, read_and_sort, whole_items};
use vector_notation::notation::Halt;

/// How an input is read.
#[derive(Clone, Copy, Debug)]
pub enum Way {
    ReadLines,
    Next,
    NextRef,
    NextAndNextRef,
    AdvanceAndGet,
    ReadInto,
    Read,
    ReadSorted,
}

/// What is read of the input in this way, and the input after it.
pub fn read_by<R: CountedRead>(
    alloc: Global,
    encoding: Encoding,
    mut input: R,
    way: Way,
) -> Result<(Vec<Item>, R), Halt> {
    let items = match way {
        Way::ReadLines => whole_items(alloc, encoding, &mut input)?,
        Way::Read => map_items(alloc, read_and_sort(alloc, &mut input))?,
        Way::ReadSorted => map_items(alloc, read_sorted(alloc, &mut input, encoding))?,
        _ => return read_by_iterator(alloc, encoding, input, way),
    };
    Ok((items, input))
}

// The pairs of a map, or the error that came in place of one.
fn map_items(
    alloc: Global,
    answer: Result<BTreeMap<String, String>, PropertiesError>,
) -> Result<Vec<Item>, AllocError> {
    let mut items = Vec::new(alloc);
    match answer {
        Ok(map) => {
            for (key, value) in map.iter() {
                items.push(Item::of_pair(alloc, 0, key.as_str(), value.as_str())?)?;
            }
        }
        Err(error) => items.push(Item::of_error(alloc, &error)?)?,
    }
    Ok(items)
}

fn read_by_iterator<R: CountedRead>(
    alloc: Global,
    encoding: Encoding,
    input: R,
    way: Way,
) -> Result<(Vec<Item>, R), Halt> {
    let new = match encoding {
        Encoding::WINDOWS_1252 => PropertiesIter::new(alloc, input),
        encoding => PropertiesIter::new_with_encoding(alloc, input, encoding),
    };
    let Ok(mut items) = new else {
        return Err(Halt::Memory);
    };
    let mut came = match way {
        Way::ReadInto => pairs_handed_over(alloc, &mut items)?,
        _ => items_in_turn(alloc, &mut items, way)?,
    };
    if !is_ended(&mut items) {
        came.push(Item::of_pair(alloc, 0, "an item", "after the last")?)?;
    }
    Ok((came, items.into_inner()))
}

fn pairs_handed_over<R: CountedRead>(
    alloc: Global,
    items: &mut PropertiesIter<R>,
) -> Result<Vec<Item>, Halt> {
    let mut pairs = Vec::new(alloc);
    let mut is_refused = false;
    let answer = items.read_into(|key, value| {
        if pairs.push((key, value)).is_err() {
            is_refused = true;
        }
    });
    if is_refused {
        return Err(Halt::Memory);
    }
    let mut came = Vec::new(alloc);
    for (key, value) in pairs.as_slice() {
        came.push(Item::of_pair(alloc, 0, key.as_str(), value.as_str())?)?;
    }
    if let Err(error) = answer {
        came.push(Item::of_error(alloc, &error)?)?;
    }
    Ok(came)
}

fn items_in_turn<R: CountedRead>(
    alloc: Global,
    items: &mut PropertiesIter<R>,
    way: Way,
) -> Result<Vec<Item>, AllocError> {
    let mut came = Vec::new(alloc);
    for place in 0..u64::MAX {
        match next_item(alloc, items, way, place) {
            Some(Ok(line)) => came.push(Item::of_line(alloc, &line)?)?,
            Some(Err(error)) => {
                came.push(Item::of_error(alloc, &error)?)?;
                break;
            }
            None => break,
        }
    }
    Ok(came)
}

// The next item, asked for in this way, where its place is of weight for two ways that take turns.
fn next_item<R: CountedRead>(
    alloc: Global,
    items: &mut PropertiesIter<R>,
    way: Way,
    place: u64,
) -> Option<Result<Line, PropertiesError>> {
    match way {
        Way::NextRef => borrowed_item(alloc, items),
        Way::NextAndNextRef if place % 2 == 1 => borrowed_item(alloc, items),
        Way::AdvanceAndGet => match items.advance()? {
            Ok(found) => Some(items.get(found).to_line(alloc)),
            Err(error) => Some(Err(error)),
        },
        _ => items.next(),
    }
}

fn borrowed_item<R: CountedRead>(
    alloc: Global,
    items: &mut PropertiesIter<R>,
) -> Option<Result<Line, PropertiesError>> {
    match items.next_ref()? {
        Ok(line) => Some(line.to_line(alloc)),
        Err(error) => Some(Err(error)),
    }
}

// No item comes any more, however it is asked for.
fn is_ended<R: CountedRead>(items: &mut PropertiesIter<R>) -> bool {
    let by_next = items.next().is_none();
    let by_next_ref = items.next_ref().is_none();
    let by_advance = items.advance().is_none();
    by_next && by_next_ref && by_advance && items.next().is_none()
}
