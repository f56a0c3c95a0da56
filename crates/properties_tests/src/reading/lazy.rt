// How little is read for an item.

use crate::same::same;
use crate::script::{TIMES_OUT, script};
use java_properties::PropertiesIter;
use std::test::Fail;

// An item that is held is given before anything more is read.
#[test]
fn reading_is_lazy(rt: HostRuntime) -> Result<(), Fail> {
    let input = script(rt.alloc(), b"a=1\n", 4, TIMES_OUT)?;
    let mut items = PropertiesIter::new(rt.alloc(), input)?;
    same(&rt, items.get_ref().reads(), 0);
    same(&rt, matches!(items.next(), Some(Ok(_))), true);
    let input = items.into_inner();
    same(&rt, (input.reads(), input.faults()), (1, 0));
    Ok(())
}
