//! What the commands of `propedit` read: a source that is gone through once, why it is refused, and the tables of its
//! keys.
//!
//! [`fold::take_all`] has a taker take each pair of a source, and [`sound_pairs::take_sound`] those of one that isn't
//! refused. [`key_table`] and [`table`] hold the keys of such a source, and [`values`] finds the values of some.
//! [`ill_formed`] finds lines by their bytes.
//!
//! ```text
//! let table = table_of(alloc, b"a=1\nb=2\na=3", Encoding::UTF_8)?;
//! // Its rows have the keys `a`, whose value is `3`, and `b`.
//! ```
#![tactic(auto)]

pub mod error;
pub mod fold;
pub mod ill_formed;
pub mod key_table;
pub mod messages;
pub mod sound;
pub mod sound_pairs;
pub mod table;
pub mod texts;
pub mod values;
