// The parts of the library, each called from outside.

mod blocks;
mod characters;
mod escapes;
mod lines;
mod slices;
mod streams;
mod two_ways;
