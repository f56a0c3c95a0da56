// What is read, as far as no row of a table can say it.

mod borrowed;
mod comments;
mod keys;
mod lazy;
mod lookups;
mod malformed;
