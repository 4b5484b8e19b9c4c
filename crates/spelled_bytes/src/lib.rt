//! Values that are read from the front of bytes, by their spelling.
//!
//! A type is `Spell` that says which bytes spell each of its values, and reads the value that bytes begin with. No
//! spelling begins another one, and each is that of one value: so bytes begin with one value at most, and where no
//! value is found there is none. Numbers, pairs and locations are spelled here, alike in all kinds of bytes, and
//! `read_all` reads so many values of a type.
//!
//! A read goes once over what it reads and costs as many steps as that has bytes. A number that the bytes announce
//! takes no memory: what is taken grows with the values that were read.
#![tactic(auto)]

mod lists;
mod locations;
mod numbers;
mod spelling;
mod unread;

pub use lists::read_all;
pub use spelling::Spell;
pub use unread::Unread;
