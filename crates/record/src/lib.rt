// What commands say from a place on, as a record does: strings, keys with their targets, options.
#![tactic(auto)]

mod lists;
mod place;

pub use lists::{Key, Keys, Strings, Targets};
pub use place::{ANY, Place, Record};
