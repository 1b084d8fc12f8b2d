// AES (FIPS 197) by a table of words: the cipher of crate `aes`, quicker.
#![tactic(auto)]

mod cipher;
mod rounds;
mod series;
mod table;

use aes::State;
pub use cipher::encrypt_block;
pub use series::{Series, front_of};
pub use table::{Tables, round_table};

// What blocks that differ in their last byte alone share of the first two rounds: `first`, the first column that round 1 gives, without what
// the last byte adds to it; `rest`, the state that round 2 gives, without what that column adds to it.
#[derive(Clone, Copy)]
pub struct Front {
    pub first: u32,
    pub rest: State,
}
