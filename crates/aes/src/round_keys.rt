// The round keys of the cipher (FIPS 197, 5.2).
ghost use Rattle.std.specs.Prelude.{◌≡◌, ◌+◌, ◌*◌, ◌≤◌, ◌<◌, length};
ghost use Rattle.aes.specs.Cipher.{round_key};
ghost use Rattle.aes.specs.Columns.{block, key_state};

use crate::State;

// The words of `rounds` rounds, whatever words they are.
#[derive(Clone, Copy)]
pub struct RoundKeys<'a> {
    pub words: &'a [u32],
    pub rounds: usize,
    pub ghost some: { 0 < rounds },
    pub ghost enough: { 4 * rounds + 4 ≤ length words.now },
}

impl RoundKeys<'_> {
    // Round key `i`.
    pub fn at(&self, i: usize) -> State
        requires { i ≤ self.now.rounds }
        ensures columns { result ≡ key_state self.now.words.now i }
        ensures bytes { block result ≡ round_key self.now.words.now i }
    {
        State {
            c0: self.words[4 * i],
            c1: self.words[4 * i + 1],
            c2: self.words[4 * i + 2],
            c3: self.words[4 * i + 3],
        }
    }
}
