// AES (FIPS 197): the key expansion, and the cipher on one block by the S-box alone.
#![tactic(auto)]

mod cipher;
mod expansion;
mod round_keys;
mod substitution;

ghost use Rattle.std.specs.Prelude.{◌≡◌, ◌+◌, ◌≤◌, length, take, drop};
ghost use Rattle.aes.specs.Cipher.{add_round_key};
ghost use Rattle.aes.specs.Columns.{block, added_to};

pub use cipher::encrypt_block;
pub use expansion::{expand_128, expand_key};
pub use round_keys::RoundKeys;
pub use substitution::sbox;

// A block on its way through the cipher: its four columns (FIPS 197, 3.5), each a word whose first byte is the highest.
#[derive(Clone, Copy)]
pub struct State {
    pub c0: u32,
    pub c1: u32,
    pub c2: u32,
    pub c3: u32,
}

impl State {
    // The sixteen bytes of `s` from `at`.
    pub fn load(s: &[u8], at: usize) -> State
        requires { at + 16 ≤ length s.now }
        ensures { block result ≡ take 16 (drop at s.now) }
    {
        State {
            c0: octets::load(s, at),
            c1: octets::load(s, at + 4),
            c2: octets::load(s, at + 8),
            c3: octets::load(s, at + 12),
        }
    }

    // Its sixteen bytes. No `From`, as `u32::to_be_bytes` is none: the name says that they are laid out.
    pub fn bytes(self) -> [u8; 16]
        ensures { result ≡ block self }
    {
        let [a0, a1, a2, a3] = self.c0.to_be_bytes();
        let [b0, b1, b2, b3] = self.c1.to_be_bytes();
        let [c0, c1, c2, c3] = self.c2.to_be_bytes();
        let [d0, d1, d2, d3] = self.c3.to_be_bytes();
        [
            a0, a1, a2, a3, b0, b1, b2, b3, c0, c1, c2, c3, d0, d1, d2, d3,
        ]
    }

    // AddRoundKey.
    pub fn added(self, key: State) -> State
        ensures columns { result ≡ added_to self key }
        ensures bytes { block result ≡ add_round_key (block self) (block key) }
    {
        State {
            c0: self.c0 ^ key.c0,
            c1: self.c1 ^ key.c1,
            c2: self.c2 ^ key.c2,
            c3: self.c3 ^ key.c3,
        }
    }
}
