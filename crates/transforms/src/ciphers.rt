// A text under a cipher (RFC 3711, 4.1): XORed with the packet's keystream.
ghost use Rattle.std.specs.Prelude.{◌≡◌, List, ℕ, ◌+◌, ◌^◌, ◌≤◌, ◌<◌, length};
ghost use Rattle.transforms.specs.Ciphers.{ciphered_from};

use crate::counter_mode::Keystream;
use crate::{Cipher, SessionKeys};

// Puts `text`, which starts at byte `start` of the packet's stream, under the cipher, in place. Deciphering is the same. Neither cipher looks
// at the packet's clear part. An index is a number with a bound, here and in the tags, and no type of its own: sessions and contexts in C's
// layout hold it so.
pub fn encipher(
    cipher: Cipher,
    keys: SessionKeys,
    ssrc: u32,
    index: u64,
    start: usize,
    text: &mut [u8],
)
    requires { (index < 2 ^ 48) × (start + length text.old ≤ 2 ^ 20) }
    ensures { (clear : List ℕ) → text.new ≡ ciphered_from start cipher keys ssrc index clear text.old }
{
    match cipher {
        Cipher::Aes => Keystream::new(&keys.round, keys.salt, ssrc, index).xor_in(start, text),
        Cipher::Null => {}
    }
}
