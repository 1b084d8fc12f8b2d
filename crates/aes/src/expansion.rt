// The key expansion (FIPS 197, 5.2) of a key of `nk` words.
ghost use Rattle.std.specs.Prelude.{◌≡◌, ◌+◌, ◌*◌, ◌≤◌, ◌<◌, length, take};
ghost use Rattle.aes.specs.KeyExpansion.{rot_word, sub_word, rcon_byte, temp, key_words, expand, key_expansion};

use crate::substitution::column;

// The 44 words of a 16-byte key.
pub fn expand_128(key: [u8; 16]) -> [u32; 44]
    ensures { result ≡ key_expansion 4 key }
{
    let mut w = [0u32; 44];
    expand_key(4, &key, &mut w);
    w
}

// The words of a key of 4 * nk bytes, over all of `w`. `nk` stands beside the key, as FIPS 197 has it, and the definitions go by it.
pub fn expand_key(nk: usize, key: &[u8], w: &mut [u32])
    requires { (4 ≤ nk) × (length key.now ≡ 4 * nk) × (length w.old ≡ 4 * nk + 28) }
    ensures { w.new ≡ key_expansion nk key.now }
{
    load_key(nk, key, w);
    fill(nk, w);
}

// The words of the key itself, at the start of `w`. By index: of what is written through an adapter of `iter_mut` a proof knows nothing.
fn load_key(nk: usize, key: &[u8], w: &mut [u32])
    requires { (4 * nk ≤ length key.now) × (nk ≤ length w.old) }
    ensures words { take nk w.new ≡ key_words nk key.now }
    ensures size { length w.new ≡ length w.old }
{
    for i in 0..nk {
        w[i] = octets::load(key, 4 * i);
    }
}

// The words behind the first `nk`, to the end of `w`.
fn fill(nk: usize, w: &mut [u32])
    requires { (4 ≤ nk) × (length w.old ≡ 4 * nk + 28) }
    ensures { w.new ≡ expand nk (3 * nk + 28) (take nk w.old) }
{
    for i in nk..w.len() {
        w[i] = w[i - nk] ^ temp_of(nk, i, w[i - 1]);
    }
}

// What is added to word i - nk, where `last` is word i - 1.
fn temp_of(nk: usize, i: usize, last: u32) -> u32
    requires { (0 < nk) × (nk ≤ i) × (i < 11 * nk) }
    ensures { result ≡ temp nk i last }
{
    let m = i % nk;
    if m == 0 {
        let c = u32::from(rcon(i / nk - 1));
        return sub_word(rot_word(last)) ^ (c << 24);
    }
    if 6 < nk && m == 4 {
        return sub_word(last);
    }
    last
}

fn rot_word(w: u32) -> u32
    ensures { result ≡ rot_word w }
{
    w.rotate_left(8)
}

fn sub_word(w: u32) -> u32
    ensures { result ≡ sub_word w }
{
    column(w, w, w, w)
}

// The first bytes of Rcon[1] to Rcon[10] (Table 5).
const RCON: [u8; 10] = [0x01, 0x02, 0x04, 0x08, 0x10, 0x20, 0x40, 0x80, 0x1b, 0x36];

// The first byte of Rcon[i + 1].
fn rcon(i: usize) -> u8
    requires { i < 10 }
    ensures { result ≡ rcon_byte i }
{
    RCON[i]
}
