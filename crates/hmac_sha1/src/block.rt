// One block of SHA-1 (FIPS 180-4, section 6.1.3): the message schedule in a ring of sixteen words, the eighty rounds, the sum with the
// hash value before. W_t stands at place t mod 16 of the ring, where W_{t-16} stood. The ring is no struct with an invariant: what it holds
// is said of a block and of how far its schedule has come (`Ring`), which the struct would have to keep for the proofs alone.
ghost use Rattle.std.specs.Prelude.{◌≡◌, ℕ, ◌+◌, ◌-◌, ◌*◌, ◌%◌, ◌<◌, ◌≤◌, List};
ghost use Rattle.hmac_sha1.specs.Sha1.{word_at, ch, parity, maj, ft, kt, round, sum, compress};
ghost use Rattle.hmac_sha1.specs.Parts.{Ring, IsAfterRounds, mixed_in};

use crate::State;

// Ch in three operations, where the standard's form has four.
fn ch(x: u32, y: u32, z: u32) -> u32
    ensures { result ≡ ch x y z }
{
    z ^ (x & (y ^ z))
}

fn parity(x: u32, y: u32, z: u32) -> u32
    ensures { result ≡ parity x y z }
{
    x ^ y ^ z
}

fn maj(x: u32, y: u32, z: u32) -> u32
    ensures { result ≡ maj x y z }
{
    (x & y) ^ (x & z) ^ (y & z)
}

// f_t and K_t are the same for the twenty rounds from 20 q on. So a loop over these has no test of t. `q` is a number, for it counts rounds,
// and no closure for f_t: its contract would have to say for which rounds it is f_t, which `q` says.
fn round_function(q: usize, x: u32, y: u32, z: u32) -> u32
    ensures { result ≡ ft (20 * q) x y z }
{
    match q {
        0 => ch(x, y, z),
        1 => parity(x, y, z),
        2 => maj(x, y, z),
        _ => parity(x, y, z),
    }
}

fn round_constant(q: usize) -> u32
    ensures { result ≡ kt (20 * q) }
{
    match q {
        0 => 0x5a82_7999,
        1 => 0x6ed9_eba1,
        2 => 0x8f1b_bcdc,
        _ => 0xca62_c1d6,
    }
}

// Round t, where 20 q <= t < 20 q + 20, with the word W_t. `a`, which the round before gives last, is added last, when all else is ready.
fn round(q: usize, w: u32, s: State) -> State
    ensures { result ≡ round (20 * q) w s }
{
    State {
        a: s.e
            .wrapping_add(w)
            .wrapping_add(round_constant(q))
            .wrapping_add(round_function(q, s.b, s.c, s.d))
            .wrapping_add(s.a.rotate_left(5)),
        b: s.a,
        c: s.b.rotate_left(30),
        d: s.c,
        e: s.d,
    }
}

// Rounds t to t + 3, written out: in a loop over single rounds the compiler adds `a` sooner, and each round waits longer for the one before.
fn four_rounds(w: &[u32; 16], q: usize, t: usize, s: State) -> State
    requires { (t % 4 ≡ 0) × (20 * q ≤ t) × (t < 20 * q + 20) }
    ensures { IsAfterRounds w.now t 4 s result }
{
    let i = t % 16;
    let s1 = round(q, w[i], s);
    let s2 = round(q, w[i + 1], s1);
    let s3 = round(q, w[i + 2], s2);
    round(q, w[i + 3], s3)
}

// The rounds from `from` to `to` by fours, all among the twenty from 20 q on, with words that the ring holds at once.
fn rounds(w: &[u32; 16], q: usize, from: usize, to: usize, s: State) -> State
    requires { (from % 4 ≡ 0) × (to % 4 ≡ 0) × (20 * q ≤ from) × (from ≤ to) × (to ≤ 20 * q + 20) }
    ensures { IsAfterRounds w.now from (to - from) s result }
{
    let mut v = s;
    for i in 0..(to - from) / 4 {
        v = four_rounds(w, q, from + 4 * i, v);
    }
    v
}

// Word t of the block `m`, the highest byte first. By shifts, and not by `octets::load`: behind that the compiler orders the rounds so that an
// HMAC of 400 bytes takes 2 % longer.
fn word(m: &[u8; 64], t: usize) -> u32
    requires { t < 16 }
    ensures { result ≡ word_at m.now t }
{
    let at = 4 * t;
    (m[at] as u32) << 24 | (m[at + 1] as u32) << 16 | (m[at + 2] as u32) << 8 | m[at + 3] as u32
}

// The sixteen words of the block `m`. (`array::from_fn` would want a closure with a contract of its own.)
fn load_words(m: &[u8; 64]) -> [u32; 16]
    ensures { Ring m.now 16 result }
{
    let mut w = [0u32; 16];
    for t in 0..16 {
        w[t] = word(m, t);
    }
    w
}

// W_t from the sixteen words before it, where i = t mod 16.
fn mixed(w: &[u32; 16], i: usize) -> u32
    requires { i < 16 }
    ensures { result ≡ mixed_in w.now i }
{
    let x = w[(i + 13) % 16] ^ w[(i + 8) % 16] ^ w[(i + 2) % 16] ^ w[i];
    x.rotate_left(1)
}

// The next sixteen words take the places of those before.
fn advance(w: &mut [u32; 16])
    ensures { (m : List ℕ) (t : ℕ) → t % 16 ≡ 0 → 16 ≤ t → t ≤ 64 → Ring m t w.old → Ring m (t + 16) w.new }
{
    for i in 0..16 {
        w[i] = mixed(w, i);
    }
}

fn sum(s: State, h: State) -> State
    ensures { result ≡ sum s h }
{
    State {
        a: s.a.wrapping_add(h.a),
        b: s.b.wrapping_add(h.b),
        c: s.c.wrapping_add(h.c),
        d: s.d.wrapping_add(h.d),
        e: s.e.wrapping_add(h.e),
    }
}

// The hash value after the block `m`, from the one before, `h`.
fn compress(h: State, m: &[u8; 64]) -> State
    ensures { result ≡ compress h m.now }
{
    let mut w = load_words(m);
    let s = rounds(&w, 0, 0, 16, h);
    advance(&mut w); // W_16 to W_31
    let s = rounds(&w, 0, 16, 20, s);
    let s = rounds(&w, 1, 20, 32, s);
    advance(&mut w); // W_32 to W_47
    let s = rounds(&w, 1, 32, 40, s);
    let s = rounds(&w, 2, 40, 48, s);
    advance(&mut w); // W_48 to W_63
    let s = rounds(&w, 2, 48, 60, s);
    let s = rounds(&w, 3, 60, 64, s);
    advance(&mut w); // W_64 to W_79
    let s = rounds(&w, 3, 64, 80, s);
    sum(s, h)
}

impl State {
    // The same in place. It's a function of its own, for where `compress` is inlined, its loops written out, the compiler puts the sums of the
    // rounds in order once more: in a single function a block takes 2 % longer.
    pub(crate) fn compress(&mut self, m: &[u8; 64])
        ensures { self.new ≡ compress self.old m.now }
    {
        *self = compress(*self, m);
    }
}
