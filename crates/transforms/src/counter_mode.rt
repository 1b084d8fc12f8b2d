// AES in counter mode (RFC 3711, 4.1.1), XORed into a buffer in place.
ghost use Rattle.std.specs.Prelude.{◌≡◌, ◌++◌, ◌+◌, ◌-◌, ◌*◌, ◌%◌, ◌^◌, ◌≤◌, ◌<◌, min, length, drop};
ghost use Rattle.octets.specs.BigEndian.{to_bytes, from_bytes};
ghost use Rattle.octets.specs.Xor.{xors};
ghost use Rattle.aes.specs.Columns.{block};
ghost use Rattle.transforms.specs.CounterMode.{initial_counter};
ghost use Rattle.transforms.specs.Steps.{segment, xored_at};

use crate::buffers::{xor_in, xor_word_in};
use aes::{RoundKeys, State};
use aes_tables::Series;

// The keystream segment of an initial counter, under the round keys of AES-128, whatever words they are. The low 16 bits of the counter are
// zero; there the blocks are counted.
#[derive(Clone, Copy)]
pub(crate) struct Keystream<'a> {
    // Not `RoundKeys`: where the compiler does not see the number of rounds, a packet of 1,200 bytes takes a fifth longer.
    words: &'a [u32; 44],
    first: State,
    ghost zeros: { first.c3 % 2 ^ 16 ≡ 0 },
}

impl<'a> Keystream<'a> {
    // IV, as four words: the XOR of its three terms, word by word.
    pub fn new(words: &'a [u32; 44], salt: [u8; 14], ssrc: u32, index: u64) -> Keystream<'a>
        requires { index < 2 ^ 48 }
        ensures words { result.words.now ≡ words.now }
        ensures counter { block result.first ≡ to_bytes 16 (initial_counter (from_bytes salt) ssrc index) }
    {
        let high = (index >> 16) as u32;
        let low = (index % 0x1_0000) as u16;
        let last: u16 = octets::load(&salt, 12);
        let c0: u32 = octets::load(&salt, 0);
        let c1: u32 = octets::load(&salt, 4);
        let c2: u32 = octets::load(&salt, 8);
        Keystream {
            words,
            first: State {
                c0,
                c1: c1 ^ ssrc,
                c2: c2 ^ high,
                c3: u32::from(last ^ low) << 16,
            },
        }
    }

    // XORs the segment, from its byte `start` on, into `out`. RFC 3711: a segment has at most 2^16 blocks. The bound is of
    // `start` and the buffer together, and of no value alone.
    pub fn xor_in(&self, start: usize, out: &mut [u8])
        requires { start + length out.old ≤ 2 ^ 20 }
        ensures { out.new ≡ xors out.old (segment self.now.words.now (from_bytes (block self.now.first)) start (length out.old)) }
    {
        let mut at = 0;
        // No `chunks_mut`: the first turn ends at a border of the stream, which is none of `out` where `start` is inside a series. So each turn
        // answers where its series ends.
        while at < out.len() {
            at = self.series_in(start, at, out);
        }
    }

    // XORs into `out` from `at` what the series of byte start + at has from that byte on, as far as `out` reaches. Answers where it ends. A
    // series is 256 blocks, whose counters differ in the last byte alone.
    fn series_in(&self, start: usize, at: usize, out: &mut [u8]) -> usize
        requires { (start + length out.old ≤ 2 ^ 20) × (at < length out.old) }
        ensures end { (at < result) × (result ≤ length out.old) }
        ensures part { out.new ≡ xored_at at (result - at) (drop at (segment self.now.words.now (from_bytes (block self.now.first)) start (length out.old))) out.old }
    {
        let p = start + at;
        let counter = self.counter((p / 4096 * 256) as u32);
        let words = self.words;
        let series = Series::new(RoundKeys { words, rounds: 10 }, counter);
        let from = p % 4096;
        let to = at + (4096 - from).min(out.len() - at);
        series_from(&series, from, &mut out[at..to]);
        to
    }

    // IV + j: with fewer than 2^16 blocks the sum stays in the last word.
    fn counter(&self, j: u32) -> State
        requires { j < 2 ^ 16 }
        ensures bytes { block result ≡ to_bytes 16 ((from_bytes (block self.now.first) + j) % 2 ^ 128) }
        ensures last { result.c3 ≡ self.now.first.c3 + j }
    {
        let first = self.first;
        State {
            c0: first.c0,
            c1: first.c1,
            c2: first.c2,
            c3: first.c3 + j,
        }
    }
}

// XORs the keystream of one series, from its byte `start` on, into `out`.
fn series_from(series: &Series, start: usize, out: &mut [u8])
    requires { (series.now.keys.rounds ≡ 10) × (start + length out.old ≤ 4096) }
    ensures { out.new ≡ xors out.old (segment series.now.keys.words.now (from_bytes (block series.now.first)) start (length out.old)) }
{
    let mut at = 0;
    // The same of blocks.
    while at < out.len() {
        at = blocks_in(series, start, at, out);
    }
}

// XORs into `out` from `at` what the block of byte start + at and the next one have from that byte on, as far as `out` reaches. Answers where
// it ends. Two blocks at a time are quicker, but where one is all that is left. `at` and `out` stay two, here and below: were the part behind
// `at` lent alone, each contract would have to say how it stands in the whole.
fn blocks_in(series: &Series, start: usize, at: usize, out: &mut [u8]) -> usize
    requires { (series.now.keys.rounds ≡ 10) × (start + length out.old ≤ 4096) × (at < length out.old) }
    ensures end { (at < result) × (result ≤ length out.old) }
    ensures part { out.new ≡ xored_at at (result - at) (drop at (segment series.now.keys.words.now (from_bytes (block series.now.first)) start (length out.old))) out.old }
{
    let p = start + at;
    let j = (p / 16) as u32;
    let from = p % 16;
    if from + (out.len() - at) <= 16 {
        let [one] = series.blocks::<1>(j);
        return block_in(one, from, at, out);
    }
    let [one, two] = series.blocks::<2>(j);
    pair_in(one, two, from, at, out)
}

// XORs two blocks, from byte `from` of the first one on, into `out` from `at`, as far as `out` reaches. Answers where it ends.
fn pair_in(one: State, two: State, from: usize, at: usize, out: &mut [u8]) -> usize
    requires { (from < 16) × (at + 16 < from + length out.old) }
    ensures end { result ≡ at + min (32 - from) (length out.old - at) }
    ensures part { out.new ≡ xored_at at (result - at) (drop from (block one ++ block two)) out.old }
{
    if from == 0 && 32 <= out.len() - at {
        words_in(one, at, out);
        words_in(two, at + 16, out);
        return at + 32;
    }
    let behind = block_in(one, from, at, out);
    block_in(two, 0, behind, out)
}

// XORs a block, from its byte `from` on, into `out` from `at`, as far as `out` reaches. Answers where it ends.
fn block_in(k: State, from: usize, at: usize, out: &mut [u8]) -> usize
    requires { (from < 16) × (at ≤ length out.old) }
    ensures end { result ≡ at + min (16 - from) (length out.old - at) }
    ensures part { out.new ≡ xored_at at (result - at) (drop from (block k)) out.old }
{
    let b = k.bytes();
    let n = (16 - from).min(out.len() - at);
    xor_in(&b[from..from + n], &mut out[at..]);
    at + n
}

// XORs a whole block into `out` from `at`, by words.
fn words_in(k: State, at: usize, out: &mut [u8])
    requires { at + 16 ≤ length out.old }
    ensures { out.new ≡ xored_at at 16 (block k) out.old }
{
    xor_word_in(k.c0, at, out);
    xor_word_in(k.c1, at + 4, out);
    xor_word_in(k.c2, at + 8, out);
    xor_word_in(k.c3, at + 12, out);
}
