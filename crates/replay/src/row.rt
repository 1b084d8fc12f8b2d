// A row of words as one number, the lowest word first: a bit tested, a bit set, all bits shifted up. The row is a bare array and no struct
// with methods: `Window` keeps the array, as its C struct does, and would make a struct of it and take it apart again at each call.
ghost use Rattle.std.specs.Prelude.{◌≡◌, ◌*◌, ◌^◌, ◌<◌};
ghost use Rattle.std.specs.Int.Bits.{bit_or};
ghost use Rattle.replay.specs.Row.{bit, from_words, to_words, word_count};
ghost use Rattle.replay.specs.Window.{window_length};

// How many words a row has.
pub const WORDS: usize = 16;

// The number 1.
#[tactic(auto, unfolding(crate::specs::Row::to_words))]
pub fn one() -> [u64; WORDS]
    ensures { result ≡ to_words (word_count window_length) 1 }
{
    let mut out = [0u64; WORDS];
    out[0] = 1;
    out
}

// Whether bit k is set.
pub fn has_bit(words: [u64; WORDS], k: u64) -> bool
    requires { k < window_length }
    ensures { result ≡ bit (from_words words) k }
{
    let word = words[(k >> 6) as usize];
    (word >> (k & 63)) & 1 == 1
}

// The row with bit k set.
pub fn with_bit(words: [u64; WORDS], k: u64) -> [u64; WORDS]
    requires { k < window_length }
    ensures { result ≡ to_words (word_count window_length) (bit_or (from_words words) (2 ^ k)) }
{
    let mut out = words;
    out[(k >> 6) as usize] |= 1 << (k & 63);
    out
}

// Shifted up by less than a word: each word takes in the bits that leave the one below it. Two shifts give those bits, since a shift by
// 64 would not be one.
fn shifted_by_bits(words: [u64; WORDS], distance: u64) -> [u64; WORDS]
    requires { distance < 64 }
    ensures { result ≡ to_words (word_count window_length) (from_words words * 2 ^ distance) }
{
    let mut out = words;
    let mut carry = 0u64;
    for word in &mut out {
        let low = *word;
        *word = (low << distance) | carry;
        carry = (low >> 1) >> (63 - distance);
    }
    out
}

// Shifted up by whole words.
fn shifted_by_words(words: [u64; WORDS], count: usize) -> [u64; WORDS]
    requires { count < word_count window_length }
    ensures { result ≡ to_words (word_count window_length) (from_words words * 2 ^ (64 * count)) }
{
    let mut out = [0u64; WORDS];
    out[count..].copy_from_slice(&words[..WORDS - count]);
    out
}

// Shifted up by any distance: in a stream in order by less than a word.
pub fn shifted(words: [u64; WORDS], distance: u64) -> [u64; WORDS]
    requires { distance < window_length }
    ensures { result ≡ to_words (word_count window_length) (from_words words * 2 ^ distance) }
{
    if distance < 64 {
        return shifted_by_bits(words, distance);
    }
    let whole = shifted_by_words(words, (distance >> 6) as usize);
    shifted_by_bits(whole, distance & 63)
}
