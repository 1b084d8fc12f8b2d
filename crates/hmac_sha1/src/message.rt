// A message of SHA-1 in two parts (FIPS 180-4, sections 5.1.1, 5.2.1 and 6.1.2): whole blocks are read where they stand. Only the block
// that has bytes of both parts, and the one or two blocks with padding, are put together in a buffer. The hash value is changed in place.
// The parts are two slices and no struct: each step goes on with others, the rest of the first and what is left of the second.
// That a message is shorter than 2^64 bits is a clause at each step: what is left of it is another slice each time.
ghost use Rattle.std.specs.Prelude.{◌≡◌, ◌+◌, ◌*◌, ◌%◌, ◌^◌, ◌<◌, ◌≤◌, ◌++◌, length};
ghost use Rattle.octets.specs.BigEndian.{to_bytes};
ghost use Rattle.octets.specs.Buffer.{over, over_at};
ghost use Rattle.hmac_sha1.specs.Sha1.{padding, hash_all, digest_of};
ghost use Rattle.hmac_sha1.specs.Parts.{zero_filled};

use crate::State;

// ---- blocks put together

// Writes `a` and behind it `b` over the start of `block`.
fn fill(a: &[u8], b: &[u8], block: &mut [u8])
    requires { length a.now + length b.now ≤ length block.old }
    ensures { block.new ≡ over (a.now ++ b.now) block.old }
{
    octets::copy_over(a, block);
    let n = a.len();
    octets::copy_over(b, &mut block[n..]);
}

// A block that begins with `m`, with zeros behind it.
pub fn zero_filled(m: &[u8]) -> [u8; 64]
    requires { length m.now ≤ 64 }
    ensures { result ≡ zero_filled m.now }
{
    let mut block = [0u8; 64];
    octets::copy_over(m, &mut block);
    block
}

// Puts the length in bits of a message of `n` bytes at the end of `block`.
fn set_length(block: &mut [u8; 64], n: usize)
    requires { 8 * n < 2 ^ 64 }
    ensures { block.new ≡ over_at 56 (to_bytes 8 (8 * n)) block.old }
{
    let bits = (8 * n) as u64;
    octets::store(block, 56, bits);
}

// ---- the hash value of a message

impl State {
    // Goes past the last one or two blocks of a message of `n` bytes: `a`, `b`, less than a block together, and the padding.
    fn last_blocks(&mut self, n: usize, a: &[u8], b: &[u8])
        requires { (8 * n < 2 ^ 64) × (length a.now + length b.now ≡ n % 64) }
        ensures { self.new ≡ hash_all self.old ((a.now ++ b.now) ++ padding n) }
    {
        let mut block = [0u8; 64];
        fill(a, b, &mut block);
        let used = a.len() + b.len();
        block[used] = 0x80;
        if used >= 56 {
            self.compress(&block);
            block = [0u8; 64];
        }
        set_length(&mut block, n);
        self.compress(&block);
    }

    // Goes past each whole block of `m`.
    fn whole_blocks(&mut self, m: &[u8])
        ensures { self.new ≡ hash_all self.old m.now }
    {
        for block in m.as_chunks::<64>().0 {
            self.compress(block);
        }
    }

    // Goes past the rest `m` of a message of `n` bytes, and the padding.
    fn rest(&mut self, n: usize, m: &[u8])
        requires { (8 * n < 2 ^ 64) × (length m.now % 64 ≡ n % 64) }
        ensures { self.new ≡ hash_all self.old (m.now ++ padding n) }
    {
        self.whole_blocks(m);
        self.last_blocks(n, m.as_chunks::<64>().1, b"");
    }

    // The same where the rest is `a`, less than a block, and `b`.
    fn rest_in_parts(&mut self, n: usize, a: &[u8], b: &[u8])
        requires { (8 * n < 2 ^ 64) × (length a.now < 64) × ((length a.now + length b.now) % 64 ≡ n % 64) }
        ensures { self.new ≡ hash_all self.old ((a.now ++ b.now) ++ padding n) }
    {
        let gap = 64 - a.len();
        if b.len() < gap {
            self.last_blocks(n, a, b);
            return;
        }
        let mut block = [0u8; 64];
        fill(a, &b[..gap], &mut block);
        self.compress(&block);
        self.rest(n, &b[gap..]);
    }

    // Goes, from where the first `before` bytes of a message have led, whole blocks, past its rest, `a` and `b`, and the padding.
    // As FIPS 180-4 has it, a message is shorter than 2^64 bits.
    pub(crate) fn hash_after(&mut self, before: usize, a: &[u8], b: &[u8])
        requires { (before % 64 ≡ 0) × (8 * (before + (length a.now + length b.now)) < 2 ^ 64) }
        ensures { self.new ≡ hash_all self.old ((a.now ++ b.now) ++ padding (before + length (a.now ++ b.now))) }
    {
        let n = before + (a.len() + b.len());
        self.whole_blocks(a);
        self.rest_in_parts(n, a.as_chunks::<64>().1, b);
    }

    // ---- the digest

    // Writes the digest over the start of `d`.
    pub(crate) fn put_digest(&self, d: &mut [u8])
        requires { 20 ≤ length d.old }
        ensures { d.new ≡ over (digest_of self.now) d.old }
    {
        octets::store(d, 0, self.a);
        octets::store(d, 4, self.b);
        octets::store(d, 8, self.c);
        octets::store(d, 12, self.d);
        octets::store(d, 16, self.e);
    }

    // Goes, from where one block has led, past the digest of `inner`, where the message ends.
    pub(crate) fn hash_digest(&mut self, inner: &State)
        ensures { self.new ≡ hash_all self.old (digest_of inner.now ++ padding 84) }
    {
        let mut block = [0u8; 64];
        inner.put_digest(&mut block);
        block[20] = 0x80;
        set_length(&mut block, 84);
        self.compress(&block);
    }
}
