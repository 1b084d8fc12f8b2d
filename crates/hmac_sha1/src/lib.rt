// SHA-1 (FIPS 180-4) of a message in two parts, and HMAC-SHA1 (RFC 2104) with the work that depends on the key alone kept apart.
#![tactic(auto)]

ghost use Rattle.std.specs.Prelude.{◌≡◌, ◌+◌, ◌*◌, ◌^◌, ◌<◌, ◌++◌, length, replicate};
ghost use Rattle.octets.specs.Xor.{xors};
ghost use Rattle.hmac_sha1.specs.declared.State.{State};
ghost use Rattle.hmac_sha1.specs.Sha1.{initial, compress, sha1};
ghost use Rattle.hmac_sha1.specs.Hmac.{key_state, hmac_key, hmac_with};

mod block;
mod message;

// The five words of a hash value, and the working variables a to e of the rounds. Its layout is C's, so that an exported context can hold it.
#[repr(C)]
#[derive(Clone, Copy)]
pub struct State {
    pub a: u32,
    pub b: u32,
    pub c: u32,
    pub d: u32,
    pub e: u32,
}

impl State {
    // The initial hash value.
    const INITIAL: State = State {
        a: 0x6745_2301,
        b: 0xefcd_ab89,
        c: 0x98ba_dcfe,
        d: 0x1032_5476,
        e: 0xc3d2_e1f0,
    };
}

// The digest of `a` followed by `b`. As FIPS 180-4 has it, a message is shorter than 2^64 bits.
pub fn digest(a: &[u8], b: &[u8]) -> [u8; 20]
    requires { 8 * (length a.now + length b.now) < 2 ^ 64 }
    ensures { result ≡ sha1 (a.now ++ b.now) }
{
    let mut h = State::INITIAL;
    h.hash_after(0, a, b);
    let mut d = [0u8; 20];
    h.put_digest(&mut d);
    d
}

// What the key alone decides of HMAC: the hash values after its inner and its outer block (RFC 2104, section 4).
#[repr(C)]
#[derive(Clone, Copy)]
pub struct HmacKey {
    pub inner: State,
    pub outer: State,
}

// `k` with each byte XORed with `v`. By `xor_over`, whose contract is in `xors`, as RFC 2104's pads are.
fn xor_pad(k: [u8; 64], v: u8) -> [u8; 64]
    ensures { result ≡ xors k (replicate 64 v) }
{
    let w = [v; 64];
    let mut d = [0u8; 64];
    octets::xor_over(&k, &w, &mut d);
    d
}

// The state of a key that has been brought to a block's length.
fn key_state(k: [u8; 64]) -> HmacKey
    ensures { result ≡ key_state k }
{
    let i = xor_pad(k, 0x36);
    let o = xor_pad(k, 0x5c);
    let mut key = HmacKey {
        inner: State::INITIAL,
        outer: State::INITIAL,
    };
    key.inner.compress(&i);
    key.outer.compress(&o);
    key
}

// The state of a key of any length: one of over 64 bytes is hashed first, so it is shorter than 2^64 bits.
pub fn hmac_key(key: &[u8]) -> HmacKey
    requires { 8 * length key.now < 2 ^ 64 }
    ensures { result ≡ hmac_key key.now }
{
    if key.len() <= 64 {
        let k = message::zero_filled(key);
        return key_state(k);
    }
    let d = digest(key, b"");
    let k = message::zero_filled(&d);
    key_state(k)
}

// Writes the HMAC of `a` followed by `b`, with the key whose state is `key`, to `d`. With the key's block the message is shorter than 2^64 bits.
pub fn hmac(key: HmacKey, a: &[u8], b: &[u8], d: &mut [u8; 20])
    requires { 8 * (64 + (length a.now + length b.now)) < 2 ^ 64 }
    ensures { d.new ≡ hmac_with key (a.now ++ b.now) }
{
    let mut h = key.inner;
    h.hash_after(64, a, b);
    let mut o = key.outer;
    o.hash_digest(&h);
    o.put_digest(d);
}
