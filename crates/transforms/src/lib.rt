// The cryptographic transforms of RFC 3711, section 4, and RFC 4771's integrity transform: keystream, authentication tag, key derivation.
// Bytes in, bytes out, no state.
#![tactic(auto)]

mod buffers;
mod ciphers;
mod counter_mode;
mod derivation;
mod tag;

pub use ciphers::encipher;
pub use derivation::derived;
pub use tag::{control_tag, media_tag};

// The session keys of one direction, media or control, ready for use: the expanded cipher key, the salt, and what HMAC keeps of the
// authentication key (its two hash values; the key itself is not needed again). Its layout is C's, so that an exported context can hold it.
#[repr(C)]
#[derive(Clone, Copy)]
pub struct SessionKeys {
    pub round: [u32; 44],
    pub tag: hmac_sha1::HmacKey,
    pub salt: [u8; SessionKeys::SALT_LEN],
}

// RFC 3711's ciphers.
#[derive(Clone, Copy)]
pub enum Cipher {
    Aes,
    Null,
}

// The integrity transforms of media packets: RFC 3711's HMAC-SHA1, or RFC 4771's in mode RCCm2, at a rate. Under the latter the tag of each
// packet whose sequence number is 0 mod the rate carries the rollover counter.
#[derive(Clone, Copy)]
pub enum Integrity {
    HmacSha1,
    Rccm2(u16),
}
