// SHA-1 alone for C and Rust, to measure it by itself (reference/benchmark). SRTP's own boundary is `srtp_c`.
#![tactic(auto)]

ghost use Rattle.std.specs.Prelude.{◌≡◌};
ghost use Rattle.sha1_c.specs.Digests.{digest_given};

#[repr(C)]
#[derive(Clone, Copy)]
pub struct Digest {
    pub bytes: [u8; 20],
}

// The digest of `message`. FIPS 180-4 has none for 2^61 bytes or more, and a caller in C is held to nothing: zeros stand for it.
#[unsafe(no_mangle)]
pub extern "C" fn tindrabek_sha1(message: &[u8]) -> Digest
    ensures { result.bytes ≡ digest_given message.now }
{
    if message.len() >= 0x2000_0000_0000_0000 {
        return Digest { bytes: [0; 20] };
    }
    let bytes = hmac_sha1::digest(message, b"");
    Digest { bytes }
}
