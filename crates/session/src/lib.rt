// A session: the settings and session keys of one stream, and the packet that RFC 3711 (3.1, 3.4), or RFC 4771 by its integrity transform,
// makes of a plain one under them at an index. It has no state: index and replay window stand above.
#![tactic(auto)]

mod packets;
mod sessions;

use transforms::{Cipher, Integrity, SessionKeys};

// A protection profile: a cipher, an integrity transform and the length of the media tag. Every length that goes with a profile is named
// here.
#[derive(Clone, Copy)]
pub struct Profile {
    pub cipher: Cipher,
    pub integrity: Integrity,
    pub tag_len: usize,
}

impl Profile {
    pub const MASTER_KEY_LEN: usize = 16;

    pub const MASTER_SALT_LEN: usize = 14;

    pub const MAX_MKI_LEN: usize = 4;

    pub const TAG_LEN: usize = 10;

    pub const SHORT_TAG_LEN: usize = 4;
    // With the rollover counter in it (RFC 4771, 5).
    pub const RCC_TAG_LEN: usize = 14;

    pub const CONTROL_TAG_LEN: usize = 10;
    // The longest plain packet.
    pub const MAX_PACKET_LEN: usize = 2048;
}

// What set-up is given, sender and receiver alike.
#[derive(Clone, Copy)]
pub struct SetUp<'a> {
    pub ssrc: u32,
    pub master_key: &'a [u8],
    pub master_salt: &'a [u8],
    pub mki: &'a [u8],
    pub profile: Profile,
}

// What set-up checks, kept with the context. The MKI is the first `mki_len` bytes of `mki`: a context is plain memory, without heap.
// No invariant holds here: a context value may have any numbers, and row 1 of the table of refusals answers it.
#[derive(Clone, Copy)]
pub struct Settings {
    pub profile: Profile,
    pub ssrc: u32,
    pub mki: [u8; Profile::MAX_MKI_LEN],
    pub mki_len: usize,
}

// What a packet is protected under.
#[derive(Clone, Copy)]
pub struct Session {
    pub settings: Settings,
    pub media: SessionKeys,
    pub control: SessionKeys,
}
