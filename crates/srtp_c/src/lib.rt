// The boundary to C and Rust: contexts as plain structs that the caller keeps and lends, and an exported function for each call of `srtp`.
// Neither enum nor bool crosses it, so every content of a struct is a value; what a struct stands for is said in specs/Plain.antt.
#![tactic(auto)]

mod calls;
mod exports;
mod plain;

use transforms::SessionKeys;

// A protection profile. `cipher` is 0 for NULL and 1 for AES; `integrity` is 0 for HMAC-SHA1, where `rate` is not looked at, and 1 for RFC
// 4771's mode RCCm2 at that rate.
#[repr(C)]
#[derive(Clone, Copy)]
pub struct Profile {
    pub cipher: u32,
    pub integrity: u32,
    pub rate: u16,
    pub tag_len: usize,
}

// What packets are protected under. The MKI is the first `mki_len` bytes of `mki`. Session keys hold no enum and are the core's own.
#[repr(C)]
#[derive(Clone, Copy)]
pub struct Session {
    pub profile: Profile,
    pub ssrc: u32,
    pub mki: [u8; 4],
    pub mki_len: usize,
    pub media: SessionKeys,
    pub control: SessionKeys,
}

// `last_index` is the media index used last if `has_last` is 1; with 0 no media packet was sent.
#[repr(C)]
#[derive(Clone, Copy)]
pub struct Sender {
    pub session: Session,
    pub has_last: u32,
    pub last_index: u64,
    pub control_sent: u64,
}

// A replay window: `highest` is the highest index if `has_highest` is 1; with 0 there is none. Bit k of `words`, the lowest word
// first, tells whether the index k below the highest was accepted.
#[repr(C)]
#[derive(Clone, Copy)]
pub struct Window {
    pub has_highest: u32,
    pub highest: u64,
    pub words: [u64; 16],
}

#[repr(C)]
#[derive(Clone, Copy)]
pub struct Receiver {
    pub session: Session,
    pub rollover: u32,
    pub media: Window,
    pub control: Window,
}

// What a call answers: 0 with the length and the index of the finished packet, or the number of a refusal with zeros.
#[repr(C)]
#[derive(Clone, Copy)]
pub struct Answer {
    pub number: u32,
    pub len: usize,
    pub index: u64,
}

// What set-up answers: 0 and the context, or SETUP's number and the closed context. C has no type parameters, so there are two.
#[repr(C)]
#[derive(Clone, Copy)]
pub struct SenderSetUp {
    pub number: u32,
    pub context: Sender,
}

#[repr(C)]
#[derive(Clone, Copy)]
pub struct ReceiverSetUp {
    pub number: u32,
    pub context: Receiver,
}

// What a call by value answers, and the struct after it.
#[derive(Clone, Copy)]
pub struct After<P> {
    pub answer: Answer,
    pub next: P,
}
