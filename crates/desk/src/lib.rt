// The sale desk: protected media packets in RFC 4571's framing come in, read by read, and the opened ones go out in the same framing.
// specs/Listening.antt says what the bytes of a key file and an input give as output. A program calls `Desk::start` and `Desk::serve`.
#![tactic(auto)]

mod framing;
mod serving;

ghost use Rattle.std.specs.Prelude.{◌≡◌, [], ◌≤◌, length};
ghost use Rattle.desk.specs.Listening.{fresh, receiver_for};
ghost use Rattle.desk.specs.Reads.{Stands, Starts, takes_read, Receives, Serves};

pub use framing::{Frame, Reader};
use serving::Serving;
use session::{Profile, SetUp};
use srtp::Receiver;
use transforms::{Cipher, Integrity};

// The bytes of a key file: 16 of master key, then 14 of master salt.
pub const KEY_FILE_LEN: usize = 30;

// The output's buffer has so many bytes more than a read: the longest frame, which may have come before the read but for its last byte, and
// the 2,050 bytes that a packet is given.
pub const SPARE_LEN: usize = 4110;

// The key file's bytes, and the receiver that is fixed, once a packet was let in. Until then each packet has a fresh one.
#[derive(Clone, Copy)]
pub struct Listener {
    pub key: [u8; KEY_FILE_LEN],
    pub fixed: Option<Receiver>,
}

// The desk between two reads.
#[derive(Clone, Copy)]
pub struct Desk {
    pub frame: Frame,
    pub listener: Listener,
}

// The desk of a key file, and whether the file has the right length. This is no `Option` of a desk: there is one, which is shut, where it has
// not, and the theorem `run-output` speaks of both.
#[derive(Clone, Copy)]
pub struct Start {
    pub ready: bool,
    pub desk: Desk,
}

// The length of a read's output, if the read was taken, and the next desk. (There is no heap: the bytes stand in the caller's buffer.)
#[derive(Clone, Copy)]
pub struct Served {
    pub written: Option<usize>,
    pub next: Desk,
}

// A fresh receiver under the bytes of a key file.
fn fresh_receiver(key: [u8; KEY_FILE_LEN], ssrc: u32) -> Receiver
    ensures { result ≡ fresh key ssrc }
{
    let profile = Profile {
        cipher: Cipher::Aes,
        integrity: Integrity::HmacSha1,
        tag_len: Profile::TAG_LEN,
    };
    let k = &key[..];
    let set_up = SetUp {
        ssrc,
        master_key: &k[..16],
        master_salt: &k[16..],
        mki: b"",
        profile,
    };
    Receiver::set_up(set_up, 0, None).context
}

impl Listener {
    // The receiver of a packet: the one that is fixed, or a fresh one under the packet's own SSRC.
    #[tactic(auto, unfolding(rtp::specs::Rtp::rtp_ssrc))]
    fn receiver_for(&self, packet: &[u8]) -> Receiver
        requires { 12 ≤ length packet.now }
        ensures { result ≡ receiver_for self.now packet.now }
    {
        match self.fixed {
            Some(receiver) => receiver,
            None => {
                let ssrc: u32 = octets::load(packet, 8);
                fresh_receiver(self.key, ssrc)
            }
        }
    }

    // Receives a packet, and writes the opened one in its framing over the start of `out`: so many bytes. One too short to have an SSRC is
    // refused.
    fn receive(&mut self, packet: &[u8], out: &mut [u8]) -> usize
        requires { 2050 ≤ length out.old }
        ensures { Receives self.old packet.now out.old self.new result out.new }
    {
        if packet.len() < 12 {
            return 0;
        }
        let receiver = self.receiver_for(packet);
        let after = receiver.receive_media(packet, &mut out[2..2050]);
        match after.answer {
            Err(_) => 0,
            Ok(finished) => {
                self.fixed = Some(after.next);
                octets::store(out, 0, finished.len as u16);
                2 + finished.len
            }
        }
    }
}

impl Desk {
    // The desk under 30 bytes, before any input. It is shut where the closed receiver is fixed.
    fn keyed(key: [u8; KEY_FILE_LEN], fixed: Option<Receiver>) -> Desk
        ensures { (result.listener ≡ record { key = key; fixed = fixed }) × Stands result [] }
    {
        Desk {
            frame: Frame::start(),
            listener: Listener { key, fixed },
        }
    }

    // The desk of a key file's bytes. Where the file has another length it is not ready, but shut: it lets nothing in.
    pub fn start(key: &[u8]) -> Start
        ensures { Starts key.now result }
    {
        let Ok(key) = <[u8; KEY_FILE_LEN]>::try_from(key) else {
            return Start {
                ready: false,
                desk: Desk::keyed([0; KEY_FILE_LEN], Some(Receiver::closed())),
            };
        };
        Start {
            ready: true,
            desk: Desk::keyed(key, None),
        }
    }

    // Whether a read of `len` bytes is taken, with `room` bytes to write on.
    fn takes(&self, len: usize, room: usize) -> bool
        ensures { result ≡ takes_read self.now.frame.reader len room }
    {
        !self.frame.reader.is_whole() && room >= SPARE_LEN && len <= room - SPARE_LEN
    }

    // Takes a whole read, of any length, and writes its output over the start of `out`. Where `out` is not longer than the read by SPARE_LEN
    // bytes nothing is taken, and nothing changes.
    pub fn serve(self, input: &[u8], out: &mut [u8]) -> Served
        ensures { Serves self input.now out.old result out.new }
    {
        if !self.takes(input.len(), out.len()) {
            return Served {
                written: None,
                next: self,
            };
        }
        let mut serving = Serving {
            desk: self,
            at: 0,
            len: 0,
        };
        // A turn takes as many bytes as a packet has, so no `for` counts them.
        while serving.at < input.len() {
            serving.turn(input, out);
        }
        Served {
            written: Some(serving.len),
            next: serving.desk,
        }
    }
}
