// The network between the sender and a room: which packet comes next, and what is damaged or made up on the way. It goes by numbers that look
// drawn at random and are the same in every run.
use crate::datagram::{Datagram, ROOM};
use std::ops::Range;

// A protected control packet, the shortest that is damaged.
const REPORT_LEN: usize = 22;

// The number behind `n` in the row, below 32,768: a step of the generator that the C standard shows.
pub fn draw(n: usize) -> usize {
    (n % 0x1_0000 * 1_103_515_245 + 12_345) / 0x1_0000 % 0x8000
}

// The next of these packets: one of sixteen from `at` on, and each fourth time one up to 127 before.
pub fn pick(packets: Range<u8>, at: u8, drawn: usize) -> u8 {
    let rest = (drawn / 4 % 128) as u8;
    let picked = if drawn % 4 == 0 {
        at.checked_sub(rest)
    } else {
        at.checked_add(rest % 16)
    };
    picked.filter(|k| packets.contains(k)).unwrap_or(at)
}

// What comes that was not sent as it is.
#[derive(Clone, Copy)]
pub enum Strange {
    // A packet with one bit changed, no further back than a control packet goes.
    Damaged,
    OtherStream,
    CutShort,
    // A packet of the other kind.
    OtherKind,
    // Bytes that are no packet.
    Noise,
}

impl Strange {
    // Each comes once in sixteen draws.
    pub fn drawn(n: usize) -> Option<Self> {
        match n % 16 {
            0 => Some(Strange::Damaged),
            1 => Some(Strange::OtherStream),
            2 => Some(Strange::CutShort),
            3 => Some(Strange::OtherKind),
            4 => Some(Strange::Noise),
            _ => None,
        }
    }

    // It, made from a packet of the kind that it comes as and one of the other.
    pub fn make(self, packet: &Datagram, other: &Datagram, drawn: usize) -> Datagram {
        let mut made = *packet;
        match self {
            Strange::Damaged => made.room[drawn % REPORT_LEN] ^= 1 << (drawn / REPORT_LEN % 8),
            Strange::OtherStream => made.room[11] ^= 1,
            Strange::CutShort => made.len = drawn % 26,
            Strange::OtherKind => made = *other,
            Strange::Noise => made = noise(drawn),
        }
        made
    }
}

fn noise(drawn: usize) -> Datagram {
    let mut room = [0; ROOM];
    let mut next = drawn;
    for byte in &mut room {
        next = draw(next);
        *byte = (next % 256) as u8;
    }
    Datagram { room, len: ROOM }
}
