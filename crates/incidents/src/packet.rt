// The packets of these runs: media, a header and four bytes of text, and control, a report with nothing in it. There is no MKI.
use crate::datagram::Datagram;
use srtp::{After, Answer, Receiver, Sender};
use std::fmt;

// A packet of one kind. Printed, it is what a line calls it.
pub trait Packet: Copy + Default + fmt::Display {
    // What packets of this kind are called.
    const KIND: &'static str;

    // Protects it into `out`.
    fn send(self, sender: Sender, out: &mut [u8]) -> After<Sender>;

    // Receives bytes as a packet of its kind, and compares what comes out with it.
    fn receive(self, receiver: Receiver, bytes: &[u8]) -> Received;
}

// What receiving gave: the answer, whether it let in the packet that was sent, and the next context.
#[derive(Clone, Copy)]
pub struct Received {
    pub answer: Answer,
    pub as_sent: bool,
    pub next: Receiver,
}

impl Received {
    fn new(after: After<Receiver>, sent: &[u8], out: &[u8]) -> Self {
        Received {
            answer: after.answer,
            as_sent: after
                .answer
                .is_ok_and(|finished| finished.len == sent.len())
                && out == sent,
            next: after.next,
        }
    }
}

// A media packet with this sequence number.
#[derive(Clone, Copy, Default)]
pub struct Media(pub u16);

impl Media {
    // Its text ends in the number again, so that one can be told from another.
    fn plain(self) -> [u8; 16] {
        let [high, low] = self.0.to_be_bytes();
        [
            0x80, 0x60, high, low, 0, 0, 0, 0, 0xca, 0xfe, 0xba, 0xbe, b'n', b'o', high, low,
        ]
    }
}

impl fmt::Display for Media {
    fn fmt<W: fmt::Write>(&self, f: &mut fmt::Formatter<W>) -> fmt::Result {
        write!(f, "number {}", self.0)
    }
}

impl Packet for Media {
    const KIND: &'static str = "media";

    fn send(self, sender: Sender, out: &mut [u8]) -> After<Sender> {
        sender.send_media(&self.plain(), out)
    }

    fn receive(self, receiver: Receiver, bytes: &[u8]) -> Received {
        let mut out = [0; 16];
        let after = receiver.receive_media(bytes, &mut out);
        Received::new(after, &self.plain(), &out)
    }
}

// A control packet. It has no number.
#[derive(Clone, Copy, Default)]
pub struct Control;

impl Control {
    const PLAIN: [u8; 8] = [0x80, 201, 0, 1, 0xca, 0xfe, 0xba, 0xbe];
}

impl fmt::Display for Control {
    fn fmt<W: fmt::Write>(&self, f: &mut fmt::Formatter<W>) -> fmt::Result {
        f.write_str(Self::KIND)
    }
}

impl Packet for Control {
    const KIND: &'static str = "control";

    fn send(self, sender: Sender, out: &mut [u8]) -> After<Sender> {
        sender.send_control(&Self::PLAIN, out)
    }

    fn receive(self, receiver: Receiver, bytes: &[u8]) -> Received {
        let mut out = [0; 8];
        let after = receiver.receive_control(bytes, &mut out);
        Received::new(after, &Self::PLAIN, &out)
    }
}
