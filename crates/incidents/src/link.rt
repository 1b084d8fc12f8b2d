// A sender and the receiver at the other end, under one set-up.
use crate::datagram::Datagram;
use crate::packet::{Media, Packet, Received};
use crate::say;
use session::{Profile, SetUp};
use srtp::{Answer, Made, Receiver, Sender};
use std::io;
use std::ops::Range;
use transforms::{Cipher, Integrity};

const SSRC: u32 = 0xcafe_babe;

const KEY: &[u8] = b"sale-room key 16";

const SALT: &[u8] = b"sale salt of14";

// Where nothing else is said, a protected media packet has ten bytes of tag behind it.
pub const USUAL: Profile = Profile {
    cipher: Cipher::Aes,
    integrity: Integrity::HmacSha1,
    tag_len: Profile::TAG_LEN,
};

fn set_up(profile: Profile) -> SetUp<'static> {
    SetUp {
        ssrc: SSRC,
        master_key: KEY,
        master_salt: SALT,
        mki: b"",
        profile,
    }
}

pub fn set_up_sender(profile: Profile) -> Made<Sender> {
    Sender::set_up(set_up(profile))
}

// A receiver with rollover counter 0.
pub fn receiver(profile: Profile) -> Receiver {
    Receiver::set_up(set_up(profile), 0, None).context
}

#[derive(Clone, Copy)]
pub struct Link {
    pub sender: Sender,
    pub receiver: Receiver,
}

impl Link {
    pub fn usual() -> Self {
        Self::under(USUAL)
    }

    pub fn under(profile: Profile) -> Self {
        Link {
            sender: set_up_sender(profile).context,
            receiver: receiver(profile),
        }
    }

    // Sends a packet.
    pub fn send<P: Packet>(&mut self, rt: &impl Print, packet: P) -> io::Result<Datagram> {
        let (answer, datagram) = self.protect(packet);
        say::sent(rt, packet, answer)?;
        Ok(datagram)
    }

    // Receives a packet that was sent before, and says so where what is let in is another.
    pub fn receive<P: Packet>(
        &mut self,
        rt: &impl Print,
        packet: P,
        datagram: &Datagram,
    ) -> io::Result<()> {
        let received = self.open(packet, datagram);
        say::received(rt, packet, received.answer)?;
        if received.answer.is_ok() && !received.as_sent {
            println!(rt; "  but it came out as another packet")?;
        }
        Ok(())
    }

    // Sends a packet and receives it at once.
    pub fn deliver<P: Packet>(&mut self, rt: &impl Print, packet: P) -> io::Result<Datagram> {
        let datagram = self.send(rt, packet)?;
        self.receive(rt, packet, &datagram)?;
        Ok(datagram)
    }

    // Delivers the media packets with these numbers.
    pub fn deliver_all(&mut self, rt: &impl Print, numbers: Range<u16>) -> io::Result<()> {
        for number in numbers {
            self.deliver(rt, Media(number))?;
        }
        Ok(())
    }

    // Sends a packet, and says nothing: the answer, and what goes over the network.
    pub fn protect<P: Packet>(&mut self, packet: P) -> (Answer, Datagram) {
        let mut datagram = Datagram::empty();
        let after = packet.send(self.sender, &mut datagram.room);
        self.sender = after.next;
        if let Ok(finished) = after.answer {
            datagram.len = finished.len;
        }
        (after.answer, datagram)
    }

    // Receives what comes as this packet, and says nothing.
    pub fn open<P: Packet>(&mut self, packet: P, datagram: &Datagram) -> Received {
        let received = packet.receive(self.receiver, datagram.bytes());
        self.receiver = received.next;
        received
    }
}
