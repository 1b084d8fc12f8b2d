// What came of an evening's packets of one kind: how often the answer was the one that it should be, and which of them were let in. Where an
// answer is another, a line says so.
ghost use Rattle.std.specs.Prelude.{◌≡◌, ⊤};

use crate::datagram::Datagram;
use crate::link::Link;
use crate::packet::{Packet, Received};
use srtp::{Answer, Refusal};
use std::alloc::AllocError;
use std::io;

// A packet goes by a byte, so that it has its place whichever it is.
const PLACES: usize = 256;

// A packet and what became of it.
#[derive(Clone, Copy)]
struct Place<P> {
    packet: P,
    datagram: Datagram,
    // Where the sender put it, once it was sent.
    index: Option<u64>,
    delivered: bool,
    let_in: bool,
}

// A count stays at its top. No evening gets there.
pub struct Tally<P> {
    places: [Place<P>; PLACES],
    // Whether an index was let in that none of them has.
    other_let_in: bool,
    deliveries: u64,
    as_sent: u64,
    repeats: u64,
    strange: u64,
    refused: u64,
}

// By hand: a derived `Clone` would ask each packet for one, and of 256 that may fail no proof is found.
impl<P: Copy> Clone for Tally<P> {
    ghost is_clone = { λ x y. y ≡ x };

    ghost is_infallible = { λ _. ⊤ };

    fn clone(&self) -> Result<Self, AllocError> {
        Ok(*self)
    }
}

impl<P: Copy> Copy for Tally<P> {}

impl<P: Packet> Tally<P> {
    // Nothing was sent.
    pub fn new() -> Self {
        let place = Place {
            packet: P::default(),
            datagram: Datagram::empty(),
            index: None,
            delivered: false,
            let_in: false,
        };
        Tally {
            places: [place; PLACES],
            other_let_in: false,
            deliveries: 0,
            as_sent: 0,
            repeats: 0,
            strange: 0,
            refused: 0,
        }
    }

    // What was sent as packet `k`.
    pub fn datagram(&self, k: u8) -> &Datagram {
        &self.places[k as usize].datagram
    }

    // This packet is sent as number `k`.
    pub fn send(&mut self, rt: &impl Print, link: &mut Link, k: u8, packet: P) -> io::Result<()> {
        let (answer, datagram) = link.protect(packet);
        let Ok(finished) = answer else {
            return println!(rt; "  but a packet was not sent");
        };
        self.places[k as usize] = Place {
            packet,
            datagram,
            index: Some(finished.index),
            delivered: false,
            let_in: false,
        };
        Ok(())
    }

    // Packet `k` comes.
    pub fn deliver(&mut self, rt: &impl Print, link: &mut Link, k: u8) -> io::Result<()> {
        let place = self.places[k as usize];
        let received = link.open(place.packet, &place.datagram);
        self.enter(received.answer);
        self.deliveries = self.deliveries.saturating_add(1);
        self.places[k as usize].delivered = true;
        if place.delivered {
            self.again(rt, received.answer)
        } else {
            self.first(rt, place.index, received)
        }
    }

    // Marks what was let in, whatever came.
    fn enter(&mut self, answer: Answer) {
        let Ok(finished) = answer else {
            return;
        };
        match self
            .places
            .iter_mut()
            .find(|p| p.index == Some(finished.index))
        {
            Some(place) => place.let_in = true,
            None => self.other_let_in = true,
        }
    }

    // A packet that was sent at this index comes for the first time.
    fn first(&mut self, rt: &impl Print, index: Option<u64>, received: Received) -> io::Result<()> {
        let Ok(finished) = received.answer else {
            return println!(rt; "  but a packet was refused at its first delivery");
        };
        if index != Some(finished.index) {
            return println!(rt; "  but a packet was let in as another index");
        }
        if !received.as_sent {
            return println!(rt; "  but a packet came out as another");
        }
        self.as_sent = self.as_sent.saturating_add(1);
        Ok(())
    }

    // A packet comes that was delivered before.
    fn again(&mut self, rt: &impl Print, answer: Answer) -> io::Result<()> {
        match answer {
            Err(Refusal::Repeat) => {
                self.repeats = self.repeats.saturating_add(1);
                Ok(())
            }
            Err(_) => println!(rt; "  but a repeat was not refused as one"),
            Ok(_) => println!(rt; "  but a packet was let in twice"),
        }
    }

    // Something comes that was not sent as it is.
    pub fn strange(
        &mut self,
        rt: &impl Print,
        link: &mut Link,
        datagram: &Datagram,
    ) -> io::Result<()> {
        let answer = link.open(P::default(), datagram).answer;
        self.enter(answer);
        self.strange = self.strange.saturating_add(1);
        if answer.is_ok() {
            return println!(rt; "  but a strange packet was let in");
        }
        self.refused = self.refused.saturating_add(1);
        Ok(())
    }

    // The sums.
    pub fn say(&self, rt: &impl Print) -> io::Result<()> {
        let sent = self.places.iter().filter(|p| p.index.is_some()).count();
        let delivered = self.places.iter().filter(|p| p.delivered).count();
        println!(rt; "  {} packets sent: {sent}", P::KIND)?;
        println!(rt;
            "  delivered: {delivered} of them, in {} deliveries",
            self.deliveries
        )?;
        println!(rt;
            "  let in at their first delivery, as they were sent: {}",
            self.as_sent
        )?;
        println!(rt; "  refused as repeats: {}", self.repeats)?;
        println!(rt;
            "  damaged and strange ones refused: {} of {}",
            self.refused, self.strange
        )?;
        if self.places.iter().all(|p| p.let_in == p.delivered) && !self.other_let_in {
            println!(rt; "  the indices let in are those delivered")
        } else {
            println!(rt; "  but the indices let in are not those delivered")
        }
    }
}
