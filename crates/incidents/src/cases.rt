// The worked cases 13, 14 and 15 of the link's rules.
use crate::link::{self, Link};
use crate::packet::Media;
use crate::say;
use std::io;

pub fn run(rt: &impl Print) -> io::Result<()> {
    println!(rt; "case 13: the same good packet twice")?;
    let mut link = Link::usual();
    let good = link.deliver(rt, Media(1))?;
    link.receive(rt, Media(1), &good)?;
    println!(rt; "case 14: the first packet with one bit of its tag changed, then the good one")?;
    link.receiver = link::receiver(link::USUAL);
    let mut bad = good;
    bad.room[25] ^= 1;
    link.receive(rt, Media(1), &bad)?;
    link.receive(rt, Media(1), &good)?;
    println!(rt; "case 15: a packet of 12 bytes, tag 10, no MKI")?;
    let empty = [0x80, 0x60, 0, 2, 0, 0, 0, 0, 0xca, 0xfe, 0xba, 0xbe];
    let after = link.sender.send_media(&empty, &mut [0; 26]);
    say::sent(rt, Media(2), after.answer)
}
