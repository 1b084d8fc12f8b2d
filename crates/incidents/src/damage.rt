// The first packet is damaged on the way: it is refused, and every good one behind it is let in.
use crate::link::Link;
use crate::packet::Media;
use std::io;

pub fn run(rt: &impl Print) -> io::Result<()> {
    println!(rt; "a damaged packet comes first")?;
    let mut link = Link::usual();
    let mut damaged = link.send(rt, Media(7))?;
    damaged.room[14] ^= 0x20;
    link.receive(rt, Media(7), &damaged)?;
    link.deliver_all(rt, 8..12)
}
