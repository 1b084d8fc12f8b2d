// A packet is withdrawn and sent again: after eleven others and at 1,023 behind it is a repeat, and at 1,024 behind it is old.
use crate::link::Link;
use crate::packet::Media;
use std::io;

pub fn run(rt: &impl Print) -> io::Result<()> {
    println!(rt; "a packet comes again after eleven others")?;
    let mut link = Link::usual();
    let again = link.deliver(rt, Media(100))?;
    link.deliver_all(rt, 101..112)?;
    link.receive(rt, Media(100), &again)?;
    println!(rt; "and again at the edge of the window and behind it")?;
    for number in 1123..1125 {
        link.deliver(rt, Media(number))?;
        link.receive(rt, Media(100), &again)?;
    }
    Ok(())
}
