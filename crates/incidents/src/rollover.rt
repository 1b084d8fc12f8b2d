// Text goes on while the sequence number rolls over, with late packets on both sides of it: all are let in, each at its own index.
use crate::link::Link;
use crate::packet::Media;
use std::io;

const NUMBERS: [u16; 6] = [65533, 65534, 65535, 0, 1, 2];

// Every second one comes, and then those between. What was sent lies in the order of `NUMBERS`.
pub fn run(rt: &impl Print) -> io::Result<()> {
    println!(rt; "the sequence number rolls over")?;
    let mut link = Link::usual();
    let sent = NUMBERS.try_map(|number| link.send(rt, Media(number)))?;
    for late in 0..2 {
        for (number, datagram) in NUMBERS.iter().zip(&sent).skip(late).step_by(2) {
            link.receive(rt, Media(*number), datagram)?;
        }
    }
    Ok(())
}
