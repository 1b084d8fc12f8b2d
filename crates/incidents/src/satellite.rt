// A satellite room gets packets in a bad order, the last one first, over the whole length of the window and on both sides of a rollover: all are
// let in, each at its own index, and none twice; only what comes behind the window is old.
use crate::datagram::Datagram;
use crate::link::Link;
use crate::packet::{Control, Media};
use std::io;

// The ends of the window, and both sides of three borders of 64 in it, the rollover among them: 1,023, 960, 959, 512, 511, 64, 63 and 0 behind
// the last one.
const NUMBERS: [u16; 8] = [65024, 65087, 65088, 65535, 0, 447, 448, 511];

pub fn run(rt: &impl Print) -> io::Result<()> {
    println!(rt; "a satellite room gets packets in a bad order, the last one first")?;
    let mut link = Link::usual();
    link.deliver(rt, Media(65022))?;
    let highest = disorder(rt, &mut link)?;
    jumps(rt, &mut link, &highest)?;
    control(rt, &mut link)
}

// The packet sent before all of them comes last. Answers the one with the highest index.
fn disorder(rt: &impl Print, link: &mut Link) -> io::Result<Datagram> {
    let late = link.send(rt, Media(65023))?;
    let sent = NUMBERS.try_map(|number| link.send(rt, Media(number)))?;
    receive_all(rt, link, &sent)?;
    println!(rt; "all of them come again, and the one sent before them comes 1,024 behind")?;
    receive_all(rt, link, &sent)?;
    link.receive(rt, Media(65023), &late)?;
    Ok(sent[7])
}

// Every third, round and round from the last one on. What was sent lies in the order of `NUMBERS`.
fn receive_all(rt: &impl Print, link: &mut Link, sent: &[Datagram; 8]) -> io::Result<()> {
    let round = NUMBERS.iter().zip(sent).cycle();
    for (number, datagram) in round.skip(7).step_by(3).take(8) {
        link.receive(rt, Media(*number), datagram)?;
    }
    Ok(())
}

// Number 511 has the highest index so far. The window moves on by all of its length but one, and then by all of it.
fn jumps(rt: &impl Print, link: &mut Link, highest: &Datagram) -> io::Result<()> {
    println!(rt; "after a jump by 1,023 the highest before it comes again")?;
    let higher = link.deliver(rt, Media(1534))?;
    link.receive(rt, Media(511), highest)?;
    println!(rt;
        "so it does after a jump by 1,024, and a packet that was overtaken comes 1,023 behind"
    )?;
    let overtaken = link.send(rt, Media(1535))?;
    link.deliver(rt, Media(2558))?;
    link.receive(rt, Media(1534), &higher)?;
    link.receive(rt, Media(1535), &overtaken)
}

// Control packets have a window of their own.
fn control(rt: &impl Print, link: &mut Link) -> io::Result<()> {
    println!(rt; "control packets come in reverse order, and so again")?;
    let sent = [Control; 3].try_map(|packet| link.send(rt, packet))?;
    for _ in 0..2 {
        for datagram in sent.iter().rev() {
            link.receive(rt, Control, datagram)?;
        }
    }
    Ok(())
}
