// A room joins halfway, after a rollover that it does not know of. Under RFC 4771 some packets carry the rollover counter in their tags: at the
// first of them the room catches up.
use crate::datagram::Datagram;
use crate::link::Link;
use crate::packet::Media;
use session::Profile;
use std::io;
use transforms::{Cipher, Integrity};

// Sender and receiver at rate 3: numbers divisible by three carry the counter, 65535 and the 0 behind it among them.
pub fn link() -> Link {
    Link::under(Profile {
        cipher: Cipher::Aes,
        integrity: Integrity::Rccm2(3),
        tag_len: Profile::RCC_TAG_LEN,
    })
}

pub fn run(rt: &impl Print) -> io::Result<()> {
    println!(rt; "a room joins after a rollover, with rollover counter 0, and catches up")?;
    let mut link = link();
    let before = link.send(rt, Media(65535))?;
    let behind = link.send(rt, Media(0))?;
    catches_up(rt, &mut link)?;
    counter_damaged(rt, &mut link)?;
    comes_late(rt, &mut link, &before, &behind)?;
    loses_rollovers(rt, &mut link)
}

// Where the counter is not carried, the index is estimated: with the wrong counter until it was carried, and then with the right one.
fn catches_up(rt: &impl Print, link: &mut Link) -> io::Result<()> {
    let first = link.deliver(rt, Media(1))?;
    link.deliver(rt, Media(3))?;
    link.deliver(rt, Media(4))?;
    link.receive(rt, Media(1), &first)
}

// A damaged counter is refused and moves nothing, however far ahead it leads.
fn counter_damaged(rt: &impl Print, link: &mut Link) -> io::Result<()> {
    println!(rt; "one bit of the counter is damaged, then the good packet comes, and comes again")?;
    let good = link.send(rt, Media(6))?;
    let mut bad = good;
    bad.room[16] ^= 1;
    link.receive(rt, Media(6), &bad)?;
    link.receive(rt, Media(6), &good)?;
    link.receive(rt, Media(6), &good)
}

// The packets on both sides of the rollover come 1,024 and 1,023 behind.
fn comes_late(
    rt: &impl Print,
    link: &mut Link,
    before: &Datagram,
    behind: &Datagram,
) -> io::Result<()> {
    println!(rt; "packets that carry the counter come late, behind the window and at its edge")?;
    link.deliver(rt, Media(1023))?;
    link.receive(rt, Media(65535), before)?;
    link.receive(rt, Media(0), behind)
}

// Nothing comes for two rollovers.
fn loses_rollovers(rt: &impl Print, link: &mut Link) -> io::Result<()> {
    println!(rt; "two rollovers are lost")?;
    for lost in [30000, 60000, 20000, 50000] {
        link.send(rt, Media(lost))?;
    }
    let early = link.deliver(rt, Media(10000))?;
    link.deliver(rt, Media(10002))?;
    link.receive(rt, Media(10000), &early)
}
