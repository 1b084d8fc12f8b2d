// Whole evenings, as they come to a room: two hundred packets across a rollover, out of order, some lost and some again, with damaged and
// strange ones before the first and between them.
use crate::late_joiner;
use crate::link::Link;
use crate::network::{Strange, draw, pick};
use crate::packet::{Control, Media};
use crate::tally::Tally;
use std::io;
use std::ops::Range;

pub fn run(rt: &impl Print) -> io::Result<()> {
    under_rfc_3711(rt)?;
    under_rfc_4771(rt)
}

fn under_rfc_3711(rt: &impl Print) -> io::Result<()> {
    println!(rt;
        "a whole evening across a rollover: packets come out of order, again or never, with damaged and strange ones between"
    )?;
    let mut evening = Evening::over(Link::usual());
    evening.stretch(rt, 0..200, 65436)?;
    evening.say(rt)
}

// What is sent far apart is lost. After it the room catches up at the first packet that comes, number 65,478 and then 24,462: both carry the
// counter.
fn under_rfc_4771(rt: &impl Print) -> io::Result<()> {
    println!(rt;
        "and one where some packets carry the counter: the room joins after a rollover, with rollover counter 0, and later a whole rollover is lost"
    )?;
    let mut evening = Evening::over(late_joiner::link());
    evening.send(rt, 0..4, 30000, 30000)?;
    evening.stretch(rt, 4..120, 65478)?;
    evening.send(rt, 120..122, 30000, 30000)?;
    evening.stretch(rt, 122..200, 24462)?;
    evening.say(rt)
}

// A link, and what came over it so far.
#[derive(Drop)]
struct Evening {
    link: Link,
    media: Tally<Media>,
    control: Tally<Control>,
}

impl Evening {
    fn over(link: Link) -> Self {
        Evening {
            link,
            media: Tally::new(),
            control: Tally::new(),
        }
    }

    // Sends these packets, the first with this number, and delivers them: that one first.
    fn stretch(&mut self, rt: &impl Print, packets: Range<u8>, number: u16) -> io::Result<()> {
        let Range { start, end } = packets;
        self.send(rt, start..end, number, 1)?;
        self.first(rt, start)?;
        for at in start..end {
            self.turn(rt, start..end, at)?;
        }
        Ok(())
    }

    // Sends these packets: the first has this number, and each next one is `step` ahead. A control packet goes behind each tenth.
    fn send(
        &mut self,
        rt: &impl Print,
        packets: Range<u8>,
        number: u16,
        step: u16,
    ) -> io::Result<()> {
        let mut next = number;
        for k in packets {
            self.media.send(rt, &mut self.link, k, Media(next))?;
            if k % 10 == 9 {
                self.control.send(rt, &mut self.link, k / 10, Control)?;
            }
            next = next.wrapping_add(step);
        }
        Ok(())
    }

    // Packet `k` comes, behind a damaged one and bytes that are no packet.
    fn first(&mut self, rt: &impl Print, k: u8) -> io::Result<()> {
        self.strange(rt, Strange::Damaged, k, 0, draw(3))?;
        self.strange(rt, Strange::Noise, k, 0, draw(4))?;
        self.media.deliver(rt, &mut self.link, k)
    }

    // Two packets come, with strange ones and control packets between.
    fn turn(&mut self, rt: &impl Print, packets: Range<u8>, at: u8) -> io::Result<()> {
        let Range { start, end } = packets;
        let x = draw(at as usize);
        let y = draw(x);
        let z = draw(y);
        let one = pick(start..end, at, x);
        let two = pick(start..end, at, y);
        let report = pick(0..end / 10, at / 10, z / 128);
        self.media.deliver(rt, &mut self.link, one)?;
        if let Some(strange) = Strange::drawn(z) {
            self.strange(rt, strange, two, report, z / 16)?;
        }
        if let Some(coming) = AsControl::drawn(z / 16) {
            self.come_as_control(rt, coming, report, two)?;
        }
        self.media.deliver(rt, &mut self.link, two)
    }

    // Something strange comes as media.
    fn strange(
        &mut self,
        rt: &impl Print,
        strange: Strange,
        packet: u8,
        report: u8,
        drawn: usize,
    ) -> io::Result<()> {
        let made = strange.make(
            self.media.datagram(packet),
            self.control.datagram(report),
            drawn,
        );
        self.media.strange(rt, &mut self.link, &made)
    }

    // Something comes as control.
    fn come_as_control(
        &mut self,
        rt: &impl Print,
        coming: AsControl,
        report: u8,
        packet: u8,
    ) -> io::Result<()> {
        let AsControl::Strange(strange) = coming else {
            return self.control.deliver(rt, &mut self.link, report);
        };
        let drawn = draw(report as usize);
        let made = strange.make(
            self.control.datagram(report),
            self.media.datagram(packet),
            drawn,
        );
        self.control.strange(rt, &mut self.link, &made)
    }

    fn say(&self, rt: &impl Print) -> io::Result<()> {
        self.media.say(rt)?;
        self.control.say(rt)
    }
}

// What comes as control between two media packets.
#[derive(Clone, Copy)]
enum AsControl {
    Report,
    Strange(Strange),
}

impl AsControl {
    // In every second turn there is nothing.
    fn drawn(n: usize) -> Option<Self> {
        match n % 8 {
            0 => Some(AsControl::Strange(Strange::Damaged)),
            1 => Some(AsControl::Strange(Strange::OtherKind)),
            2 | 3 => Some(AsControl::Report),
            _ => None,
        }
    }
}
