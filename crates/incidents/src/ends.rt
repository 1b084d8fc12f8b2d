// Senders at their last index, on contexts made by hand: no set-up starts there, and no evening gets there.
use crate::link::Link;
use crate::packet::{Control, Media};
use replay::index::{ControlSender, MAX_CONTROL_PACKETS, MAX_MEDIA_INDEX, MediaSender};
use std::io;

pub fn run(rt: &impl Print) -> io::Result<()> {
    println!(rt; "a sender with one media index left")?;
    let mut link = Link::usual();
    link.sender.media = MediaSender {
        last: Some(MAX_MEDIA_INDEX - 1),
    };
    link.send(rt, Media(65535))?;
    link.send(rt, Media(0))?;
    println!(rt; "and one control index")?;
    link.sender.control = ControlSender {
        sent: MAX_CONTROL_PACKETS - 1,
    };
    link.send(rt, Control)?;
    link.send(rt, Control)?;
    Ok(())
}
