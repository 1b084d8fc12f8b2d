// Rates and tags off the list of set-up: a set-up with them is refused, and so is every call on a context value that has them.
use crate::packet::Media;
use crate::{late_joiner, link, say};
use session::Profile;
use std::io;
use transforms::{Cipher, Integrity};

// The profile that the contexts are given by hand.
const WITHOUT_RATE: Profile = Profile {
    cipher: Cipher::Aes,
    integrity: Integrity::Rccm2(0),
    tag_len: Profile::RCC_TAG_LEN,
};

pub fn run(rt: &impl Print) -> io::Result<()> {
    println!(rt; "set-ups with a rate or a tag off the list")?;
    set_up(rt, "rate 0, tag 14", Integrity::Rccm2(0), 14)?;
    set_up(rt, "no rate, tag 14", Integrity::HmacSha1, 14)?;
    set_up(rt, "rate 3, tag 10", Integrity::Rccm2(3), 10)?;
    println!(rt; "a packet is sent, and then the rate in both contexts is made 0 by hand")?;
    let mut link = late_joiner::link();
    let good = link.send(rt, Media(3))?;
    link.sender.session.settings.profile = WITHOUT_RATE;
    link.receiver.session.settings.profile = WITHOUT_RATE;
    link.receive(rt, Media(3), &good)?;
    link.send(rt, Media(4))?;
    Ok(())
}

fn set_up(rt: &impl Print, values: &str, integrity: Integrity, tag_len: usize) -> io::Result<()> {
    let profile = Profile {
        cipher: Cipher::Aes,
        integrity,
        tag_len,
    };
    say::set_up(rt, values, link::set_up_sender(profile).answer)
}
