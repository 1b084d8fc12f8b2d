// Replays the losses that this library was built against, and prints the answer to each call in words; of a whole evening it
// prints how many answers of each kind there were.
#![tactic(auto)]

mod cases;
mod damage;
mod datagram;
mod ends;
mod evening;
mod late_joiner;
mod link;
mod network;
mod packet;
mod repeats;
mod rollover;
mod satellite;
mod say;
mod set_ups;
mod tally;

use std::io;

fn main(rt: HostRuntime) -> io::Result<()> {
    repeats::run(&rt)?;
    rollover::run(&rt)?;
    satellite::run(&rt)?;
    damage::run(&rt)?;
    late_joiner::run(&rt)?;
    evening::run(&rt)?;
    cases::run(&rt)?;
    ends::run(&rt)?;
    set_ups::run(&rt)
}
