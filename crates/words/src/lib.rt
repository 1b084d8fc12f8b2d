// What the programs say of an answer, on standard output.
#![tactic(auto)]

use srtp::{Finished, Refusal};
use std::io;

// A finished packet, behind what was done with it: a `Display` of the packet alone would leave that out.
pub fn finished(rt: &impl Print, done: &[u8], packet: Finished) -> io::Result<()> {
    rt.write_all(done)?;
    println!(rt; ", {} bytes at index {}", packet.len, packet.index)
}

// A refusal: its name in the table, and what it means.
pub fn refused(rt: &impl Print, refusal: Refusal) -> io::Result<()> {
    println!(rt; "refused: {refusal}")
}
