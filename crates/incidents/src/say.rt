// Answers in words, behind the call and its packet. `sent` and `received` differ in their words alone: a call reads as what it says.
use crate::packet::Packet;
use srtp::{Answer, Refusal};
use std::io;

pub fn sent<P: Packet>(rt: &impl Print, packet: P, answer: Answer) -> io::Result<()> {
    print!(rt; "  send {packet}: ")?;
    said(rt, b"sent", answer)
}

pub fn received<P: Packet>(rt: &impl Print, packet: P, answer: Answer) -> io::Result<()> {
    print!(rt; "  receive {packet}: ")?;
    said(rt, b"let in", answer)
}

// A set-up, behind its values.
pub fn set_up(rt: &impl Print, values: &str, answer: Result<(), Refusal>) -> io::Result<()> {
    print!(rt; "  set up with {values}: ")?;
    match answer {
        Ok(()) => println!(rt; "ready"),
        Err(refusal) => words::refused(rt, refusal),
    }
}

fn said(rt: &impl Print, done: &[u8], answer: Answer) -> io::Result<()> {
    match answer {
        Ok(finished) => words::finished(rt, done, finished),
        Err(refusal) => words::refused(rt, refusal),
    }
}
