// Answers of a trace, read back.
ghost use Rattle.std.specs.Prelude.{◌≡◌, ◌≤◌, Some};
ghost use Rattle.tell.specs.Reading.{front_of, refusal_of, told_of};
ghost use Rattle.tell.specs.Texts.{told_text};

use srtp::Refusal;
use std::fmt;
use trace_records::{Call, HEAD_LEN, Head, Op};

// What stands before an answer's buffer: the record's op, the head, and the size of the buffer. The op stays the byte that was read: `told_of`
// and `front-back` speak of any, and one that names no call is printed as it is.
#[derive(Clone, Copy)]
pub struct Front {
    pub op: u8,
    pub head: Head,
    pub room: usize,
}

// What an answer tells of its record.
#[derive(Clone, Copy)]
pub enum Told {
    // A set-up gave a context.
    Ready,
    Sent { len: usize, index: u64 },
    // What the link's rules call let in.
    Accepted { len: usize, index: u64 },
    Refused(Refusal),
    // The record did not fit.
    Misfit,
    // No answer has this op or this number.
    Unknown,
}

impl fmt::Display for Told {
    ghost output = { λ t. Some (told_text t) };

    fn fmt<W: fmt::Write>(&self, f: &mut fmt::Formatter<W>) -> fmt::Result {
        match *self {
            Told::Ready => write!(f, "ready"),
            Told::Sent { len, index } => write!(f, "sent, {len} bytes at index {index}"),
            Told::Accepted { len, index } => write!(f, "let in, {len} bytes at index {index}"),
            Told::Refused(refusal) => write!(f, "refused: {refusal}"),
            Told::Misfit => write!(f, "not a record of the format"),
            Told::Unknown => write!(f, "not an answer of the format"),
        }
    }
}

// Reads the bytes before an answer's buffer.
#[tactic(auto, unfolding(crate::specs::Reading::front_of))]
pub fn read_front(bytes: [u8; HEAD_LEN]) -> Front
    ensures { (result ≡ front_of bytes) × (result.room ≤ 65535) }
{
    let number = bytes[1];
    let index = octets::load(&bytes, 2);
    let len = usize::from(octets::load::<u16, 2>(&bytes, 10));
    let room = usize::from(octets::load::<u16, 2>(&bytes, 12));
    let head = Head { number, index, len };
    Front {
        op: bytes[0],
        head,
        room,
    }
}

// The refusal of a number in the table.
#[tactic(auto, unfolding(crate::specs::Reading::refusal_of))]
fn refusal_of(number: u8) -> Told
    ensures { result ≡ refusal_of number }
{
    match Refusal::try_from(number) {
        Ok(refusal) => Told::Refused(refusal),
        Err(_) => Told::Unknown,
    }
}

// What the head of the answer to an op tells.
#[tactic(auto, unfolding(crate::specs::Reading::told_of))]
pub fn told_of(op: u8, head: Head) -> Told
    ensures { result ≡ told_of op head }
{
    let Head { number, index, len } = head;
    match (number, Op::try_from(op)) {
        (Head::MISFIT, _) => Told::Misfit,
        (_, Err(_)) => Told::Unknown,
        (0, Ok(Op::SetUpSender | Op::SetUpReceiver)) => Told::Ready,
        (0, Ok(Op::Call(Call::SendMedia | Call::SendControl))) => Told::Sent { len, index },
        (0, Ok(Op::Call(_))) => Told::Accepted { len, index },
        (_, Ok(_)) => refusal_of(number),
    }
}
