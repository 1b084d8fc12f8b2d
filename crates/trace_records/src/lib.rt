// One record of a trace, answered on slices. A trace holds calls as bytes, big end first: a record is op (1 byte), length (2) and body.
// Ops 1 and 2 set up the trace's sender and receiver; 3 to 6 send media, send control, receive media and receive control.
#![tactic(auto)]

mod answers;
mod calls;
mod ops;
mod setups;

ghost use Rattle.std.specs.Prelude.{◌≡◌, ◌≤◌, length};
ghost use Rattle.trace_records.specs.Layouts.{body_length};
ghost use Rattle.trace_records.specs.Records.{start, answered, Makes, Shows};

pub use ops::{Call, Op, UnknownOp};
use srtp::{Receiver, Sender};

// The contexts of a trace.
#[derive(Clone, Copy)]
pub struct Contexts {
    pub sender: Sender,
    pub receiver: Receiver,
}

// What stands between an answer's op and the size of its buffer: a refusal's number, 0 or 255; index and length of a finished packet.
// The number is the format's own byte, and no enum: `tell` reads back whatever stands there.
#[derive(Clone, Copy)]
pub struct Head {
    pub number: u8,
    pub index: u64,
    pub len: usize,
}

// What a record leaves: the head of its answer, and the next contexts.
#[derive(Clone, Copy)]
pub struct Called {
    pub head: Head,
    pub next: Contexts,
}

// The answer's length, and the next contexts. (There is no heap: the bytes stand in the caller's buffer.)
#[derive(Clone, Copy)]
pub struct Answered {
    pub len: usize,
    pub next: Contexts,
}

// The longest body that is looked at.
pub const MAX_BODY_LEN: usize = 8192;

// The largest outgoing buffer of a call.
pub const MAX_ROOM: usize = 4096;

// Bytes of an answer before its buffer.
pub const HEAD_LEN: usize = 14;

// The longest answer.
pub const MAX_ANSWER_LEN: usize = 4110;

// The length of the body that a record's first bytes tell.
pub fn body_len(head: [u8; 3]) -> usize
    ensures { (result ≡ body_length head) × (result ≤ 65535) }
{
    usize::from(octets::load::<u16, 2>(&head, 1))
}

impl Contexts {
    // The contexts that a trace starts with.
    pub fn closed() -> Contexts
        ensures { result ≡ start }
    {
        Contexts {
            sender: Sender::closed(),
            receiver: Receiver::closed(),
        }
    }

    // Does what a record asks for, and writes the answer at the start of `out`. A record that does not fit changes no context. `op` is the record's
    // byte, whatever it is: one that names no call is answered as a misfit, and the answer repeats it.
    pub fn answer(self, op: u8, body: &[u8], out: &mut [u8]) -> Answered
        requires { 4110 ≤ length out.old }
        ensures { Shows (answered self op body.now) out.old result out.new }
    {
        let Some((called, room)) = self.carry_out(op, body, &mut out[HEAD_LEN..]) else {
            Head::alone(Head::MISFIT).put(op, 0, out);
            return Answered {
                len: HEAD_LEN,
                next: self,
            };
        };
        called.head.put(op, room, out);
        Answered {
            len: HEAD_LEN + room,
            next: called.next,
        }
    }

    // Does what a record asks for, if it fits: what that leaves, and the size of the answer's buffer, which stands at the start of `buffer`.
    #[tactic(auto, unfolding(crate::specs::Records::answered))]
    fn carry_out(self, op: u8, body: &[u8], buffer: &mut [u8]) -> Option<(Called, usize)>
        requires { 4096 ≤ length buffer.old }
        ensures { Makes (answered self op body.now) op self buffer.old result buffer.new }
    {
        if body.len() > MAX_BODY_LEN {
            return None;
        }
        match Op::try_from(op).ok()? {
            Op::SetUpSender => self.set_up_sender(body),
            Op::SetUpReceiver => self.set_up_receiver(body),
            Op::Call(call) => self.call(call, body, buffer),
        }
    }
}
