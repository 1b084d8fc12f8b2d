// SRTP and SRTCP (RFC 3711, with RFC 4771's integrity transform) for one stream: contexts that go into a call by value and come back with
// their next state, and the calls that protect and open media and control packets.
#![tactic(auto)]

mod receiving;
mod refusals;
mod sending;
mod setup;

ghost use Rattle.std.specs.Prelude.{◌≡◌};
ghost use Rattle.srtp.specs.Contexts.{highest_at_most};

use replay::index::{ControlSender, MediaSender};
use replay::window::Window;
use session::Session;

// Why a call refuses: the rows of the table in their order, each with its number.
#[derive(Clone, Copy, Debug, PartialEq, Eq)]
pub enum Refusal {
    Setup = 1,
    Long,
    Shape,
    Stream,
    Room,
    Key,
    Order,
    Spent,
    Old,
    Repeat,
    Forged,
}

// A number that no refusal has.
#[derive(Clone, Copy, Debug, PartialEq, Eq)]
pub struct UnknownNumber(pub u8);

// A finished packet: `len` bytes at the start of the outgoing buffer, and its index. The bytes stand in the caller's buffer, which C lends too, so
// their number is answered and no slice.
#[derive(Clone, Copy, Debug, PartialEq, Eq)]
pub struct Finished {
    pub len: usize,
    pub index: u64,
}

// What a call answers.
pub type Answer = Result<Finished, Refusal>;

#[derive(Clone, Copy)]
pub struct Sender {
    pub session: Session,
    pub media: MediaSender,
    pub control: ControlSender,
}

// `rollover` is the rollover counter that set-up gave.
#[derive(Clone, Copy)]
pub struct Receiver {
    pub session: Session,
    pub rollover: u32,
    pub media: Window,
    pub control: Window,
}

// What set-up answers, and beside it the context. It is no `Result` of a context: the closed one stands beside a refusal.
#[derive(Clone, Copy)]
pub struct Made<C> {
    pub answer: Result<(), Refusal>,
    pub context: C,
}

// What a call answers, and beside it the context's next state: a context goes in by value and comes back, on a refusal too.
#[derive(Clone, Copy)]
pub struct After<C> {
    pub answer: Answer,
    pub next: C,
}

// A last or highest index within a bound. Where there is none yet, it has no bound.
fn at_most(index: Option<u64>, bound: u64) -> bool
    ensures { result ≡ highest_at_most bound index }
{
    index.is_none_or(|i| i <= bound)
}
