// Reads the answers that `trace` writes from standard input, and says in words what came of each record; then how many packets were sent
// and let in, and how many calls were refused.
#![tactic(auto)]

mod reading;
mod sum;

ghost use Rattle.std.specs.Prelude.{◌≤◌, length};

use reading::{Front, Told};
use std::io::Read;
use std::{io, iter};
use sum::Sum;
use trace_records::{HEAD_LEN, Op};

// Reads one answer. There is none where the input ends, in an answer too, or a read fails.
fn read_answer(input: &mut impl Read, buffer: &mut [u8]) -> Option<Front>
    requires { 65535 ≤ length buffer.old }
{
    let mut bytes = [0u8; HEAD_LEN];
    input.read_exact(&mut bytes).ok()?;
    let front = reading::read_front(bytes);
    input.read_exact(&mut buffer[..front.room]).ok()?;
    Some(front)
}

// The line of an answer: the number of its record, the call, and what came of it.
fn say(rt: &impl Print, record: u64, op: u8, told: Told) -> io::Result<()> {
    match Op::try_from(op) {
        Ok(call) => println!(rt; "{record} {call}: {told}"),
        Err(unknown) => println!(rt; "{record} {unknown}: {told}"),
    }
}

// A proved loop has to end, and nothing says that the input does: the answers are counted, up to a number that no run uses up.
fn main(rt: HostRuntime) -> io::Result<()> {
    let mut input = rt.stdin();
    let mut buffer = [0u8; 65536];
    let mut sum = Sum::none();
    for front in iter::from_fn(|| read_answer(&mut input, &mut buffer)).take(usize::MAX) {
        let told = reading::told_of(front.op, front.head);
        sum = sum.with(told);
        say(&rt, sum.answers, front.op, told)?;
    }
    println!(rt; "{sum}")
}
