// Reads the records of a trace from standard input, and writes the answer to each on standard output.
#![tactic(auto)]

ghost use Rattle.std.specs.Prelude.{◌≤◌, length};

use std::io::Read;
use trace_records::{Answered, Contexts, MAX_ANSWER_LEN};

// Reads one record and answers it: the contexts after it. There are none where the input ends, in a record too, or a read or a write fails.
fn answer_one(
    rt: &impl Print,
    input: &mut impl Read,
    contexts: Contexts,
    body: &mut [u8],
    out: &mut [u8],
) -> Option<Contexts>
    requires { (65535 ≤ length body.old) × (4110 ≤ length out.old) }
{
    let mut head = [0u8; 3];
    input.read_exact(&mut head).ok()?;
    let n = trace_records::body_len(head);
    input.read_exact(&mut body[..n]).ok()?;
    let Answered { len, next } = contexts.answer(head[0], &body[..n], out);
    rt.write_all(&out[..len]).ok()?;
    Some(next)
}

// A proved loop has to end, and nothing says that the input does: the loop counts its turns, up to a number that no run uses up.
fn main(rt: HostRuntime) {
    let mut input = rt.stdin();
    let mut body = [0u8; 65536];
    let mut answer = [0u8; MAX_ANSWER_LEN];
    let mut contexts = Contexts::closed();
    for _ in 0..u64::MAX {
        let Some(next) = answer_one(&rt, &mut input, contexts, &mut body, &mut answer) else {
            break;
        };
        contexts = next;
    }
}
