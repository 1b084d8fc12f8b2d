// The sale desk: reads protected media packets in RFC 4571's framing from standard input, and writes the opened ones in the same framing on
// standard output. The key file is sale.key in the working directory; where it has not 30 bytes, or can't be read, nothing is written.
#![tactic(auto)]

ghost use Rattle.std.specs.Prelude.{IsSome, ◌+◌, ◌≤◌, length, take};
ghost use Rattle.desk.specs.Reads.{NotWhole, Serves, StartsUnder};

use desk::{Desk, KEY_FILE_LEN, SPARE_LEN, Served, Start};
use std::fs::File;
use std::io::Read;
use std::rt::Files;

// The most that is read at once. There is no heap: the buffers are arrays of this program.
const READ_LEN: usize = 8192;

// How many bytes a read gave, and what came of them.
#[derive(Clone, Copy)]
struct Round {
    n: usize,
    served: Served,
}

// Reads until `buf` is full, the input ends or a read fails, and gives the bytes that came. std's `read_exact` does not, and its `read_to_end`
// takes a heap. How much a read gives is not known, so no `for` counts it.
fn read_full<'a>(input: &mut impl Read, buf: &'a mut [u8]) -> &'a [u8]
    ensures { length result.now ≤ length buf.old }
{
    let mut done = 0;
    while done < buf.len() {
        match input.read(&mut buf[done..]) {
            Ok(n) if n > 0 => done += n,
            _ => break,
        }
    }
    &buf[..done]
}

// The desk under the key file. One byte more than it may have is asked for, so that a longer file is seen.
fn start(rt: &impl Files) -> Start
    ensures { StartsUnder result }
{
    let mut key = [0u8; KEY_FILE_LEN + 1];
    let Ok(mut file) = File::open(rt, "sale.key") else {
        return Desk::start(&[]);
    };
    Desk::start(read_full(&mut file, &mut key))
}

// Reads once, whatever comes, and has it served. Nothing that was read is left out. A read that fails gave no bytes.
fn serve_read(source: &mut impl Read, desk: Desk, input: &mut [u8], out: &mut [u8]) -> Round
    requires { NotWhole desk × (length input.old + 4110 ≤ length out.old) }
    ensures served { (result.n ≤ length input.new) × Serves desk (take result.n input.new) out.old result.served out.new }
    ensures taken { IsSome result.served.written × NotWhole result.served.next }
{
    let n = source.read(input).unwrap_or(0);
    let served = desk.serve(&input[..n], out);
    Round { n, served }
}

// The input's end, or a write that fails, ends the run. A proved loop has to end, and nothing says that the input does: the loop counts its
// turns, up to a number that no run uses up. Each turn but the last reads a byte or more. What a read gives is written at once.
fn main(rt: HostRuntime) {
    let start = start(&rt);
    if !start.ready {
        return;
    }
    let mut source = rt.stdin();
    let mut input = [0u8; READ_LEN];
    let mut out = [0u8; READ_LEN + SPARE_LEN];
    let mut desk = start.desk;
    for _ in 0..u64::MAX {
        let Round { n, served } = serve_read(&mut source, desk, &mut input, &mut out);
        let len = served.written.unwrap();
        if n == 0 || rt.write_all(&out[..len]).is_err() {
            break;
        }
        desk = served.next;
    }
}
