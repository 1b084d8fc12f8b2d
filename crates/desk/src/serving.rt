// A read on its way through the desk, a packet a turn.
ghost use Rattle.std.specs.Prelude.{List, ℕ, ◌+◌, ◌≤◌, ◌<◌, length};

use super::Desk;

// The desk, the place in the input up to which bytes were taken, and the length of the output so far. No whole frame stands at the desk: a
// `Desk` by itself may have one, since `Desk::serve` answers at any.
#[derive(Clone, Copy)]
pub(crate) struct Serving {
    pub(crate) desk: Desk,
    pub(crate) at: usize,
    pub(crate) len: usize,
    ghost cut: { desk.frame.reader.got ≤ 1 + desk.frame.reader.len },
}

impl Serving {
    ghost use Rattle.desk.specs.Reads.{Stands, Turns};

    // Takes the bytes of `input` up to the end of a packet, which is received, or all of them.
    pub(crate) fn turn(&mut self, input: &[u8], out: &mut [u8])
        requires { (self.old.at < length input.now) × (self.old.len + 2050 ≤ length out.old) }
        ensures progress { (self.old.at < self.new.at) × (self.new.at ≤ length input.now) }
        ensures turns { (f : List ℕ) → Stands self.old.desk f → Turns self.old f self.new input.now out.old out.new }
    {
        let desk = &mut self.desk;
        let taken = desk.frame.reader.take(input, self.at, &mut desk.frame.kept);
        desk.frame.reader = taken.next;
        self.at = taken.at;
        let Some(n) = taken.found else {
            return;
        };
        let packet = &desk.frame.kept[..n];
        self.len += desk.listener.receive(packet, &mut out[self.len..]);
    }
}
