// Answers as bytes.
ghost use Rattle.std.specs.Prelude.{◌≡◌, ◌≤◌, ◌<◌, ◌^◌, length};
ghost use Rattle.octets.specs.Buffer.{over};
ghost use Rattle.srtp.specs.Refusals.{number_of};
ghost use Rattle.trace_records.specs.Answers.{head_bytes, number_alone, call_head, set_up_head};

use crate::Head;
use srtp::{Answer, Finished, Refusal};

impl Head {
    // The number of a record that does not fit.
    pub const MISFIT: u8 = 255;

    // A number alone.
    pub(crate) fn alone(number: u8) -> Head
        ensures { result ≡ number_alone number }
    {
        Head {
            number,
            index: 0,
            len: 0,
        }
    }

    // Writes everything of the answer to an op but its buffer, of `room` bytes, at the start of `out`.
    #[tactic(auto, using(crate::proofs::AnswerReturns::head_put))]
    pub(crate) fn put(self, op: u8, room: usize, out: &mut [u8])
        requires { (14 ≤ length out.old) × (self.len < 2 ^ 16) × (room < 2 ^ 16) }
        ensures { out.new ≡ over (head_bytes op self room) out.old }
    {
        out[0] = op;
        out[1] = self.number;
        octets::store(out, 2, self.index);
        octets::store(out, 10, self.len as u16);
        octets::store(out, 12, room as u16);
    }
}

impl From<Refusal> for Head {
    ghost from_gives = { λ refusal head. head ≡ number_alone (number_of refusal) };

    fn from(refusal: Refusal) -> Head {
        Head::alone(u8::from(refusal))
    }
}

// The head of the answer to a call.
impl From<Answer> for Head {
    ghost from_gives = { λ answer head. head ≡ call_head answer };

    fn from(answer: Answer) -> Head {
        match answer {
            Ok(Finished { len, index }) => Head {
                number: 0,
                index,
                len,
            },
            Err(refusal) => Head::from(refusal),
        }
    }
}

// The head of the answer to a set-up.
impl From<Result<(), Refusal>> for Head {
    ghost from_gives = { λ answer head. head ≡ set_up_head answer };

    fn from(answer: Result<(), Refusal>) -> Head {
        match answer {
            Ok(()) => Head::alone(0),
            Err(refusal) => Head::from(refusal),
        }
    }
}
