// The table of refusals: the numbers of its rows, the rows of what finds no index, and the rows in words.
ghost use Rattle.std.specs.Prelude.{◌≡◌, Some};
ghost use Rattle.std.specs.Option.{ok_or};
ghost use Rattle.srtp.specs.Refusals.{number_of, refusal_of, of_no_index, of_out_of_range, of_replayed};
ghost use Rattle.srtp.specs.RefusalTexts.{refusal_text, unknown_number_text};

use crate::{Refusal, UnknownNumber};
use replay::index::{NoIndex, OutOfRange};
use replay::window::Replayed;
use std::error::Error;
use std::fmt;

impl From<Refusal> for u8 {
    ghost from_gives = { λ r n. n ≡ number_of r };

    fn from(refusal: Refusal) -> u8 {
        refusal as u8
    }
}

impl TryFrom<u8> for Refusal {
    type Error = UnknownNumber;

    ghost try_from_gives = { λ n r. r ≡ ok_or (refusal_of n) (record { 0 = n }) };

    fn try_from(number: u8) -> Result<Refusal, UnknownNumber> {
        match number {
            1 => Ok(Refusal::Setup),
            2 => Ok(Refusal::Long),
            3 => Ok(Refusal::Shape),
            4 => Ok(Refusal::Stream),
            5 => Ok(Refusal::Room),
            6 => Ok(Refusal::Key),
            7 => Ok(Refusal::Order),
            8 => Ok(Refusal::Spent),
            9 => Ok(Refusal::Old),
            10 => Ok(Refusal::Repeat),
            11 => Ok(Refusal::Forged),
            _ => Err(UnknownNumber(number)),
        }
    }
}

// ---- the rows of the steps that look for an index

impl From<NoIndex> for Refusal {
    ghost from_gives = { λ e r. r ≡ of_no_index e };

    fn from(e: NoIndex) -> Refusal {
        match e {
            NoIndex::Order => Refusal::Order,
            NoIndex::Spent => Refusal::Spent,
        }
    }
}

impl From<OutOfRange> for Refusal {
    ghost from_gives = { λ e r. r ≡ of_out_of_range e };

    fn from(e: OutOfRange) -> Refusal {
        match e {
            OutOfRange::Old => Refusal::Old,
            OutOfRange::Spent => Refusal::Spent,
        }
    }
}

impl From<Replayed> for Refusal {
    ghost from_gives = { λ e r. r ≡ of_replayed e };

    fn from(e: Replayed) -> Refusal {
        match e {
            Replayed::Old => Refusal::Old,
            Replayed::Repeat => Refusal::Repeat,
        }
    }
}

// ---- in words

// The row's name, and what it means.
impl fmt::Display for Refusal {
    ghost output = { λ r. Some (refusal_text r) };

    fn fmt<W: fmt::Write>(&self, f: &mut fmt::Formatter<W>) -> fmt::Result {
        f.write_str(match self {
            Refusal::Setup => "SETUP (values off the list, or a closed context)",
            Refusal::Long => "LONG (over 2,048 bytes)",
            Refusal::Shape => "SHAPE (not the layout of a packet)",
            Refusal::Stream => "STREAM (another SSRC)",
            Refusal::Room => "ROOM (the outgoing buffer is too short)",
            Refusal::Key => "KEY (another MKI)",
            Refusal::Order => "ORDER (the number does not follow the last one sent)",
            Refusal::Spent => "SPENT (no index is left)",
            Refusal::Old => "OLD (behind the replay window)",
            Refusal::Repeat => "REPEAT (accepted already)",
            Refusal::Forged => "FORGED (the authentication tag is wrong)",
        })
    }
}

impl Error for Refusal {}

impl fmt::Display for UnknownNumber {
    ghost output = { λ n. Some (unknown_number_text n.0) };

    fn fmt<W: fmt::Write>(&self, f: &mut fmt::Formatter<W>) -> fmt::Result {
        write!(f, "no refusal has number {}", self.0)
    }
}

impl Error for UnknownNumber {}
