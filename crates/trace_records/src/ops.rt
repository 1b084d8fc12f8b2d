// What records ask for.
ghost use Rattle.std.specs.Prelude.{Some};
ghost use Rattle.trace_records.specs.Ops.{Names, op_text, unknown_op_text};

use std::error::Error;
use std::fmt;

// What a record asks for.
#[derive(Clone, Copy, Debug, PartialEq, Eq)]
pub enum Op {
    SetUpSender,
    SetUpReceiver,
    Call(Call),
}

// A call on one of the two contexts.
#[derive(Clone, Copy, Debug, PartialEq, Eq)]
pub enum Call {
    SendMedia,
    SendControl,
    ReceiveMedia,
    ReceiveControl,
}

// A number that is no record's op.
#[derive(Clone, Copy, Debug, PartialEq, Eq)]
pub struct UnknownOp(pub u8);

impl TryFrom<u8> for Op {
    type Error = UnknownOp;

    ghost try_from_gives = { Names };

    fn try_from(op: u8) -> Result<Self, UnknownOp> {
        match op {
            1 => Ok(Op::SetUpSender),
            2 => Ok(Op::SetUpReceiver),
            3 => Ok(Op::Call(Call::SendMedia)),
            4 => Ok(Op::Call(Call::SendControl)),
            5 => Ok(Op::Call(Call::ReceiveMedia)),
            6 => Ok(Op::Call(Call::ReceiveControl)),
            _ => Err(UnknownOp(op)),
        }
    }
}

impl fmt::Display for Op {
    ghost output = { λ op. Some (op_text op) };

    fn fmt<W: fmt::Write>(&self, f: &mut fmt::Formatter<W>) -> fmt::Result {
        f.write_str(match self {
            Op::SetUpSender => "set up sender",
            Op::SetUpReceiver => "set up receiver",
            Op::Call(Call::SendMedia) => "send media",
            Op::Call(Call::SendControl) => "send control",
            Op::Call(Call::ReceiveMedia) => "receive media",
            Op::Call(Call::ReceiveControl) => "receive control",
        })
    }
}

impl fmt::Display for UnknownOp {
    ghost output = { λ op. Some (unknown_op_text op.0) };

    fn fmt<W: fmt::Write>(&self, f: &mut fmt::Formatter<W>) -> fmt::Result {
        write!(f, "op {}", self.0)
    }
}

impl Error for UnknownOp {}
