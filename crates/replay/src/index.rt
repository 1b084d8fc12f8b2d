// The index of a packet (RFC 3711, 3.3.1): 65,536 times the rollover counter plus the RTP sequence number. Nothing wraps at either end.
ghost use Rattle.std.specs.Prelude.{◌≡◌};
ghost use Rattle.replay.specs.Index.{index_of, ahead as ahead_of, estimate as estimate_of, placed};
ghost use Rattle.replay.specs.Index.{next_media, media_start, media_step, control_start, control_step};

// The highest media index, 2^48 - 1.
pub const MAX_MEDIA_INDEX: u64 = 0xffff_ffff_ffff;

// How many control packets a sender may send, 2^31: at indices 0 to 2^31 - 1.
pub const MAX_CONTROL_PACKETS: u64 = 0x8000_0000;

// Where a received media packet lies that has no index: below 0 (refused as OLD), or above 2^48 - 1 (refused as SPENT).
#[derive(Clone, Copy, Debug, PartialEq, Eq)]
pub enum OutOfRange {
    Old,
    Spent,
}

// Why a sender has no index for its next packet: the number is out of order (refused as ORDER), or no index is left (refused as SPENT).
// Control packets have no order to break.
#[derive(Clone, Copy, Debug, PartialEq, Eq)]
pub enum NoIndex {
    Order,
    Spent,
}

// A sender's media state: the index used last, if it sent anything.
#[derive(Clone, Copy)]
pub struct MediaSender {
    pub last: Option<u64>,
}

// A sender's control state: how many packets it sent.
#[derive(Clone, Copy)]
pub struct ControlSender {
    pub sent: u64,
}

// The index of a sender's next packet, and beside it the sender's state once the packet is sent.
#[derive(Clone, Copy)]
pub struct Step<S> {
    pub index: Result<u64, NoIndex>,
    pub next: S,
}

// The index with this rollover counter and sequence number.
pub fn index_of(rollover: u32, number: u16) -> u64
    ensures { result ≡ index_of rollover number }
{
    (rollover as u64) * 0x1_0000 + (number as u64)
}

// How far ahead of `index` the next index with this number lies.
fn ahead(index: u64, number: u16) -> u64
    ensures { result ≡ ahead_of index number }
{
    ((number as u64) + (0x1_0000 - (index & 0xffff))) & 0xffff
}

// The index of a media packet with this number, for a receiver that was set up with this rollover counter and whose highest index, the
// largest that it accepted or was set up with, is `highest`. Equal distances count as ahead, and nothing is added that could pass the
// largest index.
pub fn estimate(highest: Option<u64>, rollover: u32, number: u16) -> Result<u64, OutOfRange>
    ensures { result ≡ placed (estimate_of rollover number highest) }
{
    let Some(h) = highest else {
        return Ok(index_of(rollover, number));
    };
    let on = ahead(h, number);
    if on <= 0x8000 {
        if h > MAX_MEDIA_INDEX - on {
            return Err(OutOfRange::Spent);
        }
        return Ok(h + on);
    }
    let Some(index) = h.checked_sub(0x1_0000 - on) else {
        return Err(OutOfRange::Old);
    };
    if index > MAX_MEDIA_INDEX {
        return Err(OutOfRange::Spent);
    }
    Ok(index)
}

impl MediaSender {
    // Nothing sent.
    pub fn new() -> Self
        ensures { result ≡ media_start }
    {
        MediaSender { last: None }
    }

    // The index of the next packet, which has this number.
    fn next_index(self, number: u16) -> Result<u64, NoIndex>
        ensures { result ≡ next_media self.last number }
    {
        let Some(last) = self.last else {
            return Ok(number as u64);
        };
        let step = ahead(last, number);
        if step == 0 || step >= 0x8000 {
            return Err(NoIndex::Order);
        }
        if last > MAX_MEDIA_INDEX - step {
            return Err(NoIndex::Spent);
        }
        Ok(last + step)
    }

    // The same, with the state once it is sent. A refusal leaves the state as it is.
    pub fn step(self, number: u16) -> Step<MediaSender>
        ensures { result ≡ media_step self number }
    {
        let index = self.next_index(number);
        let next = match index {
            Ok(i) => MediaSender { last: Some(i) },
            Err(_) => self,
        };
        Step { index, next }
    }
}

impl ControlSender {
    // Nothing sent.
    pub fn new() -> Self
        ensures { result ≡ control_start }
    {
        ControlSender { sent: 0 }
    }

    // The index of the next packet, with the state once it is sent.
    pub fn step(self) -> Step<ControlSender>
        ensures { result ≡ control_step self }
    {
        if self.sent >= MAX_CONTROL_PACKETS {
            return Step {
                index: Err(NoIndex::Spent),
                next: self,
            };
        }
        Step {
            index: Ok(self.sent),
            next: ControlSender {
                sent: self.sent + 1,
            },
        }
    }
}
