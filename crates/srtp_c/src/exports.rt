// What C and Rust call. A slice crosses as a pointer and a count; a context is lent by its pointer, and everything else goes by value.
// No function requires anything of its arguments but what these types do.
ghost use Rattle.std.specs.Prelude.{◌≡◌};
ghost use Rattle.srtp.specs.Contexts.{closed_sender, closed_receiver};
ghost use Rattle.srtp_c.specs.Plain.{plain_sender, plain_receiver};
ghost use Rattle.srtp_c.specs.Boundary.{SendsMedia, SendsControl, ReceivesMedia, ReceivesControl, sender_after, receiver_after};
ghost use Rattle.srtp_c.specs.Boundary.{set_up_number, plain_set_up_sender, plain_set_up_receiver};

use crate::plain::{marked, number_of, two_cased};
use crate::{Answer, Profile, Receiver, ReceiverSetUp, Sender, SenderSetUp};
use session::SetUp;

// ---- contexts. C links each function by its name, here and below.

// (Neither type is this crate's, so it can't be `From`.)
fn set_up_number(answer: Result<(), srtp::Refusal>) -> u32
    ensures { result ≡ set_up_number answer }
{
    match answer {
        Ok(()) => 0,
        Err(refusal) => number_of(refusal),
    }
}

// The closed sender: every call on it is refused as SETUP.
#[unsafe(no_mangle)]
pub extern "C" fn tindrabek_sender_closed() -> Sender
    ensures { result ≡ plain_sender closed_sender }
{
    Sender::from(srtp::Sender::closed())
}

// The closed receiver: every call on it is refused as SETUP.
#[unsafe(no_mangle)]
pub extern "C" fn tindrabek_receiver_closed() -> Receiver
    ensures { result ≡ plain_receiver closed_receiver }
{
    Receiver::from(srtp::Receiver::closed())
}

// A sender under this master key and master salt, with rollover counter 0 and nothing sent.
#[tactic(auto, unfolding(crate::specs::Boundary::plain_set_up_sender))]
#[unsafe(no_mangle)]
pub extern "C" fn tindrabek_sender_set_up(
    ssrc: u32,
    key: &[u8],
    salt: &[u8],
    mki: &[u8],
    profile: Profile,
) -> SenderSetUp
    ensures { result ≡ plain_set_up_sender ssrc key.now salt.now mki.now profile }
{
    if !profile.named() {
        return SenderSetUp {
            number: number_of(srtp::Refusal::Setup),
            context: tindrabek_sender_closed(),
        };
    }
    let made = srtp::Sender::set_up(SetUp {
        ssrc,
        master_key: key,
        master_salt: salt,
        mki,
        profile: session::Profile::from(profile),
    });
    SenderSetUp {
        number: set_up_number(made.answer),
        context: Sender::from(made.context),
    }
}

// A receiver under this master key and master salt, at a rollover counter and, if `known` is 1, a last sequence number.
#[tactic(auto, unfolding(crate::specs::Boundary::plain_set_up_receiver))]
#[unsafe(no_mangle)]
pub extern "C" fn tindrabek_receiver_set_up(
    ssrc: u32,
    key: &[u8],
    salt: &[u8],
    mki: &[u8],
    profile: Profile,
    rollover: u32,
    known: u32,
    number: u16,
) -> ReceiverSetUp
    ensures { result ≡ plain_set_up_receiver ssrc key.now salt.now mki.now profile rollover known number }
{
    if !(profile.named() && two_cased(known)) {
        return ReceiverSetUp {
            number: number_of(srtp::Refusal::Setup),
            context: tindrabek_receiver_closed(),
        };
    }
    let set_up = SetUp {
        ssrc,
        master_key: key,
        master_salt: salt,
        mki,
        profile: session::Profile::from(profile),
    };
    let made = srtp::Receiver::set_up(set_up, rollover, marked(known, number));
    ReceiverSetUp {
        number: set_up_number(made.answer),
        context: Receiver::from(made.context),
    }
}

// ---- calls. Each stores the fields that can differ after it, and not the session keys. The rate is one, and so is the highest index of the
// other window: a context has none where the struct's mark says so, whatever stands beside the mark.

// Protects an RTP packet into `out`.
#[unsafe(no_mangle)]
pub extern "C" fn tindrabek_send_media(ctx: &mut Sender, packet: &[u8], out: &mut [u8]) -> Answer
    ensures { SendsMedia ctx.old packet.now out.old (sender_after result ctx.new) out.new }
{
    let c = *ctx;
    let after = c.send_media(packet, out);
    ctx.session.profile.rate = after.next.session.profile.rate;
    ctx.has_last = after.next.has_last;
    ctx.last_index = after.next.last_index;
    ctx.control_sent = after.next.control_sent;
    after.answer
}

// Protects an RTCP packet into `out`.
#[unsafe(no_mangle)]
pub extern "C" fn tindrabek_send_control(ctx: &mut Sender, packet: &[u8], out: &mut [u8]) -> Answer
    ensures { SendsControl ctx.old packet.now out.old (sender_after result ctx.new) out.new }
{
    let c = *ctx;
    let after = c.send_control(packet, out);
    ctx.session.profile.rate = after.next.session.profile.rate;
    ctx.has_last = after.next.has_last;
    ctx.last_index = after.next.last_index;
    ctx.control_sent = after.next.control_sent;
    after.answer
}

// Opens an SRTP packet into `out`.
#[unsafe(no_mangle)]
pub extern "C" fn tindrabek_receive_media(
    ctx: &mut Receiver,
    packet: &[u8],
    out: &mut [u8],
) -> Answer
    ensures { ReceivesMedia ctx.old packet.now out.old (receiver_after result ctx.new) out.new }
{
    let c = *ctx;
    let after = c.receive_media(packet, out);
    ctx.session.profile.rate = after.next.session.profile.rate;
    ctx.media = after.next.media;
    ctx.control.highest = after.next.control.highest;
    after.answer
}

// Opens an SRTCP packet into `out`.
#[unsafe(no_mangle)]
pub extern "C" fn tindrabek_receive_control(
    ctx: &mut Receiver,
    packet: &[u8],
    out: &mut [u8],
) -> Answer
    ensures { ReceivesControl ctx.old packet.now out.old (receiver_after result ctx.new) out.new }
{
    let c = *ctx;
    let after = c.receive_control(packet, out);
    ctx.session.profile.rate = after.next.session.profile.rate;
    ctx.control = after.next.control;
    ctx.media.highest = after.next.media.highest;
    after.answer
}
