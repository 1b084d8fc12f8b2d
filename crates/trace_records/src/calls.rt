// Ops 3 to 6: size of the outgoing buffer (2 bytes), packet.
ghost use Rattle.std.specs.Prelude.{◌≡◌, ◌≤◌, length};
ghost use Rattle.trace_records.specs.Answers.{call_head};
ghost use Rattle.trace_records.specs.Ops.{op_number};
ghost use Rattle.trace_records.specs.Records.{with_sender, with_receiver, left_by, Leaves, called, Makes};

use crate::{Call, Called, Contexts, Head, MAX_ROOM, Op};
use srtp::{After, Receiver, Sender};

// What each byte of the outgoing buffer is before a call, so that the bytes that the call leaves alone can be seen.
const FILL: u8 = 0xA5;

impl Contexts {
    // What a call on the sender leaves: the receiver stays. (One function for both sides would have to be given the field that it changes, and be
    // no plainer.)
    fn after_sender(self, after: After<Sender>) -> Called
        ensures { result ≡ record { head = call_head after.answer; next = with_sender self after.next } }
    {
        Called {
            head: Head::from(after.answer),
            next: Contexts {
                sender: after.next,
                ..self
            },
        }
    }

    // What a call on the receiver leaves: the sender stays.
    fn after_receiver(self, after: After<Receiver>) -> Called
        ensures { result ≡ record { head = call_head after.answer; next = with_receiver self after.next } }
    {
        Called {
            head: Head::from(after.answer),
            next: Contexts {
                receiver: after.next,
                ..self
            },
        }
    }

    // The call on a buffer that is filled anew.
    fn call_on(self, call: Call, packet: &[u8], buffer: &mut [u8]) -> Called
        ensures { Leaves (left_by self (op_number (Op.Call call)) packet.now (length buffer.old)) (length buffer.old) result buffer.new }
    {
        buffer.fill(FILL);
        match call {
            Call::SendMedia => self.after_sender(self.sender.send_media(packet, buffer)),
            Call::SendControl => self.after_sender(self.sender.send_control(packet, buffer)),
            Call::ReceiveMedia => self.after_receiver(self.receiver.receive_media(packet, buffer)),
            Call::ReceiveControl => {
                self.after_receiver(self.receiver.receive_control(packet, buffer))
            }
        }
    }

    // A call, if its body fits: the start of `buffer` is the call's.
    #[tactic(auto, unfolding(crate::specs::Records::called))]
    pub(crate) fn call(self, call: Call, body: &[u8], buffer: &mut [u8]) -> Option<(Called, usize)>
        requires { 4096 ≤ length buffer.old }
        ensures { Makes (called self (op_number (Op.Call call)) body.now) (op_number (Op.Call call)) self buffer.old result buffer.new }
    {
        if body.len() < 2 {
            return None;
        }
        let room = usize::from(octets::load::<u16, 2>(body, 0));
        if room > MAX_ROOM {
            return None;
        }
        let called = self.call_on(call, &body[2..], &mut buffer[..room]);
        Some((called, room))
    }
}
