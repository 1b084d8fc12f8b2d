// The calls on plain contexts by value: each is the call of `srtp` on the context that the struct stands for. A struct with a number that
// no enum has stands for the closed one: its calls are refused with no context made. The four differ in the call of `srtp`: a closure for it
// would need a contract of its own, longer than what it saves.
ghost use Rattle.std.specs.Prelude.{◌≡◌, MatchResult};
ghost use Rattle.srtp_c.specs.Boundary.{SendsMedia, SendsControl, ReceivesMedia, ReceivesControl, plain_answer};

use crate::plain::number_of;
use crate::{After, Answer, Receiver, Sender};
use srtp::{Finished, Refusal};

impl From<srtp::Answer> for Answer {
    ghost from_gives = { λ a r. r ≡ plain_answer a };

    // A refusal is answered alone.
    fn from(answer: srtp::Answer) -> Answer {
        match answer {
            Ok(Finished { len, index }) => Answer {
                number: 0,
                len,
                index,
            },
            Err(refusal) => Answer {
                number: number_of(refusal),
                len: 0,
                index: 0,
            },
        }
    }
}

impl<P: Copy> After<P> {
    // A call that is refused leaves the struct as it is.
    fn refused(plain: P, refusal: Refusal) -> After<P>
        ensures answer { result.answer ≡ plain_answer (Err refusal) }
        ensures next { result.next ≡ plain }
    {
        After {
            answer: Answer::from(Err(refusal)),
            next: plain,
        }
    }

    // What a call of `srtp` made of the context that the struct stands for.
    fn shown<C: Copy>(plain: P, after: srtp::After<C>) -> After<P>
    where
        P: From<C>,
        ensures answer { result.answer ≡ plain_answer after.answer }
        ensures next { MatchResult after.answer (λ _. P.From.from_gives after.next result.next) (λ _. result.next ≡ plain) }
    {
        match after.answer {
            Err(refusal) => After::refused(plain, refusal),
            Ok(_) => After {
                answer: Answer::from(after.answer),
                next: P::from(after.next),
            },
        }
    }
}

impl Sender {
    pub fn send_media(self, packet: &[u8], out: &mut [u8]) -> After<Sender>
        ensures { SendsMedia self packet.now out.old result out.new }
    {
        match srtp::Sender::try_from(self) {
            Err(refusal) => After::refused(self, refusal),
            Ok(sender) => After::shown(self, sender.send_media(packet, out)),
        }
    }

    pub fn send_control(self, packet: &[u8], out: &mut [u8]) -> After<Sender>
        ensures { SendsControl self packet.now out.old result out.new }
    {
        match srtp::Sender::try_from(self) {
            Err(refusal) => After::refused(self, refusal),
            Ok(sender) => After::shown(self, sender.send_control(packet, out)),
        }
    }
}

impl Receiver {
    pub fn receive_media(self, packet: &[u8], out: &mut [u8]) -> After<Receiver>
        ensures { ReceivesMedia self packet.now out.old result out.new }
    {
        match srtp::Receiver::try_from(self) {
            Err(refusal) => After::refused(self, refusal),
            Ok(receiver) => After::shown(self, receiver.receive_media(packet, out)),
        }
    }

    pub fn receive_control(self, packet: &[u8], out: &mut [u8]) -> After<Receiver>
        ensures { ReceivesControl self packet.now out.old result out.new }
    {
        match srtp::Receiver::try_from(self) {
            Err(refusal) => After::refused(self, refusal),
            Ok(receiver) => After::shown(self, receiver.receive_control(packet, out)),
        }
    }
}
