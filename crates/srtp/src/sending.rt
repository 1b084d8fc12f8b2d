// Sending: a packet is judged whole before anything is written; then it is protected, and its index kept as the last one used.
ghost use Rattle.std.specs.Prelude.{◌≡◌, length};
ghost use Rattle.srtp.specs.Contexts.{sender_listed};
ghost use Rattle.srtp.specs.Calls.{send_media, send_control};
ghost use Rattle.srtp.specs.Outcomes.{SenderShows};
ghost use Rattle.srtp.specs.SenderSteps.{media_verdict, control_verdict};

use crate::{After, Finished, Refusal, Sender, at_most};
use replay::index::{ControlSender, MAX_CONTROL_PACKETS, MAX_MEDIA_INDEX, MediaSender};
use session::Profile;

// A media packet that no row refuses: where its payload starts, its index, and the state once it is sent.
#[derive(Clone, Copy)]
struct MediaProtection {
    header_len: usize,
    index: u64,
    after: MediaSender,
}

// The same of control.
#[derive(Clone, Copy)]
struct ControlProtection {
    index: u64,
    after: ControlSender,
}

// ---- the rows. Media and control have each its own: their layouts, indices and states are of other types.

impl Sender {
    // Not SETUP: the lengths that set-up lists, and the bounds of the last index and of the count.
    #[tactic(auto, unfolding(crate::specs::Contexts::sender_listed))]
    fn listed(self) -> bool
        ensures { result ≡ sender_listed self }
    {
        self.session.settings.listed()
            && at_most(self.media.last, MAX_MEDIA_INDEX)
            && self.control.sent <= MAX_CONTROL_PACKETS
    }

    // All rows of a media packet. Where the header can't be read, nothing after it is tried.
    #[tactic(auto, using(crate::proofs::SenderLaws::media_steps), unfolding(crate::specs::SenderSteps::media_verdict))]
    fn judge_media(self, packet: &[u8], room: usize) -> Result<MediaProtection, Refusal>
        ensures { result ≡ media_verdict self packet.now room }
    {
        if !self.listed() {
            return Err(Refusal::Setup);
        }
        if packet.len() > Profile::MAX_PACKET_LEN {
            return Err(Refusal::Long);
        }
        let Some(header) = rtp::read_header(packet) else {
            return Err(Refusal::Shape);
        };
        let settings = self.session.settings;
        if header.ssrc != settings.ssrc {
            return Err(Refusal::Stream);
        }
        let need = packet.len() + settings.mki_len + settings.profile.tag_len;
        if room < need {
            return Err(Refusal::Room);
        }
        let step = self.media.step(header.sequence_number);
        Ok(MediaProtection {
            header_len: header.len,
            index: step.index?,
            after: step.next,
        })
    }

    // All rows of a control packet.
    #[tactic(auto, using(crate::proofs::SenderLaws::control_steps), unfolding(crate::specs::SenderSteps::control_verdict))]
    fn judge_control(self, packet: &[u8], room: usize) -> Result<ControlProtection, Refusal>
        ensures { result ≡ control_verdict self packet.now room }
    {
        if !self.listed() {
            return Err(Refusal::Setup);
        }
        if packet.len() > Profile::MAX_PACKET_LEN {
            return Err(Refusal::Long);
        }
        let Some(header) = rtp::read_rtcp(packet) else {
            return Err(Refusal::Shape);
        };
        let settings = self.session.settings;
        if header.ssrc != settings.ssrc {
            return Err(Refusal::Stream);
        }
        // The index word has 4 bytes.
        let need = packet.len() + 4 + settings.mki_len + Profile::CONTROL_TAG_LEN;
        if room < need {
            return Err(Refusal::Room);
        }
        let step = self.control.step();
        Ok(ControlProtection {
            index: step.index?,
            after: step.next,
        })
    }
}

// ---- the calls. Media and control have rows of their own, another call of the session, and another state that moves on: one function for
// both would take all three as parameters.

impl Sender {
    // Protects an RTP packet into `out` (RFC 3711, 3.3).
    #[tactic(auto, using(crate::proofs::SenderReturns::media_calls))]
    pub fn send_media(self, packet: &[u8], out: &mut [u8]) -> After<Sender>
        ensures { SenderShows (send_media self packet.now (length out.old)) self out.old result out.new }
    {
        match self.judge_media(packet, out.len()) {
            Err(refusal) => After {
                answer: Err(refusal),
                next: self,
            },
            Ok(
                MediaProtection {
                    header_len,
                    index,
                    after,
                },
            ) => {
                let len = self.session.protect_media(packet, header_len, index, out);
                After {
                    answer: Ok(Finished { len, index }),
                    next: Sender {
                        media: after,
                        ..self
                    },
                }
            }
        }
    }

    // Protects an RTCP packet into `out` (RFC 3711, 3.4).
    #[tactic(auto, using(crate::proofs::SenderReturns::control_calls))]
    pub fn send_control(self, packet: &[u8], out: &mut [u8]) -> After<Sender>
        ensures { SenderShows (send_control self packet.now (length out.old)) self out.old result out.new }
    {
        match self.judge_control(packet, out.len()) {
            Err(refusal) => After {
                answer: Err(refusal),
                next: self,
            },
            Ok(ControlProtection { index, after }) => {
                let len = self.session.protect_control(packet, index, out);
                After {
                    answer: Ok(Finished { len, index }),
                    next: Sender {
                        control: after,
                        ..self
                    },
                }
            }
        }
    }
}
