// Receiving: a packet is judged whole, the tag last, before anything is written; then it is opened and its index marked.
ghost use Rattle.std.specs.Prelude.{◌≡◌, ◌≤◌, ◌<◌, ◌^◌, length, IfOk};
ghost use Rattle.octets.specs.Equal.{same};
ghost use Rattle.session.specs.Packets.{media_tag, control_tag};
ghost use Rattle.srtp.specs.Contexts.{receiver_listed};
ghost use Rattle.srtp.specs.Calls.{receive_media, receive_control};
ghost use Rattle.srtp.specs.Outcomes.{ReceiverShows};
ghost use Rattle.srtp.specs.ReceiverSteps.{address_verdict, replay_verdict, placed_media, media_verdict, control_verdict};

use crate::{After, Finished, Receiver, Refusal, at_most};
use replay::index::{MAX_CONTROL_PACKETS, MAX_MEDIA_INDEX, OutOfRange};
use replay::window::Window;
use rtp::SrtpLayout;
use session::{Profile, Session, Settings};

// A media packet that no row refuses: the lengths of its header and of the opened packet, and its index.
#[derive(Clone, Copy)]
struct MediaOpening {
    header_len: usize,
    len: usize,
    index: u64,
}

// The same of control: the length of the opened packet, whether it is enciphered, and its index.
#[derive(Clone, Copy)]
struct ControlOpening {
    len: usize,
    encrypted: bool,
    index: u64,
}

// ---- the rows. Media and control have each its own: their layouts, indices and states are of other types.

// OLD and REPEAT.
#[tactic(auto, unfolding(crate::specs::ReceiverSteps::replay_verdict))]
fn judge_replay(window: Window, index: u64) -> Result<(), Refusal>
    ensures { result ≡ replay_verdict window index }
{
    Ok(window.verdict(index)?)
}

// STREAM, ROOM and KEY of a packet with this SSRC and MKI that would give `len` bytes.
#[tactic(auto, unfolding(crate::specs::ReceiverSteps::address_verdict))]
fn judge_address(
    settings: Settings,
    ssrc: u32,
    len: usize,
    room: usize,
    mki: &[u8],
) -> Result<(), Refusal>
    requires { settings.mki_len ≤ 4 }
    ensures { result ≡ address_verdict settings ssrc len room mki.now }
{
    if ssrc != settings.ssrc {
        return Err(Refusal::Stream);
    }
    if room < len {
        return Err(Refusal::Room);
    }
    if !octets::same(mki, &settings.mki[..settings.mki_len]) {
        return Err(Refusal::Key);
    }
    Ok(())
}

// Whether `tag` is the media tag of this packet at this index. It is given the session and no receiver: one that is lent to a call is first put
// together in memory, and then each refusal pays for it.
#[tactic(auto, using(crate::proofs::ReceiverLaws::tags), unfolding(session::specs::Packets::media_tag))]
fn is_media_tag(session: Session, index: u64, authenticated: &[u8], tag: &[u8]) -> bool
    requires portion { (index < 2 ^ 48) × (length authenticated.now ≤ 2048) }
    requires tag_len { (4 ≤ session.settings.profile.tag_len) × (session.settings.profile.tag_len ≤ 14) }
    ensures { result ≡ same tag.now (media_tag session authenticated.now index) }
{
    let profile = session.settings.profile;
    let keys = session.media;
    let mut whole = [0u8; 20];
    transforms::media_tag(profile.integrity, keys, authenticated, index, &mut whole);
    octets::same(tag, &whole[..profile.tag_len])
}

// Whether `tag` is the control tag. It has no index and one length, and goes by the other transform.
#[tactic(auto, using(crate::proofs::ReceiverLaws::tags), unfolding(session::specs::Packets::control_tag))]
fn is_control_tag(session: Session, authenticated: &[u8], tag: &[u8]) -> bool
    requires { length authenticated.now ≤ 2052 }
    ensures { result ≡ same tag.now (control_tag session authenticated.now) }
{
    let mut whole = [0u8; 20];
    transforms::control_tag(session.control, authenticated, &mut whole);
    octets::same(tag, &whole[..Profile::CONTROL_TAG_LEN])
}

impl Receiver {
    // Not SETUP: the lengths that set-up lists, and the bound of each H.
    #[tactic(auto, unfolding(crate::specs::Contexts::receiver_listed))]
    fn listed(self) -> bool
        ensures { result ≡ receiver_listed self }
    {
        self.session.settings.listed()
            && at_most(self.media.highest, MAX_MEDIA_INDEX)
            && at_most(self.control.highest, MAX_CONTROL_PACKETS - 1)
    }

    // The index of a media packet with this number and tag: read where the tag carries the rollover counter (RFC 4771, 2), else estimated.
    #[tactic(auto, unfolding(crate::specs::ReceiverSteps::placed_media))]
    fn media_index(self, number: u16, tag: &[u8]) -> Result<u64, OutOfRange>
        requires { 4 ≤ length tag.now }
        ensures place { result ≡ placed_media self number tag.now }
        ensures bound { IfOk result (λ i. i < 2 ^ 48) }
    {
        if self.session.settings.profile.integrity.carries(number) {
            let counter: u32 = octets::load(tag, 0);
            return Ok(replay::index::index_of(counter, number));
        }
        replay::index::estimate(self.media.highest, self.rollover, number)
    }

    // All rows of a media packet. Where the header can't be read, nothing after it is tried.
    #[tactic(auto, using(crate::proofs::MediaRows::media_steps))]
    fn judge_media(self, packet: &[u8], room: usize) -> Result<MediaOpening, Refusal>
        ensures { result ≡ media_verdict self packet.now room }
    {
        if !self.listed() {
            return Err(Refusal::Setup);
        }
        let settings = self.session.settings;
        let tag_len = settings.profile.tag_len;
        if packet.len() > Profile::MAX_PACKET_LEN + settings.mki_len + tag_len {
            return Err(Refusal::Long);
        }
        let Some(SrtpLayout { header, mki, tag }) = rtp::read_srtp(
            packet,
            settings.mki_len,
            tag_len,
        ) else {
            return Err(Refusal::Shape);
        };
        judge_address(settings, header.ssrc, mki, room, &packet[mki..tag])?;
        let authenticated = &packet[..mki];
        let tag = &packet[tag..];
        let index = self.media_index(header.sequence_number, tag)?;
        judge_replay(self.media, index)?;
        if !is_media_tag(self.session, index, authenticated, tag) {
            return Err(Refusal::Forged);
        }
        Ok(MediaOpening {
            header_len: header.len,
            len: mki,
            index,
        })
    }

    // All rows of a control packet.
    #[tactic(auto, using(crate::proofs::ControlRows::control_steps))]
    fn judge_control(self, packet: &[u8], room: usize) -> Result<ControlOpening, Refusal>
        ensures { result ≡ control_verdict self packet.now room }
    {
        if !self.listed() {
            return Err(Refusal::Setup);
        }
        let settings = self.session.settings;
        // The index word has 4 bytes.
        if packet.len()
            > Profile::MAX_PACKET_LEN + 4 + settings.mki_len + Profile::CONTROL_TAG_LEN
        {
            return Err(Refusal::Long);
        }
        let Some(layout) = rtp::read_srtcp(packet, settings.mki_len, Profile::CONTROL_TAG_LEN)
        else {
            return Err(Refusal::Shape);
        };
        judge_address(
            settings,
            layout.header.ssrc,
            layout.word,
            room,
            &packet[layout.mki..layout.tag],
        )?;
        let index = layout.index as u64;
        judge_replay(self.control, index)?;
        if !is_control_tag(self.session, &packet[..layout.mki], &packet[layout.tag..]) {
            return Err(Refusal::Forged);
        }
        Ok(ControlOpening {
            len: layout.word,
            encrypted: layout.encrypted,
            index,
        })
    }
}

// ---- the calls: one for media and one for control, as in sending

impl Receiver {
    // Opens an SRTP packet into `out` (RFC 3711, 3.3). The window is marked only where the tag is right.
    #[tactic(auto, using(crate::proofs::ReceiverReturns::media_calls))]
    pub fn receive_media(self, packet: &[u8], out: &mut [u8]) -> After<Receiver>
        ensures { ReceiverShows (receive_media self packet.now (length out.old)) self out.old result out.new }
    {
        match self.judge_media(packet, out.len()) {
            Err(refusal) => After {
                answer: Err(refusal),
                next: self,
            },
            Ok(
                MediaOpening {
                    header_len,
                    len,
                    index,
                },
            ) => {
                self.session
                    .cipher_media(&packet[..len], header_len, index, out);
                After {
                    answer: Ok(Finished { len, index }),
                    next: Receiver {
                        media: self.media.mark(index).next,
                        ..self
                    },
                }
            }
        }
    }

    // Opens an SRTCP packet into `out` (RFC 3711, 3.4).
    #[tactic(auto, using(crate::proofs::ReceiverReturns::control_calls))]
    pub fn receive_control(self, packet: &[u8], out: &mut [u8]) -> After<Receiver>
        ensures { ReceiverShows (receive_control self packet.now (length out.old)) self out.old result out.new }
    {
        match self.judge_control(packet, out.len()) {
            Err(refusal) => After {
                answer: Err(refusal),
                next: self,
            },
            Ok(
                ControlOpening {
                    len,
                    encrypted,
                    index,
                },
            ) => {
                self.session
                    .cipher_control(encrypted, &packet[..len], index, out);
                After {
                    answer: Ok(Finished { len, index }),
                    next: Receiver {
                        control: self.control.mark(index).next,
                        ..self
                    },
                }
            }
        }
    }
}
