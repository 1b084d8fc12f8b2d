// Layouts of RTP and RTCP packets (RFC 3550) and of the packets that protect them (RFC 3711, 3.1 and 3.4).
// The readers take any bytes of any length, and any length of MKI and tag: no sum in them can wrap. Places are counted from the
// packet's first byte.
#![tactic(auto)]

ghost use Rattle.std.specs.Prelude.{◌≡◌, ◌/◌, ◌%◌, ◌^◌, ◌≤◌, length};
ghost use Rattle.rtp.specs.Rtp.{header_of};
ghost use Rattle.rtp.specs.Rtcp.{rtcp_header_of};
ghost use Rattle.rtp.specs.Protected.{srtp_layout_of, srtcp_layout_of, e_flag, srtcp_index, index_word};
ghost use Rattle.rtp.specs.Steps.{header_up_to, trailer_of};

use octets::load;

// What an RTP packet's header says, and how long it is. The payload starts where the header ends.
#[derive(Clone, Copy, Debug, PartialEq, Eq)]
pub struct Header {
    pub len: usize,
    pub sequence_number: u16,
    pub ssrc: u32,
}

// What the head of an RTCP packet says.
#[derive(Clone, Copy, Debug, PartialEq, Eq)]
pub struct RtcpHeader {
    pub ssrc: u32,
}

// Where MKI and tag begin.
#[derive(Clone, Copy)]
struct Trailer {
    mki: usize,
    tag: usize,
}

// The header of a protected media packet, and where MKI and tag begin. The payload reaches from the header to the MKI.
#[derive(Clone, Copy, Debug, PartialEq, Eq)]
pub struct SrtpLayout {
    pub header: Header,
    pub mki: usize,
    pub tag: usize,
}

// What a protected control packet says, and where its index word, MKI and tag begin.
#[derive(Clone, Copy, Debug, PartialEq, Eq)]
pub struct SrtcpLayout {
    pub header: RtcpHeader,
    pub encrypted: bool,
    pub index: u32,
    pub word: usize,
    pub mki: usize,
    pub tag: usize,
}

// ---- the first byte of RTP and RTCP

// V, the top two bits.
fn version(first: u8) -> u8
    ensures { result ≡ first / 2 ^ 6 }
{
    first >> 6
}

// X, the bit worth 16. A number, as the definition has it.
fn extension_bit(first: u8) -> u8
    ensures { result ≡ first / 2 ^ 4 % 2 }
{
    (first >> 4) & 1
}

// CC, the low four bits.
fn csrc_count(first: u8) -> usize
    ensures { result ≡ first % 2 ^ 4 }
{
    (first & 0x0f) as usize
}

// ---- plain packets

// The header of an RTP packet; none if the version isn't 2 or the header doesn't fit.
#[tactic(auto, unfolding(crate::specs::Rtp::header_of, crate::specs::Rtp::is_rtp, crate::specs::Rtp::header_length))]
pub fn read_header(packet: &[u8]) -> Option<Header>
    ensures { result ≡ header_of packet.now }
{
    if packet.len() < 12 {
        return None;
    }
    let first = packet[0];
    if version(first) != 2 {
        return None;
    }
    let csrc_end = 12 + 4 * csrc_count(first);
    if extension_bit(first) != 1 {
        return header_up_to(packet, csrc_end);
    }
    if packet.len() < csrc_end + 4 {
        return None;
    }
    let words: u16 = load(packet, csrc_end + 2);
    header_up_to(packet, csrc_end + 4 + 4 * words as usize)
}

// The header of `len` bytes, if so many are there.
#[tactic(auto, unfolding(crate::specs::Rtp::sequence_number, crate::specs::Rtp::rtp_ssrc))]
fn header_up_to(packet: &[u8], len: usize) -> Option<Header>
    requires { 12 ≤ length packet.now }
    ensures { result ≡ header_up_to len packet.now }
{
    if packet.len() < len {
        return None;
    }
    Some(Header {
        len,
        sequence_number: load(packet, 2),
        ssrc: load(packet, 8),
    })
}

// The head of an RTCP packet; none if the packet breaks the rule for it.
#[tactic(auto, unfolding(crate::specs::Rtcp::rtcp_header_of, crate::specs::Rtcp::is_rtcp, crate::specs::Rtcp::rtcp_ssrc))]
pub fn read_rtcp(packet: &[u8]) -> Option<RtcpHeader>
    ensures { result ≡ rtcp_header_of packet.now }
{
    if packet.len() < 8 {
        return None;
    }
    if packet.len() & 3 != 0 {
        return None;
    }
    if version(packet[0]) != 2 {
        return None;
    }
    Some(RtcpHeader {
        ssrc: load(packet, 4),
    })
}

// ---- protected packets. The lengths of MKI and tag stay two parameters: each caller takes them from two places, its settings and its profile.

// The places of MKI and tag in a packet of `len` bytes, by subtractions alone; none if they don't fit.
fn read_trailer(len: usize, mki_len: usize, tag_len: usize) -> Option<Trailer>
    ensures { result ≡ trailer_of mki_len tag_len len }
{
    let tag = len.checked_sub(tag_len)?;
    let mki = tag.checked_sub(mki_len)?;
    Some(Trailer { mki, tag })
}

// The layout of a protected media packet; none if the header doesn't fit before MKI and tag.
#[tactic(auto, unfolding(crate::specs::Protected::srtp_layout_of, crate::specs::Protected::authenticated_portion, crate::specs::Rtp::header_of, crate::specs::Rtp::is_rtp))]
pub fn read_srtp(packet: &[u8], mki_len: usize, tag_len: usize) -> Option<SrtpLayout>
    ensures { result ≡ srtp_layout_of mki_len tag_len packet.now }
{
    let Trailer { mki, tag } = read_trailer(packet.len(), mki_len, tag_len)?;
    let header = read_header(&packet[..mki])?;
    Some(SrtpLayout { header, mki, tag })
}

// The layout of a protected control packet; none if what stands before the index word isn't RTCP.
#[tactic(auto, unfolding(crate::specs::Protected::srtcp_layout_of, crate::specs::Protected::authenticated_portion, crate::specs::Protected::rtcp_portion, crate::specs::Protected::word_of, crate::specs::Rtcp::rtcp_header_of, crate::specs::Rtcp::is_rtcp))]
pub fn read_srtcp(packet: &[u8], mki_len: usize, tag_len: usize) -> Option<SrtcpLayout>
    ensures { result ≡ srtcp_layout_of mki_len tag_len packet.now }
{
    let Trailer { mki, tag } = read_trailer(packet.len(), mki_len, tag_len)?;
    let authenticated = &packet[..mki];
    let word = mki.checked_sub(4)?;
    let header = read_rtcp(&authenticated[..word])?;
    let e_and_index = load(authenticated, word);
    Some(SrtcpLayout {
        header,
        encrypted: e_flag(e_and_index),
        index: srtcp_index(e_and_index),
        word,
        mki,
        tag,
    })
}

// ---- the index word of SRTCP

// The top bit: whether the packet is enciphered.
#[tactic(auto, unfolding(crate::specs::Protected::e_flag))]
pub fn e_flag(word: u32) -> bool
    ensures { result ≡ e_flag word }
{
    word >> 31 == 1
}

// The 31 bits below.
#[tactic(auto, unfolding(crate::specs::Protected::srtcp_index))]
pub fn srtcp_index(word: u32) -> u32
    ensures { result ≡ srtcp_index word }
{
    word & 0x7fff_ffff
}

// The word of a flag and the 31 low bits of an index.
#[tactic(auto, unfolding(crate::specs::Protected::index_word))]
pub fn index_word(encrypted: bool, index: u32) -> u32
    ensures { result ≡ index_word encrypted index }
{
    let low = index & 0x7fff_ffff;
    if encrypted {
        return low | 0x8000_0000;
    }
    low
}
