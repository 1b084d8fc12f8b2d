// Packets under a session (RFC 3711, 3.1 and 3.4, RFC 4771): ciphered, and with what a protected packet ends in.
// The bounds on index, packet and lengths are clauses and no types: callers have numbers that a row of the table has just shown to be within
// them, and a type would only be put round each of these at its call. Media and control have two functions each: E, the index word and the one
// length of tag are control's alone, header and integrity transform media's.
ghost use Rattle.std.specs.Prelude.{◌≡◌, ◌++◌, ◌+◌, ◌^◌, ◌≤◌, ◌<◌, length, take};
ghost use Rattle.octets.specs.Buffer.{over, over_at};
ghost use Rattle.rtp.specs.Rtp.{header_length};
ghost use Rattle.session.specs.Packets.{ciphered_media, ciphered_control, encrypts as encrypts_of, srtp, srtcp, cipher_of};
ghost use Rattle.session.specs.Steps.{ciphered_behind};

use crate::{Profile, Session, Settings};
use transforms::{Cipher, SessionKeys};

// ---- under the cipher

impl Settings {
    // Writes `packet` over the start of `out`: its first `clear` bytes as they are, the part behind them under the cipher.
    fn cipher_behind(
        self,
        keys: SessionKeys,
        index: u64,
        packet: &[u8],
        clear: usize,
        out: &mut [u8],
    )
        requires { (clear ≤ length packet.now) × (index < 2 ^ 48) × (length packet.now ≤ 2048) × (length packet.now ≤ length out.old) }
        ensures { out.new ≡ over (ciphered_behind self keys index clear packet.now) out.old }
    {
        octets::copy_over(packet, out);
        let n = packet.len();
        transforms::encipher(
            self.profile.cipher,
            keys,
            self.ssrc,
            index,
            0,
            &mut out[clear..n],
        );
    }
}

impl Session {
    // Writes a media packet over the start of `out`: the header as it is, the payload under the cipher (RFC 3711, 3.1).
    // A protected packet, up to its MKI, comes out plain.
    #[tactic(auto, unfolding(crate::specs::Packets::ciphered_media))]
    pub fn cipher_media(self, packet: &[u8], header_len: usize, index: u64, out: &mut [u8])
        requires header { (header_len ≡ header_length packet.now) × (header_len ≤ length packet.now) }
        requires sizes { (index < 2 ^ 48) × (length packet.now ≤ 2048) × (length packet.now ≤ length out.old) }
        ensures { out.new ≡ over (ciphered_media self packet.now index) out.old }
    {
        self.settings
            .cipher_behind(self.media, index, packet, header_len, out);
    }

    // Writes a control packet over the start of `out`: 8 bytes as they are, the rest under the cipher if E is set (3.4).
    // A protected packet, up to its index word, comes out plain.
    #[tactic(auto, unfolding(crate::specs::Packets::ciphered_control))]
    pub fn cipher_control(self, encrypted: bool, packet: &[u8], index: u64, out: &mut [u8])
        requires header { 8 ≤ length packet.now }
        requires sizes { (index < 2 ^ 48) × (length packet.now ≤ 2048) × (length packet.now ≤ length out.old) }
        ensures { out.new ≡ over (ciphered_control self encrypted packet.now index) out.old }
    {
        if encrypted {
            self.settings
                .cipher_behind(self.control, index, packet, 8, out);
        } else {
            octets::copy_over(packet, out);
        }
    }
}

// ---- the protected packet

// Writes `first` and behind it `second` over `out` from place `at`. Answers the place behind them.
fn put_both(first: &[u8], second: &[u8], at: usize, out: &mut [u8]) -> usize
    requires { at + length first.now + length second.now ≤ length out.old }
    ensures place { result ≡ at + length first.now + length second.now }
    ensures written { out.new ≡ over_at at (first.now ++ second.now) out.old }
{
    let behind = at + first.len();
    octets::copy_over(first, &mut out[at..]);
    octets::copy_over(second, &mut out[behind..]);
    behind + second.len()
}

impl Settings {
    // Writes what every protected packet ends in, MKI and tag. Answers the packet's length.
    fn finish(self, tag: &[u8], at: usize, out: &mut [u8]) -> usize
        requires { (self.mki_len ≤ 4) × (at + self.mki_len + length tag.now ≤ length out.old) }
        ensures place { result ≡ at + self.mki_len + length tag.now }
        ensures written { out.new ≡ over_at at (take self.mki_len self.mki ++ tag.now) out.old }
    {
        put_both(&self.mki[..self.mki_len], tag, at, out)
    }
}

// E is set exactly when the cipher is AES.
fn encrypts(cipher: Cipher) -> bool
    ensures { result ≡ encrypts_of cipher }
{
    matches!(cipher, Cipher::Aes)
}

impl Session {
    // Writes the SRTP packet (RFC 3711, 3.1), its tag by the integrity transform, over the start of `out`. Answers its length.
    pub fn protect_media(
        self,
        packet: &[u8],
        header_len: usize,
        index: u64,
        out: &mut [u8],
    ) -> usize
        requires header { (header_len ≡ header_length packet.now) × (header_len ≤ length packet.now) }
        requires sizes { (index < 2 ^ 48) × (length packet.now ≤ 2048) }
        requires lengths { (self.settings.mki_len ≤ 4) × (4 ≤ self.settings.profile.tag_len) × (self.settings.profile.tag_len ≤ 14) }
        requires room { length packet.now + self.settings.mki_len + self.settings.profile.tag_len ≤ length out.old }
        ensures size { result ≡ length (srtp self packet.now index) }
        ensures written { out.new ≡ over (srtp self packet.now index) out.old }
    {
        self.cipher_media(packet, header_len, index, out);
        let n = packet.len();
        let profile = self.settings.profile;
        let mut tag = [0u8; 20];
        transforms::media_tag(profile.integrity, self.media, &out[..n], index, &mut tag);
        self.settings.finish(&tag[..profile.tag_len], n, out)
    }

    // Writes the SRTCP packet (RFC 3711, 3.4) over the start of `out`. Answers its length.
    pub fn protect_control(self, packet: &[u8], index: u64, out: &mut [u8]) -> usize
        requires sizes { (8 ≤ length packet.now) × (length packet.now ≤ 2048) × (index < 2 ^ 31) }
        requires lengths { self.settings.mki_len ≤ 4 }
        requires room { length packet.now + 4 + self.settings.mki_len + 10 ≤ length out.old }
        ensures size { result ≡ length (srtcp self (encrypts_of (cipher_of self)) packet.now index) }
        ensures written { out.new ≡ over (srtcp self (encrypts_of (cipher_of self)) packet.now index) out.old }
    {
        let encrypted = encrypts(self.settings.profile.cipher);
        self.cipher_control(encrypted, packet, index, out);
        let n = packet.len();
        octets::store(out, n, rtp::index_word(encrypted, index as u32));
        let end = n + 4;
        let mut tag = [0u8; 20];
        transforms::control_tag(self.control, &out[..end], &mut tag);
        self.settings
            .finish(&tag[..Profile::CONTROL_TAG_LEN], end, out)
    }
}
