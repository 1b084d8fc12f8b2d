// RFC 3711: the keystream of B.2, the key derivation of B.3, and two whole packets as far as keystream and tag make them.
ghost use Rattle.std.specs.Prelude.{◌≡◌, ◌≤◌, length};

use crate::hex::{self, Hex};
use std::io;
use transforms::{Cipher, Integrity, SessionKeys};

pub fn run(rt: &impl Print) -> io::Result<()> {
    keystream(rt)?;
    labels(rt)?;
    media_packet(rt)?;
    control_packet(rt)
}

// B.2: the first counter is f0f1..fcfd0000, so the session salt is what stands before 0000, with SSRC 0 and index 0.
fn keystream(rt: &impl Print) -> io::Result<()> {
    let keys = SessionKeys {
        round: aes::expand_128(hex::bytes(b"2b7e151628aed2a6abf7158809cf4f3c")),
        tag: hmac_sha1::hmac_key(b""),
        salt: hex::bytes(b"f0f1f2f3f4f5f6f7f8f9fafbfcfd"),
    };
    for j in [0x0000, 0x0001, 0x0002, 0xfeff, 0xff00, 0xff01] {
        block(rt, keys, j)?;
    }
    Ok(())
}

// Prints block j of the keystream: what zeros become at byte 16 * j.
fn block(rt: &impl Print, keys: SessionKeys, j: u16) -> io::Result<()> {
    let mut out = [0u8; 16];
    transforms::encipher(Cipher::Aes, keys, 0, 0, 16 * usize::from(j), &mut out);
    println!(rt; "RFC 3711 B.2 block {j:04x} {}", Hex(&out))
}

// B.3, and the same of the labels for control packets, which B.3 leaves out.
fn labels(rt: &impl Print) -> io::Result<()> {
    let w = aes::expand_128(master_key());
    label::<16>(rt, &w, "RFC 3711 B.3 label 0", 0)?;
    label::<94>(rt, &w, "RFC 3711 B.3 label 1", 1)?;
    label::<14>(rt, &w, "RFC 3711 B.3 label 2", 2)?;
    label::<16>(rt, &w, "RFC 3711 4.3.2 label 3", 3)?;
    label::<20>(rt, &w, "RFC 3711 4.3.2 label 4", 4)?;
    label::<14>(rt, &w, "RFC 3711 4.3.2 label 5", 5)
}

// Prints the first `N` bytes of what a label gives.
fn label<const N: usize>(rt: &impl Print, w: &[u32; 44], name: &str, label: u8) -> io::Result<()>
    requires { N ≤ 94 }
{
    let mut out = [0u8; N];
    transforms::derived(w, master_salt(), label, &mut out);
    println!(rt; "{name} {}", Hex(&out))
}

fn master_key() -> [u8; 16] {
    hex::bytes(b"e1f97a0d3e018be0d64fa32c06de4139")
}

fn master_salt() -> [u8; 14] {
    hex::bytes(b"0ec675ad498afeebb6960b3aabe6")
}

// Rollover counter 0, sequence number 0x1234: 12 bytes clear, 16 of payload, tag of ten bytes. (Media and control differ in every call.)
fn media_packet(rt: &impl Print) -> io::Result<()> {
    let keys = SessionKeys::derive(SessionKeys::MEDIA_LABEL, master_key(), master_salt());
    let mut packet: [u8; 28] = hex::bytes(
        b"800f1234decafbadcafebabeabababababababababababababababab",
    );
    protect_media(rt, keys, &mut packet)
}

fn protect_media(rt: &impl Print, keys: SessionKeys, packet: &mut [u8]) -> io::Result<()>
    requires { length packet.old ≡ 28 }
{
    transforms::encipher(Cipher::Aes, keys, 0xcafe_babe, 0x1234, 0, &mut packet[12..]);
    let mut tag = [0u8; 20];
    transforms::media_tag(Integrity::HmacSha1, keys, packet, 0x1234, &mut tag);
    print_packet(rt, "protected RTP", packet, tag)
}

// Index 0: 8 bytes clear, 16 enciphered, the word of E and index, tag of ten bytes.
fn control_packet(rt: &impl Print) -> io::Result<()> {
    let keys = SessionKeys::derive(SessionKeys::CONTROL_LABEL, master_key(), master_salt());
    let mut packet: [u8; 28] = hex::bytes(
        b"81c8000bcafebabeabababababababababababababababab80000000",
    );
    protect_control(rt, keys, &mut packet)
}

fn protect_control(rt: &impl Print, keys: SessionKeys, packet: &mut [u8]) -> io::Result<()>
    requires { length packet.old ≡ 28 }
{
    transforms::encipher(Cipher::Aes, keys, 0xcafe_babe, 0, 0, &mut packet[8..24]);
    let mut tag = [0u8; 20];
    transforms::control_tag(keys, packet, &mut tag);
    print_packet(rt, "protected RTCP", packet, tag)
}

// The packet up to the tag, and the first ten bytes of the tag.
fn print_packet(rt: &impl Print, name: &str, packet: &[u8], tag: [u8; 20]) -> io::Result<()> {
    println!(rt; "{name} {}{}", Hex(packet), Hex(&tag[..10]))
}
