// FIPS 197: the key expansions of Appendix A, and the blocks of Appendix B and C (C as published in 2001).
ghost use Rattle.std.specs.Prelude.{◌≡◌, ◌+◌, ◌*◌, ◌%◌, ◌≤◌, length};

use crate::hex::{self, Hex};
use aes::{RoundKeys, State};
use std::io;

pub fn run(rt: &impl Print) -> io::Result<()> {
    let w = expanded::<16, 44>(b"2b7e151628aed2a6abf7158809cf4f3c");
    round_keys(rt, "FIPS 197 A.1", &w)?;
    block(rt, "FIPS 197 B", &w, b"3243f6a8885a308d313198a2e0370734")?;
    let w = expanded::<16, 44>(b"000102030405060708090a0b0c0d0e0f");
    block(rt, "FIPS 197 C.1", &w, b"00112233445566778899aabbccddeeff")?;
    let w = expanded::<24, 52>(b"8e73b0f7da0e6452c810f32b809079e562f8ead2522c6b7b");
    round_keys(rt, "FIPS 197 A.2", &w)?;
    let w = expanded::<24, 52>(b"000102030405060708090a0b0c0d0e0f1011121314151617");
    block(rt, "FIPS 197 C.2", &w, b"00112233445566778899aabbccddeeff")?;
    let w = expanded::<32, 60>(b"603deb1015ca71be2b73aef0857d77811f352c073b6108d72d9810a30914dff4");
    round_keys(rt, "FIPS 197 A.3", &w)?;
    let w = expanded::<32, 60>(b"000102030405060708090a0b0c0d0e0f101112131415161718191a1b1c1d1e1f");
    block(rt, "FIPS 197 C.3", &w, b"00112233445566778899aabbccddeeff")
}

// The `W` words of a key of `K` bytes.
fn expanded<const K: usize, const W: usize>(key: &[u8]) -> [u32; W]
    requires key { (16 ≤ K) × (K % 4 ≡ 0) × (length key.now ≡ 2 * K) }
    requires words { W ≡ K + 28 }
{
    let key: [u8; K] = hex::bytes(key);
    let mut w = [0u32; W];
    aes::expand_key(K / 4, &key, &mut w);
    w
}

// Prints the cipher of one block, by the S-box and by the table of a round.
fn block(rt: &impl Print, name: &str, words: &[u32], text: &[u8]) -> io::Result<()>
    requires { (8 ≤ length words.now) × (length text.now ≡ 32) }
{
    let rounds = words.len() / 4 - 1;
    let keys = RoundKeys { words, rounds };
    let text: [u8; 16] = hex::bytes(text);
    let s = State::load(&text, 0);
    let by_box = aes::encrypt_block(&keys, s).bytes();
    println!(rt; "{name} {}", Hex(&by_box))?;
    let by_table = aes_tables::encrypt_block(&keys, s).bytes();
    println!(rt; "by table, {name} {}", Hex(&by_table))
}

// Prints the words of an expanded key, a round key to a line.
fn round_keys(rt: &impl Print, name: &str, w: &[u32]) -> io::Result<()> {
    for (i, key) in w.chunks_exact(4).enumerate() {
        print!(rt; "{name} round key {i}")?;
        for word in key {
            print!(rt; " {word:08x}")?;
        }
        println!(rt;)?;
    }
    Ok(())
}
