// FIPS 180-4: the published SHA-1 examples, messages whose lengths lie around the ends of blocks, and one message cut at every place.
// The bytes of the messages that are not published count up from 0, modulo 251.
ghost use Rattle.std.specs.Prelude.{◌≡◌, ◌+◌, ◌≤◌, length};

use crate::hex::Hex;
use std::io;

pub fn run(rt: &impl Print) -> io::Result<()> {
    message(rt, "FIPS 180-4 abc", b"abc")?;
    message(
        rt,
        "FIPS 180-4 two blocks",
        b"abcdbcdecdefdefgefghfghighijhijkijkljklmklmnlmnomnopnopq",
    )?;
    message(rt, "FIPS 180-4 empty", b"")?;
    let mut m = [0u8; 2048];
    count_up(&mut m);
    for n in [0, 1, 55, 56, 63, 64, 65, 119, 120, 128u8] {
        front(rt, &m, n.into())?;
    }
    front(rt, &m, 2048)?;
    cuts(rt)
}

fn count_up(m: &mut [u8]) {
    for (i, byte) in m.iter_mut().enumerate() {
        *byte = (i % 251) as u8;
    }
}

// Prints the digest of the first `n` bytes.
fn front(rt: &impl Print, m: &[u8], n: usize) -> io::Result<()>
    requires { (length m.now ≡ 2048) × (n ≤ 2048) }
{
    let d = hmac_sha1::digest(&m[..n], b"");
    println!(rt; "SHA-1 length {n} {}", Hex(&d))
}

// Prints the digest of `m`.
fn message(rt: &impl Print, name: &str, m: &[u8]) -> io::Result<()>
    requires { length m.now ≤ 2048 }
{
    let d = hmac_sha1::digest(m, b"");
    println!(rt; "{name} {}", Hex(&d))
}

// Prints the digest of 200 bytes, and how many of the 201 places to cut them give two parts with that digest.
fn cuts(rt: &impl Print) -> io::Result<()> {
    let mut m = [0u8; 200];
    count_up(&mut m);
    message(rt, "SHA-1 length 200", &m)?;
    let d = hmac_sha1::digest(&m, b"");
    let n = same_cuts(&m, &d);
    println!(rt; "SHA-1 length 200, cuts with that digest: {n}")
}

fn same_cuts(m: &[u8], d: &[u8]) -> usize
    requires { length m.now ≤ 2048 }
    ensures { result ≤ length m.now + 1 }
{
    let mut n = 0;
    for i in 0..m.len() + 1 {
        let e = hmac_sha1::digest(&m[..i], &m[i..]);
        if octets::same(&e, d) {
            n += 1;
        }
    }
    n
}
