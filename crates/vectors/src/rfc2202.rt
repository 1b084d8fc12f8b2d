// RFC 2202: the seven HMAC-SHA1 cases.
ghost use Rattle.std.specs.Prelude.{◌≤◌, length};

use crate::hex::{self, Hex};
use std::io;

pub fn run(rt: &impl Print) -> io::Result<()> {
    let key = [0x0bu8; 20];
    case(rt, "RFC 2202 case 1", &key, b"Hi There")?;
    case(
        rt,
        "RFC 2202 case 2",
        b"Jefe",
        b"what do ya want for nothing?",
    )?;
    let key = [0xaau8; 20];
    let text = [0xddu8; 50];
    case(rt, "RFC 2202 case 3", &key, &text)?;
    let key: [u8; 25] = hex::bytes(b"0102030405060708090a0b0c0d0e0f10111213141516171819");
    let text = [0xcdu8; 50];
    case(rt, "RFC 2202 case 4", &key, &text)?;
    let key = [0x0cu8; 20];
    case(rt, "RFC 2202 case 5", &key, b"Test With Truncation")?;
    long_keys(rt)
}

fn long_keys(rt: &impl Print) -> io::Result<()> {
    let key = [0xaau8; 80];
    case(
        rt,
        "RFC 2202 case 6",
        &key,
        b"Test Using Larger Than Block-Size Key - Hash Key First",
    )?;
    case(
        rt,
        "RFC 2202 case 7",
        &key,
        b"Test Using Larger Than Block-Size Key and Larger Than One Block-Size Data",
    )
}

// Prints the HMAC of `text`.
fn case(rt: &impl Print, name: &str, key: &[u8], text: &[u8]) -> io::Result<()>
    requires { (length key.now ≤ 2048) × (length text.now ≤ 2048) }
{
    let mut d = [0u8; 20];
    hmac_sha1::hmac(hmac_sha1::hmac_key(key), text, b"", &mut d);
    println!(rt; "{name} {}", Hex(&d))
}
