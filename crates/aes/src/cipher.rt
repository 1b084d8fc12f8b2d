// The cipher on one block (FIPS 197, 5.1), by the S-box alone.
ghost use Rattle.std.specs.Prelude.{◌≡◌};
ghost use Rattle.octets.specs.BigEndian.{byte, to_bytes};
ghost use Rattle.aes.specs.Field.{mul};
ghost use Rattle.aes.specs.Cipher.{sub_bytes, shift_rows, mix_column, mix_columns, round_of, last_round_of, cipher};
ghost use Rattle.aes.specs.Columns.{block};

use crate::substitution::column;
use crate::{RoundKeys, State};

// The cipher under `keys`, whatever words they are.
pub fn encrypt_block(keys: &RoundKeys, s: State) -> State
    ensures { block result ≡ cipher keys.now.words.now keys.now.rounds (block s) }
{
    let mut x = s.added(keys.at(0));
    for i in 1..keys.rounds {
        x = round(x, keys.at(i));
    }
    last_round(x, keys.at(keys.rounds))
}

fn round(s: State, key: State) -> State
    ensures { block result ≡ round_of (block s) (block key) }
{
    mixed(shifted(s)).added(key)
}

// The last round has no MixColumns.
fn last_round(s: State, key: State) -> State
    ensures { block result ≡ last_round_of (block s) (block key) }
{
    shifted(s).added(key)
}

// SubBytes and ShiftRows, which takes row r of a column from the r-th column after it.
fn shifted(s: State) -> State
    ensures { block result ≡ shift_rows (sub_bytes (block s)) }
{
    State {
        c0: column(s.c0, s.c1, s.c2, s.c3),
        c1: column(s.c1, s.c2, s.c3, s.c0),
        c2: column(s.c2, s.c3, s.c0, s.c1),
        c3: column(s.c3, s.c0, s.c1, s.c2),
    }
}

// MixColumns.
fn mixed(s: State) -> State
    ensures { block result ≡ mix_columns (block s) }
{
    State {
        c0: mix_column(s.c0),
        c1: mix_column(s.c1),
        c2: mix_column(s.c2),
        c3: mix_column(s.c3),
    }
}

// MixColumns of one column.
fn mix_column(column: u32) -> u32
    ensures { to_bytes 4 result ≡ mix_column (byte 3 column) (byte 2 column) (byte 1 column) (byte 0 column) }
{
    let [a, b, c, d] = column.to_be_bytes();
    u32::from_be_bytes([
        times2(a) ^ times3(b) ^ c ^ d,
        a ^ times2(b) ^ times3(c) ^ d,
        a ^ b ^ times2(c) ^ times3(d),
        times3(a) ^ b ^ c ^ times2(d),
    ])
}

// The products in the field (4.2) that MixColumns takes.
fn times2(b: u8) -> u8
    ensures { result ≡ mul 2 b }
{
    if b < 0x80 {
        b * 2
    } else {
        ((b - 0x80) * 2) ^ 0x1b
    }
}

fn times3(b: u8) -> u8
    ensures { result ≡ mul 3 b }
{
    times2(b) ^ b
}
