// A round by its table, a column by four entries.
ghost use Rattle.std.specs.Prelude.{◌≡◌, ◌+◌, ◌*◌, ◌^◌, ◌<◌, length};
ghost use Rattle.aes_tables.specs.Table.{entry};
ghost use Rattle.aes_tables.specs.Rounds.{row_by, turned_by, round_by, each_round_by};

use aes::State;

// A table of 256 entries, `D` words apart.
#[derive(Clone, Copy)]
pub(crate) struct Table<'a, const D: usize> {
    pub words: &'a [u32],
    pub ghost whole: { D * 255 + 1 < length words.now },
}

impl<const D: usize> Table<'_, D> {
    // The round on each of the states.
    pub fn each_round<const N: usize>(self, states: &mut [State; N], key: State)
        ensures { states.new ≡ each_round_by self.entry.words.now D states.old key }
    {
        for s in states {
            *s = self.round(*s, key);
        }
    }

    // A round on `s`. It goes through the columns one by one: each is read once, and the compiler then keeps two states at a time in registers.
    pub fn round(self, s: State, key: State) -> State
        ensures { result ≡ round_by self.entry.words.now D s key }
    {
        let x = self.turned(key, s.c0);
        let y = self.turned(x, s.c1);
        let z = self.turned(y, s.c2);
        self.turned(z, s.c3)
    }

    // `x` with what the column `a` adds to it: ShiftRows takes row r of `a` to the r-th column before its own, which comes first here. What comes
    // back is turned by one column, so the next column's own comes first again.
    fn turned(self, x: State, a: u32) -> State
        ensures { result ≡ turned_by self.entry.words.now D x a }
    {
        State {
            c0: x.c1 ^ self.row(3, a),
            c1: x.c2 ^ self.row(2, a),
            c2: x.c3 ^ self.row(1, a),
            c3: x.c0 ^ self.row(0, a),
        }
    }

    // What the byte in row r of the column `a` adds to the column where it goes.
    pub fn row(self, r: u32, a: u32) -> u32
        requires { r < 4 }
        ensures { result ≡ row_by self.entry.words.now D r a }
    {
        let b = (a >> (24 - 8 * r)) % 256;
        ((self.entry(b as u8) >> (8 * r)) % 0x1_0000_0000) as u32
    }

    // An entry as one number, of which the compiler reads a row as one word.
    fn entry(self, x: u8) -> u64
        ensures { result ≡ entry self.entry.words.now D x }
    {
        let at = D * x as usize;
        joined(self.words[at], self.words[at + 1])
    }
}

// Two words as one number.
fn joined(low: u32, high: u32) -> u64
    ensures { result ≡ high * 2 ^ 32 + low }
{
    u64::from(high) << 32 | u64::from(low)
}
