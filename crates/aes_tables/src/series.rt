// Blocks that differ in their last byte alone, two at a time. Rounds 1 and 2 are worked out for all of them but for five entries of the table.
ghost use Rattle.std.specs.Prelude.{◌≡◌, List, ℕ, ◌+◌, ◌*◌, ◌%◌, ◌^◌, ◌≤◌, ◌<◌, get_or, map};
ghost use Rattle.aes.specs.Cipher.{add_round_key, round_key, rounds, cipher};
ghost use Rattle.aes.specs.Columns.{block};
ghost use Rattle.aes_tables.specs.Series.{ending, spread_by, front_by, after_two, FrontOf};
ghost use Rattle.std.specs.List.{range_with_len};
ghost use Rattle.std.specs.Int.Bits.{bit_xor};

use crate::cipher::finish;
use crate::rounds::Table;
use crate::{Front, Tables};
use aes::{RoundKeys, State};

// The front of `s` and of the blocks that differ from it in their last byte alone.
pub fn front_of(t: Tables, keys: &RoundKeys, s: State) -> Front
    requires { 2 ≤ keys.now.rounds }
    ensures { FrontOf t.entry.words.now keys.now.words.now s result }
{
    front_behind(t.mixed(), s.added(keys.at(0)), keys.at(1), keys.at(2))
}

// The same of the state `x` that stands before round 1, with the keys of rounds 1 and 2.
fn front_behind(t: Table<2>, x: State, k: State, m: State) -> Front
    ensures { result ≡ front_by t.entry.words.now x k m }
{
    let y = t.round(x, k);
    let z = t.round(y, m);
    Front {
        first: y.c0 ^ t.row(3, x.c3),
        rest: z.added(spread(t, y.c0)),
    }
}

// What the first column `y` of a state adds to the columns of a round.
fn spread(t: Table<2>, y: u32) -> State
    ensures { result ≡ spread_by t.entry.words.now y }
{
    State {
        c0: t.row(0, y),
        c1: t.row(3, y),
        c2: t.row(2, y),
        c3: t.row(1, y),
    }
}

// A block, and with it those that differ from it in their last byte alone, under round keys; and its front.
#[derive(Clone, Copy)]
pub struct Series<'a> {
    pub tables: Tables<'a>,
    pub keys: RoundKeys<'a>,
    pub first: State,
    pub front: Front,
    pub ghost front_of: { FrontOf tables.words.now keys.words.now first front },
    pub ghost rounds_behind: { 2 < keys.rounds },
    pub ghost from_zero: { first.c3 % 2 ^ 8 ≡ 0 },
    pub ghost in_word: { first.c3 + 2 ^ 8 ≤ 2 ^ 32 },
}

impl<'a> Series<'a> {
    pub fn new(keys: RoundKeys<'a>, first: State) -> Series<'a>
        requires { (2 < keys.rounds) × (first.c3 % 2 ^ 8 ≡ 0) }
        ensures words { result.keys.words.now ≡ keys.entry.words.now }
        ensures rounds { result.keys.rounds ≡ keys.entry.rounds }
        ensures first { result.first ≡ first }
    {
        let tables = Tables::new();
        let front = front_of(tables, &keys, first);
        Series {
            tables,
            keys,
            first,
            front,
        }
    }

    // The cipher on the `N` blocks with `j`, j + 1, .. as their last bytes. (`array::from_fn` would want a closure with a contract of its own.)
    pub fn blocks<const N: usize>(&self, j: u32) -> [State; N]
        requires { j + N ≤ 256 }
        ensures { map block result ≡ map (λ i. cipher self.now.keys.words.now self.now.keys.rounds (block (ending self.now.first (self.now.first.c3 + i)))) (range_with_len j N) }
    {
        let mut states = [self.first; N];
        for i in 0..N {
            states[i] = self.behind_two(self.first.c3 + (j + i as u32));
        }
        finish(self.tables, &self.keys, 3, states)
    }

    // The state behind round 2 of the block whose last word is `x`.
    fn behind_two(&self, x: u32) -> State
        ensures { result ≡ after_two self.now.tables.words.now self.now.front (bit_xor x (get_or self.now.keys.words.now 3 0)) }
    {
        let t = self.tables.mixed();
        let last = x ^ self.keys.words[3];
        self.front
            .rest
            .added(spread(t, self.front.first ^ t.row(3, last)))
    }
}
