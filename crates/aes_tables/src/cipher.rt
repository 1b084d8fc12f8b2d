// The cipher on one block, and on several at a time.
ghost use Rattle.std.specs.Prelude.{◌≡◌, List, ℕ, ◌-◌, ◌≤◌, ◌<◌, map};
ghost use Rattle.aes.specs.Cipher.{round_key, last_round_of, rounds, cipher};
ghost use Rattle.aes.specs.Columns.{block};

use crate::Tables;
use aes::{RoundKeys, State};

// The cipher under `keys`, whatever words they are: what aes::encrypt_block answers.
pub fn encrypt_block(keys: &RoundKeys, s: State) -> State
    ensures { block result ≡ cipher keys.now.words.now keys.now.rounds (block s) }
{
    let [block] = finish(Tables::new(), keys, 1, [s.added(keys.at(0))]);
    block
}

// The rest of the cipher from round `from` on, on each of the states that stand before it.
pub(crate) fn finish<const N: usize>(
    t: Tables,
    keys: &RoundKeys,
    from: usize,
    before: [State; N],
) -> [State; N]
    requires { (0 < from) × (from ≤ keys.now.rounds) }
    ensures { (zs : List (List ℕ)) → map block before.entry ≡ map (rounds keys.now.words.now (from - 1)) zs → map block result ≡ map (λ z. last_round_of (rounds keys.now.words.now (keys.now.rounds - 1) z) (round_key keys.now.words.now keys.now.rounds)) zs }
{
    let mut states = before;
    for i in from..keys.rounds {
        t.round(&mut states, keys.at(i));
    }
    t.last_round(&mut states, keys.at(keys.rounds));
    states
}
