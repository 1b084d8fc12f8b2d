// Ops 1 and 2: tag length (1 byte), cipher (1), SSRC (4), then master key, master salt and MKI, each as length (1) and bytes; for a
// receiver then rollover counter (4), known (1: 0 or 1) and last sequence number (2). Behind that stand settings: id (1), length (1), value.
// Id 1, of length 2, is the rate of RFC 4771's integrity transform, and selects it; without it the transform is RFC 3711's.
ghost use Rattle.std.specs.Prelude.{◌≡◌, ◌+◌, ◌≤◌, ℕ, List, length, option_map};
ghost use Rattle.session.specs.SetUps.{given};
ghost use Rattle.trace_records.specs.Layouts.{string_end as end_of, layout_of, Placed, cipher_named, set_up_of, settings_from, rollover_of, known_at, last_number, byte_at};
ghost use Rattle.trace_records.specs.Records.{sender_of, receiver_of, sender_set_up, receiver_set_up, Makes};

use crate::{Called, Contexts, Head};
use session::{Profile, SetUp};
use srtp::{Made, Receiver, Refusal, Sender};
use transforms::{Cipher, Integrity};

// Where the length bytes of master salt and MKI stand, and where the layout of a sender's set-up ends. Body and
// layout stay two: how far the body has to reach differs by op, so each method would ask for that beside a struct of both.
#[derive(Clone, Copy)]
pub struct Layout {
    pub salt_at: usize,
    pub mki_at: usize,
    pub end: usize,
}

// The length byte of the master key.
const KEY_AT: usize = 6;

// The setting that is the rate of RFC 4771's integrity transform.
const RATE_ID: u8 = 1;

const RATE_LEN: u8 = 2;

// The cipher of a set-up's second byte. (No `TryFrom`: neither type is this crate's, and the numbers are the format's.)
fn cipher_named(number: u8) -> Option<Cipher>
    ensures { result ≡ cipher_named number }
{
    match number {
        0 => Some(Cipher::Null),
        1 => Some(Cipher::Aes),
        _ => None,
    }
}

// Where a string ends whose length byte stands at `at`. A byte past the end reads as 0.
fn string_end(body: &[u8], at: usize) -> usize
    requires { at ≤ 1000 }
    ensures { (result ≡ end_of at body.now) × (result ≤ at + 256) }
{
    let len = body.get(at).copied().unwrap_or(0);
    at + 1 + usize::from(len)
}

// What the settings from `at` on select: there are none, or the one that is known. None if they are others, or `at` is past the end.
fn settings_at(body: &[u8], at: usize) -> Option<Integrity>
    ensures { result ≡ settings_from at body.now }
{
    let settings = body.get(at..)?;
    match settings {
        [] => Some(Integrity::HmacSha1),
        [RATE_ID, RATE_LEN, _, _] => Some(Integrity::Rccm2(octets::load(settings, 2))),
        _ => None,
    }
}

// The last sequence number: `at` is the place of `known`.
fn last_number(body: &[u8], at: usize) -> Option<u16>
    requires { at + 3 ≤ length body.now }
    ensures { result ≡ last_number at body.now }
{
    if body[at] == 0 {
        return None;
    }
    Some(octets::load(body, at + 1))
}

impl Layout {
    // The places of a set-up's parts.
    #[tactic(auto, unfolding(crate::specs::Layouts::layout_of))]
    fn of(body: &[u8]) -> Layout
        ensures { Placed result body.now }
    {
        let salt_at = string_end(body, KEY_AT);
        let mki_at = string_end(body, salt_at);
        let end = string_end(body, mki_at);
        Layout {
            salt_at,
            mki_at,
            end,
        }
    }

    // What stands in these places, if the cipher is known.
    #[tactic(auto, unfolding(crate::specs::Layouts::layout_of, crate::specs::Layouts::set_up_of))]
    fn set_up<'a>(self, body: &'a [u8], integrity: Integrity) -> Option<SetUp<'a>>
        requires { Placed self body.now × (self.end ≤ length body.now) }
        ensures { option_map given result ≡ option_map (λ cipher. set_up_of cipher integrity body.now) (cipher_named (byte_at 1 body.now)) }
    {
        let cipher = cipher_named(body[1])?;
        Some(SetUp {
            ssrc: octets::load(body, 2),
            master_key: &body[KEY_AT + 1..self.salt_at],
            master_salt: &body[self.salt_at + 1..self.mki_at],
            mki: &body[self.mki_at + 1..self.end],
            profile: Profile {
                cipher,
                integrity,
                tag_len: usize::from(body[0]),
            },
        })
    }

    // Sets up a sender under what stands in these places. A cipher that is not known is refused.
    #[tactic(auto, unfolding(crate::specs::Records::sender_of))]
    fn sender(self, body: &[u8], integrity: Integrity) -> Made<Sender>
        requires { Placed self body.now × (self.end ≤ length body.now) }
        ensures { result ≡ sender_of (cipher_named (byte_at 1 body.now)) integrity body.now }
    {
        match self.set_up(body, integrity) {
            Some(set_up) => Sender::set_up(set_up),
            None => Made {
                answer: Err(Refusal::Setup),
                context: Sender::closed(),
            },
        }
    }

    // The same of a receiver, whose last fields stand behind these places.
    #[tactic(auto, unfolding(crate::specs::Records::receiver_of))]
    fn receiver(self, body: &[u8], integrity: Integrity) -> Made<Receiver>
        requires { Placed self body.now × (self.end + 7 ≤ length body.now) }
        ensures { result ≡ receiver_of (cipher_named (byte_at 1 body.now)) integrity body.now (rollover_of body.now) (last_number (known_at body.now) body.now) }
    {
        let rollover = octets::load(body, self.end);
        let number = last_number(body, self.end + 4);
        match self.set_up(body, integrity) {
            Some(set_up) => Receiver::set_up(set_up, rollover, number),
            None => Made {
                answer: Err(Refusal::Setup),
                context: Receiver::closed(),
            },
        }
    }
}

impl Contexts {
    // Op 1, if the body fits, with no buffer in the answer. A refused set-up leaves the closed sender, and the receiver as it was. (Op 2 has other
    // fields behind the strings, and changes the other context: what both read is `set_up`.)
    #[tactic(auto, unfolding(crate::specs::Layouts::sender_settings, crate::specs::Records::sender_under, crate::specs::Records::sender_set_up))]
    pub(crate) fn set_up_sender(self, body: &[u8]) -> Option<(Called, usize)>
        ensures { (op : ℕ) (buffer : List ℕ) → Makes (sender_set_up self op body.now) op self buffer result buffer }
    {
        let layout = Layout::of(body);
        let integrity = settings_at(body, layout.end)?;
        let made = layout.sender(body, integrity);
        let called = Called {
            head: Head::from(made.answer),
            next: Contexts {
                sender: made.context,
                ..self
            },
        };
        Some((called, 0))
    }

    // Op 2, in the same way.
    #[tactic(auto, unfolding(crate::specs::Layouts::receiver_settings, crate::specs::Records::receiver_under, crate::specs::Records::receiver_set_up))]
    pub(crate) fn set_up_receiver(self, body: &[u8]) -> Option<(Called, usize)>
        ensures { (op : ℕ) (buffer : List ℕ) → Makes (receiver_set_up self op body.now) op self buffer result buffer }
    {
        let layout = Layout::of(body);
        let end = layout.end;
        let integrity = settings_at(body, end + 7)?;
        let is_flag = body[end + 4] <= 1;
        if !is_flag {
            return None;
        }
        let made = layout.receiver(body, integrity);
        let called = Called {
            head: Head::from(made.answer),
            next: Contexts {
                receiver: made.context,
                ..self
            },
        };
        Some((called, 0))
    }
}
