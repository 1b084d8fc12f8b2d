// The settings that set-up lists, and a session from master key and master salt.
ghost use Rattle.std.specs.Prelude.{◌≡◌, ◌≤◌, length};
ghost use Rattle.session.specs.SetUps.{given, tag_listed, lengths_listed, settings_listed, listed, session_of, no_keys, closed_session};

use crate::{Profile, Session, SetUp, Settings};
use transforms::{Cipher, Integrity, SessionKeys};

// ---- the list

impl Profile {
    // A media tag of 4 or 10 bytes; under RFC 4771 one of 14, at a rate from 1 on.
    fn tag_listed(self) -> bool
        ensures { result ≡ tag_listed self.integrity self.tag_len }
    {
        match self.integrity {
            Integrity::HmacSha1 => {
                self.tag_len == Profile::SHORT_TAG_LEN || self.tag_len == Profile::TAG_LEN
            }
            Integrity::Rccm2(rate) => rate != 0 && self.tag_len == Profile::RCC_TAG_LEN,
        }
    }

    // An MKI of 0 to 4 bytes, and such a tag.
    fn lengths_listed(self, mki_len: usize) -> bool
        ensures { result ≡ lengths_listed mki_len self }
    {
        mki_len <= Profile::MAX_MKI_LEN && self.tag_listed()
    }
}

impl Settings {
    // Whether the settings are on the list of set-up, which every call asks of the context that it is given.
    pub fn listed(self) -> bool
        ensures { result ≡ settings_listed self }
    {
        self.profile.lengths_listed(self.mki_len)
    }
}

impl SetUp<'_> {
    // Whether what set-up is given is on its list.
    #[tactic(auto, unfolding(crate::specs::SetUps::listed))]
    pub fn listed(self) -> bool
        ensures { result ≡ listed (given self.entry) }
    {
        self.master_key.len() == Profile::MASTER_KEY_LEN
            && self.master_salt.len() == Profile::MASTER_SALT_LEN
            && self.profile.lengths_listed(self.mki.len())
    }
}

// ---- sessions

// Keys of zeros: they are never used.
fn no_keys() -> SessionKeys
    ensures { result ≡ no_keys }
{
    let zero = hmac_sha1::State {
        a: 0,
        b: 0,
        c: 0,
        d: 0,
        e: 0,
    };
    SessionKeys {
        round: [0; 44],
        tag: hmac_sha1::HmacKey {
            inner: zero,
            outer: zero,
        },
        salt: [0; SessionKeys::SALT_LEN],
    }
}

impl Session {
    // The session of the closed contexts: row 1 of the table of refusals stops every call on it.
    pub fn closed() -> Self
        ensures { result ≡ closed_session }
    {
        Session {
            settings: Settings {
                profile: Profile {
                    cipher: Cipher::Null,
                    integrity: Integrity::HmacSha1,
                    tag_len: 0,
                },
                ssrc: 0,
                mki: [0; Profile::MAX_MKI_LEN],
                mki_len: 0,
            },
            media: no_keys(),
            control: no_keys(),
        }
    }

    // The session of a set-up with listed lengths: its settings, and the session keys of media and of control.
    #[tactic(auto, unfolding(crate::specs::SetUps::session_of))]
    pub fn derived(set_up: SetUp<'_>) -> Session
        requires { (length set_up.master_key.now ≡ 16) × (length set_up.master_salt.now ≡ 14) × (length set_up.mki.now ≤ 4) }
        ensures { result ≡ session_of (given set_up.entry) }
    {
        let mut key = [0u8; Profile::MASTER_KEY_LEN];
        key.copy_from_slice(set_up.master_key);
        let mut salt = [0u8; Profile::MASTER_SALT_LEN];
        salt.copy_from_slice(set_up.master_salt);
        let mut mki = [0u8; Profile::MAX_MKI_LEN];
        octets::copy_over(set_up.mki, &mut mki);
        Session {
            settings: Settings {
                profile: set_up.profile,
                ssrc: set_up.ssrc,
                mki,
                mki_len: set_up.mki.len(),
            },
            media: SessionKeys::derive(SessionKeys::MEDIA_LABEL, key, salt),
            control: SessionKeys::derive(SessionKeys::CONTROL_LABEL, key, salt),
        }
    }
}
