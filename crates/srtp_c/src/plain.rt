// Plain structs and the values of `srtp` that they stand for. Two cases of an enum are the numbers 0 and 1; a context with another
// number stands for the closed one, on which every call is refused.
ghost use Rattle.std.specs.Prelude.{◌≡◌, cond, ◌&&◌, eqb, None, Some, Ok, Err};
ghost use Rattle.srtp.specs.Refusals.{number_of};
ghost use Rattle.srtp.specs.declared.Refusal.TheVariants.{Setup};
ghost use Rattle.srtp_c.specs.Plain.{two_cased, cipher_of, cipher_number, integrity_of, integrity_number, integrity_rate, mark_of};
ghost use Rattle.srtp_c.specs.Plain.{profile_named, profile_of, plain_profile, session_of, plain_session};
ghost use Rattle.srtp_c.specs.Plain.{sender_named, sender_of, plain_sender};
ghost use Rattle.srtp_c.specs.Plain.{window_of, plain_window, receiver_named, receiver_of, plain_receiver};

use crate::{Profile, Receiver, Sender, Session, Window};
use replay::index::{ControlSender, MediaSender};
use srtp::Refusal;
use transforms::{Cipher, Integrity};

// ---- numbers of enums, and marks of what may be absent. (No type of these is this crate's, so they can't be `From`.)

// Whether `n` is a number of an enum of two cases.
pub(crate) fn two_cased(n: u32) -> bool
    ensures { result ≡ two_cased n }
{
    n <= 1
}

fn cipher_of(n: u32) -> Cipher
    ensures { result ≡ cipher_of n }
{
    if n == 1 { Cipher::Aes } else { Cipher::Null }
}

fn cipher_number(cipher: Cipher) -> u32
    ensures { result ≡ cipher_number cipher }
{
    match cipher {
        Cipher::Null => 0,
        Cipher::Aes => 1,
    }
}

fn integrity_of(n: u32, rate: u16) -> Integrity
    ensures { result ≡ integrity_of n rate }
{
    if n == 1 {
        Integrity::Rccm2(rate)
    } else {
        Integrity::HmacSha1
    }
}

fn integrity_number(integrity: Integrity) -> u32
    ensures { result ≡ integrity_number integrity }
{
    match integrity {
        Integrity::HmacSha1 => 0,
        Integrity::Rccm2(_) => 1,
    }
}

fn integrity_rate(integrity: Integrity) -> u16
    ensures { result ≡ integrity_rate integrity }
{
    match integrity {
        Integrity::HmacSha1 => 0,
        Integrity::Rccm2(rate) => rate,
    }
}

// What stands beside a mark: there is something where the mark is 1.
pub(crate) fn marked<T: Copy>(mark: u32, value: T) -> Option<T>
    ensures { result ≡ cond (eqb mark 1) (Some value) None }
{
    if mark == 1 { Some(value) } else { None }
}

fn mark_of(index: Option<u64>) -> u32
    ensures { result ≡ mark_of index }
{
    u32::from(index.is_some())
}

// The number of a refusal, by the table of refusals.
pub(crate) fn number_of(refusal: Refusal) -> u32
    ensures { result ≡ number_of refusal }
{
    u8::from(refusal) as u32
}

// ---- profiles and sessions

impl Profile {
    // Whether each number of an enum is one.
    pub(crate) fn named(self) -> bool
        ensures { result ≡ profile_named self }
    {
        two_cased(self.cipher) && two_cased(self.integrity)
    }
}

impl From<Profile> for session::Profile {
    ghost from_gives = { λ p r. r ≡ profile_of p };

    fn from(profile: Profile) -> session::Profile {
        session::Profile {
            cipher: cipher_of(profile.cipher),
            integrity: integrity_of(profile.integrity, profile.rate),
            tag_len: profile.tag_len,
        }
    }
}

impl From<session::Profile> for Profile {
    ghost from_gives = { λ p r. r ≡ plain_profile p };

    fn from(profile: session::Profile) -> Profile {
        Profile {
            cipher: cipher_number(profile.cipher),
            integrity: integrity_number(profile.integrity),
            rate: integrity_rate(profile.integrity),
            tag_len: profile.tag_len,
        }
    }
}

impl From<Session> for session::Session {
    ghost from_gives = { λ s r. r ≡ session_of s };

    fn from(session: Session) -> session::Session {
        let mki = session.mki;
        session::Session {
            settings: session::Settings {
                profile: session::Profile::from(session.profile),
                ssrc: session.ssrc,
                mki,
                mki_len: session.mki_len,
            },
            media: session.media,
            control: session.control,
        }
    }
}

impl From<session::Session> for Session {
    ghost from_gives = { λ s r. r ≡ plain_session s };

    fn from(session: session::Session) -> Session {
        let settings = session.settings;
        let mki = settings.mki;
        Session {
            profile: Profile::from(settings.profile),
            ssrc: settings.ssrc,
            mki,
            mki_len: settings.mki_len,
            media: session.media,
            control: session.control,
        }
    }
}

// ---- contexts. One with a number that no enum has is none: every call on it is SETUP.

impl From<Window> for replay::window::Window {
    ghost from_gives = { λ w r. r ≡ window_of w };

    fn from(plain: Window) -> replay::window::Window {
        let words = plain.words;
        replay::window::Window {
            highest: marked(plain.has_highest, plain.highest),
            words,
        }
    }
}

impl From<replay::window::Window> for Window {
    ghost from_gives = { λ w r. r ≡ plain_window w };

    fn from(window: replay::window::Window) -> Window {
        let words = window.words;
        Window {
            has_highest: mark_of(window.highest),
            highest: window.highest.unwrap_or(0),
            words,
        }
    }
}

impl TryFrom<Sender> for srtp::Sender {
    type Error = Refusal;

    ghost try_from_gives = { λ c r. r ≡ cond (sender_named c) (Ok (sender_of c)) (Err Setup) };

    #[tactic(auto, unfolding(crate::specs::Plain::sender_of))]
    fn try_from(sender: Sender) -> Result<srtp::Sender, Refusal> {
        if !(sender.session.profile.named() && two_cased(sender.has_last)) {
            return Err(Refusal::Setup);
        }
        Ok(srtp::Sender {
            session: session::Session::from(sender.session),
            media: MediaSender {
                last: marked(sender.has_last, sender.last_index),
            },
            control: ControlSender {
                sent: sender.control_sent,
            },
        })
    }
}

impl From<srtp::Sender> for Sender {
    ghost from_gives = { λ c r. r ≡ plain_sender c };

    #[tactic(auto, unfolding(crate::specs::Plain::plain_sender))]
    fn from(sender: srtp::Sender) -> Sender {
        Sender {
            session: Session::from(sender.session),
            has_last: mark_of(sender.media.last),
            last_index: sender.media.last.unwrap_or(0),
            control_sent: sender.control.sent,
        }
    }
}

impl TryFrom<Receiver> for srtp::Receiver {
    type Error = Refusal;

    ghost try_from_gives = { λ c r. r ≡ cond (receiver_named c) (Ok (receiver_of c)) (Err Setup) };

    #[tactic(auto, unfolding(crate::specs::Plain::receiver_of))]
    fn try_from(receiver: Receiver) -> Result<srtp::Receiver, Refusal> {
        let windows_named = two_cased(receiver.media.has_highest)
            && two_cased(receiver.control.has_highest);
        if !(receiver.session.profile.named() && windows_named) {
            return Err(Refusal::Setup);
        }
        Ok(srtp::Receiver {
            session: session::Session::from(receiver.session),
            rollover: receiver.rollover,
            media: replay::window::Window::from(receiver.media),
            control: replay::window::Window::from(receiver.control),
        })
    }
}

impl From<srtp::Receiver> for Receiver {
    ghost from_gives = { λ c r. r ≡ plain_receiver c };

    #[tactic(auto, unfolding(crate::specs::Plain::plain_receiver))]
    fn from(receiver: srtp::Receiver) -> Receiver {
        Receiver {
            session: Session::from(receiver.session),
            rollover: receiver.rollover,
            media: Window::from(receiver.media),
            control: Window::from(receiver.control),
        }
    }
}
