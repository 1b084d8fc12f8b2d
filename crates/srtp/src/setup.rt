// Set-up of senders and receivers, and the closed context that a bad set-up answers.
ghost use Rattle.std.specs.Prelude.{◌≡◌};
ghost use Rattle.session.specs.SetUps.{given};
ghost use Rattle.srtp.specs.Outcomes.{SenderSetUpShows, ReceiverSetUpShows};
ghost use Rattle.srtp.specs.Contexts.{closed_sender, closed_receiver, start_highest, set_up_sender, set_up_receiver};

use crate::{Made, Receiver, Refusal, Sender};
use replay::index::{ControlSender, MediaSender};
use replay::window::Window;
use session::{Session, SetUp};

// ---- closed

impl Sender {
    // The sender that a bad set-up answers. Every call on it is refused.
    #[tactic(auto, unfolding(crate::specs::Contexts::closed_sender))]
    pub fn closed() -> Self
        ensures { result ≡ closed_sender }
    {
        Sender {
            session: Session::closed(),
            media: MediaSender::new(),
            control: ControlSender::new(),
        }
    }
}

impl Receiver {
    // The receiver that a bad set-up answers. Every call on it is refused.
    #[tactic(auto, unfolding(crate::specs::Contexts::closed_receiver))]
    pub fn closed() -> Self
        ensures { result ≡ closed_receiver }
    {
        Receiver {
            session: Session::closed(),
            rollover: 0,
            media: Window::empty(),
            control: Window::empty(),
        }
    }
}

// ---- set-up

impl Sender {
    // A sender under this master key and master salt, with rollover counter 0 and nothing sent. Values off the list are refused.
    // No two senders may be set up with one master key, master salt and SSRC, nor an old context be used again: both repeat keystream.
    #[tactic(auto, unfolding(crate::specs::Contexts::set_up_sender, session::specs::SetUps::listed))]
    pub fn set_up(set_up: SetUp<'_>) -> Made<Sender>
        ensures { SenderSetUpShows (set_up_sender (given set_up.entry)) result }
    {
        if !set_up.listed() {
            return Made {
                answer: Err(Refusal::Setup),
                context: Sender::closed(),
            };
        }
        Made {
            answer: Ok(()),
            context: Sender {
                session: Session::derived(set_up),
                media: MediaSender::new(),
                control: ControlSender::new(),
            },
        }
    }
}

// The highest index that set-up gives, if the last sequence number is known.
fn start_highest(rollover: u32, number: Option<u16>) -> Option<u64>
    ensures { result ≡ start_highest rollover number }
{
    number.map(|last| replay::index::index_of(rollover, last))
}

impl Receiver {
    // A receiver under this master key and master salt, at a rollover counter and, if it is known, a last sequence number.
    // Values off the list are refused.
    #[tactic(auto, unfolding(crate::specs::Contexts::set_up_receiver, session::specs::SetUps::listed))]
    pub fn set_up(set_up: SetUp<'_>, rollover: u32, number: Option<u16>) -> Made<Receiver>
        ensures { ReceiverSetUpShows (set_up_receiver (given set_up.entry) rollover number) result }
    {
        if !set_up.listed() {
            return Made {
                answer: Err(Refusal::Setup),
                context: Receiver::closed(),
            };
        }
        Made {
            answer: Ok(()),
            context: Receiver {
                session: Session::derived(set_up),
                rollover,
                media: Window::starting(start_highest(rollover, number)),
                control: Window::empty(),
            },
        }
    }
}
