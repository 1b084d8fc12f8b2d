// How many answers there were, and of which kind.
ghost use Rattle.std.specs.Prelude.{◌≡◌, Some};
ghost use Rattle.tell.specs.Sums.{none, counted};
ghost use Rattle.tell.specs.Texts.{sum_text};

use crate::reading::Told;
use std::fmt;

// The counts stay at their top, so that they never wrap. No run gets there.
#[derive(Clone, Copy)]
pub struct Sum {
    pub answers: u64,
    pub sent: u64,
    pub accepted: u64,
    pub refused: u64,
}

impl Sum {
    pub fn none() -> Sum
        ensures { result ≡ none }
    {
        Sum {
            answers: 0,
            sent: 0,
            accepted: 0,
            refused: 0,
        }
    }

    // The counts with one answer more.
    #[tactic(auto, unfolding(crate::specs::Sums::counted))]
    pub fn with(self, told: Told) -> Sum
        ensures { result ≡ counted self told }
    {
        let mut sum = self;
        sum.answers = self.answers.saturating_add(1);
        match told {
            Told::Sent { .. } => sum.sent = self.sent.saturating_add(1),
            Told::Accepted { .. } => sum.accepted = self.accepted.saturating_add(1),
            Told::Refused(_) => sum.refused = self.refused.saturating_add(1),
            Told::Ready | Told::Misfit | Told::Unknown => (),
        }
        sum
    }
}

impl fmt::Display for Sum {
    ghost output = { λ s. Some (sum_text s) };

    fn fmt<W: fmt::Write>(&self, f: &mut fmt::Formatter<W>) -> fmt::Result {
        let (answers, sent, accepted, refused) = (
            self.answers,
            self.sent,
            self.accepted,
            self.refused,
        );
        write!(
            f,
            "sum of {answers} answers: {sent} sent, {accepted} let in, {refused} refused"
        )
    }
}
