// The replay window (RFC 3711, 3.3.2): which of the last 1,024 indices up to the highest were accepted. Media and control have one each.
ghost use Rattle.std.specs.Prelude.{◌≡◌};
ghost use Rattle.replay.specs.Window.{window_length, window_start, window_verdict, window_mark, window_marked};

use crate::row;
use crate::row::WORDS;

// Why a receiver takes no packet at an index: too far behind the highest (refused as OLD), or accepted already (refused as REPEAT).
#[derive(Clone, Copy, Debug, PartialEq, Eq)]
pub enum Replayed {
    Old,
    Repeat,
}

// The highest index, which is the largest that was accepted or given at set-up, if there is one; bit k of the row tells whether the index
// k below it was accepted. Without a highest index the bits say nothing.
#[derive(Clone, Copy)]
pub struct Window {
    pub highest: Option<u64>,
    pub words: [u64; WORDS],
}

// The verdict on an index, and beside it the window with the index accepted.
#[derive(Clone, Copy)]
pub struct Marked {
    pub verdict: Result<(), Replayed>,
    pub next: Window,
}

impl Window {
    // How many indices the window covers: the highest and those at most 1,023 below it.
    pub const LENGTH: u64 = 1024;

    // No highest index and nothing accepted.
    pub fn empty() -> Self
        ensures { result ≡ window_start None }
    {
        Window::starting(None)
    }

    // The highest index that set-up gives, with nothing accepted yet.
    pub fn starting(highest: Option<u64>) -> Self
        ensures { result ≡ window_start highest }
    {
        Window {
            highest,
            words: [0; WORDS],
        }
    }

    // Whether this index is new to the receiver.
    pub fn verdict(self, index: u64) -> Result<(), Replayed>
        ensures { result ≡ window_verdict window_length self index }
    {
        let Some(h) = self.highest else {
            return Ok(());
        };
        if h < index {
            return Ok(());
        }
        let back = h - index;
        if back >= Window::LENGTH {
            return Err(Replayed::Old);
        }
        if row::has_bit(self.words, back) {
            return Err(Replayed::Repeat);
        }
        Ok(())
    }

    // The window with this index accepted.
    fn accepting(self, index: u64) -> Window
        ensures { result ≡ window_mark window_length self index }
    {
        let Some(h) = self.highest else {
            return Window {
                highest: Some(index),
                words: row::one(),
            };
        };
        if h < index {
            let rise = index - h;
            let is_far = rise >= Window::LENGTH;
            if is_far {
                return Window {
                    highest: Some(index),
                    words: row::one(),
                };
            }
            let risen = row::shifted(self.words, rise);
            return Window {
                highest: Some(index),
                words: row::with_bit(risen, 0),
            };
        }
        let back = h - index;
        if back >= Window::LENGTH {
            return self;
        }
        Window {
            highest: Some(h),
            words: row::with_bit(self.words, back),
        }
    }

    // The verdict on this index, and the window with it accepted: the receiver takes that over only once the packet's tag is right.
    pub fn mark(self, index: u64) -> Marked
        ensures { result ≡ window_marked window_length self index }
    {
        Marked {
            verdict: self.verdict(index),
            next: self.accepting(index),
        }
    }
}
