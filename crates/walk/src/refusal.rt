// Why a pass is refused.
ghost use Rattle.std.specs.Prelude.{◌≡◌};
ghost use Rattle.words.specs.Numbers.{place};
ghost use Rattle.walk.specs.Refused.{why_of, refusal};

use super::Halted;
use words::Refusal;

// With the place of the token where there is one.
#[derive(Clone, Copy)]
pub enum Why {
    Unparseable(u32),
    TooShort(u32),
    Misfit,
    NoFrame,
    NoEntry,
}

impl Why {
    ghost use Rattle.std.specs.Prelude.{Err};
    ghost use Rattle.words.specs.Numbers.{number};
    ghost use Rattle.walk.specs.Code.{answer_of};

    // What a walk is refused with after so many passes.
    pub(super) fn halted(self, passes: u32) -> Halted
        ensures { answer_of (Err result) ≡ record { number = number (why_of self); place = place (why_of self); length = 0; passes = passes } }
    {
        Halted {
            why: self.into(),
            place: self.place(),
            passes,
        }
    }

    fn place(self) -> u32
        ensures { result ≡ place (why_of self) }
    {
        match self {
            Why::Unparseable(p) | Why::TooShort(p) => p,
            Why::Misfit | Why::NoFrame | Why::NoEntry => 0,
        }
    }
}

// The refusal that is given back for it.
impl From<Why> for Refusal {
    ghost use Rattle.words.specs.Code.{code};
    ghost use Rattle.words.specs.Numbers.{number};

    ghost from_gives = { λ y r. code r ≡ number (why_of y) };

    #[tactic(auto, unfolding(words::specs::Numbers::number))]
    fn from(y: Why) -> Refusal {
        match y {
            Why::Unparseable(_) => Refusal::Unparseable,
            Why::TooShort(_) => Refusal::TooShort,
            Why::Misfit => Refusal::Misfit,
            Why::NoFrame => Refusal::NoFrame,
            Why::NoEntry => Refusal::NoRoom,
        }
    }
}

impl From<formula::Unfit> for Why {
    ghost from_gives = { λ u y. y ≡ refusal u };

    fn from(u: formula::Unfit) -> Why {
        match u {
            formula::Unfit::TooFew => Why::Misfit,
            formula::Unfit::Full => Why::NoEntry,
        }
    }
}
