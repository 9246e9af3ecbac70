// A generator under a budget: what every call that draws takes, and what it answers.
#![tactic(auto)]

ghost use Rattle.std.specs.Prelude.{◌≡◌, Err};

use refusal::Refusal;
use xoshiro256plusplus::Xoshiro256PlusPlus;

// The generator, the words read so far, and the most that may be read. docs/SCOPE.md (19.6) wants steps by value: so a draw answers the source beside its value,
// each draw says that the budget is as it was, and no `?` ends a loop of draws. That no more words are read than the budget has is no fact of the type, since
// `random_range` asks it of no caller.
#[derive(Clone, Copy, Debug, PartialEq, Eq)]
pub struct Metered {
    pub rng: Xoshiro256PlusPlus,
    pub words: u64,
    pub budget: u64,
}

// How a public call that draws ends: its answer, the words read, and the generator after them.
#[derive(Clone, Copy, Debug, PartialEq, Eq)]
pub struct Outcome<T> {
    pub answer: Result<T, Refusal>,
    pub words: u64,
    pub rng: Xoshiro256PlusPlus,
}

impl Metered {
    // No word is read yet.
    pub fn new(rng: Xoshiro256PlusPlus, budget: u64) -> Self
        ensures { result ≡ record { rng = rng; words = 0; budget = budget } }
    {
        Metered {
            rng,
            words: 0,
            budget,
        }
    }

    // The call ends here with this answer.
    pub fn ends<T>(self, answer: Result<T, Refusal>) -> Outcome<T>
        ensures { result ≡ record { answer = answer; words = self.words; rng = self.rng } }
    {
        Outcome {
            answer,
            words: self.words,
            rng: self.rng,
        }
    }
}

impl<T> Outcome<T> {
    // A call that is declined before it reads a word.
    pub fn refused(why: Refusal, rng: Xoshiro256PlusPlus) -> Self
        ensures { result ≡ record { answer = Err why; words = 0; rng = rng } }
    {
        Outcome {
            answer: Err(why),
            words: 0,
            rng,
        }
    }
}
