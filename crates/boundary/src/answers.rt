// How a call ends as C sees it: a number, and a value where there is one.
ghost use Rattle.std.specs.Prelude.{[], ◌∷◌, ◌≡◌, get_or};
ghost use Rattle.boundary.specs.State.{words};
ghost use Rattle.boundary.specs.Answers.{number_in, optional_of, Converts};

use super::state::report;
use metered::Outcome;
use refusal::Refusal;

// Writes how a call ends that draws and answers one value: the generator afterwards, the words read, and the value or 0. Answers the number.
pub fn store_drawn<T: Copy + Into<u64>>(
    drawn: Outcome<T>,
    state: &mut [u64; 4],
    out: &mut [u64; 2],
) -> u32
    ensures number { result ≡ number_in drawn.answer }
    ensures state { state.new ≡ words drawn.rng }
    ensures out { out.new ≡ drawn.words ∷ get_or out.new 1 0 ∷ [] }
    ensures value { Converts T.converts drawn.answer (get_or out.new 1 0) }
{
    let (number, value) = match drawn.answer {
        Ok(value) => (0, value.into()),
        Err(why) => (why.number(), 0),
    };
    report(drawn.rng, drawn.words, value, state, out);
    number
}

// The number of an answer that may have no value, and 1 and the value, or 0 and 0 if there is none.
pub fn optional(answer: Result<Option<u32>, Refusal>) -> (u32, [u64; 2])
    ensures { (result.0 ≡ number_in answer) × (result.1 ≡ optional_of answer) }
{
    match answer {
        Ok(Some(value)) => (0, [1, u64::from(value)]),
        Ok(None) => (0, [0, 0]),
        Err(why) => (why.number(), [0, 0]),
    }
}
