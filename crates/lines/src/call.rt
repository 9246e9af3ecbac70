// The calls that a line can ask for.
ghost use Rattle.std.specs.Prelude.{◌≡◌, map};
ghost use Rattle.command_line.specs.Fields.{place_in};
ghost use Rattle.lines.specs.Calls.{place_named};
ghost use Rattle.lines.specs.Meaning.{Call as Row, calls};

use command_line::fields::place_in;

// The rows of the table of calls, in its order (`place_of`).
#[derive(Clone, Copy, Debug, PartialEq, Eq)]
pub enum Call {
    Seed,
    NextU64,
    NextU32,
    RandomRange,
    UniformInt,
    Sample,
    PartialShuffle,
    Shuffle,
    Tail,
    Head,
    SampleFill,
    IndexedSamples,
    Choose,
    ChooseStable,
    Pick,
    Weight,
    SampleStratified,
}

// The call of a name, if it is one.
#[tactic(auto, using(crate::proofs::CallsNamed::named_at))]
pub(crate) fn named(name: &[u8]) -> Option<Call>
    ensures { place_named result ≡ place_in name.now (map (λ (row : Row). row.name) calls) }
{
    // Tried, and not proved: a match on the bytes of the name. It asks for an answer at each byte where a name can be another one, 160 of them.
    let place = place_in(
        b"seed next_u64 next_u32 random_range uniform_int sample partial_shuffle shuffle tail head sample_fill indexed_samples choose choose_stable pick weight sample_stratified",
        name,
    );
    match place {
        0 => Some(Call::Seed),
        1 => Some(Call::NextU64),
        2 => Some(Call::NextU32),
        3 => Some(Call::RandomRange),
        4 => Some(Call::UniformInt),
        5 => Some(Call::Sample),
        6 => Some(Call::PartialShuffle),
        7 => Some(Call::Shuffle),
        8 => Some(Call::Tail),
        9 => Some(Call::Head),
        10 => Some(Call::SampleFill),
        11 => Some(Call::IndexedSamples),
        12 => Some(Call::Choose),
        13 => Some(Call::ChooseStable),
        14 => Some(Call::Pick),
        15 => Some(Call::Weight),
        16 => Some(Call::SampleStratified),
        _ => None,
    }
}
