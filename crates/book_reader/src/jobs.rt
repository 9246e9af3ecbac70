// The jobs of a book, as the reader hands them back.
ghost use Rattle.std.specs.Prelude.{◌≡◌, replicate};

// The kind of each job; how many numbers it has; the seeds, 32 bytes each; and all numbers, one after another. The arrays hold the most that a book has, and
// what stands behind its jobs in them says nothing. The rule that no call of a library takes memory needs arrays here (docs/DECISIONS.md, "There is no heap").
// A kind is a number here, as the definition `read_of` has it, which may not change.
#[derive(Clone, Copy, Debug, PartialEq, Eq)]
pub struct JobArrays {
    pub kinds: [u32; 64],
    pub counts: [u32; 64],
    pub seeds: [u8; 2048],
    pub numbers: [u32; 16372],
}

impl JobArrays {
    // Arrays of zeros.
    pub fn new() -> Self
        ensures { result ≡ record { kinds = replicate 64 0; counts = replicate 64 0; seeds = replicate 2048 0; numbers = replicate 16372 0 } }
    {
        JobArrays {
            kinds: [0; 64],
            counts: [0; 64],
            seeds: [0; 2048],
            numbers: [0; 16372],
        }
    }
}
