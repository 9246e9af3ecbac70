// Jobs of a book.

// Jobs, lent as four lists: the kind of each; how many numbers it has; the seeds, 32 bytes for each; and all numbers, one after another.
// The format's definitions fix the four lists, and that a kind is any number: the writer answers 15 for one that is not known.
#[derive(Clone, Copy, Debug, PartialEq, Eq)]
pub struct JobLists<'a> {
    pub kinds: &'a [u32],
    pub counts: &'a [u32],
    pub seeds: &'a [u8],
    pub numbers: &'a [u32],
}
