// The limits of a book.

// A book has at most so many jobs: the definition `most_jobs`.
pub const MOST_JOBS: usize = 64;

// And at most so many bytes: the definition `most_bytes`.
pub const MOST_BYTES: usize = 65_536;
