// Rows of a book's contents.
ghost use Rattle.std.specs.Prelude.{◌≡◌};
ghost use Rattle.draw_book.specs.Reading.{count_in, is_body};

use super::kinds::is_count;

// A row of the contents table: a job's kind, the place where its body begins, and the body's length in bytes. The format fixes that a kind is any
// number here: a book with one that is not known is read so far, and then refused.
#[derive(Clone, Copy, Debug, PartialEq, Eq)]
pub struct Row {
    pub kind: u32,
    pub offset: u32,
    pub size: u32,
}

impl Row {
    // How many numbers stand behind the seed in its body: the definition `count_in`.
    #[tactic(auto, unfolding(crate::specs::Reading::count_in))]
    pub fn count(self) -> u32
        ensures { result ≡ count_in self.size }
    {
        self.size.saturating_sub(32) / 4
    }

    // Whether a body of its kind may have so many bytes: the definition `is_body`.
    #[tactic(auto, unfolding(crate::specs::Reading::is_body, crate::specs::Reading::count_in, crate::specs::Jobs::body_length))]
    pub fn is_body(self) -> bool
        ensures { result ≡ is_body self.kind self.size }
    {
        let count = self.count();
        32 + 4 * count == self.size && is_count(self.kind, count)
    }
}
