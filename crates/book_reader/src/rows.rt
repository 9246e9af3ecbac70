// The rows of a book's contents, one after another.
ghost use Rattle.std.specs.Prelude.{◌≡◌, ◌+◌, ◌*◌, ◌≤◌, length, drop};
ghost use Rattle.draw_book.specs.Reading.{rows_of};

use super::numbers::u32_at;
use draw_book::rows::Row;

// How many rows are left, and the bytes that they are at the front of. The count stands beside the bytes, as the definition `rows_of` takes both, which may
// not change.
#[derive(Clone, Copy, Debug)]
pub(crate) struct Rows<'a> {
    left: usize,
    table: &'a [u8],
    ghost room: { 12 * left ≤ length table.now },
}

// The rows of a book that has room for so many.
pub(crate) fn rows_in(book: &[u8], n: usize) -> Rows<'_>
    requires { 4 + 12 * n ≤ length book.now }
    ensures rows { rows_of result.left result.table.now ≡ rows_of n (drop 4 book.now) }
    ensures left { result.left ≡ n }
{
    Rows {
        left: n,
        table: &book[4..],
    }
}

impl Iterator for Rows<'_> {
    ghost use Rattle.std.specs.Iterator.{YieldsFirst, at_most};
    ghost use Rattle.book_reader.specs.Rows.{rows_left};

    type Item = Row;

    ghost next_gives = { YieldsFirst rows_left };

    ghost remaining = { λ r. at_most r.left };

    #[tactic(auto, unfolding(draw_book::specs::Reading::rows_of, draw_book::specs::Reading::row_of))]
    fn next(&mut self) -> Option<Row> {
        if self.left == 0 {
            return None;
        }
        let row = Row {
            kind: u32_at(self.table, 0),
            offset: u32_at(self.table, 4),
            size: u32_at(self.table, 8),
        };
        self.left -= 1;
        self.table = &self.table[12..];
        Some(row)
    }
}
