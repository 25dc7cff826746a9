// A set of cells as the bytes of a row, and a row in a buffer from a place on.
ghost use Rattle.std.specs.Prelude.{◌≡◌, ◌+◌, ◌*◌, ◌<◌, ◌≤◌, length};
ghost use Rattle.base.specs.Digits.{word};
ghost use Rattle.rules.specs.Rows.{row_bytes, row_of};
ghost use Rattle.rules.specs.File.{most_number};
ghost use Rattle.words.specs.Sets.{member};
ghost use Rattle.rows.specs.Room.{placed, Room, Cells};

use words::CellSet;

// R = ceil(C / 8), the bytes of a row.
pub fn row_bytes(cells: usize) -> usize
    requires { cells ≤ most_number }
    ensures { result ≡ row_bytes cells }
{
    cells.div_ceil(8)
}

// Byte j of a row: cells 8 j to 8 j + 7, the lowest in the least bit. By shifts, since the contract speaks of bits: `to_le_bytes` is no shorter.
fn row_byte(words: &[u64], j: usize) -> u8
    requires { j < 8 * length words.now }
    ensures { result ≡ word 8 (λ i. member words.now (8 * j + i)) }
{
    let word = words[j / 8];
    ((word >> (8 * (j % 8))) & 255) as u8
}

// The row of a set of cells, in the buffer from `at` on.
pub(crate) fn write_row(out: &mut [u8], at: usize, cells: usize, set: CellSet)
    requires room { Room out.old at cells }
    requires cells { Cells cells (member set.words) }
    ensures { out.new ≡ placed at (row_of cells (member set.words)) out.old }
{
    let count = row_bytes(cells);
    let words = set.words;
    for (j, byte) in out[at..at + count].iter_mut().enumerate() {
        *byte = row_byte(&words, j);
    }
}
