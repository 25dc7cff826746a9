// The code that each cell reads in the first group's base vectors, and which of them are a net's.
ghost use Rattle.std.specs.Prelude.{ℕ, cond, ltb, ◌<◌, ◌≤◌, ◌*◌, ◌+◌, length, get_or};
ghost use Rattle.base.specs.Tests.{digit};
ghost use Rattle.rules.specs.Rows.{row_bit};
ghost use Rattle.readings.specs.Readings.{code_from, most_half, Mapped, MappedBy, Scanned, Entries, Captured};

use crate::scan::seen;
use plan::steps::{Plan, extra_after};
use rules::Position;

// The entries of the first cells become what f makes of a cell and its entry.
pub(crate) fn map_entries<F: Fn(usize, u16) -> u16>(cells: usize, table: &mut [u16], f: F)
    requires cells_in_bounds { cells ≤ length table.old }
    requires callable { (c : ℕ) → c < cells → F.pre f c (get_or table.old c 0) }
    ensures { MappedBy (F.post f) table.old cells table.new }
{
    for (c, entry) in table[..cells].iter_mut().enumerate() {
        *entry = f(c, *entry);
    }
}

// Each cell's code, with what it read in the row from `at` on.
fn add_row(capture: &[u8], at: usize, cells: usize, table: &mut [u16])
    requires scanned { Scanned capture.now at cells }
    requires entries { Entries most_half cells table.old }
    ensures { Mapped (λ c code. 2 * code + digit (row_bit capture.now at c)) table.old cells table.new }
{
    map_entries(
        cells,
        table,
        |c, code| 2 * code + u16::from(seen(capture, at, Position(c as u16))),
    );
}

// The codes of the first group's base vectors, pattern 1 first. It takes no `Walk`: it writes the table, which a walk only reads.
pub(crate) fn read_codes(capture: &[u8], plan: Plan, cells: usize, bytes: usize, table: &mut [u16])
    requires captured { Captured plan capture.now cells bytes }
    requires entries { Entries 0 cells table.old }
    ensures { Mapped (code_from plan bytes capture.now plan.wide) table.old cells table.new }
{
    let mut t = 0;
    for j in 0..plan.wide {
        add_row(capture, t * bytes, cells, table);
        t += 1 + extra_after(plan, j);
    }
}

// Codes that are no net's become 0.
pub(crate) fn own_codes(cells: usize, nets: usize, table: &mut [u16])
    requires { cells ≤ length table.old }
    ensures { Mapped (λ c code. cond (ltb nets code) 0 code) table.old cells table.new }
{
    map_entries(
        cells,
        table,
        |_, code| if nets < code as usize { 0 } else { code },
    );
}
