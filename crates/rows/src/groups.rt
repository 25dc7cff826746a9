// The rows of the groups, one after the other.
ghost use Rattle.std.specs.Prelude.{◌≡◌};
ghost use Rattle.rules.specs.File.{board_of};
ghost use Rattle.rules.specs.Answers.{over};
ghost use Rattle.rules.specs.Groups.{group_rows};
ghost use Rattle.select.specs.Turns.{Ready};
ghost use Rattle.select.specs.Highest.{Order};
ghost use Rattle.rows.specs.Room.{GroupsRoom};

use crate::bytes::{row_bytes, write_row};
use chains::TABLE;
use select::groups::selected;
use select::order::fill_order;
use words::CellSet;

// The rows of the groups, by the highest drivers of the control cells.
fn write_rows(
    file: &[u8],
    table: &[u16; TABLE],
    found: usize,
    cells: usize,
    groups: usize,
    out: &mut [u8],
)
    requires groups_room { GroupsRoom file.now table.now cells groups out.old }
    requires order { Order file.now table.now found }
    ensures { out.new ≡ over (group_rows (board_of file.now) groups) out.old }
{
    let bytes = row_bytes(cells);
    let mut earlier = CellSet::empty();
    let mut at = 0;
    for g in 1..=groups {
        let on = selected(file, table, found, g, earlier);
        write_row(out, at, cells, on);
        earlier = on.union(earlier);
        at += bytes;
    }
}

// "G rows of R bytes": the control cells that are on in each of the groups; the table can be used again.
pub fn write_groups(
    file: &[u8],
    table: &mut [u16; TABLE],
    cells: usize,
    groups: usize,
    out: &mut [u8],
)
    requires { GroupsRoom file.now table.old cells groups out.old }
    ensures out_after { out.new ≡ over (group_rows (board_of file.now) groups) out.old }
    ensures ready { Ready file.now table.new }
{
    let found = fill_order(file, table, cells);
    write_rows(file, table, found, cells, groups, out);
}
