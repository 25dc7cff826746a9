// The positions that a pass need look at: the highest driver of each control cell. They are kept in the
// table's spare room, which has an entry for each cell.
ghost use Rattle.std.specs.Prelude.{◌≡◌, ◌+◌, ◌<◌};
ghost use Rattle.rules.specs.File.{board_of, cells_of};
ghost use Rattle.chains.specs.Table.{ControlCell};
ghost use Rattle.chains.specs.Chains.{Chains};
ghost use Rattle.select.specs.Turns.{Ready};
ghost use Rattle.select.specs.Highest.{highest, Ordered, Order};

use cells::driver_at;
use chains::{TABLE, head, set_spare};
use rules::Position;

// The cell at c is the highest driver of its control cell. Compared by number: an edit of a derived `==` would be refused for a name.
fn is_highest(file: &[u8], table: &[u16; TABLE], c: Position) -> bool
    requires chains { Chains file.now ControlCell table.now }
    requires c_bound { c.0 < cells_of file.now }
    ensures { result ≡ highest (board_of file.now) c.0 }
{
    let Some(driver) = driver_at(file, c) else {
        return false;
    };
    head(table, driver.control).is_some_and(|top| top.0 == c.0)
}

// The highest drivers below c, and c if it is one; returns how many.
fn add_highest(file: &[u8], table: &mut [u16; TABLE], c: Position, found: usize) -> usize
    requires ordered { Ordered file.now c.0 table.old found }
    requires c_bound { c.0 < cells_of file.now }
    ensures { Ordered file.now (c.0 + 1) table.new result }
{
    if is_highest(file, table, c) {
        set_spare(table, found, c);
        return found + 1;
    }
    found
}

// All highest drivers in the table, the lowest first; returns how many.
pub fn fill_order(file: &[u8], table: &mut [u16; TABLE], cells: usize) -> usize
    requires ready { Ready file.now table.old }
    requires cells_value { cells ≡ cells_of file.now }
    ensures { Order file.now table.new result }
{
    let mut found = 0;
    for c in 0..cells {
        found = add_highest(file, table, Position(c as u16), found);
    }
    found
}
