// Filling the table: the chains of outputs and the numbers of drivers, with one look at each driver.
ghost use Rattle.std.specs.Prelude.{◌+◌, ◌<◌, ◌≡◌, None};
ghost use Rattle.rules.specs.File.{cells_of, board_of};
ghost use Rattle.rules.specs.Drivers.{driver_at};
ghost use Rattle.chains.specs.Filling.{Entered, Fillable, Filled};

use crate::{LINKS, NET_LINKS, TABLE, count_driver, net_key, splice};
use cells::driver_at;
use rules::Position;

// The same for a cell that drives nothing for a control cell: only an output is linked, by its net.
fn enter_other(file: &[u8], table: &mut [u16; TABLE], c: Position)
    requires entered { Entered file.now c.0 table.old }
    requires c_bound { c.0 < cells_of file.now }
    requires c_value { driver_at (board_of file.now) c.0 ≡ None }
    ensures { Entered file.now (c.0 + 1) table.new }
{
    let Some(n) = net_key(file, c) else {
        return;
    };
    splice(table, NET_LINKS, c, n.0 as usize);
}

// The chains and numbers of the positions below c, grown by c: a driver is linked by its net and by its
// control cell, and counted.
fn enter(file: &[u8], table: &mut [u16; TABLE], c: Position)
    requires entered { Entered file.now c.0 table.old }
    requires c_bound { c.0 < cells_of file.now }
    ensures { Entered file.now (c.0 + 1) table.new }
{
    let Some(driver) = driver_at(file, c) else {
        return enter_other(file, table, c);
    };
    splice(table, NET_LINKS, c, driver.net.0 as usize);
    splice(table, LINKS, c, driver.control.0 as usize);
    count_driver(table, driver.net);
}

// The chains and numbers of a whole file, in a table that holds nothing yet.
pub fn fill_table(file: &[u8], cells: usize, table: &mut [u16; TABLE])
    requires { Fillable file.now cells table.old }
    ensures { Filled file.now table.new }
{
    for c in 0..cells {
        enter(file, table, Position(c as u16));
    }
}
