// The one lent table of a board: chains of outputs by control cell and by net, and the numbers of
// drivers. It is filled in `filling` and walked in `sharing`.
#![tactic(auto)]

ghost use Rattle.std.specs.Prelude.{◌≡◌, ◌+◌, ◌<◌, get_or, set, option_map};
ghost use Rattle.rules.specs.File.{board_of};
ghost use Rattle.rules.specs.Refusals.{most_cells, most_nets};
ghost use Rattle.chains.specs.Table.{ControlCell, NetOf, links_from, entry_of, head_in, link_in, count_in, spare_in, spare_from, spliced, one_more, table_size};
ghost use Rattle.chains.specs.Chains.{key_at};
ghost use Rattle.cells.specs.Whole.{Whole};

use cells::cell_at;
use rules::{Cell, MOST_CELLS, MOST_NETS, Net, Position};

pub mod filled;
pub mod filling;
pub mod sharing;

// Where the parts of the table begin: each family of chains has its links, one a position, and then its
// heads, one a key; last the numbers of drivers, one a net.
pub(crate) const LINKS: usize = 0;

pub(crate) const NET_LINKS: usize = 2 * MOST_CELLS;

const COUNTS: usize = 3 * MOST_CELLS + MOST_NETS;

// How many entries the table has, two bytes each.
pub const TABLE: usize = 3 * MOST_CELLS + 2 * MOST_NETS;

// What the table holds at i.
fn held(table: &[u16; TABLE], i: usize) -> u16
    requires { i < table_size }
    ensures { result ≡ get_or table.now i 0 }
{
    table[i]
}

// The position that the entry of a head or a link names, if it names one: it is 1 + the position. An entry stays a number of two bytes,
// since the table is lent, of fixed size, and holds nothing where it is zero.
pub fn named(entry: u16) -> Option<Position>
    ensures { entry_of result ≡ entry }
{
    Some(Position(entry.checked_sub(1)?))
}

// The five readers below differ in their offset, the type of their index and the part of the table that
// they promise: a trait for the two families, with both types and both promises, would be longer than
// the two calls of `held` that it saves.

// The highest driver of control cell k.
pub fn head(table: &[u16; TABLE], k: Position) -> Option<Position>
    requires { k.0 < most_cells }
    ensures { entry_of result ≡ head_in ControlCell table.now k.0 }
{
    named(held(table, LINKS + (MOST_CELLS + k.0 as usize)))
}

// The next lower driver of the same control cell as the driver at c. A walk is a `while let` and no iterator: that it ends is proved at each
// link (`walk-falls`), and an `Iterator` would have to carry the file and its chains for that.
pub fn link(table: &[u16; TABLE], c: Position) -> Option<Position>
    requires { c.0 < most_cells }
    ensures { entry_of result ≡ link_in ControlCell table.now c.0 }
{
    named(held(table, LINKS + c.0 as usize))
}

// The highest output of net n.
pub fn net_head(table: &[u16; TABLE], n: Net) -> Option<Position>
    requires { n.0 < most_nets }
    ensures { entry_of result ≡ head_in NetOf table.now n.0 }
{
    named(held(table, NET_LINKS + (MOST_CELLS + n.0 as usize)))
}

// The next lower output of the same net as the output at c.
pub fn net_link(table: &[u16; TABLE], c: Position) -> Option<Position>
    requires { c.0 < most_cells }
    ensures { entry_of result ≡ link_in NetOf table.now c.0 }
{
    named(held(table, NET_LINKS + c.0 as usize))
}

// Entry i of the room that the chains by net leave free after the verdict.
pub fn spare(table: &[u16; TABLE], i: usize) -> Position
    requires { i < most_cells }
    ensures { result.0 ≡ spare_in table.now i }
{
    Position(held(table, NET_LINKS + i))
}

// Position c as entry i of that room.
pub fn set_spare(table: &mut [u16; TABLE], i: usize, c: Position)
    requires { i < most_cells }
    ensures { table.new ≡ set table.old (spare_from + i) c.0 }
{
    table[NET_LINKS + i] = c.0;
}

// The link of a cell that drives nothing is free: `at` stands there from now on. It stays a number, since it
// is an entry that its caller keeps as one (`nesting`, heads by number of drivers) and hands over unread.
pub fn set_free_link(table: &mut [u16; TABLE], c: Position, at: u16)
    requires { c.0 < most_cells }
    ensures { table.new ≡ set table.old (links_from ControlCell + c.0) at }
{
    table[LINKS + c.0 as usize] = at;
}

// How many controlled drivers net n has.
pub fn drivers_on(table: &[u16; TABLE], n: Net) -> usize
    requires { n.0 < most_nets }
    ensures { result ≡ count_in table.now n.0 }
{
    held(table, COUNTS + n.0 as usize) as usize
}

// The net of the output at c.
pub(crate) fn net_key(file: &[u8], c: Position) -> Option<Net>
    requires { Whole file.now c.0 }
    ensures { option_map (λ n. n.0) result ≡ key_at (board_of file.now) NetOf c.0 }
{
    match cell_at(file, c) {
        Cell::Internal | Cell::Input(_) | Cell::Control(_) => None,
        Cell::ThreeState(_, n) | Cell::TwoState(n) | Cell::OpenDrain(n) => Some(n),
    }
}

// The cell at c becomes the head of key k and links to the old one, in the family whose links begin at `from`.
pub(crate) fn splice(table: &mut [u16; TABLE], from: usize, c: Position, k: usize)
    requires { (c.0 < most_cells) × (from + (most_cells + k) < table_size) }
    ensures { table.new ≡ spliced from c.0 k table.old }
{
    table[from + c.0 as usize] = table[from + (MOST_CELLS + k)];
    table[from + (MOST_CELLS + k)] = c.0 + 1;
}

// One driver more on net n.
pub(crate) fn count_driver(table: &mut [u16; TABLE], n: Net)
    requires { (n.0 < most_nets) × (count_in table.old n.0 < most_cells) }
    ensures { table.new ≡ one_more n.0 table.old }
{
    table[COUNTS + n.0 as usize] += 1;
}
