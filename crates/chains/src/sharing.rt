// Net sets, and who shares a net with whom, gathered along the chains.
ghost use Rattle.std.specs.Prelude.{◌≡◌, ◌<◌};
ghost use Rattle.rules.specs.File.{board_of, cells_of, nets_of};
ghost use Rattle.rules.specs.Drivers.{drives};
ghost use Rattle.words.specs.Sets.{member};
ghost use Rattle.chains.specs.Table.{ControlCell, NetOf};
ghost use Rattle.chains.specs.Chains.{Chains};
ghost use Rattle.chains.specs.Sharing.{with_control, with_controls, with_sharers, partners_of};
ghost use Rattle.cells.specs.Whole.{Whole};

use crate::{TABLE, head, link, net_head, net_link};
use cells::{driver_at, net_at};
use rules::{Net, Position};
use words::{CellSet, NET_WORDS, NetSet, loops};

// The net set of control cell k, gathered where it stands.
pub fn nets_of(file: &[u8], table: &[u16; TABLE], k: Position) -> NetSet
    requires chains { Chains file.now ControlCell table.now }
    requires k_bound { k.0 < cells_of file.now }
    ensures { member result.words ≡ drives (board_of file.now) k.0 }
{
    let mut words = [0u64; NET_WORDS];
    let mut at = head(table, k);
    while let Some(c) = at {
        let n = net_at(file, c);
        loops::add(&mut words, n.0 as usize);
        at = link(table, c);
    }
    NetSet { words }
}

// The set with the control cell of the driver at c besides, if c is one and its control cell is above
// floor. Held against it by number: with a derived order a wrong `<` in place of `<=` would be refused for a goal's name, and for no fact.
fn add_control(file: &[u8], c: Position, floor: Position, set: CellSet) -> CellSet
    requires { Whole file.now c.0 }
    ensures { member result.words ≡ with_control (board_of file.now) floor.0 c.0 (member set.words) }
{
    let Some(driver) = driver_at(file, c) else {
        return set;
    };
    if driver.control.0 <= floor.0 {
        return set;
    }
    set.with(driver.control)
}

// The set with the control cells of net n above floor besides.
fn add_controls(file: &[u8], table: &[u16; TABLE], n: Net, floor: Position, met: CellSet) -> CellSet
    requires chains { Chains file.now NetOf table.now }
    requires n_bound { n.0 < nets_of file.now }
    ensures { member result.words ≡ with_controls (board_of file.now) floor.0 n.0 (member met.words) }
{
    let mut more = met;
    let mut at = net_head(table, n);
    while let Some(c) = at {
        more = add_control(file, c, floor, more);
        at = net_link(table, c);
    }
    more
}

// The set with the control cells above floor of the net of the driver at c besides, if c is one.
fn add_sharers(
    file: &[u8],
    table: &[u16; TABLE],
    c: Position,
    floor: Position,
    met: CellSet,
) -> CellSet
    requires chains { Chains file.now NetOf table.now }
    requires c_bound { c.0 < cells_of file.now }
    ensures { member result.words ≡ with_sharers (board_of file.now) floor.0 c.0 (member met.words) }
{
    let Some(driver) = driver_at(file, c) else {
        return met;
    };
    add_controls(file, table, driver.net, floor, met)
}

// The control cells above k that share a net with it.
pub fn partners(file: &[u8], table: &[u16; TABLE], k: Position) -> CellSet
    requires chains { Chains file.now ControlCell table.now }
    requires chains_2 { Chains file.now NetOf table.now }
    requires k_bound { k.0 < cells_of file.now }
    ensures { member result.words ≡ partners_of (board_of file.now) k.0 }
{
    let mut set = CellSet::empty();
    let mut at = head(table, k);
    while let Some(c) = at {
        set = add_sharers(file, table, c, k, set);
        at = link(table, c);
    }
    set
}
