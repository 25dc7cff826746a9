// The control cells that are on in a group: two passes a group, after those of the earlier groups.
ghost use Rattle.std.specs.Prelude.{◌≡◌, List, ℕ, ◌≤◌};
ghost use Rattle.rules.specs.File.{board_of, cells_of};
ghost use Rattle.rules.specs.Groups.{selected, on_in};
ghost use Rattle.words.specs.Sets.{member};
ghost use Rattle.select.specs.Turns.{listed, Ready};
ghost use Rattle.select.specs.Highest.{Order};

use crate::order::fill_order;
use crate::turns::run_pass;
use chains::TABLE;
use rules::Position;
use words::{CELL_WORDS, CellSet, NetSet, loops};

// The control cells that group g turns on, after the earlier ones: the two passes, each with its test of a driver.
pub fn selected(
    file: &[u8],
    table: &[u16; TABLE],
    found: usize,
    g: usize,
    earlier: CellSet,
) -> CellSet
    requires { Order file.now table.now found }
    ensures { (used : List ℕ) → member earlier.words ≡ listed used → member result.words ≡ listed (selected (board_of file.now) g used) }
{
    let mut words = [0u64; CELL_WORDS];
    // "First pass ..: at a kind 3 output whose net has degree g or more, whose control cell .. was on in no earlier group".
    let first = |degree: usize, k: Position| g <= degree
        && !loops::has(&earlier.words, k.0 as usize);
    // "Second pass, same order: at a kind 3 output whose net has degree below g ..; earlier groups don't matter here".
    let second = |degree: usize, _: Position| degree < g;
    let covered = run_pass(file, table, found, first, NetSet::empty(), &mut words);
    run_pass(file, table, found, second, covered, &mut words);
    CellSet { words }
}

// The control cells that are on in group g, by the highest drivers.
fn group_over(file: &[u8], table: &[u16; TABLE], found: usize, g: usize) -> CellSet
    requires order { Order file.now table.now found }
    requires le_g { 1 ≤ g }
    ensures { member result.words ≡ on_in (board_of file.now) g }
{
    let mut earlier = CellSet::empty();
    for j in 1..g {
        let on = selected(file, table, found, j, earlier);
        earlier = on.union(earlier);
    }
    selected(file, table, found, g, earlier)
}

// The control cells that are on in group g. The table's spare room is written, and nothing else of it, so
// that it serves again.
pub fn group(file: &[u8], table: &mut [u16; TABLE], cells: usize, g: usize) -> CellSet
    requires ready { Ready file.now table.old }
    requires cells_value { cells ≡ cells_of file.now }
    requires le_g { 1 ≤ g }
    ensures words_value { member result.words ≡ on_in (board_of file.now) g }
    ensures ready_2 { Ready file.now table.new }
{
    let found = fill_order(file, table, cells);
    group_over(file, table, found, g)
}
