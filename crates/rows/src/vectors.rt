// The row of a vector: each cell's bit by its kind, its group's control cells and its net's value.
ghost use Rattle.std.specs.Prelude.{◌≡◌, true, cond, not, ◌<◌, ◌*◌, length};
ghost use Rattle.rules.specs.File.{board_of, cells_of};
ghost use Rattle.rules.specs.Answers.{over};
ghost use Rattle.rules.specs.Refusals.{judge, file_checks, Accepted};
ghost use Rattle.rules.specs.Vectors.{vector_at, vector_row};
ghost use Rattle.words.specs.Sets.{net_words, cell_words, member, plus_if, up_to};
ghost use Rattle.cells.specs.Whole.{Whole};
ghost use Rattle.select.specs.Turns.{Ready};
ghost use Rattle.rows.specs.Bits.{bit_of, bit_at, out_net};
ghost use Rattle.rows.specs.Room.{VectorRoom};

use crate::bytes::write_row;
use cells::cell_at;
use chains::TABLE;
use plan::steps::{Plan, step_at};
use plan::values::{group_of, values};
use rules::{Cell, Position};
use select::groups::group;
use words::{CELL_WORDS, CellSet, NetSet, loops};

// The bit of the cell at p, where these control cells are on and these nets have value 1.
fn cell_bit(cell: Cell, p: Position, on: &[u64], nets: &[u64]) -> bool
    requires { (p.0 < 64 * length on.now) × (out_net cell < 64 * length nets.now) }
    ensures { result ≡ bit_of (member on.now p.0) (member nets.now) cell }
{
    match cell {
        Cell::Internal | Cell::Input(_) => false,
        // "A control cell has its on value when on, else the other".
        Cell::Control(value) => {
            if loops::has(on, p.0 as usize) {
                value
            } else {
                !value
            }
        }
        Cell::ThreeState(_, n) | Cell::TwoState(n) => loops::has(nets, n.0 as usize),
        // "In its turn .. loaded with the net's value, otherwise with 1".
        Cell::OpenDrain(n) => {
            let turn = loops::has(on, p.0 as usize);
            let value = loops::has(nets, n.0 as usize);
            !turn || value
        }
    }
}

// The cell at c joins the row, if its bit is 1.
fn add_bit(file: &[u8], on: &[u64], nets: &[u64], c: Position, row: &mut [u64])
    requires whole { Whole file.now c.0 }
    requires on_len { (length on.now ≡ cell_words) × (length nets.now ≡ net_words) × (length row.old ≡ cell_words) }
    ensures { member row.new ≡ plus_if (bit_at (board_of file.now) (member on.now) (member nets.now)) c.0 (member row.old) }
{
    if cell_bit(cell_at(file, c), c, on, nets) {
        loops::add(row, c.0 as usize);
    }
}

// The cells whose bit is 1, gathered where they stand. The two sets are lent to each cell, not copied for it.
fn row_cells(file: &[u8], cells: usize, on: CellSet, nets: NetSet) -> CellSet
    requires file_value { judge (file_checks file.now) ≡ Accepted }
    requires cells_value { cells ≡ cells_of file.now }
    ensures { member result.words ≡ up_to cells (bit_at (board_of file.now) (member on.words) (member nets.words)) }
{
    let mut words = [0u64; CELL_WORDS];
    for c in 0..cells {
        add_bit(file, &on.words, &nets.words, Position(c as u16), &mut words);
    }
    CellSet { words }
}

// The row of vector t, and its group; the table can be used again.
pub fn write_vector(
    file: &[u8],
    table: &mut [u16; TABLE],
    cells: usize,
    plan: Plan,
    t: usize,
    out: &mut [u8],
) -> usize
    requires { VectorRoom file.now table.old cells plan t out.old }
    ensures value { result ≡ (vector_at (board_of file.now) t).group }
    ensures out_after { out.new ≡ over (vector_row (board_of file.now) (vector_at (board_of file.now) t)) out.old }
    ensures ready { Ready file.now table.new }
{
    let step = step_at(plan, t);
    let turn = group_of(plan, step);
    let on = group(file, table, cells, turn);
    let nets = values(plan, step);
    let row = row_cells(file, cells, on, nets);
    write_row(out, 0, cells, row);
    turn
}
