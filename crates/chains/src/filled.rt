// A board whose table is filled: what the checks and walks read together, and what is known of it.
ghost use Rattle.chains.specs.Filling.{Filled};
ghost use Rattle.cells.specs.Whole.{Sized};

use crate::TABLE;

// An accepted file with its sizes, and its table while that holds all chains and numbers of drivers.
#[derive(Clone, Copy)]
pub struct FilledBoard<'a> {
    pub file: &'a [u8],
    pub table: &'a [u16; TABLE],
    pub cells: usize,
    pub nets: usize,
    pub ghost filled: { Filled file.now table.now },
    pub ghost sized: { Sized file.now cells nets },
}
