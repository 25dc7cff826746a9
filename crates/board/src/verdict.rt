// The verdict on a board file: refusals 1 to 11, in their order.
ghost use Rattle.std.specs.Prelude.{◌≡◌};
ghost use Rattle.rules.specs.Refusals.{judge, file_checks, board_checks, Accepted};
ghost use Rattle.chains.specs.Table.{Blank};
ghost use Rattle.chains.specs.Filling.{Filled};

use crate::controls::controls_verdict;
use blocks::{read_sizes, shape_verdict};
use cells::records_verdict;
use chains::TABLE;
use chains::filling::fill_table;
use nets::nets_verdict;
use rules::Verdict;

// Refusals 1 to 6: the file.
fn file_verdict(file: &[u8]) -> Verdict
    ensures { result ≡ judge (file_checks file.now) }
{
    shape_verdict(file)?;
    let sizes = read_sizes(file);
    records_verdict(file, sizes.cells, sizes.nets)
}

// Refusals 1 to 11, with the chains and numbers of an accepted board left in the lent table, which holds
// nothing yet.
pub fn examine(file: &[u8], table: &mut [u16; TABLE]) -> Verdict
    requires { Blank table.old }
    ensures value { result ≡ judge (board_checks file.now) }
    ensures filled { judge (board_checks file.now) ≡ Accepted → Filled file.now table.new }
{
    file_verdict(file)?;
    let sizes = read_sizes(file);
    fill_table(file, sizes.cells, table);
    nets_verdict(file, table, sizes.nets)?;
    controls_verdict(file, table, sizes.cells, sizes.nets)
}

// The verdict on a board file, for all files.
pub fn verdict(file: &[u8]) -> Verdict
    ensures { result ≡ judge (board_checks file.now) }
{
    let mut table = [0u16; TABLE];
    examine(file, &mut table)
}
