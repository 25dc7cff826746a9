// Refusals 7 to 9: every net has an output, no two of its outputs clash, and it is not crowded.
#![tactic(auto, using(crate::proofs::Fits::fits))]

ghost use Rattle.std.specs.Prelude.{◌≡◌, true, false, ◌∷◌, [], ◌<◌};
ghost use Rattle.rules.specs.File.{board_of, nets_of};
ghost use Rattle.rules.specs.Refusals.{judge, each, clashing, net_checks};
ghost use Rattle.chains.specs.Filling.{Filled};
ghost use Rattle.nets.specs.Nets.{undriven_in, crowded_in, Alone, Several};

use cells::driver_at;
use chains::{TABLE, drivers_on, net_head, net_link};
use rules::{MOST_DRIVERS, Net, Verdict};
use words::{CELL_WORDS, loops};

// What the checks below read together: an accepted file with its number of nets, and its table while that holds all chains and numbers of
// drivers. `FilledBoard` of `chains` has the number of cells besides, for which `nets_verdict` does not ask.
#[derive(Clone, Copy)]
struct FilledNets<'a> {
    file: &'a [u8],
    table: &'a [u16; TABLE],
    nets: usize,
    ghost filled: { Filled file.now table.now },
    ghost nets_are: { nets ≡ nets_of file.now },
}

// Refusal 7: a net without an output.
fn undriven_verdict(board: &FilledNets) -> Verdict
    ensures { result ≡ judge (each 7 board.now.nets (undriven_in board.now.table.now) ∷ []) }
{
    let FilledNets { table, nets, .. } = *board;
    rules::each(7, nets, |n| net_head(table, Net(n as u16)).is_none())
}

// Net n has at most one output.
fn alone(board: &FilledNets, n: Net) -> bool
    requires { n.0 < nets_of board.now.file.now }
    ensures alone { result ≡ true → Alone (board_of board.now.file.now) n.0 }
    ensures several { result ≡ false → Several (board_of board.now.file.now) n.0 }
{
    let Some(highest) = net_head(board.table, n) else {
        return true;
    };
    net_link(board.table, highest).is_none()
}

// Two of net n's outputs clash, where there are several: one of them is always on, or the control cell
// of one is met again.
fn several_clash(board: &FilledNets, n: Net) -> bool
    requires n_bound { n.0 < nets_of board.now.file.now }
    requires several { Several (board_of board.now.file.now) n.0 }
    ensures { result ≡ clashing (board_of board.now.file.now) n.0 }
{
    let FilledNets { file, table, .. } = *board;
    let mut met = [0u64; CELL_WORDS];
    let mut at = net_head(table, n);
    while let Some(c) = at {
        let Some(driver) = driver_at(file, c) else {
            return true;
        };
        if loops::add_again(&mut met, driver.control.0 as usize) {
            return true;
        }
        at = net_link(table, c);
    }
    false
}

// Two outputs of net n clash.
fn clashes(board: &FilledNets, n: Net) -> bool
    requires { n.0 < nets_of board.now.file.now }
    ensures { result ≡ clashing (board_of board.now.file.now) n.0 }
{
    !alone(board, n) && several_clash(board, n)
}

// Refusal 8: a net two of whose outputs clash.
fn clash_verdict(board: &FilledNets) -> Verdict
    ensures { result ≡ judge (each 8 (nets_of board.now.file.now) (clashing (board_of board.now.file.now)) ∷ []) }
{
    rules::each(8, board.nets, |n| clashes(board, Net(n as u16)))
}

// Refusal 9: a net with over 16 controlled drivers.
#[tactic(auto, using(crate::proofs::Fits::fits), unfolding(crate::specs::Nets::crowded_in))]
fn crowded_verdict(board: &FilledNets) -> Verdict
    ensures { result ≡ judge (each 9 board.now.nets (crowded_in board.now.table.now) ∷ []) }
{
    let FilledNets { table, nets, .. } = *board;
    rules::each(9, nets, |n| MOST_DRIVERS < drivers_on(table, Net(n as u16)))
}

// Refusals 7 to 9, over the chains of outputs by net and the numbers of drivers.
pub fn nets_verdict(file: &[u8], table: &[u16; TABLE], nets: usize) -> Verdict
    requires filled { Filled file.now table.now }
    requires nets_value { nets ≡ nets_of file.now }
    ensures { result ≡ judge (net_checks (board_of file.now)) }
{
    let board = FilledNets { file, table, nets };
    undriven_verdict(&board)?;
    clash_verdict(&board)?;
    crowded_verdict(&board)
}
