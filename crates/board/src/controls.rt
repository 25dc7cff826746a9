// Refusals 10 and 11: control cells' net sets lie apart or one in the other, and a control cell's
// nets have equally many controlled drivers.
ghost use Rattle.std.specs.Prelude.{◌≡◌, true, ◌∷◌, [], ◌<◌, ◌*◌};
ghost use Rattle.rules.specs.File.{board_of, cells_of};
ghost use Rattle.rules.specs.Drivers.{controlled};
ghost use Rattle.rules.specs.Refusals.{judge, each, crossing, unequal, control_checks};
ghost use Rattle.words.specs.Sets.{net_words, member, relation_of};
ghost use Rattle.cells.specs.Whole.{Sized};
ghost use Rattle.chains.specs.Filling.{Filled};
ghost use Rattle.board.specs.Controls.{is_crossing, crosser_of, drivers_at, any_other};

use cells::net_at;
use chains::filled::FilledBoard;
use chains::sharing::{nets_of, partners};
use chains::{TABLE, drivers_on, head, link};
use nesting::falling::{Nesting, tell_falling};
use nesting::sound_upward;
use rules::{Position, Verdict};
use words::{NET_WORDS, NetSet, Relation};

// Two net sets, read where they stand, meet and neither holds the other.
#[tactic(auto, unfolding(crate::specs::Controls::is_crossing))]
fn sets_cross(a: &[u64; NET_WORDS], b: &[u64; NET_WORDS]) -> bool
    ensures { result ≡ is_crossing (relation_of (64 * net_words) (member a.now) (member b.now)) }
{
    match NetSet::compare(a, b) {
        Relation::Crossing => true,
        Relation::Apart | Relation::Inside | Relation::Holds | Relation::Equal => false,
    }
}

// Control cell i's net set is compared with that of each higher one that shares a net with it: the first
// that crosses it, if one does. A control cell that switches nothing crosses none.
fn crosser_of(board: &FilledBoard, i: Position) -> Option<Position>
    requires { i.0 < board.now.cells }
    ensures { result ≡ crosser_of (board_of board.now.file.now) i.0 }
{
    let FilledBoard {
        file,
        table,
        cells,
        ..
    } = *board;
    let Some(_) = head(table, i) else {
        return None;
    };
    let mine = nets_of(file, table, i);
    let met = partners(file, table, i);
    let mut j = met.next(i.0 as usize + 1);
    while j < cells {
        let higher = Position(j as u16);
        let theirs = nets_of(file, table, higher);
        if sets_cross(&mine.words, &theirs.words) {
            return Some(higher);
        }
        j = met.next(j + 1);
    }
    None
}

// Refusal 10: the lowest control cell that crosses a higher one, and the first of these. Not `rules::each`: it says two places.
fn crossed_verdict(board: &FilledBoard) -> Verdict
    ensures { result ≡ judge (crossing (board_of board.now.file.now) ∷ []) }
{
    for i in 0..board.cells {
        let lower = Position(i as u16);
        if let Some(higher) = crosser_of(board, lower) {
            return rules::refuse_pair(10, lower, higher);
        }
    }
    Ok(())
}

// How many controlled drivers the net of the driver at c has.
fn drivers_at(board: &FilledBoard, c: Position) -> usize
    requires { (c.0 < cells_of board.now.file.now) × (controlled (board_of board.now.file.now) c.0 ≡ true) }
    ensures { result ≡ drivers_at (board_of board.now.file.now) c.0 }
{
    drivers_on(board.table, net_at(board.file, c))
}

// A driver of control cell k is on a net with another number of drivers than `first`.
fn differs(board: &FilledBoard, k: Position, first: usize) -> bool
    requires { k.0 < cells_of board.now.file.now }
    ensures { result ≡ any_other (board_of board.now.file.now) k.0 first }
{
    let table = board.table;
    let mut at = head(table, k);
    while let Some(c) = at {
        if drivers_at(board, c) != first {
            return true;
        }
        at = link(table, c);
    }
    false
}

// The nets of control cell k differ in number of controlled drivers.
fn differ(board: &FilledBoard, k: Position) -> bool
    requires { k.0 < cells_of board.now.file.now }
    ensures { result ≡ unequal (board_of board.now.file.now) k.0 }
{
    let Some(highest) = head(board.table, k) else {
        return false;
    };
    let first = drivers_at(board, highest);
    differs(board, k, first)
}

// Refusal 11: the lowest control cell whose nets differ in number of controlled drivers.
fn unequal_verdict(board: &FilledBoard) -> Verdict
    ensures { result ≡ judge (each 11 (cells_of board.now.file.now) (unequal (board_of board.now.file.now)) ∷ []) }
{
    rules::each(11, board.cells, |k| differ(board, Position(k as u16)))
}

// Refusals 10 and 11, one after the other.
fn search(board: &FilledBoard) -> Verdict
    ensures { result ≡ judge (control_checks (board_of board.now.file.now)) }
{
    crossed_verdict(board)?;
    unequal_verdict(board)
}

// Refusals 10 and 11. Each pair of control cells is looked at only where the tests tell nothing.
pub(crate) fn controls_verdict(
    file: &[u8],
    table: &mut [u16; TABLE],
    cells: usize,
    nets: usize,
) -> Verdict
    requires filled { Filled file.now table.old }
    requires sized { Sized file.now cells nets }
    ensures filled_2 { Filled file.now table.new }
    ensures value { result ≡ judge (control_checks (board_of file.now)) }
{
    if sound_upward(file, table, cells) {
        return Ok(());
    }
    let told = tell_falling(file, table, cells, nets);
    let board = FilledBoard {
        file,
        table,
        cells,
        nets,
    };
    match told {
        Nesting::Unknown => search(&board),
        Nesting::Nested => unequal_verdict(&board),
        Nesting::Sound => Ok(()),
    }
}
