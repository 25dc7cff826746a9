// One position of a pass, and a pass: the control cells that it turns on.
ghost use Rattle.std.specs.Prelude.{◌≡◌, ◌<◌, ◌*◌, length, ℕ, Bool, Some, IfSome};
ghost use Rattle.rules.specs.File.{Board, board_of, cells_of};
ghost use Rattle.rules.specs.Drivers.{drives, driver_at};
ghost use Rattle.words.specs.Sets.{cell_words, member};
ghost use Rattle.select.specs.Turns.{Callable, Tells, stop_by, turn_to, pass_by, joined, turned_as, Ready, OnBoard, Leads, PassLeads};
ghost use Rattle.select.specs.Highest.{Order};

use cells::driver_at;
use chains::sharing::nets_of;
use chains::{TABLE, drivers_on, spare};
use rules::{Driver, Position};
use words::{NetSet, loops};

// The driver at c, if the pass stops at it: if its test, of the net's degree and of the control cell, passes.
fn stop_at<F: Fn(usize, Position) -> bool>(
    file: &[u8],
    table: &[u16; TABLE],
    stops: &F,
    c: Position,
) -> Option<Driver>
    requires ready { Ready file.now table.now }
    requires c_bound { c.0 < cells_of file.now }
    requires callable { Callable (F.pre stops.now) }
    ensures stands { IfSome result (λ d. driver_at (board_of file.now) c.0 ≡ Some d) }
    ensures stops { (wanted : ℕ → Bool) (allowed : ℕ → Bool) → Tells (F.post stops.now) wanted allowed → result ≡ stop_by (board_of file.now) wanted allowed c.0 }
{
    let driver = driver_at(file, c)?;
    if stops(drivers_on(table, driver.net), driver.control) {
        return Some(driver);
    }
    None
}

// Control cell k, whose nets these are, is on besides, unless one of them is covered. Returns the nets that
// are covered now: a control cell is marked when one of its nets is among these.
fn turn_on(k: Position, nets: NetSet, covered: NetSet, on: &mut [u64]) -> NetSet
    requires { k.0 < 64 * length on.old }
    ensures { (b : Board) → member nets.words ≡ drives b k.0 → Leads b (λ l. joined b l k.0) (turned_as on.old covered) (turned_as on.new result) }
{
    if nets.meets(covered) {
        return covered;
    }
    loops::add(on, k.0 as usize);
    nets.union(covered)
}

// Where a pass stops at a driver, its control cell is turned on, unless it is marked. Where the driver's own
// net is covered its control cell is marked, and its nets need not be gathered. Returns the nets that are
// covered now. Each of the two passes has a copy of its own, and LLVM would call it from both: that costs a group
// 19 to 27 more instructions in a hundred.
#[inline(always)]
fn turn(
    file: &[u8],
    table: &[u16; TABLE],
    driver: Driver,
    covered: NetSet,
    on: &mut [u64],
) -> NetSet
    requires ready { Ready file.now table.now }
    requires on_board { OnBoard file.now driver }
    requires on_len { length on.old ≡ cell_words }
    ensures { Leads (board_of file.now) (turn_to (board_of file.now) (Some driver)) (turned_as on.old covered) (turned_as on.new result) }
{
    if covered.has(driver.net) {
        return covered;
    }
    let nets = nets_of(file, table, driver.control);
    turn_on(driver.control, nets, covered, on)
}

// A pass over the highest drivers, of which the table holds `found`, from the highest down: at no other does it
// turn anything on. `stops` is its test, of a net's degree and a control cell; the two passes of a group differ in it
// alone. The control cells that it turns on join `on`, and their nets the covered ones, which it returns.
pub(crate) fn run_pass<F: Fn(usize, Position) -> bool>(
    file: &[u8],
    table: &[u16; TABLE],
    found: usize,
    stops: F,
    covered: NetSet,
    on: &mut [u64],
) -> NetSet
    requires order { Order file.now table.now found }
    requires callable { Callable (F.pre stops) }
    requires on_len { length on.old ≡ cell_words }
    ensures { (wanted allowed : ℕ → Bool) → Tells (F.post stops) wanted allowed → PassLeads file.now wanted allowed (turned_as on.old covered) (turned_as on.new result) }
{
    let mut nets = covered;
    for i in (0..found).rev() {
        let c = spare(table, i);
        if let Some(driver) = stop_at(file, table, &stops, c) {
            nets = turn(file, table, driver, nets, on);
        }
    }
    nets
}
