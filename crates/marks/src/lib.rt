// Marks: from what each input cell read to a byte for each net, and the numbers of pass, fail and unsure.
#![tactic(auto)]

ghost use Rattle.std.specs.Prelude.{◌≡◌, List, ℕ, ◌+◌, ◌*◌, ◌<◌, ◌≤◌, length};
ghost use Rattle.rules.specs.Answers.{over};
ghost use Rattle.rules.specs.File.{Board, board_of, cells_of};
ghost use Rattle.rules.specs.Marks.{byte_of};
ghost use Rattle.words.specs.Sets.{net_words, member};
ghost use Rattle.cells.specs.Whole.{Sized};
ghost use Rattle.marks.specs.Judging.{reader_in, plus_read, Readings, TestedBelow, Tested, mark_for, mark_in, one_more, CountsBounded, Marked, marks_by, Counted};

use cells::cell_at;
use rules::{Cell, Mark, Net, Position};
use words::NetSet;

// What the readings say of the nets: which have an input cell, which have one that read something
// else than the net's own word, and whose own word a cell of another net read.
#[derive(Clone, Copy)]
pub struct Tests {
    pub seen: NetSet,
    pub failed: NetSet,
    pub twice: NetSet,
}

// How many nets have which kind of mark.
#[derive(Clone, Copy, Default)]
pub struct Counts {
    pub pass: usize,
    pub fail: usize,
    pub unsure: usize,
}

// The net of an input cell; any other cell has none.
#[tactic(auto, unfolding(crate::specs::Judging::reader_in))]
fn reader_of(cell: Cell) -> Option<Net>
    ensures { result ≡ reader_in cell }
{
    match cell {
        Cell::Input(net) => Some(net),
        _ => None,
    }
}

// The set with the net besides whose own word was read, if some net's was. The entry is 1 + that net, or 0: the code that crate readings
// reads into it bit by bit, in fixed memory of two bytes a cell.
fn with_read(set: NetSet, entry: u16) -> NetSet
    requires { entry ≤ 64 * net_words }
    ensures { member result.words ≡ plus_read (member set.words) entry }
{
    match entry.checked_sub(1) {
        None => set,
        Some(n) => set.with(Net(n)),
    }
}

// The tests as far as the cells below c go, with what the cell at c says besides.
fn add_reading(file: &[u8], table: &[u16], c: Position, tests: Tests) -> Tests
    requires readings { Readings file.now table.now }
    requires c_bound { c.0 < cells_of file.now }
    requires tested_below { TestedBelow (board_of file.now) table.now c.0 tests }
    ensures { TestedBelow (board_of file.now) table.now (c.0 + 1) result }
{
    let Some(net) = reader_of(cell_at(file, c)) else {
        return tests;
    };
    let entry = table[c.0 as usize];
    let seen = tests.seen.with(net);
    if entry == net.0 + 1 {
        return Tests { seen, ..tests };
    }
    let failed = tests.failed.with(net);
    let twice = with_read(tests.twice, entry);
    Tests {
        seen,
        failed,
        twice,
    }
}

// No cell has said anything yet.
fn untested() -> Tests
    ensures { (b : Board) (readings : List ℕ) → TestedBelow b readings 0 result }
{
    let none = NetSet::empty();
    Tests {
        seen: none,
        failed: none,
        twice: none,
    }
}

// The three tests of each net, by what every cell read.
pub(crate) fn collect(file: &[u8], table: &[u16], cells: usize) -> Tests
    requires readings { Readings file.now table.now }
    requires cells_value { cells ≡ cells_of file.now }
    ensures { Tested (board_of file.now) table.now result }
{
    let mut tests = untested();
    for c in 0..cells {
        tests = add_reading(file, table, Position(c as u16), tests);
    }
    tests
}

// The table of marks, in its order: the first that is given.
#[tactic(auto, unfolding(rules::specs::Marks::first_given, crate::specs::Judging::mark_for))]
fn mark_for(unseen: bool, failed: bool, twice: bool) -> Mark
    ensures { result ≡ mark_for unseen failed twice }
{
    if unseen {
        return Mark::NotSeen;
    }
    if failed {
        return Mark::Fail;
    }
    if twice {
        return Mark::ReadTwice;
    }
    Mark::Pass
}

// The mark of net n.
#[tactic(auto, unfolding(crate::specs::Judging::mark_in))]
fn mark_of(tests: Tests, n: Net) -> Mark
    requires { n.0 < 64 * net_words }
    ensures { result ≡ mark_in tests n.0 }
{
    let seen = tests.seen.has(n);
    let failed = tests.failed.has(n);
    let twice = tests.twice.has(n);
    mark_for(!seen, failed, twice)
}

// The counts with one mark more.
#[tactic(auto, unfolding(rules::specs::Marks::byte_of, crate::specs::Judging::one_more))]
fn count_mark(counts: Counts, mark: Mark) -> Counts
    requires { CountsBounded counts }
    ensures { result ≡ one_more counts (byte_of mark) }
{
    match mark {
        Mark::Pass => Counts {
            pass: counts.pass + 1,
            ..counts
        },
        Mark::Fail => Counts {
            fail: counts.fail + 1,
            ..counts
        },
        Mark::NotSeen | Mark::ReadTwice => Counts {
            unsure: counts.unsure + 1,
            ..counts
        },
    }
}

// The mark bytes of all nets, in the buffer from its start on, and how many there are of which kind.
pub(crate) fn write_marks(out: &mut [u8], nets: usize, tests: Tests) -> Counts
    requires nets_in_bounds { nets ≤ length out.old }
    requires nets_bound { nets ≤ 64 * net_words }
    ensures { Marked tests nets out.old out.new result }
{
    let mut counts = Counts::default();
    for (n, byte) in out[..nets].iter_mut().enumerate() {
        let mark = mark_of(tests, Net(n as u16));
        *byte = u8::from(mark);
        counts = count_mark(counts, mark);
    }
    counts
}

// The marks that the readings of a whole file give: their bytes in the buffer, and their numbers.
pub fn judge_readings(
    file: &[u8],
    table: &[u16],
    cells: usize,
    nets: usize,
    out: &mut [u8],
) -> Counts
    requires readings { Readings file.now table.now }
    requires sized { Sized file.now cells nets }
    requires nets_in_bounds { nets ≤ length out.old }
    ensures out_after { out.new ≡ over (marks_by (board_of file.now) table.now) out.old }
    ensures counted { Counted (board_of file.now) table.now result }
{
    let tests = collect(file, table, cells);
    write_marks(out, nets, tests)
}
