// Which cells read one net's own word in every vector. The first group's base vectors gave each cell its entry; between two of them a
// reading may change only where the entry's net changes, and every later group is the first once more.
ghost use Rattle.std.specs.Prelude.{◌≡◌, cond, ◌+◌, ◌*◌, ◌-◌, ◌≤◌, ◌<◌, length};
ghost use Rattle.base.specs.Tests.{any};
ghost use Rattle.rules.specs.Rows.{row_bytes, row_bit};
ghost use Rattle.rules.specs.Vectors.{steps_of};
ghost use Rattle.words.specs.Sets.{net_words, member, unlike};
ghost use Rattle.plan.specs.Plans.{bases_for};
ghost use Rattle.readings.specs.Readings.{period, stray_rows, stray_after, stray_in, other_later, lost, Mapped, Entries, Left, Scanned, Captured, Rowed, Part, Read};

use crate::codes::{map_entries, own_codes, read_codes};
use crate::scan::{seen, sift_byte};
use plan::steps::{Plan, base_values, extra_after, total};
use plan::values::mixed;
use rows::bytes::row_bytes;
use rules::{MOST_BYTES, Position};
use words::NetSet;

// What the walk over a capture goes by: a row of so many bytes for each vector of the plan, and an entry for each bit of a row. The cells
// that are left are no field: the walk writes them and reads the rest, and their type says how many bytes they take.
#[derive(Clone, Copy)]
struct Walk<'a> {
    capture: &'a [u8],
    plan: Plan,
    bytes: usize,
    table: &'a [u16],
    ghost rowed: { Rowed plan capture.now bytes },
    ghost entries: { Entries (64 * net_words) (8 * bytes) table.now },
}

// Part i of the plan: how many vectors are inserted after base vector i, and the vector at which the part begins. That it is so, `Part`,
// is said of a plan, which is the walk's: so it stands in the clauses of the two functions that take a part.
#[derive(Clone, Copy)]
struct Span {
    i: usize,
    extra: usize,
    start: usize,
}

impl Walk<'_> {
    // The cells that are left after vectors t and u, between which these nets change.
    fn check_rows(&self, t: usize, u: usize, changing: NetSet, left: &mut [u8; MOST_BYTES])
        requires t_in_bounds { t < length (steps_of (bases_for self.now.plan)) }
        requires u_in_bounds { u < length (steps_of (bases_for self.now.plan)) }
        ensures { Left (stray_rows self.now.capture.now self.now.bytes self.now.table.now t u (member changing.words)) left.old (8 * self.now.bytes) left.new }
    {
        // Read once: with `self.bytes` and the others in each round, which was tried, marks took a third more instructions on the board bus
        // (1,488,378, not 1,114,304).
        let Walk {
            capture,
            bytes,
            table,
            ..
        } = *self;
        let at = t * bytes;
        let other = u * bytes;
        for j in 0..bytes {
            let unlike = capture[at + j] ^ capture[other + j];
            sift_byte(left, j, unlike, &table[8 * j..], changing);
        }
    }

    // The cells that are left after vector t and the next, whose nets have these values.
    fn check_next(&self, t: usize, before: NetSet, after: NetSet, left: &mut [u8; MOST_BYTES])
        requires { t + 1 < length (steps_of (bases_for self.now.plan)) }
        ensures { Left (stray_rows self.now.capture.now self.now.bytes self.now.table.now t (t + 1) (unlike (member before.words) (member after.words))) left.old (8 * self.now.bytes) left.new }
    {
        self.check_rows(t, t + 1, before.flip(after), left);
    }

    // The cells that are left after the vectors inserted in a part: each is held against the one before it, and the next base vector
    // against the last.
    fn check_inserted(&self, span: Span, left: &mut [u8; MOST_BYTES])
        requires part { Part self.now.plan span.i span.extra span.start }
        requires extra_nonzero { 0 < span.extra }
        ensures { Left (λ c. any (1 + span.extra) (λ k. stray_after self.now.plan self.now.bytes self.now.capture.now self.now.table.now c (span.start + k))) left.old (8 * self.now.bytes) left.new }
    {
        let old = base_values(self.plan, span.i);
        let new = base_values(self.plan, span.i + 1);
        let mut values = old;
        for k in 0..span.extra {
            let next = mixed(old, new, (k + 1) * self.plan.limit);
            self.check_next(span.start + k, values, next, left);
            values = next;
        }
        self.check_next(span.start + span.extra, values, new, left);
    }

    // The cells that are left after a part: its base vector and the next are right by the entries, so where nothing is inserted all stay.
    fn check_part(&self, span: Span, left: &mut [u8; MOST_BYTES])
        requires part { Part self.now.plan span.i span.extra span.start }
        ensures { Left (λ c. stray_in self.now.plan self.now.bytes self.now.capture.now self.now.table.now c span.i) left.old (8 * self.now.bytes) left.new }
    {
        if span.extra == 0 {
            return;
        }
        self.check_inserted(span, left);
    }

    // The cells that are left after the first group, and where it ends.
    fn check_first(&self, left: &mut [u8; MOST_BYTES]) -> usize
        ensures value { result ≡ period self.now.plan }
        ensures left { Left (λ c. any self.now.plan.wide (stray_in self.now.plan self.now.bytes self.now.capture.now self.now.table.now c)) left.old (8 * self.now.bytes) left.new }
    {
        let mut t = 0;
        for i in 0..self.plan.wide {
            let extra = extra_after(self.plan, i);
            self.check_part(Span { i, extra, start: t }, left);
            t += 1 + extra;
        }
        t
    }

    // The cells that are left after the later groups: each vector is held against the one a group earlier.
    fn check_later(&self, first: usize, left: &mut [u8; MOST_BYTES])
        ensures { Left (λ c. any (length (steps_of (bases_for self.now.plan)) - first) (other_later first self.now.bytes self.now.capture.now c)) left.old (8 * self.now.bytes) left.new }
    {
        let none = NetSet::empty();
        for u in 0..total(self.plan).saturating_sub(first) {
            self.check_rows(first + u, u, none, left);
        }
    }

    // The cells that are left after all vectors.
    fn check_all(&self, left: &mut [u8; MOST_BYTES])
        ensures { Left (lost self.now.plan self.now.bytes self.now.capture.now self.now.table.now) left.old (8 * self.now.bytes) left.new }
    {
        let first = self.check_first(left);
        self.check_later(first, left);
    }
}

// The entries of the cells that are left; the others become 0.
fn clear(cells: usize, left: &[u8], table: &mut [u16])
    requires scanned { Scanned left.now 0 cells }
    requires cells_in_bounds { cells ≤ length table.old }
    ensures { Mapped (λ c entry. cond (row_bit left.now 0 c) entry 0) table.old cells table.new }
{
    map_entries(
        cells,
        table,
        |c, entry| if seen(left, 0, Position(c as u16)) {
            entry
        } else {
            0
        },
    );
}

// For each cell 1 + the net whose own word it reads in every vector, or 0, in a table that holds
// nothing yet. A cell that reads a net's own word reads the net's code in the first group's base vectors. The entries are no `Option<Net>`:
// they grow from 0 as codes, and the table is fixed memory of two bytes a cell.
pub fn read_nets(capture: &[u8], plan: Plan, cells: usize, table: &mut [u16])
    requires captured { Captured plan capture.now cells (row_bytes cells) }
    requires entries { Entries 0 (8 * row_bytes cells) table.old }
    ensures { Read plan capture.now table.old cells table.new }
{
    let bytes = row_bytes(cells);
    read_codes(capture, plan, cells, bytes, table);
    own_codes(cells, plan.nets, table);
    let mut left = [255u8; MOST_BYTES];
    let walk = Walk {
        capture,
        plan,
        bytes,
        table: &table[..],
    };
    walk.check_all(&mut left);
    clear(cells, &left, table);
}
