// The listing program: a board file on standard input; its vectors out, one a line, or its refusal.
// Where it cannot read or write, it says so on standard error.
#![tactic(auto)]

ghost use Rattle.std.specs.Prelude.{◌≡◌, ◌+◌, ◌*◌, ◌<◌, ◌≤◌, length, IfOk};
ghost use Rattle.std.proofs.Math.Seq.{paste};
ghost use Rattle.rules.specs.File.{board_of, cells_of};
ghost use Rattle.rules.specs.Refusals.{most_bytes};
ghost use Rattle.rules.specs.Vectors.{total_of};
ghost use Rattle.chains.specs.Table.{Blank};
ghost use Rattle.select.specs.Turns.{Ready};
ghost use Rattle.plan.specs.Planning.{PlanOf};

use blocks::read_sizes;
use chains::TABLE;
use plan::boards::{admit, plan_of};
use plan::steps::{Plan, total};
use rows::bytes::row_bytes;
use rows::vectors::write_vector;
use rules::Refusal;
use std::fmt::InlineText;
use std::io;
use std::io::Read;

// The longest file and a byte more: a longer one is refused, not cut.
const ROOM: usize = rules::MOST_FILE + 1;

// The most bytes of a row.
const ROW: usize = rules::MOST_BYTES;

// The most bytes of a line: two numbers of 20 digits and a byte after each, a row in digits, the
// newline.
const LINE: usize = 2 * 21 + 2 * ROW + 1;

// A capital hex digit. The library has none as a byte.
fn hex_digit(n: u8) -> u8
    requires { n ≤ 15 }
{
    if n < 10 {
        return 48 + n;
    }
    55 + n
}

// A text at a place of the line; answers the place after it.
fn put(line: &mut [u8], at: usize, text: &[u8]) -> usize
    requires { at + length text.now ≤ length line.old }
    ensures value { result ≡ at + length text.now }
    ensures line_after { line.new ≡ paste line.old at text.now (length text.now) }
{
    line[at..at + text.len()].copy_from_slice(text);
    at + text.len()
}

// A number, and a byte that ends it.
fn put_number(line: &mut [u8], at: usize, n: usize, end: u8) -> usize
    requires { at + 21 ≤ length line.old }
    ensures { result ≤ at + 21 }
{
    let digits = InlineText::<20>::of(n);
    let next = put(line, at, digits.as_str().as_bytes());
    line[next] = end;
    next + 1
}

// A byte in two digits.
fn put_byte(line: &mut [u8], at: usize, byte: u8) -> usize
    requires { at + 2 ≤ length line.old }
    ensures { result ≡ at + 2 }
{
    let pair = [hex_digit(byte / 16), hex_digit(byte % 16)];
    put(line, at, &pair)
}

// The row's bytes, byte 0 first.
fn put_row(line: &mut [u8], at: usize, row: &[u8]) -> usize
    requires { at + 2 * length row.now ≤ length line.old }
    ensures { result ≡ at + 2 * length row.now }
{
    let mut next = at;
    for byte in row {
        next = put_byte(line, next, *byte);
    }
    next
}

// Writes the line up to its end, in one call. Fails where it cannot, as does every function below
// that lists.
fn say(rt: &impl Print, line: &[u8], end: usize) -> io::Result<()>
    requires { end ≤ length line.now }
{
    rt.write_all(&line[0..end])
}

// The line of a vector: its number, its group, its row.
fn say_row(rt: &impl Print, t: usize, group: usize, row: &[u8]) -> io::Result<()>
    requires { length row.now ≤ most_bytes }
{
    let mut line = [0u8; LINE];
    let group_at = put_number(&mut line, 0, t, b' ');
    let row_at = put_number(&mut line, group_at, group, b' ');
    let end_at = put_row(&mut line, row_at, row);
    let end = put(&mut line, end_at, b"\n");
    say(rt, &line, end)
}

// Vector t of an admitted board, as a line; the table can be used again.
fn say_vector(
    rt: &impl Print,
    file: &[u8],
    table: &mut [u16; TABLE],
    cells: usize,
    plan: Plan,
    t: usize,
) -> io::Result<()>
    requires ready { Ready file.now table.old }
    requires cells_value { cells ≡ cells_of file.now }
    requires plan_of { PlanOf (board_of file.now) plan }
    requires t_bound { t < total_of (board_of file.now) }
    ensures { Ready file.now table.new }
{
    let mut row = [0u8; ROW];
    let group = write_vector(file, table, cells, plan, t, &mut row);
    let bytes = row_bytes(cells);
    say_row(rt, t, group, &row[0..bytes])
}

// The line of the vector total.
fn say_total(rt: &impl Print, vectors: usize) -> io::Result<()> {
    let mut line = [0u8; LINE];
    let at = put(&mut line, 0, b"vectors ");
    let end = put_number(&mut line, at, vectors, b'\n');
    say(rt, &line, end)
}

// The vector total, and then a line for each vector, up to the first that cannot be written.
fn say_vectors(rt: &impl Print, file: &[u8], table: &mut [u16; TABLE]) -> io::Result<()>
    requires { Ready file.now table.old }
{
    let cells = read_sizes(file).cells;
    let plan = plan_of(file, table);
    let vectors = total(plan);
    say_total(rt, vectors)?;
    for t in 0..vectors {
        say_vector(rt, file, table, cells, plan, t)?;
    }
    Ok(())
}

// The line of a refusal: number and place.
fn say_refusal(rt: &impl Print, refusal: Refusal) -> io::Result<()> {
    let mut line = [0u8; LINE];
    let number_at = put(&mut line, 0, b"refused ");
    let place_at = put_number(&mut line, number_at, refusal.number as usize, b' ');
    let end = put_number(&mut line, place_at, refusal.place as usize, b'\n');
    say(rt, &line, end)
}

// Checks the board once, and lists it.
fn list(rt: &impl Print, file: &[u8], table: &mut [u16; TABLE]) -> io::Result<()>
    requires { Blank table.old }
{
    match admit(file, table) {
        Ok(()) => say_vectors(rt, file, table),
        Err(refusal) => say_refusal(rt, refusal),
    }
}

// One read, into the file from a place on: 0 bytes at the input's end.
fn read_from(input: &mut impl Read, file: &mut [u8], from: usize) -> io::Result<usize>
    requires { from ≤ length file.old }
    ensures { IfOk result (λ n. from + n ≤ length file.old) }
{
    input.read(&mut file[from..])
}

// Reads to the input's end, or until the file is full, and answers how many bytes. A read that fails
// is not taken for the end. No method of `Read` does that in lent memory.
fn read_input(input: &mut impl Read, file: &mut [u8]) -> io::Result<usize>
    ensures { IfOk result (λ n. n ≤ length file.old) }
{
    let mut done = 0;
    while done < file.len() {
        let more = read_from(input, file, done)?;
        if more == 0 {
            return Ok(done);
        }
        done += more;
    }
    Ok(done)
}

fn main(rt: HostRuntime) {
    let mut file = [0u8; ROOM];
    let mut table = [0u16; TABLE];
    let Ok(n) = read_input(&mut rt.stdin(), &mut file) else {
        let _ = eprintln!(rt; "listing: cannot read");
        return;
    };
    if list(&rt, &file[0..n], &mut table).is_err() {
        let _ = eprintln!(rt; "listing: cannot write");
    }
}
