// A test program: reads board files from standard input, each behind its length in two bytes, and
// writes a line for each with the number and the two places of its verdict. stdin and stdout are made by
// tests/reference/cases.py, whose expected verdicts are written by hand from document 01.
#![tactic(auto)]

ghost use Rattle.std.specs.Prelude.{◌≤◌, length, IfOk};

use rules::Refusal;
use std::io;
use std::io::Read;

// At most so many files, and at most so many bytes of one.
const MOST_FILES: usize = 1000;

const ROOM: usize = 8192;

// One line: number, place and second place, a space between.
fn say(rt: &impl Print, refusal: Refusal) -> io::Result<()> {
    println!(rt; "{} {} {}", refusal.number, refusal.place, refusal.second)
}

// Judges the file and says so.
fn answer(rt: &impl Print, file: &[u8]) -> io::Result<()> {
    match board::verdict::verdict(file) {
        Ok(()) => say(
            rt,
            Refusal {
                number: 0,
                place: 0,
                second: 0,
            },
        ),
        Err(refusal) => say(rt, refusal),
    }
}

// Reads until the part is full or the input ends, and answers how many bytes. No method of `Read` does that in lent memory.
fn read_full(input: &mut impl Read, part: &mut [u8]) -> io::Result<usize>
    ensures { IfOk result (λ n. n ≤ length part.old) }
{
    let mut done = 0;
    while done < part.len() {
        let more = input.read(&mut part[done..])?;
        if more == 0 {
            break;
        }
        done += more;
    }
    Ok(done)
}

// Reads so many bytes as the file and answers it.
fn take(rt: &impl Print, input: &mut impl Read, file: &mut [u8]) -> io::Result<()> {
    read_full(input, file)?;
    answer(rt, file)
}

// Takes the next file; false where none is left.
fn next(rt: &impl Print, input: &mut impl Read) -> io::Result<bool> {
    let mut head = [0u8; 2];
    if read_full(input, &mut head)? < 2 {
        return Ok(false);
    }
    let len = blocks::pair(&head, 0) as usize;
    if ROOM < len {
        return Ok(false);
    }
    let mut file = [0u8; ROOM];
    take(rt, input, &mut file[..len])?;
    Ok(true)
}

fn main(rt: HostRuntime) -> io::Result<()> {
    let mut input = rt.stdin();
    for _ in 0..MOST_FILES {
        if !next(&rt, &mut input)? {
            return Ok(());
        }
    }
    Ok(())
}
