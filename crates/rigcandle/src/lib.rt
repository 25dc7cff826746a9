// The four questions for C. Each walks from the file's bytes to its answer once, and keeps nothing.
#![tactic(auto)]

ghost use Rattle.std.specs.Prelude.{◌≡◌};
ghost use Rattle.rules.specs.Answers.{count_answer, count_outcome, groups_answer, groups_outcome, vector_answer, vector_outcome, marks_answer, marks_outcome};

use chains::TABLE;
use packing::answer_bits;

mod packing;
mod questions;

// How many groups, code bits and vectors the board has.
#[unsafe(no_mangle)]
pub extern "C" fn count(file: &[u8]) -> u64
    ensures { result ≡ (count_outcome (count_answer file.now)).bits }
{
    answer_bits(questions::ask_count(file))
}

// The control cells that are on in each group: a row for each.
#[unsafe(no_mangle)]
pub extern "C" fn groups(file: &[u8], out: &mut [u8]) -> u64
    ensures value { result ≡ (groups_outcome (groups_answer file.now out.old)).bits }
    ensures out_after { out.new ≡ (groups_outcome (groups_answer file.now out.old)).buffer }
{
    let mut table = [0u16; TABLE];
    answer_bits(questions::ask_groups(file, out, &mut table))
}

// One vector: its group, and its row.
#[unsafe(no_mangle)]
pub extern "C" fn vector(file: &[u8], number: u64, out: &mut [u8]) -> u64
    ensures value { result ≡ (vector_outcome (vector_answer file.now number out.old)).bits }
    ensures out_after { out.new ≡ (vector_outcome (vector_answer file.now number out.old)).buffer }
{
    let mut table = [0u16; TABLE];
    answer_bits(questions::ask_vector(file, number, out, &mut table))
}

// What a capture says of each net: a mark byte for each, and how many there are of which kind.
#[unsafe(no_mangle)]
pub extern "C" fn marks(file: &[u8], capture: &[u8], out: &mut [u8]) -> u64
    ensures value { result ≡ (marks_outcome (marks_answer file.now capture.now out.old)).bits }
    ensures out_after { out.new ≡ (marks_outcome (marks_answer file.now capture.now out.old)).buffer }
{
    answer_bits(questions::ask_marks(file, capture, out))
}
