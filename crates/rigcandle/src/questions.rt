// The four questions: refusals 1 to 12, then each question's own, then its answer.
ghost use Rattle.std.specs.Prelude.{◌≡◌};
ghost use Rattle.rules.specs.File.{board_of};
ghost use Rattle.rules.specs.Refusals.{judge, count_checks, Accepted};
ghost use Rattle.rules.specs.Answers.{count_answer, count_outcome, groups_answer, groups_outcome, vector_answer, vector_outcome, marks_answer, marks_outcome};
ghost use Rattle.chains.specs.Table.{Blank};
ghost use Rattle.plan.specs.Planning.{Admitted, PlanOf};
ghost use Rattle.rigcandle.specs.Asking.{PlannedAs, answer_bits};

use crate::packing::{count_bits, group_bits, marks_bits};
use blocks::read_sizes;
use chains::TABLE;
use marks::judge_readings;
use plan::boards::{admit, plan_of};
use plan::steps::{Plan, total};
use readings::walk::read_nets;
use rows::bytes::row_bytes;
use rows::groups::write_groups;
use rows::vectors::write_vector;
use rules::{MOST_CELLS, Refusal, once};

// Refusals 1 to 12, or the plan of an admitted board; the table goes with this call.
fn make_plan(file: &[u8]) -> Result<Plan, Refusal>
    ensures { PlannedAs file.now result }
{
    let mut table = [0u16; TABLE];
    admit(file, &mut table)?;
    Ok(plan_of(file, &table))
}

pub(crate) fn ask_count(file: &[u8]) -> Result<u64, Refusal>
    ensures { answer_bits result ≡ (count_outcome (count_answer file.now)).bits }
{
    let plan = make_plan(file)?;
    Ok(count_bits(plan.groups, plan.wide, total(plan)))
}

// The groups of an admitted board. Refusal 15.
fn answer_groups(file: &[u8], out: &mut [u8], table: &mut [u16; TABLE]) -> Result<u64, Refusal>
    requires { Admitted file.now table.old }
    ensures value { answer_bits result ≡ (groups_outcome (groups_answer file.now out.old)).bits }
    ensures out_after { out.new ≡ (groups_outcome (groups_answer file.now out.old)).buffer }
{
    let cells = read_sizes(file).cells;
    let plan = plan_of(file, table);
    once(15, out.len() < plan.groups * row_bytes(cells))?;
    write_groups(file, table, cells, plan.groups, out);
    Ok(group_bits(plan.groups))
}

pub(crate) fn ask_groups(
    file: &[u8],
    out: &mut [u8],
    table: &mut [u16; TABLE],
) -> Result<u64, Refusal>
    requires { Blank table.old }
    ensures value { answer_bits result ≡ (groups_outcome (groups_answer file.now out.old)).bits }
    ensures out_after { out.new ≡ (groups_outcome (groups_answer file.now out.old)).buffer }
{
    admit(file, table)?;
    answer_groups(file, out, table)
}

// Vector `number` of an admitted board. Refusals 13 and 15.
fn answer_vector(
    file: &[u8],
    number: u64,
    out: &mut [u8],
    table: &mut [u16; TABLE],
) -> Result<u64, Refusal>
    requires { Admitted file.now table.old }
    ensures value { answer_bits result ≡ (vector_outcome (vector_answer file.now number out.old)).bits }
    ensures out_after { out.new ≡ (vector_outcome (vector_answer file.now number out.old)).buffer }
{
    let cells = read_sizes(file).cells;
    let plan = plan_of(file, table);
    once(13, total(plan) as u64 <= number)?;
    once(15, out.len() < row_bytes(cells))?;
    let group = write_vector(file, table, cells, plan, number as usize, out);
    Ok(group_bits(group))
}

pub(crate) fn ask_vector(
    file: &[u8],
    number: u64,
    out: &mut [u8],
    table: &mut [u16; TABLE],
) -> Result<u64, Refusal>
    requires { Blank table.old }
    ensures value { answer_bits result ≡ (vector_outcome (vector_answer file.now number out.old)).bits }
    ensures out_after { out.new ≡ (vector_outcome (vector_answer file.now number out.old)).buffer }
{
    admit(file, table)?;
    answer_vector(file, number, out, table)
}

// The marks of an admitted board's nets. Refusals 14 and 15.
fn answer_marks(file: &[u8], capture: &[u8], out: &mut [u8], plan: Plan) -> Result<u64, Refusal>
    requires file_value { judge (count_checks file.now) ≡ Accepted }
    requires plan_of { PlanOf (board_of file.now) plan }
    ensures value { answer_bits result ≡ (marks_outcome (marks_answer file.now capture.now out.old)).bits }
    ensures out_after { out.new ≡ (marks_outcome (marks_answer file.now capture.now out.old)).buffer }
{
    let sizes = read_sizes(file);
    once(14, capture.len() != total(plan) * row_bytes(sizes.cells))?;
    once(15, out.len() < sizes.nets)?;
    let mut readings = [0u16; MOST_CELLS];
    read_nets(capture, plan, sizes.cells, &mut readings);
    let found = judge_readings(file, &readings, sizes.cells, sizes.nets, out);
    Ok(marks_bits(found.pass, found.fail, found.unsure))
}

pub(crate) fn ask_marks(file: &[u8], capture: &[u8], out: &mut [u8]) -> Result<u64, Refusal>
    ensures value { answer_bits result ≡ (marks_outcome (marks_answer file.now capture.now out.old)).bits }
    ensures out_after { out.new ≡ (marks_outcome (marks_answer file.now capture.now out.old)).buffer }
{
    let plan = make_plan(file)?;
    answer_marks(file, capture, out, plan)
}
