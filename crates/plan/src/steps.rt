// The steps of a plan, base vectors and those inserted after them: counted, and one of them found.
ghost use Rattle.std.specs.Prelude.{◌≡◌, ◌+◌, ◌*◌, ◌<◌, ◌≤◌, length, get_or};
ghost use Rattle.rules.specs.File.{most_number};
ghost use Rattle.rules.specs.Vectors.{inserted_after, steps_of};
ghost use Rattle.rules.specs.declared.Step.TheVariants.{Base};
ghost use Rattle.words.specs.Sets.{member};
ghost use Rattle.plan.specs.Plans.{bases_for, inserted_between, full_after, round_of};

use crate::codes::{inserted, pattern};
pub use crate::numbers::Plan;
use rules::Step;
use words::NetSet;

// The net values of base vector i.
pub fn base_values(plan: Plan, i: usize) -> NetSet
    ensures { member result.words ≡ (bases_for plan).value i }
{
    pattern(plan.nets, plan.wide, i % plan.wide)
}

// How many vectors are inserted between two base vectors of these values.
fn inserted_between(old: NetSet, new: NetSet, limit: usize) -> usize
    requires { (1 ≤ limit) × (limit ≤ most_number) }
    ensures { result ≡ inserted_between (member old.words) (member new.words) limit }
{
    inserted(old.differing(new), limit)
}

// How many vectors are inserted after base vector i where another follows.
fn full_after(plan: Plan, i: usize) -> usize
    requires { i < plan.groups * plan.wide }
    ensures { result ≡ full_after plan i }
{
    let old = base_values(plan, i);
    let new = base_values(plan, i + 1);
    inserted_between(old, new, plan.limit)
}

// How many vectors are inserted after base vector i.
pub fn extra_after(plan: Plan, i: usize) -> usize
    requires { i < plan.groups * plan.wide }
    ensures { result ≡ inserted_after (bases_for plan) i }
{
    if i + 1 < plan.groups * plan.wide {
        return full_after(plan, i);
    }
    0
}

// The number of vectors of one round of the patterns where another follows it. Each pattern is taken once.
pub(crate) fn round(plan: Plan) -> usize
    ensures { result ≡ round_of plan }
{
    let mut old = base_values(plan, 0);
    let mut n = 0;
    for i in 0..plan.wide {
        let new = base_values(plan, i + 1);
        n += 1 + inserted_between(old, new, plan.limit);
        old = new;
    }
    n
}

// The number of vectors: a round for each group, less what is inserted after a round's last pattern, since none follows the last.
pub fn total(plan: Plan) -> usize
    ensures { result ≡ length (steps_of (bases_for plan)) }
{
    plan.groups * round(plan) - full_after(plan, plan.wide - 1)
}

// Step t of a turn: each group is one turn of the patterns, counted from 0.
fn step_in(plan: Plan, turn: usize, t: usize) -> Step
    requires t_bound { t < round_of plan }
    requires t_in_bounds { turn * round_of plan + t < length (steps_of (bases_for plan)) }
    ensures { result ≡ get_or (steps_of (bases_for plan)) (turn * round_of plan + t) (Base 0) }
{
    let mut left = t;
    for j in 0..plan.wide {
        let i = turn * plan.wide + j;
        if left == 0 {
            return Step::Base(i);
        }
        let extra = full_after(plan, j);
        if left <= extra {
            return Step::Inserted(i, left);
        }
        left -= extra + 1;
    }
    // t is below the round's length, so it lies in one of its parts: proved.
    unreachable!()
}

// Step t.
pub fn step_at(plan: Plan, t: usize) -> Step
    requires { t < length (steps_of (bases_for plan)) }
    ensures { result ≡ get_or (steps_of (bases_for plan)) t (Base 0) }
{
    let round = round(plan);
    step_in(plan, t / round, t % round)
}
