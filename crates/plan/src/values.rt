// The net values of a vector: those of a base vector, or of one inserted after it.
ghost use Rattle.std.specs.Prelude.{◌≡◌, ◌*◌};
ghost use Rattle.rules.specs.Vectors.{vector_of};
ghost use Rattle.rules.specs.declared.Step.TheVariants.{Inserted};
ghost use Rattle.words.specs.Sets.{member};
ghost use Rattle.plan.specs.Plans.{bases_for, mix, Within};

use crate::steps::{Plan, base_values};
use rules::Step;
use words::NetSet;

// The old values with the k lowest of the differing nets changed to the new.
pub fn mixed(old: NetSet, new: NetSet, k: usize) -> NetSet
    ensures { member result.words ≡ mix k (member old.words) (member new.words) }
{
    let changed = old.flip(new).lowest_members(k);
    old.flip(changed)
}

// The t-th inserted after base vector i: the t x SSOL lowest of the differing nets have changed.
fn inserted_values(plan: Plan, i: usize, t: usize) -> NetSet
    requires { Within plan (Inserted i t) }
    ensures { member result.words ≡ (vector_of (bases_for plan) (Inserted i t)).value }
{
    let old = base_values(plan, i);
    let new = base_values(plan, i + 1);
    mixed(old, new, t * plan.limit)
}

// The net values of a step's vector.
pub fn values(plan: Plan, step: Step) -> NetSet
    requires { Within plan step }
    ensures { member result.words ≡ (vector_of (bases_for plan) step).value }
{
    match step {
        Step::Base(i) => base_values(plan, i),
        Step::Inserted(i, t) => inserted_values(plan, i, t),
    }
}

// The group of a step's vector, from 1: an inserted one has the earlier group.
#[tactic(auto, unfolding(rules::specs::Vectors::vector_of, crate::specs::Plans::bases_for))]
pub fn group_of(plan: Plan, step: Step) -> usize
    requires { Within plan step }
    ensures { result ≡ (vector_of (bases_for plan) step).group }
{
    match step {
        Step::Base(i) | Step::Inserted(i, _) => 1 + i / plan.wide,
    }
}
