// A board's plan, and what every question begins with: refusals 1 to 12.
ghost use Rattle.std.specs.Prelude.{◌≡◌, ◌∷◌, [], ltb, length};
ghost use Rattle.rules.specs.File.{board_of};
ghost use Rattle.rules.specs.Refusals.{judge, once, most_vectors, count_checks, Accepted};
ghost use Rattle.rules.specs.Vectors.{steps_of};
ghost use Rattle.chains.specs.Table.{Blank};
ghost use Rattle.select.specs.Turns.{Ready};
ghost use Rattle.plan.specs.Planning.{PlanOf, Admitted};
ghost use Rattle.plan.specs.Plans.{bases_for};

use crate::codes::width;
use crate::steps::{Plan, total};
use blocks::read_sizes;
use board::verdict::examine;
use chains::TABLE;
use rules::{MOST_VECTORS, Verdict};
use select::degrees::groups_of;

// The plan of an accepted board.
pub fn plan_of(file: &[u8], table: &[u16; TABLE]) -> Plan
    requires { Ready file.now table.now }
    ensures { PlanOf (board_of file.now) result }
{
    let sizes = read_sizes(file);
    let groups = groups_of(file, table, sizes.nets);
    let wide = width(sizes.nets);
    Plan {
        nets: sizes.nets,
        wide,
        groups,
        limit: sizes.limit,
    }
}

// Refusal 12: over 4,096 vectors.
fn count_verdict(plan: Plan) -> Verdict
    ensures { result ≡ judge (once 12 (ltb most_vectors (length (steps_of (bases_for plan)))) ∷ []) }
{
    rules::once(12, MOST_VECTORS < total(plan))
}

// Refusals 1 to 12, with the table of an accepted board left in the lent one, which holds nothing yet.
pub fn admit(file: &[u8], table: &mut [u16; TABLE]) -> Verdict
    requires { Blank table.old }
    ensures value { result ≡ judge (count_checks file.now) }
    ensures admitted { judge (count_checks file.now) ≡ Accepted → Admitted file.now table.new }
{
    examine(file, table)?;
    count_verdict(plan_of(file, table))
}
