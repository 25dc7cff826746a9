// A test program: N, p, G, SSOL and total of some plans, and every vector of two of them. stdout is made by
// tests/reference/plans.py.
#![tactic(auto)]

ghost use Rattle.std.specs.Prelude.{◌<◌, ◌≤◌, length};
ghost use Rattle.rules.specs.Refusals.{most_nets, most_limit, most_drivers};
ghost use Rattle.rules.specs.Vectors.{steps_of};
ghost use Rattle.plan.specs.Plans.{Small, bases_for};

use plan::codes::width;
use plan::steps::{Plan, step_at, total};
use plan::values::{group_of, values};
use rules::Net;
use std::io;
use words::NetSet;

// The plan of so many nets, groups and SSOL.
fn plan_of(nets: usize, groups: usize, limit: usize) -> Plan
    requires { (nets ≤ most_nets) × (1 ≤ groups) × (groups ≤ most_drivers) × (1 ≤ limit) × (limit ≤ most_limit) }
    ensures { Small result }
{
    Plan {
        nets,
        wide: width(nets),
        groups,
        limit,
    }
}

// A number and a space.
fn say(rt: &impl Print, n: usize) -> io::Result<()> {
    print!(rt; "{n} ")
}

// A line: N, p, G, SSOL and total.
fn say_total(rt: &impl Print, plan: Plan) -> io::Result<()> {
    say(rt, plan.nets)?;
    say(rt, plan.wide)?;
    say(rt, plan.groups)?;
    say(rt, plan.limit)?;
    rt.println(total(plan))
}

// A net's value.
fn say_value(rt: &impl Print, set: NetSet, m: usize) -> io::Result<()>
    requires { m < most_nets }
{
    if set.has(Net(m as u16)) {
        rt.print("1")
    } else {
        rt.print("0")
    }
}

// The values of so many nets, from net 0 on.
fn say_values(rt: &impl Print, set: NetSet, nets: usize) -> io::Result<()>
    requires { nets ≤ most_nets }
{
    for m in 0..nets {
        say_value(rt, set, m)?;
    }
    Ok(())
}

// A line: the group of vector t, and its net values.
fn say_vector(rt: &impl Print, plan: Plan, t: usize) -> io::Result<()>
    requires { t < length (steps_of (bases_for plan)) }
{
    let step = step_at(plan, t);
    say(rt, group_of(plan, step))?;
    say_values(rt, values(plan, step), plan.nets)?;
    rt.println("")
}

// Every vector, a line each.
fn say_vectors(rt: &impl Print, plan: Plan) -> io::Result<()> {
    for t in 0..total(plan) {
        say_vector(rt, plan, t)?;
    }
    Ok(())
}

fn main(rt: HostRuntime) -> io::Result<()> {
    say_total(&rt, plan_of(1, 1, 1))?;
    say_total(&rt, plan_of(3, 2, 2))?;
    say_total(&rt, plan_of(3, 2, 1))?;
    say_total(&rt, plan_of(254, 1, 1024))?;
    say_total(&rt, plan_of(255, 1, 1024))?;
    say_total(&rt, plan_of(128, 16, 2))?;
    say_total(&rt, plan_of(183, 16, 3))?;
    say_total(&rt, plan_of(256, 16, 1))?;
    say_vectors(&rt, plan_of(3, 2, 1))?;
    say_vectors(&rt, plan_of(70, 3, 9))
}
