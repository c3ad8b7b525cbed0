//! What jobs say of a cut by weight, by the parameters of their files.
ghost use Rattle.std.specs.Prelude.{◌≤◌, ◌^◌, length};

use cx_job::make_job;
use cx_program::Automata;
use cx_rule::Routine;
use cx_text::Text;
use sample_runs::samples::CA;
use sample_runs::shelf_with;
use std::alloc::Global;
use std::test::Fail;
use test_cases::same;

/// What a job says: whether it is balanced, the number of the variable that weighs, and the factor.
type Said = (bool, Option<u32>, u64);

/// Lines of a parameter file, and what its job says.
const CASES: &[(&str, Said)] = &[
    ("", (false, None, 1)),
    ("driver::balance = yes\n", (true, None, 1)),
    ("driver::weight = \"CA::Cell\"\n", (false, Some(0), 1)),
    (
        "driver::balance = yes\ndriver::weight = ca::cell\ndriver::weight_factor = 0\n",
        (true, Some(0), 0),
    ),
    (
        "PUGH::weight_factor = 1048576\nPUGH::balance = 1\n",
        (true, None, 1_048_576),
    ),
];

/// What the job of a row of cells with these lines says.
fn said(alloc: Global, routines: &[Box<dyn Routine>], lines: &str) -> Result<Said, Fail>
    requires few { length routines.now ≤ 2 ^ 32 }
{
    let name = Text::from_slice(alloc, b"t.par")?;
    let mut shelf = shelf_with(alloc, CA, lines, &[])?;
    let job = make_job(alloc, &mut shelf, &name, routines)?;
    let weight = job.weight.map(|variable| variable.0);
    Ok((job.balance, weight, job.weight_factor))
}

/// Tests a row of `CASES`.
fn is_said(alloc: Global, lines: &str, want: &Said) -> Result<(), Fail> {
    let automata = Automata::new(alloc)?;
    let routines: [Box<dyn Routine>; 4] = [
        automata.ca_init,
        automata.ca_step,
        automata.ca_zero,
        automata.ca_count,
    ];
    same(&lines, &said(alloc, &routines, lines)?, want)
}

#[test]
fn jobs_say_how_they_are_balanced(rt: HostRuntime) -> Result<(), Fail> {
    for (lines, want) in CASES {
        is_said(rt.alloc(), lines, want)?;
    }
    Ok(())
}
