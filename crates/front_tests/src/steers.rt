//! Steps of parameters by the lines of steer files, and the faults of lines.

use crate::common::{Files, bound, settings_of};
use crate::values::{named, words};
use cx_parfile::{SteerLine, read_steer};
use cx_text::{List, Style, tokens};
use cx_values::{SteerStep, ValueFault, assign, steer};
use std::alloc::Global;
use std::test::Fail;
use test_cases::same;

const WAVE: Files = (
    b"WaveInt",
    b"implements: wave\n",
    b"restricted:\nINT factor STEERABLE=ALWAYS { 0:256 } 64\n\
      INT edge STEERABLE=RECOVER { 0:9 } 0\nINT amount { 0:9 } 1\n\
      KEYWORD pattern STEERABLE=ALWAYS { \"point\" \"uniform\" } \"point\"\n\
      INT many[2] STEERABLE=ALWAYS { 0:9 } 1\n",
    b"",
);

const WIDER: Files = (
    b"Wider",
    b"implements: wider\n",
    b"shares: wave\nEXTENDS INT factor { 300 }\n",
    b"",
);

/// The lines of a steer file.
fn steer_lines(alloc: Global, lines: &str) -> Result<List<SteerLine>, Fail> {
    let tokens = tokens(alloc, lines.as_bytes(), Style::Par)?;
    Ok(read_steer(alloc, &tokens)?)
}

/// The answer for a parameter file and a steer file.
fn steered(
    alloc: Global,
    file: &str,
    lines: &str,
) -> Result<Result<List<SteerStep>, ValueFault>, Fail> {
    let bound = bound(alloc, &[WAVE, WIDER])?;
    let settings = settings_of(alloc, file)?;
    let values = assign(alloc, &bound, &settings)?;
    let lines = steer_lines(alloc, lines)?;
    Ok(steer(alloc, &bound, &values, &lines))
}

const PLAIN: &str = "Cactus::cctk_itlast = 2\n";

const EACH: &str = "Cactus::cctk_itlast = 2\nIO::checkpoint_every = 1\n";

const LAST: &str = "Cactus::cctk_itlast = 2\nIO::checkpoint_on_terminate = yes\n";

/// A parameter file, a steer file, and the name and the line of its first fault. A line with two faults has the first.
const FAULTS: &[(&str, &str, &str, u32)] = &[
    (PLAIN, "", "", 0),
    (PLAIN, "@1 driver::nosuch = 1\n", "UnknownParam", 1),
    (PLAIN, "@1 ActiveThorns = x\n", "UnknownParam", 1),
    (PLAIN, "@1 driver::lead[0] = 1\n", "Index", 1),
    (PLAIN, "@1 wave::many = 1\n", "Index", 1),
    (PLAIN, "@1 wave::many[2] = 1\n", "Index", 1),
    (PLAIN, "@1 wave::many[1] = 1\n", "", 0),
    (PLAIN, "@1 driver::lead = x\n", "NotSteerable", 1),
    (PLAIN, "@1 wave::amount = 1\n", "NotSteerable", 1),
    (PLAIN, "@2 wave::edge = 3\n", "NotSteerable", 1),
    (EACH, "@2 wave::edge = 3\n", "", 0),
    (EACH, "@3 wave::edge = 3\n", "", 0),
    (EACH, "@1 wave::edge = 3\n", "NotSteerable", 1),
    (EACH, "@4 wave::edge = 3\n", "NotSteerable", 1),
    (LAST, "@2 wave::edge = 3\n", "NotSteerable", 1),
    (LAST, "@3 wave::edge = 3\n", "", 0),
    (PLAIN, "@1000000 wave::factor = 3\n", "", 0),
    (PLAIN, "@2 wave::factor = no\n", "BadSpelling", 1),
    (PLAIN, "@2 wave::factor = -1\n", "OutOfRange", 1),
    (PLAIN, "@2 wave::factor = 257\n", "OutOfRange", 1),
    (PLAIN, "@2 wave::factor = 300\n", "", 0),
    (
        PLAIN,
        "@2 wave::factor = 1\n@1 wave::factor = 2\n",
        "SteerOrder",
        2,
    ),
    (
        PLAIN,
        "@2 wave::factor = 1\n@1 wave::factor = 999\n",
        "OutOfRange",
        2,
    ),
    (
        PLAIN,
        "@2 wave::factor = 1\n@2 wave::factor = 1\n@2 wave::many[0] = 2\n",
        "",
        0,
    ),
];

fn fault_of(answer: &Result<List<SteerStep>, ValueFault>) -> (&'static str, u32) {
    match answer {
        Ok(_) => ("", 0),
        Err(fault) => named(fault),
    }
}

/// A step's iteration, parameter, index and value in words.
type Step = (u64, usize, Option<u32>, &'static str);

const LINES: &str =
    "@1 WaveInt::Factor = 007\n@1 wave::factor = 7\n@2 wave::many[1] = 3\n@4 wave::pattern = UNIFORM\n";

/// The steps of these lines. Of two for one iteration both stand, and a keyword is spelled as it is declared.
const STEPS: &[Step] = &[
    (1, 37, None, "7"),
    (1, 37, None, "7"),
    (2, 41, Some(1), "3"),
    (4, 40, None, "uniform"),
];

/// Tests a row of `FAULTS`.
fn has_fault(alloc: Global, row: &(&str, &str, &str, u32)) -> Result<(), Fail> {
    let (file, lines, want, line) = *row;
    let answer = steered(alloc, file, lines)?;
    same(&(lines, file), &fault_of(&answer), &(want, line))
}

/// Tests a step.
fn is_step(alloc: Global, step: &SteerStep, want: &Step) -> Result<(), Fail> {
    let value = words(alloc, &step.value)?;
    let found = (step.at, step.param, step.index, value.as_slice());
    same(want, &found, &(want.0, want.1, want.2, want.3.as_bytes()))
}

#[test]
fn lines_have_their_first_fault(rt: HostRuntime) -> Result<(), Fail> {
    for row in FAULTS {
        has_fault(rt.alloc(), row)?;
    }
    Ok(())
}

#[test]
fn lines_give_steps(rt: HostRuntime) -> Result<(), Fail> {
    let steps = steered(rt.alloc(), PLAIN, LINES)??;
    same(&"how many steps", &steps.len(), &STEPS.len())?;
    for (step, want) in steps.as_slice().iter().zip(STEPS) {
        is_step(rt.alloc(), step, want)?;
    }
    Ok(())
}
