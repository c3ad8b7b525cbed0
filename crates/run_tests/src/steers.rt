//! Runs whose parameters are steered.

use crate::parts::runs_by_seeds;
use sample_files::File;
use sample_runs::Outcome;
use std::test::Fail;
use test_cases::same;

/// The parameters of the wave: its factor may be steered anywhere, and its edge after a checkpoint.
const PARAM: File = File {
    name: "arrangements/Integer/WaveInt/param.ccl",
    bytes: b"restricted:\n\
        INT factor STEERABLE=ALWAYS { 0:* } 64\n\
        KEYWORD pattern { \"point\" \"uniform\" \"alternate\" \"random\" } \"point\"\n\
        INT amount { *:* } 8\n\
        INT start { 0:* } 0\n\
        INT seed { 0:* } 0\n\
        INT edge STEERABLE=RECOVER { *:* } 0\n\
        BOOLEAN sum { } \"no\"\n",
};

/// A wave on a ring of six points.
const WAVE: &[u8] = b"ActiveThorns = \"WaveInt\"\n\
    driver::global_nx = 6\n\
    driver::periodic = yes\n\
    wave::factor = 256\n\
    wave::start = 2\n\
    IO::out_vars = \"wave::phi\"\n\
    IO::recover = \"autoprobe\"\n\
    IO::steer_file = \"s.txt\"\n";

const TWO: &str = "Cactus::cctk_itlast = 2\n";

/// A checkpoint of each of two iterations.
const EACH: &str = "Cactus::cctk_itlast = 2\nIO::checkpoint_every = 1\n";

const FACTOR_FROM_2: &[u8] = b"@2 wave::factor = 0\n";

/// No speed in the iterations 5 and 6 of eight.
const FACTOR_IN_THE_MIDDLE: &[u8] = b"@5 wave::factor = 0\n@7 wave::factor = 256\n";

/// The lines of a steer file, more lines of the parameter file, what the run prints, and the values of its last iteration.
struct Case {
    lines: &'static [u8],
    more: &'static str,
    status: u8,
    printed: &'static [u8],
    values: &'static [u8],
}

const CASES: &[Case] = &[
    Case {
        lines: b"",
        more: EACH,
        status: 0,
        printed: b"done: iteration 2\n",
        values: b"8 -8 8 -8 8 0\n\n",
    },
    Case {
        lines: FACTOR_FROM_2,
        more: EACH,
        status: 0,
        printed: b"done: iteration 2\n",
        values: b"0 16 -24 16 0 0\n\n",
    },
    Case {
        lines: FACTOR_IN_THE_MIDDLE,
        more: "Cactus::cctk_itlast = 8\n",
        status: 0,
        printed: b"done: iteration 8\n",
        values: b"240 -224 216 -224 240 -240\n\n",
    },
    // parts that run ahead have the parameters of their own iterations
    Case {
        lines: FACTOR_IN_THE_MIDDLE,
        more: "Cactus::cctk_itlast = 8\ndriver::parts_x = 4\ndriver::lead = 8\n",
        status: 0,
        printed: b"done: iteration 8\n",
        values: b"240 -224 216 -224 240 -240\n\n",
    },
    Case {
        lines: b"@2 wave::edge = 3\n",
        more: EACH,
        status: 0,
        printed: b"done: iteration 2\n",
        values: b"8 -8 8 -8 8 0\n\n",
    },
    Case {
        lines: b"@2 wave::edge = 3\n",
        more: TWO,
        status: 2,
        printed: b"refused: s.txt NotSteerable 1\n",
        values: b"",
    },
    Case {
        lines: b"@2 wave::factor = -1\n",
        more: EACH,
        status: 2,
        printed: b"refused: s.txt OutOfRange 1\n",
        values: b"",
    },
    Case {
        lines: b"@2 wave::factor = 1\n@1 wave::factor = 2\n",
        more: EACH,
        status: 2,
        printed: b"refused: s.txt SteerOrder 2\n",
        values: b"",
    },
    Case {
        lines: b"@0 wave::factor = 1\n",
        more: EACH,
        status: 2,
        printed: b"refused: s.txt BadNumber 1\n",
        values: b"",
    },
];

/// The steer file that has these lines.
fn steer_file(lines: &'static [u8]) -> File {
    File {
        name: "s.txt",
        bytes: lines,
    }
}

/// Tests one of a case's runs.
fn is_steered(case: &Case, k: usize, came: &Outcome) -> Result<(), Fail> {
    let (lines, more) = (case.lines, case.more);
    let found = (came.status, came.printed.as_slice());
    let want = (case.status, case.printed);
    same(&(lines, more, "turns", k), &found, &want)?;
    let values = came.first.ends_with(case.values);
    same(&("values of", lines, more, "turns", k), &values, &true)
}

/// Tests a row of `CASES`.
fn are_steered(rt: &HostRuntime, case: &Case) -> Result<(), Fail> {
    let runs = runs_by_seeds(rt, WAVE, case.more, &[PARAM, steer_file(case.lines)])?;
    for (k, came) in runs.iter().enumerate() {
        is_steered(case, k, came)?;
    }
    Ok(())
}

#[test]
fn waves_that_are_steered(rt: HostRuntime) -> Result<(), Fail> {
    for case in CASES {
        are_steered(&rt, case)?;
    }
    Ok(())
}
