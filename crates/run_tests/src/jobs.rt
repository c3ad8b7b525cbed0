//! Jobs that run, and what comes of them.
use sample_files::File;
use sample_runs::samples::{
    BOX, CA, CA_OUTPUT, CONTROL, GLIDER, HEAT, LEAVES, LIFE, SHORT_HEAT, WAVE,
};

/// A job that runs, and what comes of it.
pub struct Run {
    pub name: &'static str,
    /// The parameter file, and more lines behind it.
    pub file: &'static [u8],
    pub more: &'static str,
    /// Files in place of the sample thorns' or beside them.
    pub others: &'static [File],
    pub status: u8,
    pub printed: &'static [u8],
    /// The output files of the first variable that is written, and of the second one.
    pub first: &'static [u8],
    pub second: &'static [u8],
    /// How many points the parts compute, where the run is done.
    pub points: Option<u128>,
}

/// The settings of `CA` in another order, in other spellings that mean the same, with comments and ignored lines.
const OTHER_ORDER: &[u8] = b"# cells\n\
    !DESC \"three\"\n\
    IO::out_vars = ca::cell # all\n\
    ca::start=\"3\"\n\
    \x20 ! no setting = 1\n\
    ActiveThorns = \"Cactus elemca, PUGH\"\n\
    \n\
    DRIVER::periodic = yes\n\
    cactus::cctk_itlast = 02\n\
    driver::Global_NX = 8";

/// The files of heat in three directions.
pub(crate) const DIFF_IN_THREE: &[File] = &[File {
    name: "arrangements/Integer/DiffInt/interface.ccl",
    bytes: b"implements: diff\n\
        public:\n\
        CCTK_INT evolved TYPE=GF DIM=3 { u } \"field\"\n\
        CCTK_INT sums TYPE=SCALAR { total } \"sum\"\n",
}];

/// The automaton's first row alone.
const FIRST_ROW: &[u8] = b"ActiveThorns = \"ElemCA\"\n\
    Cactus::cctk_itlast = 0\n\
    driver::global_nx = 8\n\
    driver::periodic = yes\n\
    ca::start = 3\n\
    IO::out_vars = \"ca::cell\"\n";

/// A glider's four steps, which take it one cell further in both directions, and how many of its cells live.
pub const LIFE_CELLS: &[u8] = b"# life::cell iteration 0 size 8 8\n\
    0 1 0 0 0 0 0 0\n\
    0 0 1 0 0 0 0 0\n\
    1 1 1 0 0 0 0 0\n\
    0 0 0 0 0 0 0 0\n\
    0 0 0 0 0 0 0 0\n\
    0 0 0 0 0 0 0 0\n\
    0 0 0 0 0 0 0 0\n\
    0 0 0 0 0 0 0 0\n\
    \n\
    # life::cell iteration 1 size 8 8\n\
    0 0 0 0 0 0 0 0\n\
    1 0 1 0 0 0 0 0\n\
    0 1 1 0 0 0 0 0\n\
    0 1 0 0 0 0 0 0\n\
    0 0 0 0 0 0 0 0\n\
    0 0 0 0 0 0 0 0\n\
    0 0 0 0 0 0 0 0\n\
    0 0 0 0 0 0 0 0\n\
    \n\
    # life::cell iteration 2 size 8 8\n\
    0 0 0 0 0 0 0 0\n\
    0 0 1 0 0 0 0 0\n\
    1 0 1 0 0 0 0 0\n\
    0 1 1 0 0 0 0 0\n\
    0 0 0 0 0 0 0 0\n\
    0 0 0 0 0 0 0 0\n\
    0 0 0 0 0 0 0 0\n\
    0 0 0 0 0 0 0 0\n\
    \n\
    # life::cell iteration 3 size 8 8\n\
    0 0 0 0 0 0 0 0\n\
    0 1 0 0 0 0 0 0\n\
    0 0 1 1 0 0 0 0\n\
    0 1 1 0 0 0 0 0\n\
    0 0 0 0 0 0 0 0\n\
    0 0 0 0 0 0 0 0\n\
    0 0 0 0 0 0 0 0\n\
    0 0 0 0 0 0 0 0\n\
    \n\
    # life::cell iteration 4 size 8 8\n\
    0 0 0 0 0 0 0 0\n\
    0 0 1 0 0 0 0 0\n\
    0 0 0 1 0 0 0 0\n\
    0 1 1 1 0 0 0 0\n\
    0 0 0 0 0 0 0 0\n\
    0 0 0 0 0 0 0 0\n\
    0 0 0 0 0 0 0 0\n\
    0 0 0 0 0 0 0 0\n\
    \n";

pub const LIFE_COUNTS: &[u8] = b"# life::live iteration 0 value 5\n\
    # life::live iteration 1 value 5\n\
    # life::live iteration 2 value 5\n\
    # life::live iteration 3 value 5\n\
    # life::live iteration 4 value 5\n";

/// Heat that sees the count of turns.
const SEEING: &[u8] = b"implements: diff\n\
    inherits: control\n\
    public:\n\
    CCTK_INT evolved TYPE=GF DIM=1 { u } \"field\"\n\
    CCTK_INT sums TYPE=SCALAR { total } \"sum\"\n";

/// Heat that takes its step while the count isn't 0.
const STEP_IF: &[u8] = b"STORAGE: evolved[1] sums[1]\n\
    schedule diff_init AT INITIAL\n\
    { LANG: C WRITES: diff::u(everywhere) } \"start\"\n\
    schedule diff_step AT EVOL IF control::count\n\
    {\n\
    \x20 LANG: C\n\
    \x20 SYNC: evolved\n\
    \x20 READS: diff::u(everywhere)\n\
    \x20 WRITES: diff::u(interior)\n\
    } \"one step\"\n\
    schedule diff_flat AT EVOL AFTER diff_step\n\
    { LANG: C READS: diff::u(interior) WRITES: diff::u(boundary) } \"flat edge\"\n\
    if (sum)\n\
    {\n\
    \x20 schedule diff_sum AT ANALYSIS\n\
    \x20 { LANG: C READS: diff::u(everywhere) WRITES: diff::total } \"sum\"\n\
    }\n";

/// Heat that stays where it is, cut anew in each iteration by the greatest factor.
const STILL: &[u8] = b"ActiveThorns = \"DiffInt\"\n\
    Cactus::cctk_itlast = 2\n\
    driver::periodic = yes\n\
    driver::balance = yes\n\
    driver::weight = \"diff::u\"\n\
    driver::weight_factor = 1048576\n\
    diff::factor = 0\n\
    IO::checkpoint_every = 1\n\
    IO::out_every = 2\n\
    IO::out_vars = \"diff::u\"\n";

/// The examples, and jobs that differ from them.
pub const RUNS: &[Run] = &[
    // The automaton, whatever the cut.
    Run {
        name: "cells",
        file: CA,
        more: "",
        others: &[],
        status: 0,
        printed: b"done: iteration 2\n",
        first: CA_OUTPUT,
        second: b"",
        points: Some(26),
    },
    Run {
        name: "cells by settings in another order",
        file: OTHER_ORDER,
        more: "",
        others: &[],
        status: 0,
        printed: b"done: iteration 2\n",
        first: CA_OUTPUT,
        second: b"",
        points: Some(26),
    },
    Run {
        name: "cells in two parts",
        file: CA,
        more: "driver::parts_x = 2\n",
        others: &[],
        status: 0,
        printed: b"done: iteration 2\n",
        first: CA_OUTPUT,
        second: b"",
        points: Some(28),
    },
    Run {
        name: "cells in eight parts",
        file: CA,
        more: "driver::parts_x = 8\n",
        others: &[],
        status: 0,
        printed: b"done: iteration 2\n",
        first: CA_OUTPUT,
        second: b"",
        points: Some(40),
    },
    Run {
        name: "cells in parts of 3 and 5",
        file: CA,
        more: "driver::widths_x = \"3 5\"\n",
        others: &[],
        status: 0,
        printed: b"done: iteration 2\n",
        first: CA_OUTPUT,
        second: b"",
        points: Some(28),
    },
    Run {
        name: "the first row of cells",
        file: FIRST_ROW,
        more: "",
        others: &[],
        status: 0,
        printed: b"done: iteration 0\n",
        first: b"# ca::cell iteration 0 size 8\n\
            0 0 0 1 0 0 0 0\n\
            \n",
        second: b"",
        points: Some(10),
    },
    // The other examples.
    Run {
        name: "a glider",
        file: LIFE,
        more: "",
        others: &[],
        status: 0,
        printed: b"done: iteration 4\n",
        first: LIFE_CELLS,
        second: LIFE_COUNTS,
        points: Some(356),
    },
    Run {
        name: "a glider in six parts",
        file: LIFE,
        more: "driver::parts_x = 2\n\
            driver::widths_y = \"1 3 4\"\n",
        others: &[],
        status: 0,
        printed: b"done: iteration 4\n",
        first: LIFE_CELLS,
        second: LIFE_COUNTS,
        points: Some(424),
    },
    Run {
        name: "a glider that goes around",
        file: GLIDER,
        more: "",
        others: &[],
        status: 0,
        printed: b"done: iteration 48\n",
        first: b"# life::cell iteration 0 size 12 12\n\
            0 1 0 0 0 0 0 0 0 0 0 0\n\
            0 0 1 0 0 0 0 0 0 0 0 0\n\
            1 1 1 0 0 0 0 0 0 0 0 0\n\
            0 0 0 0 0 0 0 0 0 0 0 0\n\
            0 0 0 0 0 0 0 0 0 0 0 0\n\
            0 0 0 0 0 0 0 0 0 0 0 0\n\
            0 0 0 0 0 0 0 0 0 0 0 0\n\
            0 0 0 0 0 0 0 0 0 0 0 0\n\
            0 0 0 0 0 0 0 0 0 0 0 0\n\
            0 0 0 0 0 0 0 0 0 0 0 0\n\
            0 0 0 0 0 0 0 0 0 0 0 0\n\
            0 0 0 0 0 0 0 0 0 0 0 0\n\
            \n\
            # life::cell iteration 24 size 12 12\n\
            0 0 0 0 0 0 0 0 0 0 0 0\n\
            0 0 0 0 0 0 0 0 0 0 0 0\n\
            0 0 0 0 0 0 0 0 0 0 0 0\n\
            0 0 0 0 0 0 0 0 0 0 0 0\n\
            0 0 0 0 0 0 0 0 0 0 0 0\n\
            0 0 0 0 0 0 0 0 0 0 0 0\n\
            0 0 0 0 0 0 0 1 0 0 0 0\n\
            0 0 0 0 0 0 0 0 1 0 0 0\n\
            0 0 0 0 0 0 1 1 1 0 0 0\n\
            0 0 0 0 0 0 0 0 0 0 0 0\n\
            0 0 0 0 0 0 0 0 0 0 0 0\n\
            0 0 0 0 0 0 0 0 0 0 0 0\n\
            \n\
            # life::cell iteration 48 size 12 12\n\
            0 1 0 0 0 0 0 0 0 0 0 0\n\
            0 0 1 0 0 0 0 0 0 0 0 0\n\
            1 1 1 0 0 0 0 0 0 0 0 0\n\
            0 0 0 0 0 0 0 0 0 0 0 0\n\
            0 0 0 0 0 0 0 0 0 0 0 0\n\
            0 0 0 0 0 0 0 0 0 0 0 0\n\
            0 0 0 0 0 0 0 0 0 0 0 0\n\
            0 0 0 0 0 0 0 0 0 0 0 0\n\
            0 0 0 0 0 0 0 0 0 0 0 0\n\
            0 0 0 0 0 0 0 0 0 0 0 0\n\
            0 0 0 0 0 0 0 0 0 0 0 0\n\
            0 0 0 0 0 0 0 0 0 0 0 0\n\
            \n",
        second: b"# life::live iteration 0 value 5\n\
            # life::live iteration 24 value 5\n\
            # life::live iteration 48 value 5\n",
        points: Some(7108),
    },
    Run {
        name: "a wave",
        file: WAVE,
        more: "",
        others: &[],
        status: 0,
        printed: b"done: iteration 1\n",
        first: b"# wave::phi iteration 0 size 6\n\
            0 0 8 0 0 0\n\
            \n\
            # wave::phi iteration 1 size 6\n\
            0 8 -8 8 0 0\n\
            \n",
        second: b"",
        points: Some(14),
    },
    Run {
        name: "heat",
        file: HEAT,
        more: "",
        others: &[],
        status: 0,
        printed: b"done: iteration 10\n",
        first: b"# diff::u iteration 0 size 16\n\
            0 0 0 0 0 0 0 0 1000 0 0 0 0 0 0 0\n\
            \n\
            # diff::u iteration 1 size 16\n\
            0 0 0 0 0 0 0 250 500 250 0 0 0 0 0 0\n\
            \n\
            # diff::u iteration 2 size 16\n\
            0 0 0 0 0 0 62 250 375 250 62 0 0 0 0 0\n\
            \n\
            # diff::u iteration 3 size 16\n\
            0 0 0 0 0 15 93 234 312 234 93 15 0 0 0 0\n\
            \n\
            # diff::u iteration 4 size 16\n\
            0 0 0 0 3 30 108 218 273 218 108 30 3 0 0 0\n\
            \n\
            # diff::u iteration 5 size 16\n\
            0 0 0 0 9 42 116 204 245 204 116 42 9 0 0 0\n\
            \n\
            # diff::u iteration 6 size 16\n\
            0 0 0 2 15 52 119 192 224 192 119 52 15 2 0 0\n\
            \n\
            # diff::u iteration 7 size 16\n\
            0 0 0 4 21 59 120 181 208 181 120 59 21 4 0 0\n\
            \n\
            # diff::u iteration 8 size 16\n\
            0 0 1 7 26 64 120 172 194 172 120 64 26 7 1 1\n\
            \n\
            # diff::u iteration 9 size 16\n\
            0 0 2 10 30 68 119 164 183 164 119 68 30 10 2 2\n\
            \n\
            # diff::u iteration 10 size 16\n\
            0 0 3 13 34 71 117 157 173 157 117 71 34 13 4 4\n\
            \n",
        second: b"# diff::total iteration 0 value 1000\n\
            # diff::total iteration 1 value 1000\n\
            # diff::total iteration 2 value 999\n\
            # diff::total iteration 3 value 996\n\
            # diff::total iteration 4 value 991\n\
            # diff::total iteration 5 value 987\n\
            # diff::total iteration 6 value 984\n\
            # diff::total iteration 7 value 978\n\
            # diff::total iteration 8 value 975\n\
            # diff::total iteration 9 value 971\n\
            # diff::total iteration 10 value 968\n",
        points: Some(176),
    },
    Run {
        name: "a count of turns",
        file: CONTROL,
        more: "",
        others: &[],
        status: 0,
        printed: b"done: iteration 1\n",
        first: b"# control::count iteration 0 value 5\n\
            # control::count iteration 1 value 0\n",
        second: b"",
        points: Some(6),
    },
    Run {
        name: "a box of four thorns",
        file: BOX,
        more: "",
        others: &[],
        status: 0,
        printed: b"done: iteration 40\n",
        first: b"# wave::phi iteration 0 size 40\n\
            5 5 5 5 5 5 5 5 5 5 5 5 5 5 5 5 5 5 5 5 5 5 5 5 5 5 5 5 5 5 5 5 5 5 5 5 5 5 5 5\n\
            \n\
            # wave::phi iteration 20 size 40\n\
            5 5 5 5 5 5 5 5 5 5 5 5 5 5 5 5 5 5 5 5 5 5 5 5 5 5 5 5 5 5 5 5 5 5 5 5 5 5 5 5\n\
            \n\
            # wave::phi iteration 40 size 40\n\
            5 5 5 5 5 5 5 5 5 5 5 5 5 5 5 5 5 5 5 5 5 5 5 5 5 5 5 5 5 5 5 5 5 5 5 5 5 5 5 5\n\
            \n",
        second: b"# wave::total iteration 0 value 200\n\
            # wave::total iteration 20 value 200\n\
            # wave::total iteration 40 value 200\n",
        points: Some(4944),
    },
    // A sum that leaves 64 bits, and one whose parts alone do.
    Run {
        name: "a sum that leaves 64 bits",
        file: b"ActiveThorns = \"WaveInt\"\n\
            Cactus::cctk_itlast = 0\n\
            driver::global_nx = 2\n\
            driver::periodic = yes\n\
            wave::pattern = \"uniform\"\n\
            wave::amount = 9223372036854775807\n\
            wave::sum = yes\n\
            IO::out_vars = \"wave::phi wave::total\"\n",
        more: "",
        others: &[],
        status: 3,
        printed: b"ended: Overflow 0 ANALYSIS/wave_sum\n",
        first: b"",
        second: b"",
        points: None,
    },
    Run {
        name: "a sum whose parts alone leave 64 bits",
        file: b"ActiveThorns = \"WaveInt\"\n\
            Cactus::cctk_itlast = 0\n\
            driver::global_nx = 5\n\
            wave::pattern = \"uniform\"\n\
            wave::amount = 9223372036854775807\n\
            wave::edge = -9223372036854775807\n\
            wave::sum = yes\n\
            IO::out_vars = \"wave::phi wave::total\"\n",
        more: "",
        others: &[File {
            name: "arrangements/Integer/WaveInt/schedule.ccl",
            bytes: b"STORAGE: evolved[3] sums[1]\n\
                schedule wave_init AT INITIAL\n\
                { LANG: C WRITES: wave::phi(everywhere) wave::phi_p(everywhere) } \"start\"\n\
                schedule wave_scalar AT INITIAL AFTER wave_init { LANG: C WRITES: wave::phi(boundary) } \"edge\"\n\
                schedule wave_step AT EVOL\n\
                {\n\
                \x20 LANG: C\n\
                \x20 SYNC: evolved\n\
                \x20 READS: wave::phi_p(everywhere) wave::phi_p_p(interior)\n\
                \x20 WRITES: wave::phi(interior)\n\
                } \"one step\"\n\
                schedule wave_flat AT EVOL AFTER wave_step\n\
                { LANG: C READS: wave::phi(interior) WRITES: wave::phi(boundary) } \"flat edge\"\n\
                if (sum)\n\
                {\n\
                \x20 schedule wave_sum AT ANALYSIS\n\
                \x20 { LANG: C READS: wave::phi(everywhere) WRITES: wave::total } \"sum\"\n\
                }\n",
        }],
        status: 0,
        printed: b"done: iteration 0\n",
        first: b"# wave::phi iteration 0 size 5\n\
            -9223372036854775807 9223372036854775807 9223372036854775807 9223372036854775807 -9223372036854775807\n\
            \n",
        second: b"# wave::total iteration 0 value 9223372036854775807\n",
        points: Some(7),
    },
    // Numbers at both ends of 64 bits that weigh their points.
    Run {
        name: "the greatest numbers weigh",
        file: STILL,
        more: "driver::global_nx = 4\n\
            driver::widths_x = \"1 3\"\n\
            diff::pattern = \"alternate\"\n\
            diff::amount = 9223372036854775807\n",
        others: &[],
        status: 0,
        printed: b"done: iteration 2\n",
        first: b"# diff::u iteration 0 size 4\n\
            9223372036854775807 -9223372036854775807 9223372036854775807 -9223372036854775807\n\
            \n\
            # diff::u iteration 2 size 4\n\
            9223372036854775807 -9223372036854775807 9223372036854775807 -9223372036854775807\n\
            \n",
        second: b"",
        points: Some(16),
    },
    Run {
        name: "the least number weighs",
        file: STILL,
        more: "driver::global_nx = 8\n\
            driver::parts_x = 3\n\
            diff::amount = -9223372036854775808\n",
        others: &[],
        status: 0,
        printed: b"done: iteration 2\n",
        first: b"# diff::u iteration 0 size 8\n\
            -9223372036854775808 0 0 0 0 0 0 0\n\
            \n\
            # diff::u iteration 2 size 8\n\
            -9223372036854775808 0 0 0 0 0 0 0\n\
            \n",
        second: b"",
        points: Some(30),
    },
    // Numbers that leave 16 bits, and 64 bits.
    Run {
        name: "heat that leaves 16 bits",
        file: LEAVES,
        more: "",
        others: &[File {
            name: "arrangements/Integer/DiffInt/interface.ccl",
            bytes: SHORT_HEAT,
        }],
        status: 3,
        printed: b"ended: Overflow 7 EVOL/diff_step\n",
        first: b"# diff::u iteration 0 size 16\n\
            0 0 100 0 0 0 0 0 0 0 0 0 0 0 0 0\n\
            \n\
            # diff::u iteration 1 size 16\n\
            0 100 -100 100 0 0 0 0 0 0 0 0 0 0 0 0\n\
            \n\
            # diff::u iteration 2 size 16\n\
            100 -200 300 -200 100 0 0 0 0 0 0 0 0 0 0 0\n\
            \n\
            # diff::u iteration 3 size 16\n\
            -300 600 -700 600 -300 100 0 0 0 0 0 0 0 0 0 100\n\
            \n\
            # diff::u iteration 4 size 16\n\
            1000 -1600 1900 -1600 1000 -400 100 0 0 0 0 0 0 0 100 -400\n\
            \n\
            # diff::u iteration 5 size 16\n\
            -3000 4500 -5100 4500 -3000 1500 -500 100 0 0 0 0 0 100 -500 1500\n\
            \n\
            # diff::u iteration 6 size 16\n\
            9000 -12600 14100 -12600 9000 -5000 2100 -600 100 0 0 0 100 -600 2100 -5000\n\
            \n",
        second: b"",
        points: None,
    },
    Run {
        name: "a wave that leaves 64 bits",
        file: b"ActiveThorns = \"WaveInt\"\n\
            Cactus::cctk_itlast = 4\n\
            driver::global_nx = 6\n\
            driver::periodic = yes\n\
            wave::factor = 256\n\
            wave::amount = 5000000000000000000\n\
            wave::start = 2\n\
            IO::out_vars = \"wave::phi\"\n",
        more: "",
        others: &[],
        status: 3,
        printed: b"ended: Overflow 3 EVOL/wave_step\n",
        first: b"# wave::phi iteration 0 size 6\n\
            0 0 5000000000000000000 0 0 0\n\
            \n\
            # wave::phi iteration 1 size 6\n\
            0 5000000000000000000 -5000000000000000000 5000000000000000000 0 0\n\
            \n\
            # wave::phi iteration 2 size 6\n\
            5000000000000000000 -5000000000000000000 5000000000000000000 -5000000000000000000 5000000000000000000 0\n\
            \n",
        second: b"",
        points: None,
    },
    Run {
        name: "heat that leaves 64 bits",
        file: b"ActiveThorns = \"DiffInt\"\n\
            Cactus::cctk_itlast = 3\n\
            driver::global_nx = 4\n\
            driver::periodic = yes\n\
            diff::factor = 1000000000000000000\n\
            diff::amount = 1000000\n\
            diff::start = 1\n\
            IO::out_vars = \"diff::u\"\n",
        more: "",
        others: &[],
        status: 3,
        printed: b"ended: Overflow 1 EVOL/diff_step\n",
        first: b"# diff::u iteration 0 size 4\n\
            0 1000000 0 0\n\
            \n",
        second: b"",
        points: None,
    },
    // A WHILE past its limit, and one that just keeps it.
    Run {
        name: "a WHILE past its limit",
        file: b"ActiveThorns = \"Control\"\n\
            Cactus::cctk_itlast = 2\n\
            driver::while_limit = 5\n\
            control::drop = 0\n\
            IO::out_vars = \"control::count\"\n",
        more: "",
        others: &[],
        status: 3,
        printed: b"ended: WhileLimit 1 EVOL/control_spin\n",
        first: b"# control::count iteration 0 value 3\n",
        second: b"",
        points: None,
    },
    Run {
        name: "a WHILE that just keeps its limit",
        file: b"ActiveThorns = \"Control\"\n\
            Cactus::cctk_itlast = 2\n\
            driver::while_limit = 5\n\
            control::turns = 5\n\
            IO::out_vars = \"control::count\"\n",
        more: "",
        others: &[],
        status: 0,
        printed: b"done: iteration 2\n",
        first: b"# control::count iteration 0 value 5\n\
            # control::count iteration 1 value 0\n\
            # control::count iteration 2 value 0\n",
        second: b"",
        points: Some(6),
    },
    // An IF whose scalar is 0, and one whose scalar becomes 0 in the first iteration.
    Run {
        name: "an IF whose scalar is 0",
        file: b"ActiveThorns = \"Control DiffInt\"\n\
            Cactus::cctk_itlast = 2\n\
            driver::global_nx = 6\n\
            driver::periodic = yes\n\
            diff::start = 2\n\
            control::turns = 0\n\
            IO::out_vars = \"diff::u\"\n",
        more: "",
        others: &[
            File {
                name: "arrangements/Integer/DiffInt/interface.ccl",
                bytes: SEEING,
            },
            File {
                name: "arrangements/Integer/DiffInt/schedule.ccl",
                bytes: STEP_IF,
            },
        ],
        status: 0,
        printed: b"done: iteration 2\n",
        first: b"# diff::u iteration 0 size 6\n\
            0 0 8 0 0 0\n\
            \n\
            # diff::u iteration 1 size 6\n\
            0 0 8 0 0 0\n\
            \n\
            # diff::u iteration 2 size 6\n\
            0 0 8 0 0 0\n\
            \n",
        second: b"",
        points: Some(9),
    },
    Run {
        name: "an IF whose scalar becomes 0",
        file: b"ActiveThorns = \"DiffInt Control\"\n\
            Cactus::cctk_itlast = 2\n\
            driver::global_nx = 6\n\
            driver::periodic = yes\n\
            diff::start = 2\n\
            control::turns = 2\n\
            IO::out_vars = \"diff::u control::count\"\n",
        more: "",
        others: &[
            File {
                name: "arrangements/Integer/DiffInt/interface.ccl",
                bytes: SEEING,
            },
            File {
                name: "arrangements/Integer/DiffInt/schedule.ccl",
                bytes: STEP_IF,
            },
        ],
        status: 0,
        printed: b"done: iteration 2\n",
        first: b"# diff::u iteration 0 size 6\n\
            0 0 8 0 0 0\n\
            \n\
            # diff::u iteration 1 size 6\n\
            0 2 4 2 0 0\n\
            \n\
            # diff::u iteration 2 size 6\n\
            0 2 4 2 0 0\n\
            \n",
        second: b"# control::count iteration 0 value 2\n\
            # control::count iteration 1 value 0\n\
            # control::count iteration 2 value 0\n",
        points: Some(17),
    },
    // Three directions, of which one is periodic.
    Run {
        name: "three directions",
        file: b"ActiveThorns = \"DiffInt\"\n\
            Cactus::cctk_itlast = 2\n\
            driver::global_nx = 4\n\
            driver::global_ny = 4\n\
            driver::global_nz = 2\n\
            driver::periodic = yes\n\
            driver::periodic_x = no\n\
            driver::periodic_y = no\n\
            diff::pattern = \"random\"\n\
            diff::amount = 999\n\
            diff::seed = 7\n\
            IO::out_vars = \"diff::u\"\n\
            IO::out_every = 2\n",
        more: "",
        others: DIFF_IN_THREE,
        status: 0,
        printed: b"done: iteration 2\n",
        first: b"# diff::u iteration 0 size 4 4 2\n\
            604 487 804 346\n\
            203 674 305 798\n\
            182 985 425 83\n\
            516 990 344 190\n\
            680 327 991 797\n\
            0 743 549 813\n\
            815 160 905 906\n\
            239 335 165 232\n\
            \n\
            # diff::u iteration 2 size 4 4 2\n\
            350 350 670 670\n\
            350 350 670 670\n\
            855 855 340 340\n\
            855 855 340 340\n\
            727 727 505 505\n\
            727 727 505 505\n\
            184 184 797 797\n\
            184 184 797 797\n\
            \n",
        second: b"",
        points: Some(176),
    },
    // A scalar alone, and nothing.
    Run {
        name: "a scalar alone",
        file: b"ActiveThorns = \"Life2D\"\n\
            Cactus::cctk_itlast = 3\n\
            driver::global_nsize = 12\n\
            life::born = 72\n\
            life::pattern = \"random\"\n\
            life::seed = 3\n\
            IO::out_vars = \"life::live\"\n",
        more: "",
        others: &[],
        status: 0,
        printed: b"done: iteration 3\n",
        first: b"# life::live iteration 0 value 71\n\
            # life::live iteration 1 value 36\n\
            # life::live iteration 2 value 35\n\
            # life::live iteration 3 value 35\n",
        second: b"",
        points: Some(576),
    },
    Run {
        name: "no output, every 0",
        file: CA,
        more: "IO::out_every = 0\n",
        others: &[],
        status: 0,
        printed: b"done: iteration 2\n",
        first: b"",
        second: b"",
        points: Some(26),
    },
    Run {
        name: "no output, every -1",
        file: CA,
        more: "IO::out_every = -1\n",
        others: &[],
        status: 0,
        printed: b"done: iteration 2\n",
        first: b"",
        second: b"",
        points: Some(26),
    },
    Run {
        name: "no output variables",
        file: b"ActiveThorns = \"ElemCA\"\n\
            Cactus::cctk_itlast = 2\n\
            driver::global_nx = 8\n\
            driver::periodic = yes\n\
            ca::start = 3\n",
        more: "",
        others: &[],
        status: 0,
        printed: b"done: iteration 2\n",
        first: b"",
        second: b"",
        points: Some(26),
    },
    // Checkpoints that are never due.
    Run {
        name: "checkpoints that are never due",
        file: CA,
        more: "IO::checkpoint_every = 0\n\
            IO::checkpoint_keep = 3\n",
        others: &[],
        status: 0,
        printed: b"done: iteration 2\n",
        first: CA_OUTPUT,
        second: b"",
        points: Some(26),
    },
];
