//! Parameter files, files in place of the sample thorns', and what the runs of their jobs write.

use sample_files::File;

/// Eight cells on a ring, from one cell on.
pub const CA: &[u8] = b"ActiveThorns = \"ElemCA\"\n\
    Cactus::cctk_itlast = 2\n\
    driver::global_nx = 8\n\
    driver::periodic = yes\n\
    ca::start = 3\n\
    IO::out_vars = \"ca::cell\"\n";

pub const CA_OUTPUT: &[u8] = b"# ca::cell iteration 0 size 8\n\
    0 0 0 1 0 0 0 0\n\
    \n\
    # ca::cell iteration 1 size 8\n\
    0 0 1 0 1 0 0 0\n\
    \n\
    # ca::cell iteration 2 size 8\n\
    0 1 0 0 0 1 0 0\n\
    \n";

/// The same where a ghost of the second part is 1 too many from the first step on.
pub const ALTERED_OUTPUT: &[u8] = b"# ca::cell iteration 0 size 8\n\
    0 0 0 1 0 0 0 0\n\
    \n\
    # ca::cell iteration 1 size 8\n\
    0 0 1 0 1 0 0 0\n\
    \n\
    # ca::cell iteration 2 size 8\n\
    0 1 0 0 0 1 0 1\n\
    \n";

/// Heat with numbers of 16 bits on a ring of four parts.
pub const SHORT_HEAT: &[File] = &[File {
    name: "arrangements/Integer/DiffInt/interface.ccl",
    bytes: b"implements: diff\n\
        public:\n\
        CCTK_INT2 evolved TYPE=GF DIM=1 { u } \"field\"\n\
        CCTK_INT sums TYPE=SCALAR { total } \"sum\"\n",
}];

pub const HEAT: &[u8] = b"ActiveThorns = \"DiffInt\"\n\
    Cactus::cctk_itlast = 20\n\
    driver::global_nx = 16\n\
    driver::periodic = yes\n\
    driver::parts_x = 4\n\
    diff::factor = 256\n\
    diff::pattern = \"point\"\n\
    diff::amount = 100\n\
    diff::start = 2\n\
    IO::out_vars = \"diff::u\"\n";

/// Each number becomes the sum of both neighbours minus itself, from 100 at point 2 on. At iteration 7 it would be -39300 there.
pub const HEAT_OUTPUT: &[u8] = b"# diff::u iteration 0 size 16\n\
    0 0 100 0 0 0 0 0 0 0 0 0 0 0 0 0\n\
    \n\
    # diff::u iteration 1 size 16\n\
    0 100 -100 100 0 0 0 0 0 0 0 0 0 0 0 0\n\
    \n\
    # diff::u iteration 2 size 16\n\
    100 -200 300 -200 100 0 0 0 0 0 0 0 0 0 0 0\n\
    \n\
    # diff::u iteration 3 size 16\n\
    -300 600 -700 600 -300 100 0 0 0 0 0 0 0 0 0 100\n\
    \n\
    # diff::u iteration 4 size 16\n\
    1000 -1600 1900 -1600 1000 -400 100 0 0 0 0 0 0 0 100 -400\n\
    \n\
    # diff::u iteration 5 size 16\n\
    -3000 4500 -5100 4500 -3000 1500 -500 100 0 0 0 0 0 100 -500 1500\n\
    \n\
    # diff::u iteration 6 size 16\n\
    9000 -12600 14100 -12600 9000 -5000 2100 -600 100 0 0 0 100 -600 2100 -5000\n\
    \n";

/// Two points and their sum: a number at the first, another one at the second.
pub const SUM: &[u8] = b"ActiveThorns = \"DiffInt\"\n\
    Cactus::cctk_itlast = 0\n\
    driver::global_nx = 2\n\
    driver::periodic = yes\n\
    diff::amount = 9223372036854775807\n\
    diff::sum = yes\n\
    IO::out_vars = \"diff::total\"\n";

/// Two points that stay as they are and their sum, both written, with a checkpoint in each iteration.
pub const BOTH: &[u8] = b"ActiveThorns = \"DiffInt\"\n\
    Cactus::cctk_itlast = 2\n\
    driver::global_nx = 2\n\
    driver::periodic = yes\n\
    diff::amount = 5\n\
    diff::edge = 6\n\
    diff::sum = yes\n\
    IO::checkpoint_every = 1\n\
    IO::out_vars = \"diff::u diff::total\"\n";

/// Their texts in the order in which they come.
pub const BOTH_OUTPUTS: &[u8] = b"# diff::u iteration 0 size 2\n\
    5 6\n\
    \n\
    # diff::total iteration 0 value 11\n\
    # diff::u iteration 1 size 2\n\
    5 6\n\
    \n\
    # diff::total iteration 1 value 11\n\
    # diff::u iteration 2 size 2\n\
    5 6\n\
    \n\
    # diff::total iteration 2 value 11\n";

/// The schedule of the two points.
pub const ENDS: &[File] = &[File {
    name: "arrangements/Integer/DiffInt/schedule.ccl",
    bytes: b"STORAGE: evolved[1] sums[1]\n\
    schedule diff_ends AT INITIAL { LANG: C WRITES: diff::u(everywhere) } \"two numbers\"\n\
    schedule diff_sum AT ANALYSIS\n\
    { LANG: C READS: diff::u(everywhere) WRITES: diff::total } \"sum\"\n",
}];

/// Cells that are exchanged once, as they start.
pub const ONE_EXCHANGE: &[File] = &[File {
    name: "arrangements/Integer/ElemCA/schedule.ccl",
    bytes: b"STORAGE: cells[1]\n\
    schedule ca_init AT INITIAL { LANG: C SYNC: cells WRITES: ca::cell(everywhere) } \"start\"\n",
}];

/// Cells as they start.
pub const NO_EXCHANGE: &[File] = &[File {
    name: "arrangements/Integer/ElemCA/schedule.ccl",
    bytes: b"STORAGE: cells[1]\n\
    schedule ca_init AT INITIAL { LANG: C WRITES: ca::cell(everywhere) } \"start\"\n",
}];

/// Two parts of one cell each, two iterations, and a lead above them.
pub const TWO_SAVES: &[u8] = b"ActiveThorns = \"ElemCA\"\n\
    Cactus::cctk_itlast = 2\n\
    driver::global_nx = 2\n\
    driver::periodic = yes\n\
    driver::parts_x = 2\n\
    driver::lead = 64\n";

pub const TWO_CELLS: &[u8] = b"ActiveThorns = \"ElemCA\"\n\
    Cactus::cctk_itlast = 0\n\
    driver::global_nx = 2\n\
    driver::periodic = yes\n\
    driver::parts_x = 2\n\
    ca::start = 1\n\
    IO::out_vars = \"ca::cell\"\n";

pub const TWO_CELLS_OUTPUT: &[u8] = b"# ca::cell iteration 0 size 2\n0 1\n\n";
