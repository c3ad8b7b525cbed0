//! Runs of the thorns that conserve, against numbers of a model of its own or by hand.

use sample_files::File;
use sample_runs::{answer_to, shelf_with};
use std::test::Fail;
use test_cases::same;

/// The files of the thorns that conserve, byte for byte as examples/physics has them.
const PHYSICS: &[File] = &[
    File {
        name: "ThornList",
        bytes: THORN_LIST,
    },
    File {
        name: "arrangements/Physics/HeatFlux/interface.ccl",
        bytes: HEAT_INTERFACE,
    },
    File {
        name: "arrangements/Physics/HeatFlux/param.ccl",
        bytes: HEAT_PARAM,
    },
    File {
        name: "arrangements/Physics/HeatFlux/schedule.ccl",
        bytes: HEAT_SCHEDULE,
    },
    File {
        name: "arrangements/Physics/LatticeGas/interface.ccl",
        bytes: GAS_INTERFACE,
    },
    File {
        name: "arrangements/Physics/LatticeGas/param.ccl",
        bytes: GAS_PARAM,
    },
    File {
        name: "arrangements/Physics/LatticeGas/schedule.ccl",
        bytes: GAS_SCHEDULE,
    },
];

const THORN_LIST: &[u8] = br#"# thorns that conserve: heat, and particles
CactusPUGH/PUGH
CactusBase/IOUtil
Physics/HeatFlux
Physics/LatticeGas
"#;

const HEAT_INTERFACE: &[u8] = br#"implements: heatflux
public:
CCTK_INT evolved TYPE=GF DIM=3 { u } "heat"
CCTK_BYTE walls TYPE=GF DIM=3 { mask } "1 where heat flows, 0 where none does"
CCTK_INT sums TYPE=SCALAR { total } "sum"
"#;

const HEAT_PARAM: &[u8] = br#"restricted:
INT factor "in 256ths" { 0:* } 32
KEYWORD pattern "start" { "point" "random" } "point"
INT amount "height" { *:* } 1000000
INT start "place" { 0:* } 0
INT seed "mixing" { 0:* } 0
"#;

const HEAT_SCHEDULE: &[u8] = br#"STORAGE: evolved[1] walls[1] sums[1]
schedule heatflux_init AT INITIAL
{ LANG: C WRITES: heatflux::u(everywhere) heatflux::mask(everywhere) } "start"
schedule heatflux_step AT EVOL
{
  LANG: C
  SYNC: evolved
  READS: heatflux::u(everywhere) heatflux::mask(everywhere)
  WRITES: heatflux::u(interior)
} "one step"
schedule heatflux_zero AT EVOL AFTER heatflux_step
{ LANG: C WRITES: heatflux::u(boundary) } "edge"
schedule heatflux_sum AT ANALYSIS
{ LANG: C READS: heatflux::u(everywhere) WRITES: heatflux::total } "sum"
"#;

const GAS_INTERFACE: &[u8] = br#"implements: gas
public:
CCTK_BYTE cells TYPE=GF DIM=2 { cell } "particles: bit 0 goes east, 1 north, 2 west, 3 south"
CCTK_INT measured TYPE=GF DIM=2 { number momentum_x momentum_y } "of each cell"
CCTK_INT sums TYPE=SCALAR { particles total_x total_y } "over all cells"
"#;

const GAS_PARAM: &[u8] = br#"restricted:
INT size "width of the block that is filled at the start" { 0:* } 16
INT seed "mixing" { 0:* } 0
"#;

const GAS_SCHEDULE: &[u8] = br#"STORAGE: cells[1] measured[1] sums[1]
schedule gas_init AT INITIAL { LANG: C WRITES: gas::cell(everywhere) } "start"
schedule gas_step AT EVOL
{
  LANG: C
  SYNC: cells
  READS: gas::cell(everywhere)
  WRITES: gas::cell(interior)
} "one step"
schedule gas_zero AT EVOL AFTER gas_step { LANG: C WRITES: gas::cell(boundary) } "edge"
schedule gas_measure AT ANALYSIS
{
  LANG: C
  READS: gas::cell(everywhere)
  WRITES: gas::number(everywhere) gas::momentum_x(everywhere) gas::momentum_y(everywhere)
} "particles and momenta of each cell"
schedule gas_particles AT ANALYSIS AFTER gas_measure
{ LANG: C READS: gas::number(everywhere) WRITES: gas::particles } "sum"
schedule gas_total_x AT ANALYSIS AFTER gas_measure
{ LANG: C READS: gas::momentum_x(everywhere) WRITES: gas::total_x } "sum"
schedule gas_total_y AT ANALYSIS AFTER gas_measure
{ LANG: C READS: gas::momentum_y(everywhere) WRITES: gas::total_y } "sum"
"#;

/// Heat on a bar of six points that is closed at both ends.
const BAR: &[u8] = b"ActiveThorns = \"HeatFlux\"\n\
    Cactus::cctk_itlast = 2\n\
    driver::global_nx = 6\n\
    driver::global_ny = 1\n\
    driver::global_nz = 1\n\
    driver::periodic = yes\n\
    driver::periodic_x = no\n\
    heatflux::factor = 64\n\
    heatflux::start = 2\n\
    IO::out_vars = \"heatflux::u heatflux::total\"\n";

/// Heat from random numbers in a box that is closed along z alone.
const BOX: &[u8] = b"ActiveThorns = \"HeatFlux\"\n\
    Cactus::cctk_itlast = 3\n\
    driver::global_nsize = 5\n\
    driver::periodic = yes\n\
    driver::periodic_z = no\n\
    heatflux::pattern = \"random\"\n\
    heatflux::amount = 1000\n\
    heatflux::seed = 9\n\
    IO::out_every = 3\n\
    IO::out_vars = \"heatflux::u heatflux::total\"\n";

/// Four cells of gas in the middle of a sheet.
const GAS: &[u8] = b"ActiveThorns = \"LatticeGas\"\n\
    Cactus::cctk_itlast = 2\n\
    driver::global_nx = 6\n\
    driver::global_ny = 4\n\
    gas::size = 2\n\
    gas::seed = 1\n\
    IO::out_vars = \"gas::cell gas::particles\"\n";

/// The same on a ring, of which other variables are written, at the first and the last iteration.
const RING: &[u8] = b"ActiveThorns = \"LatticeGas\"\n\
    Cactus::cctk_itlast = 2\n\
    driver::global_nx = 6\n\
    driver::global_ny = 4\n\
    driver::periodic = yes\n\
    gas::size = 2\n\
    gas::seed = 1\n\
    IO::out_every = 2\n";

/// A job, what its run prints, and the output files of the first variable that is written and of the second one.
struct Case {
    name: &'static str,
    file: &'static [u8],
    more: &'static str,
    printed: &'static [u8],
    first: &'static [u8],
    second: &'static [u8],
}

const CASES: &[Case] = &[
    Case {
        name: "heat that flows is rounded toward 0",
        file: BAR,
        more: "heatflux::amount = 1000\n",
        printed: b"done: iteration 2\n",
        first: b"# heatflux::u iteration 0 size 6 1 1\n\
            0 0 1000 0 0 0\n\
            \n\
            # heatflux::u iteration 1 size 6 1 1\n\
            0 250 500 250 0 0\n\
            \n\
            # heatflux::u iteration 2 size 6 1 1\n\
            0 312 376 250 62 0\n\
            \n",
        second: b"# heatflux::total iteration 0 value 1000\n\
            # heatflux::total iteration 1 value 1000\n\
            # heatflux::total iteration 2 value 1000\n",
    },
    Case {
        name: "heat below 0",
        file: BAR,
        more: "heatflux::amount = -1000\n",
        printed: b"done: iteration 2\n",
        first: b"# heatflux::u iteration 0 size 6 1 1\n\
            0 0 -1000 0 0 0\n\
            \n\
            # heatflux::u iteration 1 size 6 1 1\n\
            0 -250 -500 -250 0 0\n\
            \n\
            # heatflux::u iteration 2 size 6 1 1\n\
            0 -312 -376 -250 -62 0\n\
            \n",
        second: b"# heatflux::total iteration 0 value -1000\n\
            # heatflux::total iteration 1 value -1000\n\
            # heatflux::total iteration 2 value -1000\n",
    },
    Case {
        name: "heat in three directions and eight parts",
        file: BOX,
        more: "driver::parts_x = 2\ndriver::parts_y = 2\ndriver::parts_z = 2\ndriver::lead = 3\n",
        printed: b"done: iteration 3\n",
        first: b"# heatflux::u iteration 0 size 5 5 5\n\
            0 0 0 0 0\n\
            0 0 0 0 0\n\
            0 0 0 0 0\n\
            0 0 0 0 0\n\
            0 0 0 0 0\n\
            646 741 369 301 127\n\
            148 443 532 231 890\n\
            807 614 102 945 7\n\
            431 651 594 649 223\n\
            995 868 372 771 959\n\
            579 273 316 519 843\n\
            13 562 738 554 91\n\
            363 871 675 685 218\n\
            676 601 500 102 921\n\
            942 450 896 698 539\n\
            98 653 505 137 452\n\
            747 206 618 819 348\n\
            463 503 321 417 664\n\
            450 20 383 80 364\n\
            952 225 953 805 326\n\
            0 0 0 0 0\n\
            0 0 0 0 0\n\
            0 0 0 0 0\n\
            0 0 0 0 0\n\
            0 0 0 0 0\n\
            \n\
            # heatflux::u iteration 3 size 5 5 5\n\
            0 0 0 0 0\n\
            0 0 0 0 0\n\
            0 0 0 0 0\n\
            0 0 0 0 0\n\
            0 0 0 0 0\n\
            560 550 496 485 516\n\
            461 501 483 475 441\n\
            499 542 516 503 460\n\
            592 595 546 540 534\n\
            677 643 580 584 622\n\
            516 514 518 504 498\n\
            445 487 515 497 446\n\
            489 522 522 501 465\n\
            560 540 523 510 516\n\
            624 588 579 571 594\n\
            475 473 517 493 467\n\
            444 466 513 503 459\n\
            473 460 477 471 463\n\
            491 443 453 443 465\n\
            546 510 545 528 527\n\
            0 0 0 0 0\n\
            0 0 0 0 0\n\
            0 0 0 0 0\n\
            0 0 0 0 0\n\
            0 0 0 0 0\n\
            \n",
        second: b"# heatflux::total iteration 0 value 38550\n\
            # heatflux::total iteration 3 value 38550\n",
    },
    Case {
        name: "a gas on a ring, in four parts",
        file: GAS,
        more: "driver::periodic = yes\ndriver::parts_x = 2\ndriver::parts_y = 2\n",
        printed: b"done: iteration 2\n",
        first: b"# gas::cell iteration 0 size 6 4\n\
            0 0 0 0 0 0\n\
            0 0 5 8 0 0\n\
            0 0 10 8 0 0\n\
            0 0 0 0 0 0\n\
            \n\
            # gas::cell iteration 1 size 6 4\n\
            0 0 0 8 0 0\n\
            0 4 8 9 0 0\n\
            0 0 0 0 0 0\n\
            0 0 2 0 0 0\n\
            \n\
            # gas::cell iteration 2 size 6 4\n\
            0 0 5 8 0 0\n\
            4 0 0 0 1 0\n\
            0 0 0 0 0 0\n\
            0 0 0 8 0 0\n\
            \n",
        second: b"# gas::particles iteration 0 value 6\n\
            # gas::particles iteration 1 value 6\n\
            # gas::particles iteration 2 value 6\n",
    },
    Case {
        name: "a gas whose particles leave at the ends",
        file: GAS,
        more: "",
        printed: b"done: iteration 2\n",
        first: b"# gas::cell iteration 0 size 6 4\n\
            0 0 0 0 0 0\n\
            0 0 5 8 0 0\n\
            0 0 10 8 0 0\n\
            0 0 0 0 0 0\n\
            \n\
            # gas::cell iteration 1 size 6 4\n\
            0 0 0 0 0 0\n\
            0 4 8 9 0 0\n\
            0 0 0 0 0 0\n\
            0 0 0 0 0 0\n\
            \n\
            # gas::cell iteration 2 size 6 4\n\
            0 0 0 0 0 0\n\
            0 0 0 0 1 0\n\
            0 0 0 0 0 0\n\
            0 0 0 0 0 0\n\
            \n",
        second: b"# gas::particles iteration 0 value 6\n\
            # gas::particles iteration 1 value 4\n\
            # gas::particles iteration 2 value 1\n",
    },
    Case {
        name: "the particles of each cell",
        file: RING,
        more: "IO::out_vars = \"gas::number gas::total_x\"\n",
        printed: b"done: iteration 2\n",
        first: b"# gas::number iteration 0 size 6 4\n\
            0 0 0 0 0 0\n\
            0 0 2 1 0 0\n\
            0 0 2 1 0 0\n\
            0 0 0 0 0 0\n\
            \n\
            # gas::number iteration 2 size 6 4\n\
            0 0 2 1 0 0\n\
            1 0 0 0 1 0\n\
            0 0 0 0 0 0\n\
            0 0 0 1 0 0\n\
            \n",
        second: b"# gas::total_x iteration 0 value 0\n\
            # gas::total_x iteration 2 value 0\n",
    },
    Case {
        name: "the momenta of each cell",
        file: RING,
        more: "IO::out_vars = \"gas::momentum_x gas::momentum_y\"\n",
        printed: b"done: iteration 2\n",
        first: b"# gas::momentum_x iteration 0 size 6 4\n\
            0 0 0 0 0 0\n\
            0 0 0 0 0 0\n\
            0 0 0 0 0 0\n\
            0 0 0 0 0 0\n\
            \n\
            # gas::momentum_x iteration 2 size 6 4\n\
            0 0 0 0 0 0\n\
            -1 0 0 0 1 0\n\
            0 0 0 0 0 0\n\
            0 0 0 0 0 0\n\
            \n",
        second: b"# gas::momentum_y iteration 0 size 6 4\n\
            0 0 0 0 0 0\n\
            0 0 0 -1 0 0\n\
            0 0 0 -1 0 0\n\
            0 0 0 0 0 0\n\
            \n\
            # gas::momentum_y iteration 2 size 6 4\n\
            0 0 0 -1 0 0\n\
            0 0 0 0 0 0\n\
            0 0 0 0 0 0\n\
            0 0 0 -1 0 0\n\
            \n",
    },
    Case {
        name: "the sum of momenta",
        file: RING,
        more: "IO::out_vars = \"gas::particles gas::total_y\"\n",
        printed: b"done: iteration 2\n",
        first: b"# gas::particles iteration 0 value 6\n\
            # gas::particles iteration 2 value 6\n",
        second: b"# gas::total_y iteration 0 value -2\n\
            # gas::total_y iteration 2 value -2\n",
    },
];

/// Tests a row of `CASES`.
fn is_kept(rt: &HostRuntime, case: &Case) -> Result<(), Fail> {
    let mut shelf = shelf_with(rt.alloc(), case.file, case.more, PHYSICS)?;
    let came = answer_to(rt, &["run", "t.par"], &mut shelf)?;
    let found = (came.status, came.printed.as_slice());
    same(&case.name, &found, &(0, case.printed))?;
    let found = (came.first.as_slice(), came.second.as_slice());
    same(&case.name, &found, &(case.first, case.second))
}

#[test]
fn heat_and_gas(rt: HostRuntime) -> Result<(), Fail> {
    for case in CASES {
        is_kept(&rt, case)?;
    }
    Ok(())
}
