//! The files of the thorns that conserve, as they are shipped.
ghost use Rattle.std.specs.Prelude.{◌≡◌};
ghost use Rattle.law_physics_job.specs.Texts.{heat_interface, heat_params, heat_schedule, gas_interface, gas_params, gas_schedule};

const HEAT_INTERFACE: &[u8] = br#"implements: heatflux
public:
CCTK_INT evolved TYPE=GF DIM=3 { u } "heat"
CCTK_BYTE walls TYPE=GF DIM=3 { mask } "1 where heat flows, 0 where none does"
CCTK_INT sums TYPE=SCALAR { total } "sum"
"#;

const HEAT_PARAMS: &[u8] = br#"restricted:
INT factor "in 256ths" { 0:* } 32
KEYWORD pattern "start" { "point" "random" } "point"
INT amount "height" { *:* } 1000000
INT start "place" { 0:* } 0
INT seed "mixing" { 0:* } 0
"#;

const HEAT_SCHEDULE: &[u8] = br#"STORAGE: evolved[1] walls[1] sums[1]
schedule heatflux_init AT INITIAL
{ LANG: C WRITES: heatflux::u(everywhere) heatflux::mask(everywhere) } "start"
schedule heatflux_step AT EVOL
{
  LANG: C
  SYNC: evolved
  READS: heatflux::u(everywhere) heatflux::mask(everywhere)
  WRITES: heatflux::u(interior)
} "one step"
schedule heatflux_zero AT EVOL AFTER heatflux_step
{ LANG: C WRITES: heatflux::u(boundary) } "edge"
schedule heatflux_sum AT ANALYSIS
{ LANG: C READS: heatflux::u(everywhere) WRITES: heatflux::total } "sum"
"#;

const GAS_INTERFACE: &[u8] = br#"implements: gas
public:
CCTK_BYTE cells TYPE=GF DIM=2 { cell } "particles: bit 0 goes east, 1 north, 2 west, 3 south"
CCTK_INT measured TYPE=GF DIM=2 { number momentum_x momentum_y } "of each cell"
CCTK_INT sums TYPE=SCALAR { particles total_x total_y } "over all cells"
"#;

const GAS_PARAMS: &[u8] = br#"restricted:
INT size "width of the block that is filled at the start" { 0:* } 16
INT seed "mixing" { 0:* } 0
"#;

const GAS_SCHEDULE: &[u8] = br#"STORAGE: cells[1] measured[1] sums[1]
schedule gas_init AT INITIAL { LANG: C WRITES: gas::cell(everywhere) } "start"
schedule gas_step AT EVOL
{
  LANG: C
  SYNC: cells
  READS: gas::cell(everywhere)
  WRITES: gas::cell(interior)
} "one step"
schedule gas_zero AT EVOL AFTER gas_step { LANG: C WRITES: gas::cell(boundary) } "edge"
schedule gas_measure AT ANALYSIS
{
  LANG: C
  READS: gas::cell(everywhere)
  WRITES: gas::number(everywhere) gas::momentum_x(everywhere) gas::momentum_y(everywhere)
} "particles and momenta of each cell"
schedule gas_particles AT ANALYSIS AFTER gas_measure
{ LANG: C READS: gas::number(everywhere) WRITES: gas::particles } "sum"
schedule gas_total_x AT ANALYSIS AFTER gas_measure
{ LANG: C READS: gas::momentum_x(everywhere) WRITES: gas::total_x } "sum"
schedule gas_total_y AT ANALYSIS AFTER gas_measure
{ LANG: C READS: gas::momentum_y(everywhere) WRITES: gas::total_y } "sum"
"#;

/// `interface.ccl` of `HeatFlux`.
pub fn heat_interface() -> &'static [u8]
    ensures { result.now ≡ heat_interface }
{
    HEAT_INTERFACE
}

/// `param.ccl` of `HeatFlux`.
pub fn heat_params() -> &'static [u8]
    ensures { result.now ≡ heat_params }
{
    HEAT_PARAMS
}

/// `schedule.ccl` of `HeatFlux`.
pub fn heat_schedule() -> &'static [u8]
    ensures { result.now ≡ heat_schedule }
{
    HEAT_SCHEDULE
}

/// `interface.ccl` of `LatticeGas`.
pub fn gas_interface() -> &'static [u8]
    ensures { result.now ≡ gas_interface }
{
    GAS_INTERFACE
}

/// `param.ccl` of `LatticeGas`.
pub fn gas_params() -> &'static [u8]
    ensures { result.now ≡ gas_params }
{
    GAS_PARAMS
}

/// `schedule.ccl` of `LatticeGas`.
pub fn gas_schedule() -> &'static [u8]
    ensures { result.now ≡ gas_schedule }
{
    GAS_SCHEDULE
}
