//! The schedules of the examples, written by hand from their thorns' files.

/// The automaton.
pub const CA: &str = "bin STARTUP
bin WRAGH
bin PARAMCHECK
bin BASEGRID
bin INITIAL
  call ElemCA::ca_init writes ca::cell(everywhere)
bin POSTINITIAL
bin PRESTEP
bin EVOL
  call ElemCA::ca_step reads ca::cell(everywhere) writes ca::cell(interior) sync ca::cell
  call ElemCA::ca_zero writes ca::cell(boundary)
bin POSTSTEP
  call ElemCA::ca_count reads ca::cell(everywhere) writes ca::live(everywhere)
bin CHECKPOINT
bin ANALYSIS
bin TERMINATE
bin SHUTDOWN
bin CPINITIAL not run
bin RECOVER_PARAMETERS not run
bin RECOVER_VARIABLES not run
bin POST_RECOVER_VARIABLES not run
";

/// The game of life.
pub const LIFE: &str = "bin STARTUP
bin WRAGH
bin PARAMCHECK
bin BASEGRID
bin INITIAL
  call Life2D::life_init writes life::cell(everywhere)
bin POSTINITIAL
bin PRESTEP
bin EVOL
  call Life2D::life_step reads life::cell(everywhere) writes life::cell(interior) sync life::cell
  call Life2D::life_zero writes life::cell(boundary)
bin POSTSTEP
  call Life2D::life_count reads life::cell(everywhere) writes life::live(everywhere)
bin CHECKPOINT
bin ANALYSIS
bin TERMINATE
bin SHUTDOWN
bin CPINITIAL not run
bin RECOVER_PARAMETERS not run
bin RECOVER_VARIABLES not run
bin POST_RECOVER_VARIABLES not run
";

/// A wave, whose sum isn't asked for.
pub const WAVE: &str = "bin STARTUP
bin WRAGH
bin PARAMCHECK
bin BASEGRID
bin INITIAL
  call WaveInt::wave_init writes wave::phi(everywhere) wave::phi_p(everywhere)
bin POSTINITIAL
bin PRESTEP
bin EVOL
  call WaveInt::wave_step reads wave::phi_p(everywhere) wave::phi_p_p(interior) writes wave::phi(interior) sync wave::phi
  call WaveInt::wave_flat reads wave::phi(interior) writes wave::phi(boundary)
bin POSTSTEP
bin CHECKPOINT
bin ANALYSIS
bin TERMINATE
bin SHUTDOWN
bin CPINITIAL not run
bin RECOVER_PARAMETERS not run
bin RECOVER_VARIABLES not run
bin POST_RECOVER_VARIABLES not run
";

/// Heat with its sum.
pub const HEAT: &str = "bin STARTUP
bin WRAGH
bin PARAMCHECK
bin BASEGRID
bin INITIAL
  call DiffInt::diff_init writes diff::u(everywhere)
bin POSTINITIAL
bin PRESTEP
bin EVOL
  call DiffInt::diff_step reads diff::u(everywhere) writes diff::u(interior) sync diff::u
  call DiffInt::diff_flat reads diff::u(interior) writes diff::u(boundary)
bin POSTSTEP
bin CHECKPOINT
bin ANALYSIS
  call DiffInt::diff_sum reads diff::u(everywhere) writes diff::total(everywhere)
bin TERMINATE
bin SHUTDOWN
bin CPINITIAL not run
bin RECOVER_PARAMETERS not run
bin RECOVER_VARIABLES not run
bin POST_RECOVER_VARIABLES not run
";

/// A count that a WHILE takes down.
pub const CONTROL: &str = "bin STARTUP
bin WRAGH
bin PARAMCHECK
bin BASEGRID
bin INITIAL
  call Control::control_set writes control::count(everywhere)
bin POSTINITIAL
bin PRESTEP
bin EVOL
  call Control::control_spin while control::count reads control::count(everywhere) writes control::count(everywhere)
bin POSTSTEP
bin CHECKPOINT
bin ANALYSIS
bin TERMINATE
bin SHUTDOWN
bin CPINITIAL not run
bin RECOVER_PARAMETERS not run
bin RECOVER_VARIABLES not run
bin POST_RECOVER_VARIABLES not run
";

/// The four thorns of the box, one after another in each bin; a wave's sum is asked for, that of heat isn't.
pub const BOX: &str = "bin STARTUP
bin WRAGH
bin PARAMCHECK
bin BASEGRID
bin INITIAL
  call WaveInt::wave_init writes wave::phi(everywhere) wave::phi_p(everywhere)
  call DiffInt::diff_init writes diff::u(everywhere)
  call ElemCA::ca_init writes ca::cell(everywhere)
  call Control::control_set writes control::count(everywhere)
bin POSTINITIAL
bin PRESTEP
bin EVOL
  call WaveInt::wave_step reads wave::phi_p(everywhere) wave::phi_p_p(interior) writes wave::phi(interior) sync wave::phi
  call WaveInt::wave_flat reads wave::phi(interior) writes wave::phi(boundary)
  call DiffInt::diff_step reads diff::u(everywhere) writes diff::u(interior) sync diff::u
  call DiffInt::diff_flat reads diff::u(interior) writes diff::u(boundary)
  call ElemCA::ca_step reads ca::cell(everywhere) writes ca::cell(interior) sync ca::cell
  call ElemCA::ca_zero writes ca::cell(boundary)
  call Control::control_spin while control::count reads control::count(everywhere) writes control::count(everywhere)
bin POSTSTEP
  call ElemCA::ca_count reads ca::cell(everywhere) writes ca::live(everywhere)
bin CHECKPOINT
bin ANALYSIS
  call WaveInt::wave_sum reads wave::phi(everywhere) writes wave::total(everywhere)
bin TERMINATE
bin SHUTDOWN
bin CPINITIAL not run
bin RECOVER_PARAMETERS not run
bin RECOVER_VARIABLES not run
bin POST_RECOVER_VARIABLES not run
";
