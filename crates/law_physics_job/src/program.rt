//! The program's routines of the thorns that conserve.
ghost use Rattle.cx_program.specs.Samples.{sample_rules, sample_specs};
ghost use Rattle.law_physics_job.specs.GasRoutines.{HandsInGas};
ghost use Rattle.law_physics_job.specs.HeatRoutines.{HandsInHeat};

/// A law of the program: among the routines that it hands in, those of `HeatFlux` and of `LatticeGas` are the thorns'
/// own. So both laws are of each job that the program makes. It does nothing; its clauses are the law.
pub fn program_hands_in()
    ensures heat { HandsInHeat sample_rules sample_specs }
    ensures gas { HandsInGas sample_rules sample_specs }
{}
