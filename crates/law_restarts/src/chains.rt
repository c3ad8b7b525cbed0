//! Parameter files that differ only in how and where a run is done, and steer files that differ only in later iterations.
ghost use Rattle.std.specs.Prelude.{◌≡◌, ℕ, List, Option, None, Ok};
ghost use Rattle.cx_parfile.specs.declared.settings.Setting.{Setting};
ghost use Rattle.cx_plan.specs.declared.job.Job.{Job};
ghost use Rattle.cx_rule.specs.declared.spec.Spec.{Spec};
ghost use Rattle.cx_bind.specs.declared.thorns.Thorn.{Thorn};
ghost use Rattle.cx_bind.specs.Binding.{bind_fault};
ghost use Rattle.cx_values.specs.Assigned.{assigned, thorn_finds};
ghost use Rattle.cx_job_files.specs.Shelf.{Held};
ghost use Rattle.cx_job.specs.Making.{Made};
ghost use Rattle.law_course.specs.Starts.{AreAlikeTo};
ghost use Rattle.law_restarts.specs.Settings.{other_settings};
ghost use Rattle.law_restarts.specs.Chains.{AreChained, AreChainedByNames, HaveSteersTo};

/// Thorns that fit each other see the same of two lists of settings that differ only in parameters that say how and where a run
/// is done: no name in their expressions leads to one of these.
pub fn thorns_see_the_same()
    ensures { (thorns : List Thorn) (one other : List Setting) → bind_fault thorns ≡ None
        → other_settings thorns one ≡ other_settings thorns other
        → (t : ℕ) (name : List ℕ) (index : Option ℕ)
        → thorn_finds (assigned thorns one) t name index
        ≡ thorn_finds (assigned thorns other) t name index }
{}

/// Where the list of thorns and the thorns' files are the same, what two parameter files say is the same but for parameters
/// that say how and where a run is done, and the steer files that they name have the same lines up to an iteration, the jobs
/// that they make for the same routines are alike up to it (`one_course_to` says what follows). So a run of the one goes on as
/// one of the other from each checkpoint that isn't later, however they are cut, whatever their lead and their folders, and
/// however they begin. The two parameter files may have different names, on one shelf or on two. A setting counts by the
/// parameter that it names, by whatever name, and neither it nor a line of a steer file by its place in the file.
pub fn one_run()
    ensures { (c : ℕ) (name_a name_b : List ℕ) (specs : List Spec) (held_a held_b : Held)
        (a b : Job)
        → Made name_a specs held_a (Ok a) → Made name_b specs held_b (Ok b)
        → AreChained name_a name_b held_a held_b → HaveSteersTo c name_a name_b held_a held_b
        → AreAlikeTo c a b }
{}

/// Parameter files of the same active thorns, whose settings are the same but for those that give the full name of a parameter that
/// says how and where a run is done, differ only in such parameters, whatever thorns there are.
pub fn full_names_chain()
    ensures { (name_a name_b : List ℕ) (held_a held_b : Held)
        → AreChainedByNames name_a name_b held_a held_b → AreChained name_a name_b held_a held_b }
{}
