//! Rounds of turns.
ghost use Rattle.std.specs.Prelude.{◌≡◌, ◌<◌, ◌≤◌, ◌∷◌, [], true, false, map, sum};
ghost use Rattle.std.specs.List.{list_all};
ghost use Rattle.cx_batch.specs.Turns.{AreApart, AreSound, Turned};

use crate::task::Task;

/// Runs tasks to their end: each task that isn't over takes one turn, in order, again and again until every task is over.
///
/// It takes no memory. The contract says where the tasks end, and not in which order they got there.
pub fn drive<X, K: Task<X>>(tasks: &mut Vec<K>, x: &mut X)
    requires apart { AreApart (map K.place tasks.old.items) }
    requires sound { AreSound K.Task x.old tasks.old.items }
    ensures turned { Turned K.Task tasks.old.items tasks.new.items x.old x.new }
    ensures over { list_all K.is_over tasks.new.items ≡ true }
{
    'rounds: while !all_over(tasks) {
        round(tasks, x);
    }
}

/// Whether no task has turns left.
fn all_over<X, K: Task<X>>(tasks: &[K]) -> bool
    ensures { result ≡ list_all K.is_over tasks.now }
{
    tasks.iter().all(|task| task.over())
}

/// Gives each task that isn't over one turn.
#[tactic(auto, using(crate::proofs::TurnLaws::unturned, crate::proofs::TurnLaws::still_sound, crate::proofs::TurnLaws::beside))]
fn round<X, K: Task<X>>(tasks: &mut [K], x: &mut X)
    requires apart { AreApart (map K.place tasks.old) }
    requires sound { AreSound K.Task x.old tasks.old }
    ensures turned { Turned K.Task tasks.old tasks.new x.old x.new }
    ensures less { list_all K.is_over tasks.old ≡ false
        → sum (map K.left tasks.new) < sum (map K.left tasks.old) }
    ensures left { sum (map K.left tasks.new) ≤ sum (map K.left tasks.old) }
{
    if let Some((first, others)) = tasks.split_first_mut() {
        take_turn(first, x);
        round(others, x);
    }
}

/// Takes a turn, unless the task is over.
#[tactic(auto, using(crate::proofs::TurnLaws::unturned, crate::proofs::TurnLaws::one_turned))]
fn take_turn<X, K: Task<X>>(task: &mut K, x: &mut X)
    requires { K.sound task.old x.old }
    ensures turned { Turned K.Task (task.old ∷ []) (task.new ∷ []) x.old x.new }
    ensures less { K.is_over task.old ≡ false → K.left task.new < K.left task.old }
    ensures left { K.left task.new ≤ K.left task.old }
{
    if !task.over() {
        task.turn(x);
    }
}
