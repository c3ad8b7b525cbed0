//! What the rounds of an exchange give.
ghost use Rattle.cx_ghost.specs.Rounds.{RoundsReach, AllReached, PostsAreNeeded};

/// The law of the exchange, over what `post` and `take` say of each part. A round is one direction, in order x, y, z.
///
/// - What a part posts is what its neighbours need of it: a wrong head never stands at the front of a queue that is needed.
/// - After the rounds of the directions below d each local point whose coordinates outside the owned box lie in those directions
///   alone has the number of the undivided grid.
/// - After all rounds each local point has it, corners included.
pub fn rounds()
    ensures needed { PostsAreNeeded }
    ensures below { RoundsReach }
    ensures all { AllReached }
{}
