//! The law of parts that stand together at marked places.
ghost use Rattle.law_network.specs.Together.{PartsGather};

use crate::network::Network;

/// Where no part goes past the writer's next marked place, all parts stand together when the writer comes there: no message is
/// left, and what was counted is what all operations up to that place count. It does nothing; its clause is the law.
pub fn parts_gather<N: Network>(network: &N)
    ensures { PartsGather (N.net network.now) (N.script network.now)
        (N.agrees network.now) (N.books network.now) }
{}
