// Why a vector that a call was given is refused.
#![tactic(auto)]

ghost use Rattle.std.specs.Prelude.{◌≡◌};
ghost use Rattle.timeseries.specs.record_walk.Walks.{fault_number, fault_place};
ghost use Rattle.answers.specs.Outcomes.{numbers, numbers_of};

use answers::Refusal;
use timeseries::VectorFault;

// Why a side was refused.
pub fn fault_of(side: usize, fault: VectorFault) -> Refusal
    ensures { numbers_of result ≡ numbers (fault_number fault) side (fault_place fault) }
{
    match fault {
        VectorFault::Cut(place) => Refusal::Cut { side, place },
        VectorFault::BadKey(place) => Refusal::BadKey { side, place },
        VectorFault::Readings => Refusal::Readings { side },
        VectorFault::BadGrid => Refusal::BadGrid { side },
    }
}
