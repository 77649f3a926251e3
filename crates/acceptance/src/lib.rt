// A file is accepted, or turned away by the first refusal in the paper's order.

#![tactic(auto)]

ghost use Rattle.std.specs.Prelude.{◌≡◌};
ghost use Rattle.road.specs.Faults.{of_result, of_got};
ghost use Rattle.road.specs.Rules.{accepted};

use accepted_road::AcceptedRoad;
use road::Refusal;

// Refusals 1 to 19, 22 and 23 of a file, or its road.
#[tactic(auto, using(crate::specs::Acceptance::answers))]
pub fn accept(file: &[u8]) -> Result<AcceptedRoad, Refusal>
    ensures { of_result result ≡ of_got (accepted file.now) }
{
    let alignment = alignment::read(file)?;
    let limits = limits::limits_of(alignment.head());
    rules::judge(&alignment, &limits)?;
    Ok(AcceptedRoad::new(alignment))
}
