//! Which flow each packet is of.

ghost use Rattle.std.specs.Prelude.{◌≡◌, IfOk};
ghost use Rattle.simulator.specs.run_measures.Numbered.{flows_in};

use run_laws::Step;
use std::alloc::{AllocError, Global};

/// The flows of the packets that enter, in their order.
pub(crate) fn flows_of(alloc: Global, steps: &[Step]) -> Result<Vec<u32>, AllocError>
    ensures { IfOk result (λ v. v.items ≡ flows_in steps.now) }
{
    let mut flows = Vec::new(alloc);
    for step in steps {
        if let Step::Enter { flow, .. } = step {
            flows.push(*flow)?;
        }
    }
    Ok(flows)
}
