//! The last service of a priority queue. The queues after those with flows have all one service, for what is before them is
//! one curve, and no packet comes after them: so it is made once.

ghost use Rattle.std.specs.Prelude.{◌≡◌, Ok, IfSome, IfNone, IsTrue};
ghost use Rattle.upp_curve.specs.Curve.{value_at};
ghost use Rattle.min_plus.specs.Functions.{IsFinite};
ghost use Rattle.residuals.specs.calls.PriorityCalls.{MakesPriority};
ghost use Rattle.net_cells.specs.Answers.{MakesCurve};
ghost use Rattle.net_cells.specs.cell_table.Values.{answer_of, meaning_of};
ghost use Rattle.cell_eval.specs.Sharing.{IsShared};
ghost use Rattle.cell_eval.specs.Recent.{IsMadeOf, ServesAbove};

use crate::sharing::{once_more, shared};
use net_cells::cell_table::Value;
use outcomes::Steps;
use residuals::priority::priority_service;
use std::alloc::Global;
use std::marker::Model;
use std::rc::Rc;
use std::sync::ledger::Ledger;
use upp_curve::{Curve, equal};
use upp_limits::OpFault;

// A service, and what it was made of: the server's curve, that of the queues before, and the longest packet of those after.
// It is seen as that service.
#[derive(Drop)]
struct Last {
    service: Curve,
    higher: Rc<Curve>,
    lower: u32,
    made: Rc<Curve>,
}

impl Model for Last {
    ghost use Rattle.upp_curve.specs.Curve.{SpecCurve};
    ghost use Rattle.cell_eval.specs.Recent.{IsMadeOf};

    ghost Value = { SpecCurve };

    ghost view = { λ l. l.made.value };

    ghost invariant = { λ l. IsMadeOf l.service l.higher.value l.lower l.made.value };
}

impl Last {
    // Whether it was made of these; the curves are compared by what is stored, that of the queues before as the last, since it is
    // the longest.
    fn is_of(&self, service: &Curve, higher: &Curve, lower: u32) -> bool
        ensures { IsTrue result → IsMadeOf service.now higher.now lower self.now }
    {
        // What curves keep is in the contracts of these calls.
        service.keeps();
        higher.keeps();
        self.service.keeps();
        self.higher.keeps();
        if self.lower != lower {
            return false;
        }
        if !equal(&self.service, service) {
            return false;
        }
        equal(&self.higher, higher)
    }

    // It, shared once more.
    fn again(&self) -> Result<Value, OpFault>
        ensures { IsShared (Ok self.now) (answer_of meaning_of result) }
    {
        once_more(&self.made)
    }
}

// What is kept of a service that was made: nothing of a refusal, nor where there is no memory for it.
fn kept(
    service: &Curve,
    higher: &Rc<Curve>,
    lower: u32,
    made: &Result<Value, OpFault>,
) -> Option<Last>
    requires { MakesCurve (MakesPriority service.now higher.now.value lower) (answer_of meaning_of made.now) }
{
    let Ok(Value::Curve(curve)) = made else {
        return None;
    };
    let Ok(own) = service.copy() else {
        return None;
    };
    let Ok(before) = higher.clone() else {
        return None;
    };
    let Ok(made) = curve.clone() else {
        return None;
    };
    Some(Last {
        service: own,
        higher: before,
        lower,
        made,
    })
}

/// The last service of a priority queue that was made, if any, and what it was made of. These curves stay in memory until
/// another one is made.
#[derive(Drop)]
pub struct Recent {
    last: Option<Last>,
}

impl Recent {
    /// None was made yet.
    pub fn new() -> Recent {
        Recent { last: None }
    }

    // The last service, where it was made of these; its three operators are counted as if they were applied once more.
    fn found<L: Ledger>(
        &self,
        service: &Curve,
        higher: &Curve,
        lower: u32,
        steps: &mut Steps<L>,
    ) -> Option<Result<Value, OpFault>>
        ensures found { IfSome result (λ r. ServesAbove service.now higher.now lower steps.old steps.new r) }
        ensures none { IfNone result (steps.new ≡ steps.old) }
    {
        let Some(last) = &self.last else {
            return None;
        };
        if !last.is_of(service, higher, lower) {
            return None;
        }
        steps.tick();
        steps.tick();
        steps.tick();
        Some(last.again())
    }

    /// The service of a queue of a priority server, shared: the last one, where that was made of the same, and else it is
    /// made, and kept. Either way three operators are counted.
    pub(crate) fn service_above<L: Ledger>(
        &mut self,
        alloc: Global,
        service: &Curve,
        higher: &Rc<Curve>,
        lower: u32,
        steps: &mut Steps<L>,
    ) -> Result<Value, OpFault>
        requires { IsFinite (value_at service.now) }
        ensures { ServesAbove service.now higher.now.value lower steps.old steps.new result }
    {
        match self.found(service, higher, lower, steps) {
            Some(found) => found,
            None => {
                // The one before is let go first, so that no more is in memory than without it.
                self.last = None;
                let made = shared(
                    alloc,
                    priority_service(alloc, service, higher, lower, steps),
                );
                self.last = kept(service, higher, lower, &made);
                made
            }
        }
    }
}
