ghost use Rattle.std.specs.Prelude.{◌≡◌, ℕ, List, IfOk, IfErr, OnErr, IsTrue, false};
ghost use Rattle.finite_map.specs.FiniteMap.{get};

use crate::node::NodeParts;
use apply_unit::Done;

impl NodeParts {
    ghost use Rattle.order_event.specs.declared.event.Event.{Event};
    ghost use Rattle.order_event.specs.declared.step.Answer.TheVariants as answer;
    ghost use Rattle.node_meaning.specs.Steps.{finish_step};
    ghost use Rattle.node_meaning.specs.Units.{unit_task};
    ghost use Rattle.node_parts.specs.Units.{is_started};
    ghost use Rattle.node_core.specs.Stands.{IsStanding, Stands, Does};

    /// Takes the work of a started unit. The value comes back where its number is no such unit.
    pub(crate) fn finish(&mut self, done: Done) -> Result<u64, Done>
        requires work { (order : List Event) → Stands order self.old
            → IsTrue (is_started (get self.old.units.units done.number))
            → done ≡ unit_task order done.number }
        ensures ok { IfOk result
            (λ number. Does (λ order n. finish_step n done.number) self.old self.new
            (answer.Finished number)) }
        ensures err { IfErr result (λ back. back ≡ done) }
        ensures none { OnErr result (is_started (get self.old.units.units done.number) ≡ false) }
        ensures same { OnErr result (self.new ≡ self.old) }
    {
        let number = done.number();
        if !self.units.is_started(number) {
            return Err(done);
        }
        self.units.finish(done);
        Ok(number)
    }
}
