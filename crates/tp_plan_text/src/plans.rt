//! Plans and their steps.

ghost use Rattle.std.specs.Prelude.{◌≡◌};

use std::marker::Model;
use tp_task::ActionId;

/// A step of a plan: an action that starts at a tick and lasts so many ticks, 0 for an
/// instantaneous action.
#[derive(Clone, Copy, Debug, PartialEq, Eq)]
pub struct Step {
    pub tick: u32,
    pub action: ActionId,
    pub duration: u32,
}

/// At most 512 steps, none of which ends past tick 1,000,000,000.
#[derive(Debug, Drop)]
pub struct Plan {
    steps: Vec<Step>,
}

impl Model for Plan {
    ghost use Rattle.std.specs.Prelude.{List};
    ghost use Rattle.tp_plan_text.specs.declared.plans.Step.{Step};

    ghost Value = { List Step };

    ghost use Rattle.tp_plan_text.specs.Steps.{IsPlan};

    ghost view = { λ p. p.steps.items };

    ghost invariant = { λ p. IsPlan p.steps.items };
}

impl Plan {
    ghost use Rattle.tp_plan_text.specs.Steps.{IsPlan};

    /// A plan of these steps.
    pub fn new(steps: Vec<Step>) -> Self
        requires { IsPlan steps.items }
        ensures { result ≡ steps.items }
    {
        Plan { steps }
    }

    /// Its steps in order.
    pub fn steps(&self) -> &[Step]
        ensures steps { result.now ≡ self.now }
        ensures plan { IsPlan self.now }
    {
        &self.steps
    }

    /// Its steps, handed back.
    pub fn into_steps(self) -> Vec<Step>
        ensures steps { result.items ≡ self }
        ensures plan { IsPlan self }
    {
        let Plan { steps: all } = self;
        all
    }
}
