//! What words of a call name.

ghost use Rattle.std.specs.Prelude.{◌≡◌};

use tp_cli_inputs::PlanWords;
use tp_solve::Wishes;
use tp_text::Scale;

/// In which order a search takes its nodes.
#[derive(Clone, Copy, Debug, PartialEq, Eq)]
pub enum Order {
    /// By the count of goal conjuncts that they lack, and whether it is told how far it is.
    Lacking { progress: bool },
    /// By relaxed plans, and what is wished for beside a plan.
    Guided(Wishes),
}

/// The files of a domain and a problem, the ticks of a unit of time, the tick that no step may end
/// past, how many nodes may be expanded, and in which order.
#[derive(Clone, Copy)]
pub struct SearchWords<'w> {
    pub domain: &'w str,
    pub problem: &'w str,
    pub scale: Scale,
    pub horizon: u32,
    pub budget: u32,
    pub order: Order,
}

impl<'w> SearchWords<'w> {
    ghost use Rattle.tp_cli_plan.specs.Searches.{task_words};

    /// The words of the task, as those that name a plan have them. There is no file of a plan; the
    /// problem's stands for it.
    pub(crate) fn task_words(self) -> PlanWords<'w>
        ensures { result ≡ task_words self.entry }
    {
        PlanWords {
            domain: self.domain,
            problem: self.problem,
            plan: self.problem,
            scale: self.scale,
            horizon: self.horizon,
        }
    }
}
