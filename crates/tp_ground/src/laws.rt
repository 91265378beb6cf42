//! What is proved of the tasks that are made.

ghost use Rattle.std.specs.Prelude.{ℕ, List};
ghost use Rattle.tp_syntax_ast.specs.Domains.{Domain, SpellsDomain};
ghost use Rattle.tp_syntax_ast.specs.Problems.{Problem, SpellsProblem};
ghost use Rattle.tp_bounds.specs.RunLimits.{RunLimits};
ghost use Rattle.tp_text.specs.declared.number.Scale.{Scale};
ghost use Rattle.tp_ground.specs.Grounding.{IsTask};
ghost use Rattle.tp_ground.specs.Reached.{IsReachedTask};
ghost use Rattle.tp_task.specs.Readable.{AreReadable};
ghost use Rattle.tp_task.specs.declared.task.Task.{Task};

/// The words of each ground action of a task, where domain and problem are spelled by texts, are
/// names in lower case, by which the action is found again.
pub fn actions_are_readable()
    ensures { (text other : List ℕ) (d : Domain)
        (p : Problem) (limits : RunLimits) (scale : Scale) (t : Task) → SpellsDomain text d
        → SpellsProblem d other p → IsTask limits scale d p t → AreReadable t.numbering.actions }
{}

/// The same of the task of the actions that the relaxed reach keeps.
pub fn reached_actions_are_readable()
    ensures { (text other : List ℕ) (d : Domain)
        (p : Problem) (limits : RunLimits) (scale : Scale) (t : Task) → SpellsDomain text d
        → SpellsProblem d other p → IsReachedTask limits scale d p t
        → AreReadable t.numbering.actions }
{}
