//! What is proved of the tasks of chosen ground actions.

ghost use Rattle.std.specs.Prelude.{ℕ, List};
ghost use Rattle.tp_syntax_ast.specs.Domains.{Domain, SpellsDomain};
ghost use Rattle.tp_syntax_ast.specs.Problems.{Problem, SpellsProblem};
ghost use Rattle.tp_bounds.specs.RunLimits.{RunLimits};
ghost use Rattle.tp_text.specs.declared.number.Scale.{Scale};
ghost use Rattle.tp_task.specs.Readable.{AreReadable};
ghost use Rattle.tp_task.specs.Words.{Words};
ghost use Rattle.tp_task.specs.declared.task.Task.{Task};
ghost use Rattle.tp_ground.specs.Reached.{IsTaskOf};
ghost use Rattle.tp_ground_named.specs.Named.{chosen};

/// The words of each ground action of such a task, where domain and problem are spelled by texts,
/// are names in lower case, by which the action is found again.
pub fn chosen_actions_are_readable()
    ensures { (text other : List ℕ) (d : Domain)
        (p : Problem) (limits : RunLimits) (scale : Scale) (asked : List Words) (t : Task)
        → SpellsDomain text d → SpellsProblem d other p
        → IsTaskOf limits scale d p (chosen d p asked) t → AreReadable t.numbering.actions }
{}
