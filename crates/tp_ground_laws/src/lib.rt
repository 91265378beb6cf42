//! What is kept where a problem's task has only some of its ground actions: verdicts on plans; and
//! where these are the actions of the relaxed reach, valid plans and whether the goal is in reach.
#![tactic(auto)]

ghost use Rattle.std.specs.Prelude.{◌↔◌, ℕ, Bool, List};
ghost use Rattle.tp_syntax_ast.specs.Domains.{Domain, SpellsDomain};
ghost use Rattle.tp_syntax_ast.specs.Problems.{Problem, SpellsProblem};
ghost use Rattle.tp_bounds.specs.RunLimits.{RunLimits};
ghost use Rattle.tp_text.specs.declared.number.Scale.{Scale};
ghost use Rattle.tp_task.specs.declared.task.Task.{Task};
ghost use Rattle.tp_task.specs.TaskReach.{GoalIs};
ghost use Rattle.tp_ground.specs.Grounding.{IsTask};
ghost use Rattle.tp_ground.specs.Reached.{Instance, IsReachedTask, IsTaskOf};
ghost use Rattle.tp_ground_laws.specs.SamePlans.{HaveSamePlans, HoldsPlans, PlansAreJudgedAlike, some_of};
ghost use Rattle.tp_ground_laws.specs.WholeTasks.{IsWholeTask};

use tp_ground::actions_are_readable;

/// A plan, its actions taken by name and objects, is valid for the whole task of a problem exactly
/// if it is for the task of the actions that the relaxed reach keeps.
pub fn same_plans_are_valid()
    ensures { (text other : List ℕ) (d : Domain) (p : Problem)
        (limits small : RunLimits) (scale : Scale) (t u : Task) → SpellsDomain text d
        → SpellsProblem d other p → IsTask limits scale d p t
        → IsReachedTask small scale d p u → HaveSamePlans t u }
{
    actions_are_readable();
}

/// A plan, its actions taken by name and objects, is judged alike, with the same first fault, for
/// any two tasks of a problem that have its actions: so a verdict on the task of the ground actions
/// that a plan names is one on the task of all, however many there are.
pub fn plans_are_judged_alike()
    ensures { PlansAreJudgedAlike }
{}

/// The steps of the task of some of a problem's ground actions, whichever these are, are steps of
/// the task of all: valid for both or for neither, and printed as the same text.
pub fn plans_of_some_are_plans()
    ensures { (text other : List ℕ) (d : Domain) (p : Problem)
        (limits small : RunLimits) (scale : Scale) (those : Instance → Bool) (t u : Task)
        → SpellsDomain text d → SpellsProblem d other p → IsTask limits scale d p t
        → IsTaskOf small scale d p (some_of d p those) u → HoldsPlans t u }
{}

/// The goal is met in delete-relaxed reachability of the whole task of a problem exactly if it is
/// met in that of the task of the actions that are kept.
pub fn same_goal_is_in_reach()
    ensures { (d : Domain) (p : Problem) (limits small : RunLimits)
        (scale : Scale) (t u : Task) → IsTask limits scale d p t
        → IsReachedTask small scale d p u → (b : Bool) → GoalIs t b ↔ GoalIs u b }
{}

/// A plan, its actions taken by name and objects, is valid for the whole task of a problem exactly
/// if it is for a task that has each action that a valid plan may have: the whole task has no valid
/// plan with another action.
pub fn whole_tasks_have_all_plans()
    ensures { (text other : List ℕ) (d : Domain) (p : Problem)
        (limits small : RunLimits) (scale : Scale) (t u : Task) → SpellsDomain text d
        → SpellsProblem d other p → IsTask limits scale d p t
        → IsWholeTask small scale d p u → HaveSamePlans t u }
{}
