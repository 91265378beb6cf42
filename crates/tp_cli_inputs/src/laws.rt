//! What is proved of plans of the tasks in files.

ghost use Rattle.tp_cli_inputs.specs.TaskPlans.{TaskPlansAreRead};

use tp_ground_named::chosen_actions_are_readable;
use tp_happen::plans_are_read;

/// What is written for steps of a task spells them, for each task of chosen ground actions of a
/// problem that is spelled by texts, where the steps' actions are the task's, an instantaneous step
/// lasts no tick, and each ends by the task's horizon.
pub fn task_plans_are_read()
    ensures { TaskPlansAreRead }
{
    chosen_actions_are_readable();
    plans_are_read();
}
