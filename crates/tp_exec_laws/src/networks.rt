//! The network of a plan, its schedules and its runs are the same for each task of a problem that
//! has the plan's actions.

ghost use Rattle.tp_exec_laws.specs.SameNetworks.{PlansHaveSameNetworks};

/// The same steps, their actions taken by name and objects, have the same network for any two tasks
/// of a problem that have their actions: the same events as text, the same bounds one after
/// another, so the same schedules, and the same runs. So the network of a plan on the task of the
/// ground actions that the plan names is that on the task of all.
pub fn plans_have_same_networks()
    ensures { PlansHaveSameNetworks }
{}
