//! What agents that do not speak to each other come to together, once each has carried its part of
//! a valid plan out: a valid plan.

ghost use Rattle.std.specs.Prelude.{◌≡◌, List, length};
ghost use Rattle.tp_bounds.specs.Setting.{Setting, event_count};
ghost use Rattle.tp_bounds.specs.OwnBounds.{with_bounds, setting_of};
ghost use Rattle.tp_bounds.specs.declared.plan_nets.PlanNet.{PlanNet};
ghost use Rattle.tp_exec_machine.specs.declared.command.Report.{Report};
ghost use Rattle.tp_exec_laws.specs.PartRuns.{ArePartReports, AreJointReports, PartReportsFit, KeptReportsTellSchedules, CompleteRunsKeepParts};
ghost use Rattle.tp_exec_laws.specs.NetsInForce.{HasInForce, SchedulesMakeValidPlans};
ghost use Rattle.tp_exec_laws.specs.JoinedPlans.{JoinedRunsAreSchedules, JoinedRunsMakeValidPlans};

use tp_agents::Split;
use tp_bounds::Setting;

/// The report of an executive over an agent's part, after any list of commands, has a moment for
/// each event of the part. While none of the part's bounds is withdrawn, the moments are a schedule
/// of the part. So `join_runs` may be given the reports of all agents, and where every run is
/// complete, the parts are kept.
pub fn part_runs_keep_parts(split: &Split)
    ensures fit { PartReportsFit split.now.setting split.now.owners.items
        split.now.intervals.items }
    ensures schedules { KeptReportsTellSchedules split.now.setting split.now.owners.items
        split.now.intervals.items }
    ensures keep { CompleteRunsKeepParts split.now.setting split.now.owners.items
        split.now.intervals.items }
{
    // this call tells that the bounds in force suit the setting
    let _events = split.setting.events();
}

/// That holds whatever the order in which the commands of all agents come, where their executives
/// share nothing.
pub fn joint_runs_are_part_runs(split: &Split)
    ensures { (reports : List Report) → AreJointReports split.now.setting split.now.owners.items
        split.now.intervals.items reports → ArePartReports split.now.setting
        split.now.owners.items split.now.intervals.items reports }
{}

/// A network is in force in a setting of its events and its horizon in which its bounds came into
/// force, whatever there was before: so in one in which nothing has happened.
pub fn networks_come_into_force()
    ensures over { (s : Setting) (n : PlanNet) → event_count s ≡ length n.events.items
        → s.horizon ≡ n.horizon → HasInForce (with_bounds s 0 n.bounds.items) n }
    ensures alone { (n : PlanNet) → HasInForce
        (setting_of (length n.events.items) n.horizon n.bounds.items) n }
{}

/// Where a setting has the events and the horizon of a valid plan's network and all its bounds in
/// force, perhaps with others, each schedule of it makes a valid plan.
pub fn schedules_make_valid_plans(setting: &Setting)
    ensures { SchedulesMakeValidPlans setting.now }
{
    // this call tells that nothing lies behind the horizon
    let _events = setting.events();
}

/// What `join_runs` makes of complete runs of all parts is a schedule of the setting that was
/// split. It makes a valid plan where that setting has the events and the horizon of a valid plan's
/// network and all its bounds in force, perhaps with others.
pub fn joined_runs_make_valid_plans(split: &Split)
    ensures schedule { JoinedRunsAreSchedules split.now.setting split.now.owners.items
        split.now.intervals.items }
    ensures valid { JoinedRunsMakeValidPlans split.now.setting split.now.owners.items
        split.now.intervals.items }
{
    part_runs_keep_parts(split);
    schedules_make_valid_plans(&split.setting);
    let _events = split.setting.events();
}
