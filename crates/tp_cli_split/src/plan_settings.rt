//! The setting of a plan's network.

ghost use Rattle.std.specs.Prelude.{◌≡◌, ◌≤◌, length, IfOk};
ghost use Rattle.tp_cli_split.specs.Divides.{net_setting};

use std::alloc::{AllocError, Global};
use tp_bounds::{Limits, PlanNet, Setting};
use tp_exec_machine::Executive;
use tp_repair::RepairNet;

/// The setting in which nothing has happened and the bounds of a plan's network are in force. It
/// costs one addition to a network for each.
pub(crate) fn plan_setting(alloc: Global, network: &PlanNet) -> Result<Setting, AllocError>
    requires { length network.now.bounds.items ≤ 65535 }
    ensures { IfOk result (λ setting. setting ≡ net_setting network.now) }
{
    let net = RepairNet::new(alloc, network.events.len() as u16, network.horizon)?;
    let limits = Limits::greatest(network.horizon);
    let executive = Executive::from_plan(alloc, network, limits, net)?;
    executive.setting()
}
