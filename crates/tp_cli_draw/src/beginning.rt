//! The executive over a plan's network, before anything happened.

ghost use Rattle.std.specs.Prelude.{◌≤◌, length};

use std::alloc::{AllocError, Global};
use tp_bounds::{Limits, PlanNet};
use tp_exec_machine::Executive;
use tp_repair::RepairNet;

/// The executive that `run` makes, over the network of a plan. It costs one addition to a network
/// for each bound.
pub(crate) fn begin(alloc: Global, network: &PlanNet) -> Result<Executive<RepairNet>, AllocError>
    requires { length network.now.bounds.items ≤ 65535 }
{
    let net = RepairNet::new(alloc, network.events.len() as u16, network.horizon)?;
    let limits = Limits::greatest(network.horizon);
    Executive::from_plan(alloc, network, limits, net)
}
