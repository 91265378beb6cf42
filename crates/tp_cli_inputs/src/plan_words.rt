//! What words of a call name.

use tp_text::Scale;

/// The files of a plan, the ticks of a unit of its time, and the tick that no step may end past.
#[derive(Clone, Copy)]
pub struct PlanWords<'w> {
    pub domain: &'w str,
    pub problem: &'w str,
    pub plan: &'w str,
    pub scale: Scale,
    pub horizon: u32,
}
