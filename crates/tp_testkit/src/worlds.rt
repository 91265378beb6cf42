//! The small domains, each with its problem, as worlds whose tasks tests ask for.

use crate::domains::{
    CHARGE, EMPTY_TANK, LINE, MATCH, MATCHES, TANK, TOGGLE, TOGGLED, UNCHARGED, UNSET,
};
use std::alloc::Global;
use std::test::Fail;
use tp_bounds::{Limits, MOST_HORIZON};
use tp_ground::{ground, ground_reached};
use tp_syntax::{Domain, Problem, read_domain, read_problem};
use tp_task::{GroundFault, Task};
use tp_text::Scale;

/// A domain and a problem, the scale of their time, and a horizon in ticks, of which at most
/// `MOST_HORIZON` count.
#[derive(Clone, Copy)]
pub struct World<'a> {
    pub domain: &'a str,
    pub problem: &'a str,
    pub scale: Scale,
    pub horizon: u32,
}

pub const FUSES: World<'static> = World {
    domain: MATCH,
    problem: MATCHES,
    scale: Scale::One,
    horizon: 100,
};

pub const SWITCHES: World<'static> = World {
    domain: TOGGLE,
    problem: TOGGLED,
    scale: Scale::One,
    horizon: 100,
};

pub const TANKS: World<'static> = World {
    domain: TANK,
    problem: EMPTY_TANK,
    scale: Scale::One,
    horizon: 100,
};

pub const CHARGES: World<'static> = World {
    domain: CHARGE,
    problem: UNCHARGED,
    scale: Scale::One,
    horizon: 100,
};

pub const LINES: World<'static> = World {
    domain: LINE,
    problem: UNSET,
    scale: Scale::One,
    horizon: 100,
};

fn grounded(
    alloc: Global,
    domain: &Domain,
    problem: &Problem,
    world: World<'_>,
) -> Result<Task, GroundFault> {
    let limits = Limits::greatest(world.horizon.min(MOST_HORIZON));
    ground(alloc, domain, problem, &limits, world.scale)
}

fn task_in(alloc: Global, domain: &Domain, world: World<'_>) -> Result<Task, Fail> {
    let problem = read_problem(alloc, world.problem, domain)?;
    Ok(grounded(alloc, domain, &problem, world)?)
}

/// The task of a world, under the greatest limits.
pub fn task_of(alloc: Global, world: World<'_>) -> Result<Task, Fail> {
    let domain = read_domain(alloc, world.domain)?;
    task_in(alloc, &domain, world)
}

fn kept(
    alloc: Global,
    domain: &Domain,
    problem: &Problem,
    world: World<'_>,
) -> Result<Task, GroundFault> {
    let limits = Limits::greatest(world.horizon.min(MOST_HORIZON));
    ground_reached(alloc, domain, problem, &limits, world.scale)
}

fn kept_in(alloc: Global, domain: &Domain, world: World<'_>) -> Result<Task, Fail> {
    let problem = read_problem(alloc, world.problem, domain)?;
    Ok(kept(alloc, domain, &problem, world)?)
}

/// The same with the actions alone that the relaxed reach keeps.
pub fn kept_of(alloc: Global, world: World<'_>) -> Result<Task, Fail> {
    let domain = read_domain(alloc, world.domain)?;
    kept_in(alloc, &domain, world)
}
