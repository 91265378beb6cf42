//! Duration constraints.

ghost use Rattle.std.specs.Prelude.{◌≡◌, map};
ghost use Rattle.std.specs.List.{flat_map};
ghost use Rattle.tp_syntax_ast.specs.ConstraintViews.{constraint_view};
ghost use Rattle.tp_ground_bindings.specs.Views.{env_view};
ghost use Rattle.tp_ground_bodies.specs.Written.{limits_in};
ghost use Rattle.tp_ground_bodies.specs.Mentions.{of_limit, of_each};
ghost use Rattle.tp_ground_bodies.specs.ReadBack.{named_limit};
ghost use Rattle.tp_ground_bodies.specs.Lowered.{Lowers};

use crate::expressions::{comparison_of, expression};
use std::alloc::Global;
use tp_ground_bindings::Env;
use tp_syntax_ast::DurationRule;
use tp_task::{GroundFault, Limit, Numbering};

#[cycle(limits)]
fn all_limits<'a>(
    alloc: Global,
    env: &Env<'_, 'a>,
    numbering: &mut Numbering,
    constraints: &'a [DurationRule],
) -> Result<Vec<Limit>, GroundFault>
    ensures { Lowers (λ t v. map (named_limit t) v.items) numbering.old result numbering.new
        (flat_map (λ r. limits_in (env_view env.now) (constraint_view r)) constraints.now)
        (of_each of_limit
        (flat_map (λ r. limits_in (env_view env.now) (constraint_view r)) constraints.now)) }
{
    let mut lowered = Vec::new(alloc);
    for constraint in constraints {
        let mut more = limits(alloc, env, numbering, constraint)?;
        lowered.append(&mut more)?;
    }
    Ok(lowered)
}

/// The comparisons of a duration constraint.
#[cycle(limits)]
pub fn limits<'a>(
    alloc: Global,
    env: &Env<'_, 'a>,
    numbering: &mut Numbering,
    constraint: &'a DurationRule,
) -> Result<Vec<Limit>, GroundFault>
    ensures { Lowers (λ t v. map (named_limit t) v.items) numbering.old result numbering.new
        (limits_in (env_view env.now) (constraint_view constraint.now))
        (of_each of_limit (limits_in (env_view env.now) (constraint_view constraint.now))) }
{
    match constraint {
        DurationRule::And(constraints) => all_limits(alloc, env, numbering, constraints),
        DurationRule::Limit(comparison, value) => {
            let value = expression(alloc, env, numbering, value)?;
            let mut one = Vec::with_capacity(alloc, 1)?;
            one.push(Limit {
                how: comparison_of(*comparison),
                value,
            })?;
            Ok(one)
        }
    }
}
