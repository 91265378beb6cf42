//! The network of a plan, made once more.

ghost use Rattle.tp_validate.specs.OfTask.{IsOfTask};

use crate::sources::{PlanTexts, lowered, texts_of};
use std::alloc::{AllocError, Global};
use tp_agents::read_owners;
use tp_bounds::{Limits, MOST_HORIZON, PlanNet};
use tp_cli_files::{Files, open_text};
use tp_cli_inputs::{NamedPlan, PlanWords, plan_in, verdict_of};
use tp_deorder::deorder;
use tp_explain_story::{Names, Numbered, RunPlan, Story, Texts, Watch, tell_network};
use tp_explain_text::{Page, Tree, put, read_tree};
use tp_happen::Plan;
use tp_task::Task;
use tp_text::Scale;
use tp_validate::{ValidPlan, Verdict};

/// The network of a valid plan.
fn network_of(alloc: Global, plan: &ValidPlan<'_>, horizon: u32) -> Option<PlanNet> {
    match deorder(alloc, plan, &Limits::greatest(horizon.min(MOST_HORIZON))) {
        Ok(network) => Some(network),
        Err(_) => None,
    }
}

/// The network of a plan of a task, where it is valid.
fn network_for(alloc: Global, task: &Task, plan: Plan, horizon: u32) -> Option<PlanNet>
    requires { IsOfTask task.now plan }
{
    match verdict_of(alloc, task, plan) {
        Ok(Verdict::Valid(plan)) => network_of(alloc, &plan, horizon),
        _ => None,
    }
}

/// The network of the plan that the words name.
pub(crate) fn network_in<N: Files>(
    alloc: Global,
    files: &mut N,
    words: PlanWords<'_>,
) -> Option<PlanNet> {
    if words.horizon > MOST_HORIZON {
        return None;
    }
    match plan_in(alloc, files, words) {
        Ok(named) => {
            let NamedPlan { task, plan } = named;
            network_for(alloc, &task, plan, words.horizon)
        }
        Err(_) => None,
    }
}

/// The bounds of a network, and the plan of a run.
fn begin(
    watch: &mut Watch,
    network: PlanNet,
    texts: PlanTexts,
    words: PlanWords<'_>,
) -> Result<(), AllocError> {
    let (domain, problem, plan) = texts.into_parts();
    let PlanNet {
        horizon,
        events,
        bounds,
    } = network;
    let plan = RunPlan {
        domain,
        problem,
        plan,
        scale: words.scale,
        events,
    };
    watch.begin_plan(plan, &bounds, horizon)
}

/// Begins to watch the run of the plan that the words name, before any lag. Where its network can't
/// be made once more, nothing begins.
pub(crate) fn begin_run<N: Files>(
    alloc: Global,
    watch: &mut Watch,
    files: &mut N,
    words: PlanWords<'_>,
) -> Result<(), AllocError> {
    let Some(network) = network_in(alloc, files, words) else {
        return Ok(());
    };
    match texts_of(alloc, files, words) {
        Some(texts) => begin(watch, network, lowered(alloc, &texts)?, words),
        None => Ok(()),
    }
}

/// Puts a line for each bound of the network of the plan of these trees.
fn tell_trees<'a>(
    page: &mut Page,
    domain: &'a Tree,
    problem: &'a Tree,
    plan: &'a str,
    scale: Scale,
    network: &PlanNet,
) -> Result<(), AllocError> {
    let texts = Texts::unnamed(scale);
    let story = Story::new(page.alloc(), domain, problem, plan, texts)?;
    let names = Names::Texts(network.events.as_slice());
    tell_network(page, names, &story, network.bounds.as_slice())
}

/// Puts a line for each bound of the network of texts in lower case.
fn tell_bounds(
    page: &mut Page,
    texts: PlanTexts,
    network: &PlanNet,
    scale: Scale,
) -> Result<(), AllocError> {
    let (domain, problem, plan) = texts.into_parts();
    let Ok(domain) = read_tree(page.alloc(), domain.as_str()) else {
        return Ok(());
    };
    let Ok(problem) = read_tree(page.alloc(), problem.as_str()) else {
        return Ok(());
    };
    tell_trees(page, &domain, &problem, plan.as_str(), scale, network)
}

/// Puts a line for each bound of the network of the plan that the words name.
pub(crate) fn tell_net<N: Files>(
    page: &mut Page,
    files: &mut N,
    words: PlanWords<'_>,
) -> Result<(), AllocError> {
    let Some(network) = network_in(page.alloc(), files, words) else {
        return Ok(());
    };
    match texts_of(page.alloc(), files, words) {
        Some(texts) => {
            let texts = lowered(page.alloc(), &texts)?;
            tell_bounds(page, texts, &network, words.scale)
        }
        None => Ok(()),
    }
}

/// Puts a line for each event of an agent, by its number in the agent's part: which event of the
/// plan's network it is.
fn put_own_events(page: &mut Page, names: Names<'_>, owners: &[u16], agent: u32) {
    let mut place = 0u16;
    for (event, owner) in owners.iter().enumerate() {
        if u32::from(*owner) == agent {
            let event = u16::try_from(event).unwrap_or(u16::MAX);
            put!(page; "note: event {place} is {}\n", Numbered(names, event, ""));
            place = place.saturating_add(1);
        }
    }
}

/// Puts a line for each event of an agent, as the text of a file of agents tells.
fn tell_owned(page: &mut Page, network: &PlanNet, text: &str, agent: u32) {
    if let Ok(owners) = read_owners(page.alloc(), text) {
        let names = Names::Texts(network.events.as_slice());
        put_own_events(page, names, owners.as_slice(), agent);
    }
}

/// Puts a line for each event of an agent's part of the plan that the words name.
pub(crate) fn tell_part<N: Files>(
    page: &mut Page,
    files: &mut N,
    words: PlanWords<'_>,
    owners: &str,
    agent: u32,
) {
    if let Some(network) = network_in(page.alloc(), files, words) {
        if let Ok(text) = open_text(page.alloc(), files, owners) {
            tell_owned(page, &network, text.as_str(), agent);
        }
    }
}
