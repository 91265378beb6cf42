//! The line of a verdict, and its explanation.

use crate::changes::{tell_clash, tell_interference};
use crate::conditions::{tell_condition, tell_goal, tell_invariant};
use crate::durations::{tell_duration, tell_undefined};
use crate::events::Event;
use crate::story::Story;
use crate::texts::Texts;
use std::alloc::{AllocError, Global};
use tp_explain_text::{Page, Tree, read_tree};

/// Why a plan is not valid, by the words of its line.
#[derive(Clone, Copy)]
struct Why<'w> {
    tick: u32,
    word: &'w str,
    first: usize,
    second: usize,
}

/// What the line of a verdict says of a plan that is not valid.
fn read_why(line: &str) -> Option<Why<'_>> {
    let mut words = line.split(' ');
    if words.next()? != "invalid" {
        return None;
    }
    let tick = words.next()?.parse::<u32>().ok()?;
    let word = words.next()?;
    let first = words.next().unwrap_or("0").parse::<usize>().ok()?;
    let second = words.next().unwrap_or("0").parse::<usize>().ok()?;
    Some(Why {
        tick,
        word,
        first,
        second,
    })
}

/// Explains what is wrong with an event.
fn tell_event(
    page: &mut Page,
    story: &Story<'_>,
    event: Event,
    why: Why<'_>,
) -> Result<(), AllocError> {
    match why.word {
        "condition" => tell_condition(page, story, event),
        "undefined" => tell_undefined(page, story, event),
        "clash" => tell_clash(page, story, event),
        "interferes" => match story.events().get(why.second) {
            Some(other) => tell_interference(page, story, event, *other),
            None => Ok(()),
        },
        _ => Ok(()),
    }
}

/// Explains a verdict on the plan of a story.
fn tell(page: &mut Page, story: &Story<'_>, why: Why<'_>) -> Result<(), AllocError> {
    match why.word {
        "goal" => tell_goal(page, story, why.tick),
        "over-all" => tell_invariant(page, story, why.first, why.tick),
        "duration" => tell_duration(page, story, why.first, why.tick),
        _ => match story.events().get(why.first) {
            Some(event) => tell_event(page, story, *event, why),
            None => Ok(()),
        },
    }
}

/// A text in lower case: nothing if it is none.
fn lowered(alloc: Global, bytes: &[u8]) -> Result<String, AllocError> {
    str::from_utf8(bytes)
        .unwrap_or("")
        .to_ascii_lowercase(alloc)
}

/// Explains a verdict on trees, and on the text of a plan in lower case.
fn tell_trees<'a>(
    page: &mut Page,
    texts: Texts<'a>,
    domain: &'a Tree,
    problem: &'a Tree,
    plan: &'a str,
    why: Why<'_>,
) -> Result<(), AllocError> {
    let story = Story::new(page.alloc(), domain, problem, plan, texts)?;
    tell(page, &story, why)
}

/// Puts the explanation of the line of a verdict on a page: nothing, unless it says that the plan
/// is not valid.
///
/// # Errors
/// Where memory is wanting: what is on the page then is a beginning of the explanation.
pub fn explain_verdict(page: &mut Page, texts: &Texts<'_>, line: &str) -> Result<(), AllocError> {
    let Some(why) = read_why(line) else {
        return Ok(());
    };
    let alloc = page.alloc();
    let domain = lowered(alloc, texts.domain.text)?;
    let problem = lowered(alloc, texts.problem.text)?;
    let plan = lowered(alloc, texts.plan.text)?;
    let Ok(domain) = read_tree(alloc, domain.as_str()) else {
        return Ok(());
    };
    let Ok(problem) = read_tree(alloc, problem.as_str()) else {
        return Ok(());
    };
    tell_trees(page, *texts, &domain, &problem, plan.as_str(), why)
}
