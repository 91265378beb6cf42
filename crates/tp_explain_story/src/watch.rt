//! A run that is watched, answer by answer.

use crate::causes::Causes;
use crate::edges::names_own_bound;
use crate::lines::{Input, InputLine};
use crate::names::Names;
use crate::picture::Picture;
use crate::refusals::{Reasons, tell_refusal};
use crate::reports::{tell_end, tell_report};
use crate::story::Story;
use crate::texts::Texts;
use std::alloc::{AllocError, Global};
use tp_bounds::Bound;
use tp_explain_text::{Page, Tree, read_tree};
use tp_script::{next_word, read_command, read_event, read_head_line, read_moment};
use tp_text::Scale;

/// The plan of a run: its files' texts in lower case, the ticks of a unit, and the texts of its
/// events.
#[derive(Drop)]
pub struct RunPlan {
    pub domain: String,
    pub problem: String,
    pub plan: String,
    pub scale: Scale,
    pub events: Vec<String>,
}

/// What is to be told with the reasons of a plan's own bounds.
#[derive(Clone, Copy)]
enum Told<'t> {
    Refusal(&'t InputLine, &'t str),
    Report(&'t InputLine),
    End,
}

/// A run that is watched: what was read and not answered yet, the line of an answer that is not
/// whole yet, and the picture, once it has begun.
#[derive(Drop)]
pub struct Watch {
    alloc: Global,
    input: Input,
    answer: Vec<u8>,
    picture: Option<Picture>,
    plan: Option<RunPlan>,
}

/// The event and the lag of a line of a lag.
fn lag_of(line: &InputLine) -> Option<(u16, u32)> {
    let (name, rest) = next_word(line.words());
    let (event, rest) = next_word(rest);
    let (lag, rest) = next_word(rest);
    if name != b"lag".as_slice() || !rest.is_empty() || 256 < line.bytes.len() {
        return None;
    }
    Some((read_event(event)?, read_moment(lag)?))
}

/// Puts what is told where reasons need no plan.
fn tell(
    page: &mut Page,
    picture: &Picture,
    reasons: &Reasons<'_, '_>,
    told: Told<'_>,
) -> Result<(), AllocError> {
    match told {
        Told::Refusal(line, answer) => tell_refusal(page, picture, reasons, line, answer),
        Told::Report(line) => tell_report(page, picture, reasons, line),
        Told::End => tell_end(page, picture, reasons),
    }
}

/// Puts what is told with the reasons of the bounds of a plan's story.
fn tell_of_story(
    page: &mut Page,
    picture: &Picture,
    plan: &RunPlan,
    story: &Story<'_>,
    told: Told<'_>,
) -> Result<(), AllocError> {
    let causes = Causes::new(story)?;
    let reasons = Reasons {
        names: Names::Texts(plan.events.as_slice()),
        scale: plan.scale.ticks(),
        story: Some(story),
        causes: Some(&causes),
    };
    tell(page, picture, &reasons, told)
}

/// Puts what is told with the reasons of the bounds of a plan of these trees.
fn tell_of_trees<'a>(
    page: &mut Page,
    picture: &Picture,
    plan: &'a RunPlan,
    domain: &'a Tree,
    problem: &'a Tree,
    told: Told<'_>,
) -> Result<(), AllocError> {
    let texts = Texts::unnamed(plan.scale);
    let story = Story::new(picture.alloc(), domain, problem, plan.plan.as_str(), texts)?;
    tell_of_story(page, picture, plan, &story, told)
}

/// Puts what is told with the reasons of the bounds of a plan.
fn tell_of_plan(
    page: &mut Page,
    picture: &Picture,
    plan: &RunPlan,
    told: Told<'_>,
) -> Result<(), AllocError> {
    let domain = read_tree(picture.alloc(), plan.domain.as_str());
    let problem = read_tree(picture.alloc(), plan.problem.as_str());
    match (&domain, &problem) {
        (Ok(domain), Ok(problem)) => tell_of_trees(page, picture, plan, domain, problem, told),
        _ => Ok(()),
    }
}

/// What is known without the texts of a plan.
fn plain_reasons<'r>(plan: Option<&'r RunPlan>) -> Reasons<'r, 'r> {
    let (names, scale) = match plan {
        Some(plan) => (Names::Texts(plan.events.as_slice()), plan.scale.ticks()),
        None => (Names::Numbers, 1),
    };
    Reasons {
        names,
        scale,
        story: None,
        causes: None,
    }
}

impl Watch {
    /// A run of which nothing was read yet.
    pub fn new(alloc: Global) -> Watch {
        Watch {
            alloc,
            input: Input::new(alloc),
            answer: Vec::new(alloc),
            picture: None,
            plan: None,
        }
    }

    /// Takes bytes of the input.
    pub fn heard(&mut self, bytes: &[u8]) -> Result<(), AllocError> {
        self.input.take(bytes)
    }

    /// The lag on the next line of the input, which is taken then.
    fn next_lag(&mut self) -> Result<Option<(u16, u32)>, AllocError> {
        let Some(line) = self.input.look()? else {
            return Ok(None);
        };
        let lag = lag_of(&line);
        if lag.is_some() {
            self.input.skip()?;
        }
        Ok(lag)
    }

    /// Takes the lags at the beginning of the input.
    pub fn take_lags(&mut self) -> Result<(), AllocError> {
        for _ in 0..65_536 {
            let Some((event, lag)) = self.next_lag()? else {
                return Ok(());
            };
            if let Some(picture) = &mut self.picture {
                picture.set_lag(event, lag);
            }
        }
        Ok(())
    }

    /// Begins with the network of which the input begins with the head.
    pub fn begin_bare(&mut self) -> Result<(), AllocError> {
        let Some(line) = self.input.look()? else {
            return Ok(());
        };
        let Some((events, horizon)) = read_head_line(line.words()) else {
            return Ok(());
        };
        self.input.skip()?;
        self.picture = Some(Picture::new(self.alloc, events, horizon, &[])?);
        self.take_lags()
    }

    /// Begins with the network of a plan.
    pub fn begin_plan(
        &mut self,
        plan: RunPlan,
        bounds: &[Bound],
        horizon: u32,
    ) -> Result<(), AllocError> {
        let events = u16::try_from(plan.events.len()).unwrap_or(u16::MAX);
        self.picture = Some(Picture::new(self.alloc, events, horizon, bounds)?);
        self.plan = Some(plan);
        Ok(())
    }

    /// Explains what is told, with the texts of the plan where reasons need them.
    fn tell(&self, page: &mut Page, told: Told<'_>, needs_plan: bool) -> Result<(), AllocError> {
        let Some(picture) = &self.picture else {
            return Ok(());
        };
        match &self.plan {
            Some(plan) if needs_plan => tell_of_plan(page, picture, plan, told),
            plan => tell(page, picture, &plain_reasons(plan.as_ref()), told),
        }
    }

    /// Takes an answer that refuses a line.
    fn refused(&self, page: &mut Page, line: &InputLine, answer: &str) -> Result<(), AllocError> {
        let needs_plan = match &self.picture {
            Some(picture) => names_own_bound(picture, answer),
            None => false,
        };
        self.tell(page, Told::Refusal(line, answer), needs_plan)
    }

    /// Takes the answer to a line.
    fn answered(
        &mut self,
        page: &mut Page,
        line: InputLine,
        answer: &str,
    ) -> Result<(), AllocError> {
        if answer.starts_with("refused ") {
            return self.refused(page, &line, answer);
        }
        if answer.starts_with("report ") {
            return self.tell(page, Told::Report(&line), false);
        }
        let command = read_command(line.words());
        match (&mut self.picture, command) {
            (Some(picture), Some(command)) => picture.follow(command, line),
            _ => Ok(()),
        }
    }

    /// Takes the line of an answer. What stands behind the last answer, as the plan of a run,
    /// answers no line.
    fn take_answer(&mut self, page: &mut Page) -> Result<(), AllocError> {
        let answer = self.answer.to_vec(self.alloc)?;
        self.answer.clear();
        let Some(line) = self.input.next_with_words()? else {
            return Ok(());
        };
        match str::from_utf8(answer.as_slice()) {
            Ok(answer) => self.answered(page, line, answer),
            Err(_) => Ok(()),
        }
    }

    /// Takes bytes of the output, and explains the answers that are whole by then.
    pub fn said(&mut self, page: &mut Page, bytes: &[u8]) -> Result<(), AllocError> {
        for byte in bytes {
            if *byte == b'\n' {
                self.take_answer(page)?;
            } else {
                self.answer.push(*byte)?;
            }
        }
        Ok(())
    }

    /// Explains why the run of a plan ended without a plan.
    pub fn ended(&self, page: &mut Page) -> Result<(), AllocError> {
        let needs_plan = match &self.picture {
            Some(picture) => picture.withdrawn().is_some(),
            None => false,
        };
        self.tell(page, Told::End, needs_plan)
    }
}
