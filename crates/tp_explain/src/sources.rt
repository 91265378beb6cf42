//! The files of a plan, read once more.

use std::alloc::{AllocError, Global};
use tp_cli_files::{Files, open_text};
use tp_cli_inputs::PlanWords;
use tp_explain_story::{Texts, explain_verdict};
use tp_explain_text::{Page, Source};

/// The texts of the files of a plan.
#[derive(Drop)]
pub(crate) struct PlanTexts {
    domain: String,
    problem: String,
    plan: String,
}

/// The texts of the files that the words name.
pub(crate) fn texts_of<N: Files>(
    alloc: Global,
    files: &mut N,
    words: PlanWords<'_>,
) -> Option<PlanTexts> {
    let domain = open_text(alloc, files, words.domain).ok()?;
    let problem = open_text(alloc, files, words.problem).ok()?;
    let plan = open_text(alloc, files, words.plan).ok()?;
    Some(PlanTexts {
        domain,
        problem,
        plan,
    })
}

/// The texts, in lower case.
pub(crate) fn lowered(alloc: Global, texts: &PlanTexts) -> Result<PlanTexts, AllocError> {
    let domain = texts.domain.as_str().to_ascii_lowercase(alloc)?;
    let problem = texts.problem.as_str().to_ascii_lowercase(alloc)?;
    let plan = texts.plan.as_str().to_ascii_lowercase(alloc)?;
    Ok(PlanTexts {
        domain,
        problem,
        plan,
    })
}

impl PlanTexts {
    /// The texts of the domain, the problem and the plan.
    pub(crate) fn into_parts(self) -> (String, String, String) {
        let PlanTexts {
            domain,
            problem,
            plan,
        } = self;
        (domain, problem, plan)
    }

    /// Puts the explanation of the line of a verdict.
    pub(crate) fn explain(
        &self,
        page: &mut Page,
        words: PlanWords<'_>,
        line: &str,
    ) -> Result<(), AllocError> {
        let texts = Texts {
            domain: source(words.domain, self.domain.as_str()),
            problem: source(words.problem, self.problem.as_str()),
            plan: source(words.plan, self.plan.as_str()),
            scale: words.scale,
        };
        explain_verdict(page, &texts, line)
    }
}

/// A file under its name.
fn source<'t>(name: &'t str, text: &'t str) -> Source<'t> {
    let text = text.as_bytes();
    Source { name, text }
}
