//! What is told of all that passes in a call.

use crate::networks::{begin_run, tell_net, tell_part};
use crate::sources::texts_of;
use std::alloc::{AllocError, Global};
use tp_cli_args::{Request, read_words};
use tp_cli_files::Files;
use tp_cli_inputs::PlanWords;
use tp_explain_story::Watch;
use tp_explain_text::Page;

/// The most bytes that are kept of the first line of the output.
const LONGEST_VERDICT: usize = 64;

/// What a call is about.
#[derive(Clone, Copy)]
enum Topic<'w> {
    /// Commands on a network that is given by hand.
    Bare,
    /// Commands on the network of a plan.
    Run(PlanWords<'w>),
    /// The network of a plan.
    Net(PlanWords<'w>),
    /// The part of an agent of the network of a plan, with the file of agents.
    Part(PlanWords<'w>, &'w str, u32),
    /// The verdict on a plan alone.
    Verdict(PlanWords<'w>),
    /// Nothing that is explained here.
    Other,
}

/// Tells of a call what explains its verdict, the answers to its commands, and its end. Once memory
/// is wanting, it tells nothing more.
#[derive(Drop)]
pub struct Narrator<'w> {
    alloc: Global,
    topic: Topic<'w>,
    watch: Watch,
    first: Vec<u8>,
    is_first: bool,
    has_tried: bool,
    is_lost: bool,
}

/// What a request is about.
fn topic_of<'w>(request: &Request<'w>) -> Topic<'w> {
    match request {
        Request::Bare | Request::BareLog(_) => Topic::Bare,
        Request::Run(words) | Request::RunLog(words, _) => Topic::Run(*words),
        Request::Net(words) => Topic::Net(*words),
        Request::Part(words, owners, agent) => Topic::Part(*words, owners, *agent),
        Request::Check(words) | Request::Split(words, _) | Request::PlanAudit(_, words) => {
            Topic::Verdict(*words)
        }
        _ => Topic::Other,
    }
}

/// What the words of a call are about.
fn read_topic<'w>(alloc: Global, words: &'w [String]) -> Topic<'w> {
    match read_words(alloc, words) {
        Ok(request) => topic_of(&request),
        Err(_) => Topic::Other,
    }
}

impl<'w> Narrator<'w> {
    /// Of a call of these words, of which nothing has passed yet.
    pub fn new(alloc: Global, words: &'w [String]) -> Self {
        Narrator {
            alloc,
            topic: read_topic(alloc, words),
            watch: Watch::new(alloc),
            first: Vec::new(alloc),
            is_first: true,
            has_tried: false,
            is_lost: false,
        }
    }

    /// Takes bytes of the input.
    pub fn heard(&mut self, input: &[u8]) {
        let is_run = matches!(self.topic, Topic::Bare | Topic::Run(_));
        if is_run && !self.is_lost && self.watch.heard(input).is_err() {
            self.is_lost = true;
        }
    }

    /// Keeps the beginning of the first line of the output.
    fn keep_first(&mut self, output: &[u8]) -> Result<(), AllocError> {
        for byte in output {
            if !self.is_first || self.first.len() >= LONGEST_VERDICT {
                return Ok(());
            }
            if *byte == b'\n' {
                self.is_first = false;
            } else {
                self.first.push(*byte)?;
            }
        }
        Ok(())
    }

    /// The first line of the output, if it says that a plan is not valid.
    fn verdict(&self) -> Option<&str> {
        match str::from_utf8(self.first.as_slice()) {
            Ok(line) if line.starts_with("invalid ") => Some(line),
            _ => None,
        }
    }

    /// Begins to watch a run, once.
    fn begin<N: Files>(&mut self, files: &mut N) -> Result<(), AllocError> {
        if self.has_tried || self.verdict().is_some() {
            return Ok(());
        }
        self.has_tried = true;
        match self.topic {
            Topic::Bare => self.watch.begin_bare(),
            Topic::Run(words) => {
                begin_run(self.alloc, &mut self.watch, files, words)?;
                self.watch.take_lags()
            }
            _ => Ok(()),
        }
    }

    /// Takes bytes of the output of a run.
    fn follow<N: Files>(
        &mut self,
        output: &[u8],
        files: &mut N,
        page: &mut Page,
    ) -> Result<(), AllocError> {
        self.keep_first(output)?;
        match self.topic {
            Topic::Bare | Topic::Run(_) => {
                self.begin(files)?;
                self.watch.said(page, output)
            }
            _ => Ok(()),
        }
    }

    /// Takes bytes of the output, and explains the answers that are whole by then.
    pub fn said<N: Files>(&mut self, output: &[u8], files: &mut N, page: &mut Page) {
        if !self.is_lost && self.follow(output, files, page).is_err() {
            self.is_lost = true;
        }
    }

    /// Explains the verdict on a plan that is not valid.
    fn tell_verdict<N: Files>(
        &self,
        files: &mut N,
        words: PlanWords<'w>,
        page: &mut Page,
    ) -> Result<(), AllocError> {
        let Some(line) = self.verdict() else {
            return Ok(());
        };
        match texts_of(self.alloc, files, words) {
            Some(texts) => texts.explain(page, words, line),
            None => Ok(()),
        }
    }

    /// Explains the end of a run: that the plan is not valid, or that there is no plan of the run.
    fn tell_run<N: Files>(
        &mut self,
        status: u8,
        files: &mut N,
        words: PlanWords<'w>,
        page: &mut Page,
    ) -> Result<(), AllocError> {
        if self.verdict().is_some() {
            return self.tell_verdict(files, words, page);
        }
        if status != 1 {
            return Ok(());
        }
        self.begin(files)?;
        self.watch.ended(page)
    }

    /// Explains how a call ended.
    fn tell_end<N: Files>(
        &mut self,
        status: u8,
        files: &mut N,
        page: &mut Page,
    ) -> Result<(), AllocError> {
        match self.topic {
            Topic::Run(words) => self.tell_run(status, files, words, page),
            Topic::Net(words) if status == 0 => tell_net(page, files, words),
            Topic::Part(words, owners, agent) if status == 0 => {
                tell_part(page, files, words, owners, agent);
                Ok(())
            }
            Topic::Net(words) | Topic::Part(words, _, _) | Topic::Verdict(words) => {
                self.tell_verdict(files, words, page)
            }
            Topic::Bare | Topic::Other => Ok(()),
        }
    }

    /// The call ended with a status of 0 or 1: explains the verdict on its plan, why a run ended
    /// without a plan, the bounds of a network, or the events of an agent's part.
    pub fn ended<N: Files>(&mut self, status: u8, files: &mut N, page: &mut Page) {
        if !self.is_lost && self.tell_end(status, files, page).is_err() {
            self.is_lost = true;
        }
    }
}
