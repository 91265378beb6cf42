//! What a picture is of: a plan, or a run of it.

/// A step of a plan. Its events are numbered as those of its network.
#[derive(Drop)]
pub struct Step {
    /// The name of its action and its objects, with one space between.
    pub words: String,
    /// When it starts and ends in the plan, in ticks.
    pub start: u32,
    pub end: u32,
    /// The numbers of its first and its last event, which are the same where it is instantaneous.
    pub first: usize,
    pub last: usize,
}

impl Step {
    /// Whether it is instantaneous.
    pub fn is_instant(&self) -> bool {
        self.first == self.last
    }
}

/// Which event of its step an event is.
#[derive(Clone, Copy, Debug, PartialEq, Eq)]
pub enum Part {
    Start,
    End,
    /// It is the only one.
    At,
}

/// An event of a plan's network.
#[derive(Clone, Copy, Debug, Drop)]
pub struct Event {
    pub step: usize,
    pub part: Part,
    /// The tick at which it is drawn.
    pub at: u32,
    /// Its window.
    pub low: u32,
    pub high: u32,
    pub happened: bool,
    /// When it was reported, if that was after it happened.
    pub reported: Option<u32>,
}

/// A bound in force: `to` comes no later than `weight` ticks after `from`. Without an event it is
/// that of tick 0.
#[derive(Clone, Copy, Debug, Drop)]
pub struct Order {
    pub id: u32,
    pub from: Option<u16>,
    pub to: Option<u16>,
    pub weight: i64,
}

/// The commands that a conflict refused at one tick.
#[derive(Drop)]
pub struct Refusals {
    pub at: u32,
    pub count: usize,
    /// A line for each, each behind the end of a line.
    pub lines: String,
}

/// How far a run came.
#[derive(Drop)]
pub struct Run {
    pub now: u32,
    /// How many commands were answered.
    pub commands: u64,
    /// Whether a bound of the plan was withdrawn.
    pub altered: bool,
    /// By rising tick.
    pub refused: Vec<Refusals>,
}

/// What a picture is of. Moments are in ticks.
#[derive(Drop)]
pub struct Scene {
    pub domain: String,
    pub problem: String,
    /// How many decimals a time has, at most three: a unit has ten ticks for one of them, a hundred
    /// for two.
    pub decimals: u8,
    /// The end of the windows.
    pub horizon: u32,
    pub steps: Vec<Step>,
    pub events: Vec<Event>,
    /// By rising identifier.
    pub orders: Vec<Order>,
    /// Where a run is drawn and not the plan alone.
    pub run: Option<Run>,
}

/// An event that does not occur.
const NO_EVENT: Event = Event {
    step: 0,
    part: Part::At,
    at: 0,
    low: 0,
    high: 0,
    happened: true,
    reported: None,
};

impl Scene {
    /// The event of a number.
    pub fn event(&self, number: usize) -> Event {
        match self.events.get(number) {
            Some(event) => *event,
            None => NO_EVENT,
        }
    }

    /// The tick that the run has come to, 0 where none is drawn.
    pub fn now(&self) -> u32 {
        match &self.run {
            Some(run) => run.now,
            None => 0,
        }
    }

    /// Whether a command was refused by a conflict.
    pub fn has_refusals(&self) -> bool {
        match &self.run {
            Some(run) => !run.refused.is_empty(),
            None => false,
        }
    }

    /// The tick at which a step is drawn to start.
    pub fn start(&self, step: &Step) -> u32 {
        self.event(step.first).at
    }

    /// The last tick at which something is drawn: an event, now, or the plan's end.
    pub fn end(&self) -> u32 {
        let mut end = self.now();
        for step in &self.steps {
            end = end.max(step.end);
        }
        for event in &self.events {
            end = end.max(event.at);
        }
        end
    }
}
