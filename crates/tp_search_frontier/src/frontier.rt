//! The frontier of a search: the nodes that are still to be taken, and how one is expanded.

ghost use Rattle.std.specs.Prelude.{◌≡◌, MatchOption};
ghost use Rattle.tp_search_frontier.specs.Waiting.{AreEmpty, IsTaken, GoesOn};

use crate::current::{Current, ends_are_apart, lacking};
use crate::fault::SearchFault;
use crate::queues::Queues;
use crate::starts::{carry_out, carry_out_ends, end_can_happen, startable, starts_at};
use crate::store::{Chosen, Moment, Node, ROOT, Start, Store};
use crate::touched::touched_by;
use crate::waits::{Waits, hash_of};
use std::alloc::{AllocError, Global};
use std::marker::Model;
use tp_search_compiled::{Lists, Marks, NONE, Running, Span, State, Task, Watched};
use tp_task::MOST_STEPS;

/// The nodes of a search, seen as those that still wait: a queue for each number of goal conjuncts
/// that they lack, each in the order in which they were made.
#[derive(Drop)]
pub struct Frontier {
    alloc: Global,
    task: Task,
    watched: Watched,
    touched: Lists,
    store: Store,
    waits: Waits,
    queues: Queues,
    marks: Marks,
    state: State,
    current: Current,
}

impl Model for Frontier {
    ghost use Rattle.std.specs.Prelude.{ℕ, List};

    ghost Value = { List (List ℕ) };

    ghost view = { λ f. f.queues };
}

// The actions that may start, compiled.
fn compiled(
    alloc: Global,
    task: &tp_task::Task,
    reach: &[bool],
    horizon: u32,
) -> Result<Task, AllocError> {
    let kept = startable(alloc, task, reach)?;
    Task::new(alloc, task, &kept, horizon)
}

fn watched_in(alloc: Global, task: &Task, state: &State) -> Result<Watched, AllocError> {
    let live = Vec::from_elem(alloc, true, task.actions.len())?;
    Watched::new(alloc, task, state, &live)
}

impl Frontier {
    /// The frontier of a task at the root: tick 0, the state in which the task begins, whose
    /// relaxed reach is known.
    pub fn new(
        alloc: Global,
        task: &tp_task::Task,
        reach: &[bool],
        horizon: u32,
    ) -> Result<Self, SearchFault> {
        let task = compiled(alloc, task, reach, horizon)?;
        let state = State::initial(alloc, &task)?;
        let mut frontier = Frontier::of(alloc, task, state)?;
        frontier.make_root()?;
        Ok(frontier)
    }

    // No nodes of a task that begins in a state.
    fn of(alloc: Global, task: Task, state: State) -> Result<Self, AllocError> {
        Ok(Frontier {
            alloc,
            watched: watched_in(alloc, &task, &state)?,
            touched: touched_by(alloc, &task)?,
            store: Store::new(alloc, &task),
            waits: Waits::new(alloc)?,
            queues: Queues::new(alloc, task.conjuncts.len())?,
            marks: Marks::new(alloc, &task)?,
            state,
            current: Current::new(alloc),
            task,
        })
    }

    fn make_root(&mut self) -> Result<(), SearchFault> {
        let state = self.store.pack(&self.state)?;
        let moment = Moment {
            hash: 0,
            tick: 0,
            state,
            running: Span::EMPTY,
            starts: None,
        };
        self.store.add_moment(moment, &[])?;
        let lacking = lacking(&self.task, &self.state)?;
        self.make(ROOT, lacking)?;
        Ok(())
    }

    #[tactic(auto, using(crate::proofs::Waiting::goes_on_same, crate::proofs::Waiting::goes_on_node))]
    fn make(&mut self, node: Node, lacking: usize) -> Result<(), AllocError>
        ensures { GoesOn self.old self.new }
    {
        let number = self.store.add_node(node)?;
        self.queues.put(number, lacking)?;
        Ok(())
    }

    /// The node that lacks the fewest conjuncts of the goal, of these the one made first, and how
    /// many it lacks.
    pub fn take(&mut self) -> Option<(u32, usize)>
        ensures { MatchOption result (AreEmpty self.old × (self.new ≡ self.old))
            (λ t. IsTaken self.old t.0 t.1 self.new) }
    {
        self.queues.take()
    }

    /// How many nodes wait.
    pub fn waiting(&self) -> usize {
        self.queues.count()
    }

    /// Whether no step of a node runs past its tick. With no conjunct lacking it is a plan then.
    pub fn nothing_runs(&mut self, number: u32) -> Result<bool, AllocError>
        ensures { self.new ≡ self.old }
    {
        let Some(node) = self.store.node(number) else {
            return Ok(true);
        };
        self.store.chain(node, &mut self.current.chain)?;
        let task = &self.task;
        let starts = self
            .current
            .chain
            .iter()
            .any(|s| task.end_of(s.action).is_some());
        let runs = match self.store.moment(node.moment) {
            Some(moment) => self.store.runs_of(&moment).iter().any(|r| r.left > 0),
            None => false,
        };
        Ok(!starts && !runs)
    }

    /// The steps of a node, in the order in which they were chosen.
    pub fn steps(&self, number: u32) -> Result<Vec<Chosen>, AllocError> {
        self.store.steps(self.alloc, &self.task, number)
    }

    /// Makes the children of a node.
    #[tactic(auto, using(crate::proofs::Waiting::goes_on_same, crate::proofs::Waiting::goes_on_further))]
    pub fn expand(&mut self, number: u32) -> Result<(), SearchFault>
        ensures { GoesOn self.old self.new }
    {
        if let Some(node) = self.store.node(number) {
            self.load(node)?;
            self.make_starts(number, node)?;
            self.make_waits(number, node)?;
        }
        Ok(())
    }

    // The own state of a node, its events and its running steps.
    fn load(&mut self, node: Node) -> Result<(), SearchFault>
        ensures { self.new ≡ self.old }
    {
        let Some(moment) = self.store.moment(node.moment) else {
            return Ok(());
        };
        self.store.unpack(moment.state, &mut self.state);
        self.state.keep();
        if moment.starts.is_none() {
            self.find_starts(node.moment, moment.tick)?;
        }
        self.current.clear();
        for run in self.store.runs_of(&moment) {
            self.current.take_run(&self.task, &mut self.state, *run)?;
        }
        self.store.chain(node, &mut self.current.chain)?;
        self.current.take_starts(&self.task, &mut self.state)?;
        self.state.keep();
        Ok(())
    }

    fn find_starts(&mut self, moment: u32, tick: u32) -> Result<(), SearchFault>
        ensures { self.new ≡ self.old }
    {
        let starts = starts_at(self.alloc, &self.task, &self.watched, &self.state, tick)?;
        self.store.add_starts(moment, &starts)?;
        Ok(())
    }

    // The numbers of the starts that a node may choose next.
    fn starts_after(&self, node: Node) -> Span {
        let found = match self.store.moment(node.moment) {
            Some(moment) => moment.starts.unwrap_or(Span::EMPTY),
            None => Span::EMPTY,
        };
        if node.choice == NONE {
            return found;
        }
        let end = found.at.saturating_add(found.count);
        let next = node.choice.saturating_add(1);
        Span {
            at: next,
            count: end.saturating_sub(next),
        }
    }

    // The children that choose one more start at the node's tick.
    #[tactic(auto, using(crate::proofs::Waiting::goes_on_same, crate::proofs::Waiting::goes_on_further))]
    fn make_starts(&mut self, number: u32, node: Node) -> Result<(), SearchFault>
        ensures { GoesOn self.old self.new }
    {
        let starts = self.starts_after(node);
        if node.steps as usize >= MOST_STEPS || starts.count == 0 {
            return Ok(());
        }
        let lacking = self.current.find_met(&self.task, &self.state)?;
        self.current.mark(&self.task, &mut self.marks);
        for choice in starts.at..starts.at.saturating_add(starts.count) {
            self.make_start(number, node, choice, lacking)?;
        }
        self.current.wipe(&self.task, &mut self.marks);
        Ok(())
    }

    // The child that chooses a start, unless that interferes with an event of the tick.
    #[tactic(auto, using(crate::proofs::Waiting::goes_on_same))]
    fn make_start(
        &mut self,
        parent: u32,
        node: Node,
        choice: u32,
        lacking: usize,
    ) -> Result<(), SearchFault>
        ensures { GoesOn self.old self.new }
    {
        let Some(start) = self.store.start(choice) else {
            return Ok(());
        };
        if self.interferes(start) {
            return Ok(());
        }
        let lacking = self.lacking_with(start, lacking)?;
        let child = Node {
            parent,
            moment: node.moment,
            choice,
            steps: node.steps.saturating_add(1),
        };
        self.make(child, lacking)?;
        Ok(())
    }

    fn interferes(&self, start: Start) -> bool {
        match self.task.start_of(start.action) {
            Some(event) => self.marks.interferes(&self.task, event),
            None => true,
        }
    }

    // How many conjuncts the own state lacks after a start too, where it lacks so many before.
    fn lacking_with(&mut self, start: Start, lacking: usize) -> Result<usize, SearchFault>
        ensures { self.new ≡ self.old }
    {
        let touched = self.touched.of(start.action);
        let Some(event) = self.task.start_of(start.action) else {
            return Ok(lacking);
        };
        if touched.is_empty() && event.writes.count == 0 {
            return Ok(lacking);
        }
        carry_out(&self.task, &mut self.state, event, start.duration)?;
        let now = self
            .current
            .lacking_with(&self.task, &self.state, touched, lacking)?;
        self.state.undo();
        Ok(now)
    }

    // The children that wait.
    #[tactic(auto, using(crate::proofs::Waiting::goes_on_same, crate::proofs::Waiting::goes_on_further))]
    fn make_waits(&mut self, number: u32, node: Node) -> Result<(), SearchFault>
        ensures { GoesOn self.old self.new }
    {
        if !self.current.invariants_hold(&self.task, &self.state)? {
            return Ok(());
        }
        let least = self.current.least_left();
        if !self.current.events.is_empty() {
            self.make_wait(number, node, 1)?;
            if least == Some(1) {
                return Ok(());
            }
        }
        if let Some(ticks) = least {
            self.make_wait(number, node, ticks)?;
        }
        Ok(())
    }

    #[tactic(auto, using(crate::proofs::Waiting::goes_on_same))]
    fn make_wait(&mut self, parent: u32, node: Node, ticks: u32) -> Result<(), SearchFault>
        ensures { GoesOn self.old self.new }
    {
        let Some(moment) = self.store.moment(node.moment) else {
            return Ok(());
        };
        let tick = moment.tick.saturating_add(ticks);
        if tick > self.task.horizon {
            return Ok(());
        }
        let runs = self.current.runs_after(self.alloc, ticks)?;
        self.wait_with(parent, node, tick, &runs)
    }

    // The child that waits until a tick, with the steps that run then.
    #[tactic(auto, using(crate::proofs::Waiting::goes_on_same))]
    fn wait_with(
        &mut self,
        parent: u32,
        node: Node,
        tick: u32,
        runs: &[Running],
    ) -> Result<(), SearchFault>
        ensures { GoesOn self.old self.new }
    {
        let hash = hash_of(&self.store, &self.state, runs);
        if self.waits.is_known(&self.store, hash, &self.state, runs)
            || !self.ends_can_happen(runs)?
        {
            return Ok(());
        }
        let lacking = self.lacking_after(runs)?;
        let moment = self.add_moment(hash, tick, runs)?;
        let child = Node {
            parent,
            moment,
            choice: NONE,
            steps: node.steps,
        };
        self.make(child, lacking)?;
        Ok(())
    }

    // The number of the own state, which is kept once for all waits of a node.
    fn packed(&mut self) -> Result<u32, AllocError>
        ensures { self.new ≡ self.old }
    {
        if let Some(kept) = self.current.kept {
            return Ok(kept);
        }
        let kept = self.store.pack(&self.state)?;
        self.current.kept = Some(kept);
        Ok(kept)
    }

    fn add_moment(&mut self, hash: u64, tick: u32, runs: &[Running]) -> Result<u32, AllocError>
        ensures { self.new ≡ self.old }
    {
        let state = self.packed()?;
        let moment = Moment {
            hash,
            tick,
            state,
            running: Span::EMPTY,
            starts: None,
        };
        let number = self.store.add_moment(moment, runs)?;
        self.waits.enter_last(self.alloc, &self.store)?;
        Ok(number)
    }

    // How many conjuncts lack once the ends that are due have happened.
    fn lacking_after(&mut self, runs: &[Running]) -> Result<usize, SearchFault>
        ensures { self.new ≡ self.old }
    {
        carry_out_ends(&self.task, &mut self.state, runs)?;
        let lacking = lacking(&self.task, &self.state)?;
        self.state.undo();
        Ok(lacking)
    }

    // Whether the ends that are due can happen in the own state.
    fn ends_can_happen(&mut self, runs: &[Running]) -> Result<bool, SearchFault>
        ensures { self.new ≡ self.old }
    {
        for run in runs {
            let ends = run.left == 0;
            if ends && !end_can_happen(&self.task, &self.state, run.action, run.duration)? {
                return Ok(false);
            }
        }
        Ok(ends_are_apart(&self.task, &mut self.marks, runs))
    }
}
