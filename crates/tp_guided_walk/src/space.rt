//! The loaded node, and its children.

use crate::starts::{Frame, find_choices, least_duration};
use crate::store::{Choice, Chosen, Moment, Node, Store};
use std::alloc::{AllocError, Global};
use tp_search_compiled::{Form, Marks, NONE, Running, Span, State, Task, Watched, units};
use tp_task::MOST_STEPS;

/// A node, and whether it was made just now.
#[derive(Clone, Copy)]
pub struct Child {
    pub node: u32,
    pub new: bool,
}

/// The nodes of a search of a task, of which one is loaded.
#[derive(Drop)]
pub struct Space<'t> {
    task: &'t Task,
    watched: &'t Watched,
    limit: u32,
    cut: bool,
    store: Store,
    marks: Marks,
    node: u32,
    own: State,
    running: Vec<Running>,
    events: Vec<u32>,
    chain: Vec<u32>,
    found: Vec<Choice>,
    key: Vec<Running>,
}

fn end_event(task: &Task, action: u32) -> u32 {
    match task.action(action) {
        Some(action) => action.event.saturating_add(1),
        None => NONE,
    }
}

fn running_from(choice: Choice) -> Running {
    Running {
        action: choice.action,
        duration: choice.duration,
        left: choice.duration,
    }
}

impl<'t> Space<'t> {
    /// The space of a task, whose root is loaded; no step ends past a limit, to which greatest
    /// durations are cut or not.
    pub fn new(
        alloc: Global,
        task: &'t Task,
        watched: &'t Watched,
        limit: u32,
        cut: bool,
    ) -> Result<Self, AllocError> {
        let width = task.changing_atoms.div_ceil(64) as usize;
        let store = Store::new(alloc, width, task.changing_fluents as usize)?;
        let marks = Marks::new(alloc, task)?;
        let own = State::initial(alloc, task)?;
        let mut space = Space {
            task,
            watched,
            limit,
            cut,
            store,
            marks,
            node: NONE,
            own,
            running: Vec::new(alloc),
            events: Vec::new(alloc),
            chain: Vec::new(alloc),
            found: Vec::new(alloc),
            key: Vec::new(alloc),
        };
        space.make_root()?;
        Ok(space)
    }

    fn make_root(&mut self) -> Result<(), AllocError> {
        let state = self.store.pack(&self.own)?;
        self.add_moment(0, 0, state, Span::EMPTY, 0)?;
        self.load(0)
    }

    // A moment, and its node that starts nothing.
    fn add_moment(
        &mut self,
        hash: u64,
        tick: u32,
        state: u32,
        running: Span,
        steps: u32,
    ) -> Result<u32, AllocError> {
        let node = self.store.node_count();
        let moment = self.store.add_moment(Moment {
            hash,
            tick,
            state,
            running,
            choices: None,
            node,
        })?;
        self.store.add_node(Node {
            parent: self.node,
            moment,
            choice: NONE,
            steps,
            set: 0,
            expanded: false,
        })
    }

    /// The task.
    pub fn task(&self) -> &'t Task {
        self.task
    }

    /// The loaded node.
    pub fn node(&self) -> u32 {
        self.node
    }

    /// The tick of the loaded node.
    pub fn tick(&self) -> u32 {
        match self.store.moment_of(self.node) {
            Some(moment) => moment.tick,
            None => 0,
        }
    }

    /// The state of the loaded node, after its events.
    pub fn state(&self) -> &State {
        &self.own
    }

    /// The steps that run past the tick of the loaded node.
    pub fn running(&self) -> &[Running] {
        &self.running
    }

    /// Whether something happens at the tick of the loaded node.
    pub fn has_events(&self) -> bool {
        !self.events.is_empty()
    }

    /// The number of the last start of the loaded node.
    pub fn last_choice(&self) -> Option<u32> {
        self.chain.last().copied()
    }

    /// Whether a node was expanded.
    pub fn is_expanded(&self, node: u32) -> bool {
        match self.store.node(node) {
            Some(node) => node.expanded,
            None => true,
        }
    }

    /// Notes that a node was expanded.
    pub fn set_expanded(&mut self, node: u32) {
        self.store.set_expanded(node);
    }

    /// A start by its number.
    pub fn choice(&self, number: u32) -> Option<Choice> {
        self.store.choice(number)
    }

    /// One more start, whose number is returned.
    pub fn add_choice(&mut self, choice: Choice) -> Result<u32, AllocError> {
        self.store.add_choice(choice)
    }

    /// The starts that are possible at the tick of the loaded node, by action and then duration.
    pub fn starts(&self) -> Span {
        match self.store.moment_of(self.node) {
            Some(moment) => moment.choices.unwrap_or(Span::EMPTY),
            None => Span::EMPTY,
        }
    }

    /// Those of an action.
    pub fn choices_of(&self, action: u32) -> Span {
        self.store.choices_of(self.starts(), action)
    }

    /// The least lawful duration of an action in the loaded state, 0 where there is none.
    pub fn least_duration(&self, action: u32) -> u32 {
        least_duration(self.task, &self.own, action)
    }

    /// The starts that lead to a node, in the order in which they were chosen.
    pub fn path(&self, node: u32) -> Result<Vec<Chosen>, AllocError> {
        self.store.path(node)
    }

    fn units(&self, duration: u32) -> i64 {
        units(duration, self.task.scale)
    }

    /// Carries out the start of an action on the loaded state; false where that is out of range,
    /// and then some of it may be carried out.
    pub fn apply_start(&mut self, choice: Choice) -> Result<bool, AllocError> {
        match self.task.action(choice.action) {
            Some(action) => self.apply(action.event, choice.duration),
            None => Ok(false),
        }
    }

    /// Carries out the end of an action on the loaded state, as `apply_start` does its start.
    pub fn apply_end(&mut self, action: u32, duration: u32) -> Result<bool, AllocError> {
        self.apply(end_event(self.task, action), duration)
    }

    /// Carries out the end of an action unless it reads a fluent that is undefined. False where it
    /// is out of range.
    pub fn apply_defined_end(&mut self, action: u32, duration: u32) -> Result<bool, AllocError> {
        let Some(event) = self.task.end_of(action) else {
            return Ok(true);
        };
        let units = self.units(duration);
        if self.own.undefined(self.task, event, units) {
            return Ok(true);
        }
        self.own.apply(self.task, event, units)
    }

    fn apply(&mut self, event: u32, duration: u32) -> Result<bool, AllocError> {
        let units = self.units(duration);
        match self.task.event(event) {
            Some(event) => self.own.apply(self.task, event, units),
            None => Ok(false),
        }
    }

    /// Takes back what was carried out on the loaded state.
    pub fn undo(&mut self) {
        self.own.undo();
    }

    /// Loads a node: its state, its events and the steps that run past its tick.
    pub fn load(&mut self, node: u32) -> Result<(), AllocError> {
        self.node = node;
        let Some(moment) = self.store.moment_of(node) else {
            return Ok(());
        };
        self.store.unpack(moment.state, &mut self.own);
        self.own.keep();
        if moment.choices.is_none() {
            self.find_choices(moment.tick)?;
        }
        self.store.read_chain(node, &mut self.chain)?;
        self.load_running(moment.running)?;
        self.load_starts()?;
        self.own.keep();
        Ok(())
    }

    // Finds what can start at the moment of the loaded node, of whose events none has happened yet.
    fn find_choices(&mut self, tick: u32) -> Result<(), AllocError> {
        let frame = Frame {
            tick,
            limit: self.limit,
            cut: self.cut,
        };
        find_choices(self.task, &self.own, frame, self.watched, &mut self.found)?;
        if let Some(node) = self.store.node(self.node) {
            self.store.add_choices(node.moment, &self.found)?;
        }
        Ok(())
    }

    // The steps that run into the tick: those that are due end.
    fn load_running(&mut self, span: Span) -> Result<(), AllocError> {
        self.running.clear();
        self.events.clear();
        for place in 0..self.store.runs(span).len() {
            if let Some(run) = self.store.runs(span).get(place).copied() {
                self.take_run(run)?;
            }
        }
        Ok(())
    }

    fn take_run(&mut self, run: Running) -> Result<(), AllocError> {
        if run.left > 0 {
            self.running.push(run)?;
            return Ok(());
        }
        let event = end_event(self.task, run.action);
        self.events.push(event)?;
        self.apply(event, run.duration)?;
        Ok(())
    }

    fn load_starts(&mut self) -> Result<(), AllocError> {
        for place in 0..self.chain.len() {
            let number = self.chain.get(place).copied().unwrap_or(NONE);
            self.take_start(number)?;
        }
        Ok(())
    }

    // Carries out a start of the loaded node.
    fn take_start(&mut self, number: u32) -> Result<(), AllocError> {
        let Some(choice) = self.store.choice(number) else {
            return Ok(());
        };
        let Some(action) = self.task.action(choice.action) else {
            return Ok(());
        };
        self.events.push(action.event)?;
        self.apply(action.event, choice.duration)?;
        if action.durative {
            self.running.push(running_from(choice))?;
        }
        Ok(())
    }

    /// Whether a condition holds in the loaded state.
    pub fn holds(&self, form: &Form) -> bool {
        self.own.holds(self.task, form)
    }

    /// Whether the goal holds in the loaded state, and no step runs past its tick.
    pub fn is_goal(&self) -> bool {
        self.running.is_empty() && self.holds(&self.task.goal)
    }

    /// Whether the invariant of an action holds in the loaded state.
    pub fn invariant(&self, action: u32) -> bool {
        match self.task.invariant_of(action) {
            Some(form) => self.holds(form),
            None => true,
        }
    }

    /// Whether the invariants of all running steps hold in the loaded state.
    pub fn invariants(&self) -> bool {
        for run in &self.running {
            if !self.invariant(run.action) {
                return false;
            }
        }
        true
    }

    /// Marks the events of the loaded node, for `joins`.
    pub fn mark_events(&mut self) {
        for event in &self.events {
            if let Some(event) = self.task.event(*event) {
                self.marks.put(self.task, event);
            }
        }
    }

    /// Takes the marks of the events away.
    pub fn wipe_events(&mut self) {
        for event in &self.events {
            if let Some(event) = self.task.event(*event) {
                self.marks.wipe(self.task, event);
            }
        }
    }

    fn has_started(&self, action: u32) -> bool {
        for number in &self.chain {
            if let Some(choice) = self.store.choice(*number) {
                if choice.action == action {
                    return true;
                }
            }
        }
        false
    }

    fn steps(&self) -> u32 {
        match self.store.node(self.node) {
            Some(node) => node.steps,
            None => 0,
        }
    }

    /// Whether an action may start at the tick of the loaded node, whose events are marked.
    pub fn joins(&self, action: u32) -> bool {
        let Some(event) = self.task.start_of(action) else {
            return false;
        };
        (self.steps() as usize) < MOST_STEPS
            && !self.has_started(action)
            && (self.events.is_empty() || !self.marks.interferes(self.task, event))
    }

    /// The child that starts one more of the possible starts.
    pub fn start_child(&mut self, number: u32) -> Result<Child, AllocError> {
        let (Some(node), Some(choice)) = (self.store.node(self.node), self.store.choice(number))
        else {
            return Ok(Child {
                node: self.node,
                new: false,
            });
        };
        let set = node.set_with(choice);
        if let Some(known) = self.store.child(node.moment, set, &self.chain, number) {
            return Ok(Child {
                node: known,
                new: false,
            });
        }
        let child = self.store.add_node(Node {
            parent: self.node,
            moment: node.moment,
            choice: number,
            steps: node.steps.saturating_add(1),
            set,
            expanded: false,
        })?;
        Ok(Child {
            node: child,
            new: true,
        })
    }

    /// Loads the child that starts one more of the possible starts, which the loaded node does not
    /// interfere with. The events are marked, and so are then those of the child.
    pub fn go_start(&mut self, number: u32) -> Result<Child, AllocError> {
        let child = self.start_child(number)?;
        self.take_start(number)?;
        self.own.keep();
        self.chain.push(number)?;
        if let Some(event) = self.events.last() {
            if let Some(event) = self.task.event(*event) {
                self.marks.put(self.task, event);
            }
        }
        self.node = child.node;
        Ok(child)
    }

    /// The least number of ticks that a running step has left.
    pub fn least_left(&self) -> Option<u32> {
        let mut least = None;
        for run in &self.running {
            match least {
                Some(left) if left <= run.left => {}
                _ => least = Some(run.left),
            }
        }
        least
    }

    // The running steps so many ticks later, sorted; no step has fewer left.
    fn read_key(&mut self, ticks: u32) -> Result<(), AllocError> {
        self.key.clear();
        for run in &self.running {
            self.key.push(Running {
                left: run.left.saturating_sub(ticks),
                ..*run
            })?;
        }
        self.key.sort_unstable();
        Ok(())
    }

    // Whether an end that is due can happen in the loaded state.
    fn end_is_possible(&self, run: &Running) -> bool {
        match self.task.end_of(run.action) {
            Some(event) => {
                !event.clash
                    && !self
                        .own
                        .undefined(self.task, event, self.units(run.duration))
                    && self.holds(&event.cond)
            }
            None => false,
        }
    }

    fn ends_are_possible(&self) -> bool {
        for run in &self.key {
            if run.left == 0 && !self.end_is_possible(run) {
                return false;
            }
        }
        true
    }

    // Whether no two ends that are due interfere. Nothing is marked.
    fn ends_are_apart(&mut self) -> bool {
        let mut apart = true;
        for run in &self.key {
            if run.left == 0 {
                if let Some(event) = self.task.end_of(run.action) {
                    apart = apart && !self.marks.interferes(self.task, event);
                    self.marks.put(self.task, event);
                }
            }
        }
        for run in &self.key {
            if run.left == 0 {
                if let Some(event) = self.task.end_of(run.action) {
                    self.marks.wipe(self.task, event);
                }
            }
        }
        apart
    }

    // Whether the ends that are due stay in range.
    fn ends_are_in_range(&mut self) -> Result<bool, AllocError> {
        let mut fine = true;
        for place in 0..self.key.len() {
            if let Some(run) = self.key.get(place).copied() {
                if fine && run.left == 0 {
                    fine = self.apply_end(run.action, run.duration)?;
                }
            }
        }
        self.own.undo();
        Ok(fine)
    }

    /// The child so many ticks later, None where it is past the limit or an end that is due then
    /// can't happen. Nothing is marked, the invariants of the running steps hold, and no step has
    /// fewer ticks left.
    pub fn wait_child(&mut self, ticks: u32) -> Result<Option<Child>, AllocError> {
        let tick = self.tick().saturating_add(ticks);
        if tick > self.limit {
            return Ok(None);
        }
        self.read_key(ticks)?;
        let hash = self.store.hash_of(&self.own, &self.key);
        if let Some(known) = self.store.known(hash, &self.own, &self.key) {
            return Ok(Some(Child {
                node: known,
                new: false,
            }));
        }
        if !self.ends_are_possible() || !self.ends_are_apart() || !self.ends_are_in_range()? {
            return Ok(None);
        }
        let node = self.add_wait(hash, tick)?;
        Ok(Some(Child { node, new: true }))
    }

    fn add_wait(&mut self, hash: u64, tick: u32) -> Result<u32, AllocError> {
        let state = self.store.pack(&self.own)?;
        let running = self.store.add_runs(&self.key)?;
        self.add_moment(hash, tick, state, running, self.steps())
    }
}
