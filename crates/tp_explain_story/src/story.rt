//! The story that a domain, a problem and a plan tell.

use crate::events::{Doing, Event, Part, Verb, doings_of, leaves_of, part_of};
use crate::facts::{Fact, Facts, Origin};
use crate::leaves::{Leaf, Moment, put_leaves};
use crate::mentions::{Mention, Scope, Sort, put_mentions};
use crate::plan::{Step, read_steps};
use crate::printing::text_of;
use crate::texts::Texts;
use crate::truth::{compared, truth_of, value_of};
use crate::world::{Action, World};
use std::alloc::{AllocError, Global};
use tp_explain_text::Tree;
use tp_text::Scale;

/// A domain, a problem and a plan, in lower case.
#[derive(Drop)]
pub struct Story<'a> {
    world: World<'a>,
    steps: Vec<Step<'a>>,
    events: Vec<Event>,
    texts: Texts<'a>,
}

/// The events of steps, by rising number.
fn events_of(world: &World, steps: &[Step]) -> Result<Vec<Event>, AllocError> {
    let mut events = Vec::new(world.alloc);
    for (step, it) in steps.iter().enumerate() {
        let tick = it.tick;
        let end = tick.saturating_add(it.duration);
        let lasts = match world.actions.get(it.action) {
            Some(action) => action.lasts,
            None => false,
        };
        let first = if lasts { Moment::Start } else { Moment::Only };
        events.push(Event {
            step,
            moment: first,
            tick,
        })?;
        if lasts {
            events.push(Event {
                step,
                moment: Moment::End,
                tick: end,
            })?;
        }
    }
    Ok(events)
}

/// What an effect writes.
#[derive(Drop)]
struct Write {
    event: usize,
    verb: Verb,
    name: String,
    value: i64,
}

impl<'a> Story<'a> {
    /// The story of trees and of the text of a plan, all in lower case.
    pub fn new(
        alloc: Global,
        domain: &'a Tree,
        problem: &'a Tree,
        plan: &'a str,
        texts: Texts<'a>,
    ) -> Result<Story<'a>, AllocError> {
        let world = World::new(alloc, domain, problem)?;
        let steps = read_steps(&world, plan, texts.scale)?;
        let events = events_of(&world, &steps)?;
        Ok(Story {
            world,
            steps,
            events,
            texts,
        })
    }

    /// The steps of the plan.
    pub fn steps(&self) -> &[Step<'a>] {
        self.steps.as_slice()
    }

    /// Their events.
    pub fn events(&self) -> &[Event] {
        self.events.as_slice()
    }

    /// The ticks of a unit.
    pub fn scale(&self) -> Scale {
        self.texts.scale
    }

    /// The files that are told of.
    pub(crate) fn texts(&self) -> &Texts<'a> {
        &self.texts
    }

    /// Where a step's action stands in the plan.
    pub(crate) fn step_place(&self, step: usize) -> usize {
        self.steps.get(step).map_or(0, |it| it.name_place)
    }

    /// Where a step's duration stands in the plan.
    pub(crate) fn duration_place(&self, step: usize) -> usize {
        self.steps.get(step).map_or(0, |it| it.duration_place)
    }

    /// Where memory comes from.
    pub fn alloc(&self) -> Global {
        self.world.alloc
    }

    /// A step, and its action.
    fn step_and_action(&self, step: usize) -> Option<(&Step<'a>, &Action<'a>)> {
        let it = self.steps.get(step)?;
        let action = self.world.actions.get(it.action)?;
        Some((it, action))
    }

    /// The parts of a step's condition at a moment.
    pub fn conditions(&self, step: usize, moment: Moment) -> Result<Vec<Leaf<'a>>, AllocError> {
        match self.step_and_action(step) {
            Some((it, action)) => leaves_of(&self.world, it, action.condition, moment),
            None => Ok(Vec::new(self.world.alloc)),
        }
    }

    /// The parts of a step's duration constraint.
    pub fn constraints(&self, step: usize) -> Result<Vec<Leaf<'a>>, AllocError> {
        match self.step_and_action(step) {
            Some((it, action)) => leaves_of(&self.world, it, action.duration, Moment::Start),
            None => Ok(Vec::new(self.world.alloc)),
        }
    }

    /// The parts of the goal.
    pub fn goals(&self) -> Result<Vec<Leaf<'a>>, AllocError> {
        let mut leaves = Vec::new(self.world.alloc);
        if let Some(goal) = self.world.goal {
            put_leaves(goal, &self.world, Moment::Only, &[], &mut leaves)?;
        }
        Ok(leaves)
    }

    /// What an event does.
    pub fn doings(&self, event: Event) -> Result<Vec<Doing<'a>>, AllocError> {
        match self.step_and_action(event.step) {
            Some((it, action)) => doings_of(&self.world, it, action, event.moment),
            None => Ok(Vec::new(self.world.alloc)),
        }
    }

    /// What an event does, wants and reads. There is none of a step that there is not.
    pub fn part(&self, event: Event) -> Result<Option<Part<'a>>, AllocError> {
        match self.step_and_action(event.step) {
            Some((it, action)) => Ok(Some(part_of(&self.world, it, action, event.moment)?)),
            None => Ok(None),
        }
    }

    /// A part as text.
    pub fn text(&self, leaf: &Leaf<'a>) -> Result<String, AllocError> {
        text_of(leaf.tree, &self.world, &leaf.bindings)
    }

    /// How many bindings of a part are those of the step.
    pub fn own_bindings(&self, step: usize) -> usize {
        match self.step_and_action(step) {
            Some((_, action)) => action.parameters.len(),
            None => 0,
        }
    }

    /// What a part mentions.
    pub fn mentions(&self, leaf: &Leaf<'a>, scope: Scope) -> Result<Vec<Mention>, AllocError> {
        let mut mentions = Vec::new(self.world.alloc);
        put_mentions(
            leaf.tree,
            &self.world,
            Sort::Condition,
            scope,
            &leaf.bindings,
            &mut mentions,
        )?;
        Ok(mentions)
    }

    /// Puts what an expression of a part mentions behind other mentions.
    fn put_expression(
        &self,
        tree: &'a Tree,
        leaf: &Leaf<'a>,
        mentions: &mut Vec<Mention>,
    ) -> Result<(), AllocError> {
        let sort = Sort::Expression;
        put_mentions(
            tree,
            &self.world,
            sort,
            Scope::Bound,
            &leaf.bindings,
            mentions,
        )
    }

    /// What an effect reads: its right side, and what it changes, unless it assigns.
    pub fn effect_reads(&self, doing: &Doing<'a>) -> Result<Vec<Mention>, AllocError> {
        let mut mentions = Vec::new(self.world.alloc);
        let [target, right, ..] = doing.leaf.tree.rest() else {
            return Ok(mentions);
        };
        if !doing.verb.is_numeric() {
            return Ok(mentions);
        }
        if doing.verb != Verb::Assigns {
            self.put_expression(target, &doing.leaf, &mut mentions)?;
        }
        self.put_expression(right, &doing.leaf, &mut mentions)?;
        Ok(mentions)
    }

    /// Whether a part holds: none where it mentions a fluent without a value.
    pub fn truth(&self, leaf: &Leaf<'a>, facts: &Facts) -> Result<Option<bool>, AllocError> {
        truth_of(leaf.tree, &self.world, &leaf.bindings, facts)
    }

    /// The two numbers that a part compares, where it is a comparison and both have a value.
    pub fn compared(
        &self,
        leaf: &Leaf<'a>,
        facts: &Facts,
    ) -> Result<Option<(i64, i64)>, AllocError> {
        compared(leaf.tree, &self.world, &leaf.bindings, facts)
    }

    /// The value with which a duration constraint compares `?duration`.
    pub fn limit(&self, leaf: &Leaf<'a>, facts: &Facts) -> Result<Option<i64>, AllocError> {
        match leaf.tree.rest() {
            [_, limit, ..] => value_of(limit, &self.world, &leaf.bindings, facts, None),
            _ => Ok(None),
        }
    }

    /// How many units a step lasts, where these are whole.
    pub fn units(&self, step: usize) -> Option<i64> {
        let it = self.steps.get(step)?;
        let scale = self.scale().ticks();
        if it.duration.checked_rem(scale)? == 0 {
            Some(i64::from(it.duration.checked_div(scale)?))
        } else {
            None
        }
    }

    /// The value of the right side of an effect of a step: 1 of one that adds, 0 of one that
    /// deletes.
    fn right_value(
        &self,
        step: usize,
        doing: &Doing<'a>,
        facts: &Facts,
    ) -> Result<Option<i64>, AllocError> {
        match (doing.verb, doing.right) {
            (Verb::Adds, _) => Ok(Some(1)),
            (Verb::Deletes, _) => Ok(Some(0)),
            (_, Some(right)) => {
                let duration = self.units(step);
                value_of(right, &self.world, &doing.leaf.bindings, facts, duration)
            }
            (_, None) => Ok(None),
        }
    }

    /// Puts what an event writes behind other writes. Values are those in what holds before.
    fn put_writes(
        &self,
        event: usize,
        before: &Facts,
        writes: &mut Vec<Write>,
    ) -> Result<(), AllocError> {
        let Some(it) = self.events.get(event) else {
            return Ok(());
        };
        for doing in self.doings(*it)? {
            if let Some(value) = self.right_value(it.step, &doing, before)? {
                writes.push(Write {
                    event,
                    verb: doing.verb,
                    name: doing.name,
                    value,
                })?;
            }
        }
        Ok(())
    }

    /// Lets happen what happens at a tick.
    fn pass(&self, tick: u32, facts: &mut Facts) -> Result<(), AllocError> {
        let mut writes = Vec::new(self.world.alloc);
        for (number, event) in self.events.iter().enumerate() {
            if event.tick == tick {
                self.put_writes(number, facts, &mut writes)?;
            }
        }
        write_all(facts, &writes, false)?;
        write_all(facts, &writes, true)
    }

    /// The first tick from one on at which something happens.
    fn next_tick(&self, from: u32) -> Option<u32> {
        let mut next: Option<u32> = None;
        for event in &self.events {
            let is_sooner = match next {
                Some(tick) => event.tick < tick,
                None => true,
            };
            if from <= event.tick && is_sooner {
                next = Some(event.tick);
            }
        }
        next
    }

    /// What holds before a tick, or after it.
    pub fn facts(&self, tick: u32, is_after: bool) -> Result<Facts, AllocError> {
        let mut facts = Facts::first(&self.world)?;
        let mut from = 0u32;
        for _ in &self.events {
            let Some(next) = self.next_tick(from) else {
                return Ok(facts);
            };
            if tick < next || (tick == next && !is_after) {
                return Ok(facts);
            }
            self.pass(next, &mut facts)?;
            from = next.saturating_add(1);
        }
        Ok(facts)
    }
}

/// The value that a fluent has behind a change.
fn changed(verb: Verb, old: Option<i64>, value: i64) -> Option<i64> {
    match (verb, old) {
        (Verb::Increases, Some(old)) => old.checked_add(value),
        (Verb::Decreases, Some(old)) => old.checked_sub(value),
        (Verb::Scales, Some(old)) => old.checked_mul(value),
        (Verb::Increases | Verb::Decreases | Verb::Scales, None) => None,
        _ => Some(value),
    }
}

/// Writes a value. What has no value can't be changed.
fn write_one(facts: &mut Facts, write: &Write) -> Result<(), AllocError> {
    let name = write.name.as_str();
    let is_fluent = write.verb.is_numeric();
    let old = facts.fluent(name).map(|fact| fact.value);
    let Some(value) = changed(write.verb, old, write.value) else {
        return Ok(());
    };
    let origin = Origin::Event(write.event, write.verb);
    facts.set(name, is_fluent, Fact { value, origin })
}

/// Writes what adds, or else what does not.
fn write_all(facts: &mut Facts, writes: &[Write], adds: bool) -> Result<(), AllocError> {
    for write in writes {
        if (write.verb == Verb::Adds) == adds {
            write_one(facts, write)?;
        }
    }
    Ok(())
}
