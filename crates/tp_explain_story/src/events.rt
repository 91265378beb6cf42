//! The events of steps: what each does, wants and reads.

use crate::forms::{Head, head_of_word};
use crate::leaves::{Leaf, Moment, put_leaves};
use crate::mentions::{Mention, Scope, Sort, put_mentions};
use crate::plan::Step;
use crate::printing::text_of;
use crate::typed::Binding;
use crate::world::{Action, World};
use std::alloc::AllocError;
use std::fmt;
use tp_explain_text::Tree;

/// What an effect does.
#[derive(Clone, Copy, Debug, PartialEq, Eq)]
pub enum Verb {
    Adds,
    Deletes,
    Assigns,
    Increases,
    Decreases,
    Scales,
}

impl Verb {
    /// Whether it changes a fluent.
    pub fn is_numeric(self) -> bool {
        !matches!(self, Verb::Adds | Verb::Deletes)
    }

    /// Whether it takes no account of other changes.
    pub fn is_absolute(self) -> bool {
        matches!(self, Verb::Assigns | Verb::Scales)
    }
}

/// A single effect: what it does to which atom or fluent, and the expression on its right side.
#[derive(Drop)]
pub struct Doing<'a> {
    pub verb: Verb,
    pub name: String,
    pub right: Option<&'a Tree>,
    pub leaf: Leaf<'a>,
}

/// An event of a step.
#[derive(Clone, Copy, Debug, PartialEq, Eq)]
pub struct Event {
    pub step: usize,
    pub moment: Moment,
    pub tick: u32,
}

/// As `the start of step 3`.
impl fmt::Display for Event {
    fn fmt<W: fmt::Write>(&self, f: &mut fmt::Formatter<W>) -> fmt::Result {
        match self.moment {
            Moment::Start => write!(f, "the start of step {}", self.step),
            Moment::End => write!(f, "the end of step {}", self.step),
            Moment::All | Moment::Only => write!(f, "step {}", self.step),
        }
    }
}

/// What an event does, wants in its condition, and reads on right sides and in a duration
/// constraint.
#[derive(Drop)]
pub struct Part<'a> {
    pub doings: Vec<Doing<'a>>,
    pub wants: Vec<Mention>,
    pub reads: Vec<Mention>,
}

/// The bindings of a step's parameters.
pub(crate) fn bindings_of<'a>(
    world: &World<'a>,
    step: &Step<'a>,
) -> Result<Vec<Binding<'a>>, AllocError> {
    let mut bindings = Vec::new(world.alloc);
    let Some(action) = world.actions.get(step.action) else {
        return Ok(bindings);
    };
    let words = step.words.iter().skip(1);
    for (parameter, word) in action.parameters.iter().zip(words) {
        bindings.push(Binding {
            variable: parameter.name,
            object: *word,
        })?;
    }
    Ok(bindings)
}

/// The parts of a field of an action at a moment of a step.
pub(crate) fn leaves_of<'a>(
    world: &World<'a>,
    step: &Step<'a>,
    tree: Option<&'a Tree>,
    moment: Moment,
) -> Result<Vec<Leaf<'a>>, AllocError> {
    let mut leaves = Vec::new(world.alloc);
    if let Some(tree) = tree {
        let bindings = bindings_of(world, step)?;
        put_leaves(tree, world, moment, &bindings, &mut leaves)?;
    }
    Ok(leaves)
}

/// What an effect that begins like that does.
fn verb_of(head: Head) -> Verb {
    match head {
        Head::Not => Verb::Deletes,
        Head::Assign => Verb::Assigns,
        Head::Increase => Verb::Increases,
        Head::Decrease => Verb::Decreases,
        Head::ScaleUp => Verb::Scales,
        _ => Verb::Adds,
    }
}

/// What is written, and the right side.
fn target_of<'a>(leaf: &Leaf<'a>, verb: Verb) -> (Option<&'a Tree>, Option<&'a Tree>) {
    if verb == Verb::Adds {
        return (Some(leaf.tree), None);
    }
    match leaf.tree.rest() {
        [target, right, ..] => (Some(target), Some(right)),
        [target] => (Some(target), None),
        [] => (None, None),
    }
}

/// The effects of an event.
pub(crate) fn doings_of<'a>(
    world: &World<'a>,
    step: &Step<'a>,
    action: &Action<'a>,
    moment: Moment,
) -> Result<Vec<Doing<'a>>, AllocError> {
    let mut doings = Vec::new(world.alloc);
    for leaf in leaves_of(world, step, action.effect, moment)? {
        let verb = verb_of(head_of_word(leaf.tree.head()));
        let (target, right) = target_of(&leaf, verb);
        if let Some(target) = target {
            let name = text_of(target, world, &leaf.bindings)?;
            doings.push(Doing {
                verb,
                name,
                right,
                leaf,
            })?;
        }
    }
    Ok(doings)
}

/// What conditions mention, under quantifiers too.
pub(crate) fn wants_of<'a>(
    world: &World<'a>,
    leaves: &[Leaf<'a>],
) -> Result<Vec<Mention>, AllocError> {
    let mut wants = Vec::new(world.alloc);
    for leaf in leaves {
        put_mentions(
            leaf.tree,
            world,
            Sort::Condition,
            Scope::Bound,
            &leaf.bindings,
            &mut wants,
        )?;
    }
    Ok(wants)
}

/// What the right sides of effects read, and what they scale, which is read too.
fn put_reads<'a>(
    world: &World<'a>,
    doings: &[Doing<'a>],
    reads: &mut Vec<Mention>,
) -> Result<(), AllocError> {
    for doing in doings {
        if let Some(right) = doing.right {
            let bindings = &doing.leaf.bindings;
            put_mentions(
                right,
                world,
                Sort::Expression,
                Scope::Bound,
                bindings,
                reads,
            )?;
        }
    }
    Ok(())
}

/// What an event does, wants and reads.
pub(crate) fn part_of<'a>(
    world: &World<'a>,
    step: &Step<'a>,
    action: &Action<'a>,
    moment: Moment,
) -> Result<Part<'a>, AllocError> {
    let doings = doings_of(world, step, action, moment)?;
    let conditions = leaves_of(world, step, action.condition, moment)?;
    let wants = wants_of(world, &conditions)?;
    let mut reads = Vec::new(world.alloc);
    if moment == Moment::Start {
        for leaf in &leaves_of(world, step, action.duration, moment)? {
            let bindings = &leaf.bindings;
            put_mentions(
                leaf.tree,
                world,
                Sort::Condition,
                Scope::Bound,
                bindings,
                &mut reads,
            )?;
        }
    }
    put_reads(world, &doings, &mut reads)?;
    Ok(Part {
        doings,
        wants,
        reads,
    })
}
