//! The single conditions, effects and constraints of a composite one.

use crate::forms::{Head, head_of_word};
use crate::typed::Binding;
use crate::world::World;
use std::alloc::AllocError;
use tp_explain_text::Tree;

/// When something is wanted or done.
#[derive(Clone, Copy, Debug, PartialEq, Eq)]
pub enum Moment {
    /// At the start of a step.
    Start,
    /// Over all of it.
    All,
    /// At its end.
    End,
    /// At the only moment of an instantaneous action, or at the end of the plan.
    Only,
}

/// A part that is gone into no further, under the bindings that hold there. The first of these are
/// those of the step.
#[derive(Drop)]
pub struct Leaf<'a> {
    pub tree: &'a Tree,
    pub bindings: Vec<Binding<'a>>,
}

impl Leaf<'_> {
    /// Where it begins in its text.
    pub fn place(&self) -> usize {
        self.tree.place()
    }

    /// The word that it begins with.
    pub fn head(&self) -> &str {
        self.tree.head()
    }
}

/// Whether a list of a moment is that of another one.
fn is_at(head: Head, word: &str, moment: Moment) -> bool {
    match moment {
        Moment::Start => head == Head::At && word == "start",
        Moment::All => head == Head::Over && word == "all",
        Moment::End => head == Head::At && word == "end",
        Moment::Only => false,
    }
}

/// Puts the parts of a moment behind others, in the order of the text: those of each member of an
/// `and`, and of each binding of a `forall`. Inside `(at start ..)` and the like, `at` is the name
/// of a predicate.
pub(crate) fn put_leaves<'a>(
    tree: &'a Tree,
    world: &World<'a>,
    moment: Moment,
    bindings: &[Binding<'a>],
    leaves: &mut Vec<Leaf<'a>>,
) -> Result<(), AllocError> {
    let Tree::List { items, .. } = tree else {
        return Ok(());
    };
    let [first, rest @ ..] = items.as_slice() else {
        return Ok(());
    };
    match head_of_word(first.word()) {
        Head::And => {
            for part in rest {
                put_leaves(part, world, moment, bindings, leaves)?;
            }
            Ok(())
        }
        Head::Forall => {
            let [variables, part, ..] = rest else {
                return Ok(());
            };
            let combos = world.each_binding(bindings, variables.items())?;
            for combo in &combos {
                put_leaves(part, world, moment, combo, leaves)?;
            }
            Ok(())
        }
        head @ (Head::At | Head::Over) if moment != Moment::Only => {
            let [when, part, ..] = rest else {
                return Ok(());
            };
            if is_at(head, when.word(), moment) {
                put_leaves(part, world, Moment::Only, bindings, leaves)?;
            }
            Ok(())
        }
        _ => {
            let bindings = bindings.to_vec(world.alloc)?;
            leaves.push(Leaf { tree, bindings })?;
            Ok(())
        }
    }
}
