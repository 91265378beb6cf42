//! The conjunct of a goal that is out of reach.

use std::alloc::{AllocError, Global};
use tp_explain_text::{At, Page, Source, Tree, put, put_mark};
use tp_task::{AtomId, Cond, Task, met};

/// A conjunct as it is written, and as it is of the task.
#[derive(Clone, Copy)]
pub struct Unmet<'t, 'c> {
    pub tree: &'t Tree,
    pub cond: &'c Cond,
}

/// The most lists that are in one another.
const DEEPEST: usize = 65;

/// The number of the first condition that is not met.
fn first_unmet(conds: &[Cond], atoms: &[bool]) -> Option<usize> {
    for (number, cond) in conds.iter().enumerate() {
        if !met(atoms, true, cond) {
            return Some(number);
        }
    }
    None
}

/// The part of a written conjunction, or of what a quantifier is over, that a part of the condition
/// comes of.
fn part_of<'t>(tree: &'t Tree, number: usize) -> Option<&'t Tree> {
    if tree.head().eq_ignore_ascii_case("and") {
        return tree.rest().get(number);
    }
    if tree.head().eq_ignore_ascii_case("forall") {
        return tree.items().get(2);
    }
    None
}

/// The first conjunct of a goal that is not met where nothing is ever deleted.
pub fn unmet_goal<'t, 'c>(tree: &'t Tree, goal: &'c Cond, atoms: &[bool]) -> Unmet<'t, 'c> {
    let mut unmet = Unmet { tree, cond: goal };
    for _ in 0..DEEPEST {
        let Cond::And(conds) = unmet.cond else {
            break;
        };
        let Some(number) = first_unmet(conds, atoms) else {
            break;
        };
        match (part_of(unmet.tree, number), conds.get(number)) {
            (Some(tree), Some(cond)) => unmet = Unmet { tree, cond },
            _ => break,
        }
    }
    unmet
}

/// Adds a tree as it is written, in small letters, with one space between its parts.
fn written(alloc: Global, tree: &Tree, into: &mut String) -> Result<(), AllocError> {
    match tree {
        Tree::Word { text, .. } => {
            let word = text.as_str().to_ascii_lowercase(alloc)?;
            into.push_str(word.as_str())
        }
        Tree::List { items, .. } => {
            into.push_str("(")?;
            let mut is_first = true;
            for item in items {
                if !is_first {
                    into.push_str(" ")?;
                }
                is_first = false;
                written(alloc, item, into)?;
            }
            into.push_str(")")
        }
    }
}

/// Puts that a conjunct of the goal is out of reach.
pub fn put_unmet(
    page: &mut Page,
    source: Source<'_>,
    task: &Task,
    unmet: &Unmet<'_, '_>,
) -> Result<(), AllocError> {
    let at = unmet.tree.place();
    put!(page; "{}no plan: the goal is out of reach, even if nothing is ever deleted\n",
        At(source, at));
    put_mark(page, source, at);
    let mut text = String::new(page.alloc());
    match unmet.cond {
        Cond::Atom(atom) => text.push_str(task.atom_text(AtomId(*atom))?.as_str())?,
        _ => written(page.alloc(), unmet.tree, &mut text)?,
    }
    put!(page; "note: it wants {text}, which nothing brings about\n");
    Ok(())
}
