//! The lists around a place.

use crate::roles::{Role, role_in};
use crate::trees::{Text, Tree};
use std::alloc::{AllocError, Global};

/// A list around a place: its role, its members, where it begins, and the number of the member that
/// the place is in. In the list that begins at the place it is how many members there are.
#[derive(Clone, Copy)]
pub struct Step<'t> {
    pub role: Role,
    pub items: &'t [Tree],
    pub start: usize,
    pub child: usize,
}

/// The number of the member of a list that a place is in.
fn member_at(items: &[Tree], place: usize) -> usize {
    let found = items.iter().position(|tree| {
        let span = tree.span();
        span.start as usize <= place && place < span.stop as usize
    });
    found.unwrap_or(items.len())
}

/// The step at a tree, if it is a list.
fn step_at<'t>(tree: &'t Tree, role: Role, place: usize) -> Option<Step<'t>> {
    let Tree::List { items, span } = tree else {
        return None;
    };
    let items = items.as_slice();
    let start = span.start as usize;
    let child = if start == place {
        items.len()
    } else {
        member_at(items, place)
    };
    Some(Step {
        role,
        items,
        start,
        child,
    })
}

/// The most lists that are in one another.
const DEEPEST: usize = 65;

/// The lists around a place of a domain or a problem, the outermost first: the last of them begins
/// there, or has a word that does.
pub fn path_to<'t>(
    alloc: Global,
    text: &Text<'t>,
    in_problem: bool,
    place: usize,
) -> Result<Vec<Step<'t>>, AllocError> {
    let mut path = Vec::new(alloc);
    let role = if in_problem {
        Role::Problem
    } else {
        Role::Domain
    };
    let mut next = step_at(text.tree, role, place);
    for _ in 0..DEEPEST {
        let Some(step) = next else {
            break;
        };
        path.push(step)?;
        let role = role_in(step.role, step.items, step.child);
        next = match step.items.get(step.child) {
            Some(tree) => step_at(tree, role, place),
            None => None,
        };
    }
    Ok(path)
}
