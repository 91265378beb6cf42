//! What a domain and a problem declare.

use crate::forms::{field, section};
use crate::typed::{Binding, Typed, fits, read_typed};
use std::alloc::{AllocError, Global};
use tp_explain_text::Tree;

/// An action of the domain.
#[derive(Drop)]
pub struct Action<'a> {
    pub(crate) name: &'a str,
    pub(crate) lasts: bool,
    pub(crate) parameters: Vec<Typed<'a>>,
    pub(crate) duration: Option<&'a Tree>,
    pub(crate) condition: Option<&'a Tree>,
    pub(crate) effect: Option<&'a Tree>,
}

/// Types, objects and actions, the first state and the goal.
#[derive(Drop)]
pub struct World<'a> {
    pub(crate) alloc: Global,
    pub(crate) types: Vec<Typed<'a>>,
    pub(crate) objects: Vec<Typed<'a>>,
    pub(crate) actions: Vec<Action<'a>>,
    pub(crate) init: &'a [Tree],
    pub(crate) goal: Option<&'a Tree>,
}

/// The action that a list declares, if it does.
fn read_action<'a>(alloc: Global, tree: &'a Tree) -> Result<Option<Action<'a>>, AllocError> {
    let lasts = tree.head() == ":durative-action";
    if !lasts && tree.head() != ":action" {
        return Ok(None);
    }
    let name = match tree.items() {
        [_, name, ..] => name.word(),
        _ => "",
    };
    let parameters = match field(tree, ":parameters") {
        Some(list) => read_typed(alloc, list.items())?,
        None => Vec::new(alloc),
    };
    let wanted = if lasts { ":condition" } else { ":precondition" };
    Ok(Some(Action {
        name,
        lasts,
        parameters,
        duration: field(tree, ":duration"),
        condition: field(tree, wanted),
        effect: field(tree, ":effect"),
    }))
}

/// The actions of a domain.
fn read_actions<'a>(alloc: Global, domain: &'a Tree) -> Result<Vec<Action<'a>>, AllocError> {
    let mut actions = Vec::new(alloc);
    for item in domain.items() {
        if let Some(action) = read_action(alloc, item)? {
            actions.push(action)?;
        }
    }
    Ok(actions)
}

/// The objects: constants first.
fn read_objects<'a>(
    alloc: Global,
    domain: &'a Tree,
    problem: &'a Tree,
) -> Result<Vec<Typed<'a>>, AllocError> {
    let mut objects = read_typed(alloc, section(domain, ":constants"))?;
    let more = read_typed(alloc, section(problem, ":objects"))?;
    for object in &more {
        objects.push(*object)?;
    }
    Ok(objects)
}

impl<'a> World<'a> {
    /// What the trees of a domain and a problem declare.
    pub(crate) fn new(
        alloc: Global,
        domain: &'a Tree,
        problem: &'a Tree,
    ) -> Result<World<'a>, AllocError> {
        let types = read_typed(alloc, section(domain, ":types"))?;
        let objects = read_objects(alloc, domain, problem)?;
        let actions = read_actions(alloc, domain)?;
        Ok(World {
            alloc,
            types,
            objects,
            actions,
            init: section(problem, ":init"),
            goal: match section(problem, ":goal") {
                [] => None,
                [goal, ..] => Some(goal),
            },
        })
    }

    /// Each way to go on from bindings by an object for one more variable.
    fn widen(
        &self,
        combos: &[Vec<Binding<'a>>],
        variable: Typed<'a>,
    ) -> Result<Vec<Vec<Binding<'a>>>, AllocError> {
        let mut wider = Vec::new(self.alloc);
        for combo in combos {
            for object in &self.objects {
                if fits(&self.types, *object, variable.kind) {
                    let name = object.name;
                    wider.push(with_one(self.alloc, combo, variable.name, name)?)?;
                }
            }
        }
        Ok(wider)
    }

    /// The bindings under which each binding of the variables of a typed list goes on from others:
    /// the first variable slowest.
    pub(crate) fn each_binding(
        &self,
        known: &[Binding<'a>],
        variables: &'a [Tree],
    ) -> Result<Vec<Vec<Binding<'a>>>, AllocError> {
        let mut combos = Vec::new(self.alloc);
        combos.push(known.to_vec(self.alloc)?)?;
        let names = read_typed(self.alloc, variables)?;
        for variable in &names {
            combos = self.widen(&combos, *variable)?;
        }
        Ok(combos)
    }

    /// The bindings under which the variables of a typed list stay variables.
    pub(crate) fn hidden(
        &self,
        known: &[Binding<'a>],
        variables: &'a [Tree],
    ) -> Result<Vec<Binding<'a>>, AllocError> {
        let mut all = known.to_vec(self.alloc)?;
        let names = read_typed(self.alloc, variables)?;
        for variable in &names {
            let name = variable.name;
            all.push(Binding {
                variable: name,
                object: name,
            })?;
        }
        Ok(all)
    }
}

/// Bindings, and one more.
fn with_one<'a>(
    alloc: Global,
    known: &[Binding<'a>],
    variable: &'a str,
    object: &'a str,
) -> Result<Vec<Binding<'a>>, AllocError> {
    let mut all = known.to_vec(alloc)?;
    all.push(Binding { variable, object })?;
    Ok(all)
}
