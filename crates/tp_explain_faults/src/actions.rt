//! What is wrong with the words of a step: they are those of no action.

use crate::steps::{StepLine, Word};
use std::alloc::AllocError;
use tp_explain_syntax::{
    Declared, Kind, Types, World, declarations_of, find_named, first_misfit, is_action,
    parameters_in, put_no_name, put_takes, typed_items,
};
use tp_explain_text::{At, Page, Source, Tree, error_at, put};

/// The members of the section that declares an action of a name.
pub fn action_named<'t>(world: &World<'t>, name: &str) -> Option<&'t [Tree]> {
    let sections = world.domain.tree.items();
    let found = sections.iter().find(|tree| match tree.items() {
        [_, own, ..] => is_action(tree.items()) && own.is(name),
        _ => false,
    });
    Some(found?.items())
}

/// Whether an action lasts.
pub fn is_durative(action: &[Tree]) -> bool {
    match action {
        [head, ..] => head.is(":durative-action"),
        [] => false,
    }
}

/// Puts where an action is declared.
fn put_action_here(page: &mut Page, world: &World<'_>, action: &[Tree]) {
    if let [_, name, ..] = action {
        put!(page; "{}note: `{name}` is declared here\n", At(world.domain.source, name.place()));
    }
}

/// Puts that a word of a step names nothing of a kind.
fn put_no_word(
    page: &mut Page,
    world: &World<'_>,
    plan: Source<'_>,
    kind: Kind,
    word: &Word<'_>,
) -> Result<(), AllocError> {
    let names = declarations_of(page.alloc(), world, kind)?;
    let lists = kind == Kind::Action;
    put_no_name(
        page,
        world,
        plan,
        kind,
        names.as_slice(),
        word.text,
        word.at,
        lists,
    )
}

/// Puts what is wrong with the arguments of a step of an action: in this order their number, each
/// object's name, each object's type.
fn put_arguments<'t>(
    page: &mut Page,
    world: &World<'t>,
    plan: Source<'_>,
    action: &'t [Tree],
    name: &Word<'_>,
    words: &[Word<'_>],
) -> Result<(), AllocError> {
    let alloc = page.alloc();
    let parameters = typed_items(alloc, parameters_in(action), false)?;
    if parameters.len() != words.len() {
        put_takes(
            page,
            plan,
            name.at,
            name.text,
            parameters.len(),
            words.len(),
        );
        put_action_here(page, world, action);
        return Ok(());
    }
    let objects = declarations_of(alloc, world, Kind::Object)?;
    let mut arguments: Vec<Option<Declared<'t>>> = Vec::new(alloc);
    for word in words {
        let object = find_named(objects.as_slice(), word.text);
        if object.is_none() {
            return put_no_word(page, world, plan, Kind::Object, word);
        }
        arguments.push(object)?;
    }
    let types = Types::new(alloc, world)?;
    let found = first_misfit(&types, arguments.as_slice(), parameters.as_slice());
    if let Some((number, argument, parameter)) = found {
        let at = words
            .get(number.saturating_sub(1))
            .map_or(0, |word| word.at);
        error_at!(page, plan, at;
            "argument {number} of `{}` is of type {argument}, expected {parameter}", name.text);
        put_action_here(page, world, action);
    }
    Ok(())
}

/// Puts what is wrong with the words of a step, which are those of no action.
pub fn put_no_action(
    page: &mut Page,
    world: &World<'_>,
    plan: Source<'_>,
    step: &StepLine<'_>,
) -> Result<(), AllocError> {
    let Some((name, words)) = step.words.as_slice().split_first() else {
        return Ok(());
    };
    match action_named(world, name.text) {
        Some(action) => put_arguments(page, world, plan, action, name, words),
        None => put_no_word(page, world, plan, Kind::Action, name),
    }
}
