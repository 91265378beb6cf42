//! The nearest of the declared names to one that is not declared, or a list of them.

use crate::declarations::{Declared, Kind, World, declarations_of, find_named};
use std::alloc::{AllocError, Global};
use tp_explain_text::{At, Nearest, Page, Source, error_at, put};

/// The most names of a list.
const MOST: usize = 8;

/// The nearest of some names.
fn nearest_of<'t>(page: &Page, names: &[Declared<'t>], word: &str) -> Option<Declared<'t>> {
    let mut nearest = Nearest::to(page.alloc(), word);
    let mut found = None;
    for name in names {
        if nearest.finds(name.name) {
            found = Some(*name);
        }
    }
    found
}

/// Whether a name stands before a number among names.
fn stands_before(names: &[Declared<'_>], number: usize, word: &str) -> bool {
    names
        .iter()
        .take(number)
        .any(|name| name.name.eq_ignore_ascii_case(word))
}

/// Puts which names are declared, or in scope.
fn put_names(page: &mut Page, kind: Kind, names: &[Declared<'_>]) {
    if names.is_empty() {
        return;
    }
    if kind == Kind::Variable {
        page.put("note: variables in scope: ");
    } else {
        put!(page; "note: declared {kind}s: ");
    }
    let mut count = 0usize;
    for (number, name) in names.iter().enumerate() {
        if stands_before(names, number, name.name) {
            continue;
        }
        if count == MOST {
            page.put(" ..");
            break;
        }
        put!(page; "{}`{}`", if count == 0 { "" } else { ", " }, name.name);
        count = count.saturating_add(1);
    }
    page.put("\n");
}

/// Puts the nearest of some names that are declared as a kind; or, where there is none and it is
/// wished for, a list of them.
fn put_near<'t>(
    page: &mut Page,
    world: &World<'t>,
    kind: Kind,
    names: &[Declared<'t>],
    word: &str,
    lists: bool,
) {
    if let Some(name) = nearest_of(page, names, word) {
        put!(page; "{}help: did you mean `{}`, declared here?\n",
            At(world.source_of(&name), name.at), name.name);
    } else if kind == Kind::Type && Nearest::to(page.alloc(), word).finds("object") {
        page.put("help: did you mean `object`?\n");
    } else if lists {
        put_names(page, kind, names);
    }
}

/// What a word that is not declared as a kind is declared as instead.
fn other_kind<'t>(
    alloc: Global,
    world: &World<'t>,
    kind: Kind,
    word: &str,
) -> Result<Option<(Kind, Declared<'t>)>, AllocError> {
    for other in [Kind::Predicate, Kind::Function, Kind::Object, Kind::Type] {
        if other == kind {
            continue;
        }
        let names = declarations_of(alloc, world, other)?;
        if let Some(name) = find_named(names.as_slice(), word) {
            return Ok(Some((other, name)));
        }
    }
    Ok(None)
}

/// Puts that no name of a kind is this one, and the nearest that is or, if that is wished for, a
/// list; or that the name is of another kind.
pub fn put_no_name<'t>(
    page: &mut Page,
    world: &World<'t>,
    source: Source<'_>,
    kind: Kind,
    names: &[Declared<'t>],
    word: &str,
    at: usize,
    lists: bool,
) -> Result<(), AllocError> {
    if kind != Kind::Variable {
        if let Some((other, name)) = other_kind(page.alloc(), world, kind, word)? {
            let article = if other == Kind::Object { "an" } else { "a" };
            error_at!(page, source, at; "`{word}` is no {kind}, but {article} {other}");
            put!(page; "{}note: it is declared here\n", At(world.source_of(&name), name.at));
            return Ok(());
        }
    }
    let scope = if kind == Kind::Variable {
        " in scope"
    } else {
        ""
    };
    error_at!(page, source, at; "no {kind}{scope} is named `{word}`");
    put_near(page, world, kind, names, word, lists);
    Ok(())
}
