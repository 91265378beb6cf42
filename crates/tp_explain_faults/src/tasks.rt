//! Tasks that are too large, and numbers that are too great.

use std::alloc::{AllocError, Global};
use tp_explain_syntax::{
    Declared, Kind, Types, World, declarations_of, fits, is_action, parameters_in, section_of,
    typed_items,
};
use tp_explain_text::{Page, Source, Text, Tree, error_at, put};
use tp_text::read_whole;

/// Objects that were declared together, as one of them is, and how many they are.
#[derive(Clone, Copy)]
struct Row<'t> {
    first: Declared<'t>,
    count: u64,
}

/// Where the types of an object stand.
fn types_place(object: &Declared<'_>) -> Option<(bool, usize)> {
    object.types.map(|tree| (object.in_problem, tree.place()))
}

/// The objects in rows of the same types.
fn rows_of<'t>(alloc: Global, objects: &[Declared<'t>]) -> Result<Vec<Row<'t>>, AllocError> {
    let mut rows: Vec<Row<'t>> = Vec::new(alloc);
    for object in objects {
        match rows.last_mut() {
            Some(row) if types_place(&row.first) == types_place(object) => {
                row.count = row.count.saturating_add(1);
            }
            _ => rows.push(Row {
                first: *object,
                count: 1,
            })?,
        }
    }
    Ok(rows)
}

/// How many objects may stand for a parameter.
fn count_for<'t>(types: &Types<'t>, rows: &[Row<'t>], parameter: &Declared<'t>) -> u64 {
    let mut count = 0u64;
    for row in rows {
        if fits(types, row.first.types, parameter.types) {
            count = count.saturating_add(row.count);
        }
    }
    count
}

/// The product of some counts.
fn product(counts: &[u64]) -> u64 {
    let mut many = 1u64;
    for count in counts {
        many = many.saturating_mul(*count);
    }
    many
}

/// Something with parameters, its name, and how many objects may stand for each of them.
#[derive(Drop)]
struct Counted<'t> {
    name: &'t str,
    at: usize,
    counts: Vec<u64>,
}

/// The name and the parameters of a predicate, a function or an action, as they are written.
fn signature_of<'t>(kind: Kind, items: &'t [Tree]) -> Option<(&'t Tree, &'t [Tree])> {
    if kind != Kind::Action {
        return Some((items.first()?, items.get(1..)?));
    }
    if is_action(items) {
        Some((items.get(1)?, parameters_in(items)))
    } else {
        None
    }
}

/// The counts of a predicate, a function or an action.
fn counts_of<'t>(
    alloc: Global,
    name: &'t Tree,
    parameters: &'t [Tree],
    types: &Types<'t>,
    rows: &[Row<'t>],
) -> Result<Counted<'t>, AllocError> {
    let mut counts = Vec::new(alloc);
    for parameter in &typed_items(alloc, parameters, false)? {
        counts.push(count_for(types, rows, parameter))?;
    }
    Ok(Counted {
        name: name.word(),
        at: name.place(),
        counts,
    })
}

/// What has the most bindings, the first of several.
fn most_of<'t>(
    alloc: Global,
    world: &World<'t>,
    kind: Kind,
) -> Result<Option<Counted<'t>>, AllocError> {
    let types = Types::new(alloc, world)?;
    let objects = declarations_of(alloc, world, Kind::Object)?;
    let rows = rows_of(alloc, objects.as_slice())?;
    let lists = match kind {
        Kind::Predicate => section_of(&world.domain, ":predicates"),
        Kind::Function => section_of(&world.domain, ":functions"),
        _ => world.domain.tree.items(),
    };
    let mut most = None;
    let mut many = 0u64;
    for tree in lists {
        if let Some((name, parameters)) = signature_of(kind, tree.items()) {
            let found = counts_of(alloc, name, parameters, &types, rows.as_slice())?;
            let count = product(found.counts.as_slice());
            if count > many {
                many = count;
                most = Some(found);
            }
        }
    }
    Ok(most)
}

/// Puts what there are too many of.
fn put_most(page: &mut Page, source: Source<'_>, most: &Counted<'_>, what: &str) {
    error_at!(page, source, most.at; "the task has more than 65535 {what}");
    put!(page; "note: `{}` alone may have {}", most.name, product(most.counts.as_slice()));
    for (number, count) in most.counts.iter().enumerate() {
        put!(page; "{}{count}", if number == 0 { " (" } else { " x " });
    }
    page.put(if most.counts.is_empty() { "\n" } else { ")\n" });
    page.put("help: fewer parameters, or narrower types\n");
}

/// The most objects of a task.
const MOST_OBJECTS: usize = 65_535;

/// Puts why a task has too many objects, atoms, fluents or actions.
pub fn put_too_many(page: &mut Page, world: &World<'_>, what: &str) -> Result<(), AllocError> {
    let (kind, words) = match what.as_bytes() {
        b"atoms" => (Kind::Predicate, "atoms"),
        b"fluents" => (Kind::Function, "fluents"),
        b"actions" => (Kind::Action, "ground actions"),
        _ => {
            let objects = declarations_of(page.alloc(), world, Kind::Object)?;
            if let Some(object) = objects.get(MOST_OBJECTS) {
                let source = world.source_of(object);
                error_at!(page, source, object.at; "the task has more than 65535 objects");
            }
            return Ok(());
        }
    };
    if let Some(most) = most_of(page.alloc(), world, kind)? {
        put_most(page, world.domain.source, &most, words);
    }
    Ok(())
}

/// The greatest number of a task.
const GREATEST: u64 = 1_000_000_000_000_000;

/// Whether a word is a number past the greatest one.
fn is_great(word: &str) -> bool {
    match read_whole(word) {
        Some(number) => number.unsigned_abs() > GREATEST,
        None => false,
    }
}

/// The first word of a tree that is a number past the greatest one.
fn first_great<'t>(tree: &'t Tree) -> Option<&'t Tree> {
    match tree {
        Tree::Word { text, .. } => {
            if is_great(text.as_str()) {
                return Some(tree);
            }
            None
        }
        Tree::List { items, .. } => {
            for item in items {
                if let Some(word) = first_great(item) {
                    return Some(word);
                }
            }
            None
        }
    }
}

/// The first number that is too great in the sections of a text; `:metric` and `:length` are read
/// over.
fn first_in<'t>(text: &Text<'t>) -> Option<&'t Tree> {
    for section in text.tree.items() {
        let Some(head) = section.items().first() else {
            continue;
        };
        if !head.is(":metric") && !head.is(":length") {
            if let Some(word) = first_great(section) {
                return Some(word);
            }
        }
    }
    None
}

/// Puts the first number that is too great, of the domain before the problem.
pub fn put_range(page: &mut Page, world: &World<'_>) {
    for text in [Some(world.domain), world.problem] {
        let Some(text) = text else {
            return;
        };
        if let Some(word) = first_in(&text) {
            error_at!(page, text.source, word.place();
                "{word} is past 1000000000000000, the greatest number");
            page.put("help: choose a greater unit\n");
            return;
        }
    }
}
