//! What is wrong with what stands a second time.

use crate::declarations::{
    Declared, Fault, Kind, declarations_of, find_named, typed_items, word_at,
};
use std::alloc::{AllocError, Global};
use std::fmt;
use tp_explain_text::{At, Lower, Page, Role, Source, Step, Symbol, Tree, error_at, head_of, put};
use tp_syntax_ast::{ProblemSection, Section};

/// Puts where the first one stands.
fn put_first(page: &mut Page, source: Source<'_>, at: usize) {
    put!(page; "{}note: the first is here\n", At(source, at));
}

/// Puts that a section stands twice.
fn put_section(page: &mut Page, fault: &Fault<'_>, outer: &Step<'_>, word: &str) {
    let source = fault.text.source;
    error_at!(page, source, fault.at; "the section `{word}` stands twice");
    let first = outer
        .items
        .iter()
        .find(|tree| tree.head().eq_ignore_ascii_case(word));
    if let Some(head) = first.and_then(|tree| tree.items().first()) {
        put_first(page, source, head.place());
    }
}

/// Puts that a field of an action stands twice.
fn put_field(page: &mut Page, fault: &Fault<'_>, step: &Step<'_>, word: &str) {
    let (source, name) = (fault.text.source, word_at(step.items, 1));
    error_at!(page, source, fault.at; "the field `{word}` of `{name}` stands twice");
    if let Some(first) = step.items.iter().find(|tree| tree.is(word)) {
        put_first(page, source, first.place());
    }
}

/// Puts that a name is declared twice.
fn put_name<'t>(
    page: &mut Page,
    fault: &Fault<'t>,
    step: &Step<'t>,
    word: &str,
) -> Result<(), AllocError> {
    let kind = kind_in(step);
    let names = names_among(page.alloc(), fault, kind, step)?;
    error_at!(page, fault.text.source, fault.at; "the {kind} `{word}` is declared twice");
    if let Some(first) = find_named(names.as_slice(), word) {
        put_first(page, fault.world.source_of(&first), first.at);
    }
    Ok(())
}

/// What the second name in a list is declared as.
fn kind_in(step: &Step<'_>) -> Kind {
    match step.role {
        Role::Section(Section::Action | Section::DurativeAction) => Kind::Action,
        Role::Section(Section::Types) => Kind::Type,
        Role::Section(_) | Role::ProblemSection(_) => Kind::Object,
        Role::Signature(Symbol::Predicate) if step.child == 0 => Kind::Predicate,
        Role::Signature(Symbol::Function) if step.child == 0 => Kind::Function,
        _ => Kind::Variable,
    }
}

/// The names among which one stands twice.
fn names_among<'t>(
    alloc: Global,
    fault: &Fault<'t>,
    kind: Kind,
    step: &Step<'t>,
) -> Result<Vec<Declared<'t>>, AllocError> {
    if kind != Kind::Variable {
        return declarations_of(alloc, &fault.world, kind);
    }
    let skipped = if matches!(step.role, Role::Signature(_)) {
        1
    } else {
        0
    };
    typed_items(
        alloc,
        step.items.get(skipped..).unwrap_or(&[]),
        fault.in_problem,
    )
}

/// Puts what is wrong with a word that stands a second time.
fn put_word<'t>(page: &mut Page, fault: &Fault<'t>, path: &[Step<'t>]) -> Result<(), AllocError> {
    let Some((step, outer)) = path.split_last() else {
        return Ok(());
    };
    let word = word_at(step.items, step.child);
    match (step.role, outer.last()) {
        (Role::Section(_) | Role::ProblemSection(_), Some(outer)) if step.child == 0 => {
            put_section(page, fault, outer, word);
            Ok(())
        }
        _ if step.child > 1 && kind_in(step) == Kind::Action => {
            put_field(page, fault, step, word);
            Ok(())
        }
        _ => put_name(page, fault, step, word),
    }
}

/// What an entry of `:init` says of an atom or a fluent.
#[derive(Clone, Copy, PartialEq, Eq)]
enum Said {
    Holds,
    Fails,
    Value,
}

/// An entry of `:init`: what it says, of what, and where that stands.
#[derive(Clone, Copy)]
struct Entry<'t> {
    said: Said,
    atom: &'t [Tree],
    at: usize,
}

/// What an entry of `:init` says.
fn entry_of<'t>(tree: &'t Tree) -> Entry<'t> {
    let said = match tree.head() {
        "=" => Said::Value,
        word if word.eq_ignore_ascii_case("not") => Said::Fails,
        _ => Said::Holds,
    };
    let inner = match tree.rest().first() {
        Some(inner) if said != Said::Holds => inner,
        _ => tree,
    };
    Entry {
        said,
        atom: inner.items(),
        at: inner.place(),
    }
}

/// Whether two lists of words are the same, in any case.
fn same_words(a: &[Tree], b: &[Tree]) -> bool {
    a.len() == b.len()
        && a.iter().zip(b).all(|(one, other)| !one.is_list()
            && !other.is_list()
            && one.is(other.word()))
}

/// Whether an entry clashes with one before it.
fn clashes(before: &Entry<'_>, entry: &Entry<'_>) -> bool {
    let differ = before.said != entry.said;
    let valued = before.said == Said::Value || entry.said == Said::Value;
    same_words(before.atom, entry.atom) && differ != valued
}

/// An atom or a fluent in small letters.
#[derive(Clone, Copy)]
struct Atom<'t>(&'t [Tree]);

impl fmt::Display for Atom<'_> {
    fn fmt<W: fmt::Write>(&self, f: &mut fmt::Formatter<W>) -> fmt::Result {
        write!(f, "(")?;
        for (number, tree) in self.0.iter().enumerate() {
            write!(
                f,
                "{}{}",
                if number == 0 { "" } else { " " },
                Lower(tree.word())
            )?;
        }
        write!(f, ")")
    }
}

/// Puts that an entry of `:init` clashes with one before it.
fn put_entry(page: &mut Page, source: Source<'_>, section: &Step<'_>) {
    let Some(tree) = section.items.get(section.child) else {
        return;
    };
    let entry = entry_of(tree);
    let atom = Atom(entry.atom);
    if entry.said == Said::Value {
        error_at!(page, source, entry.at; "`:init` gives {atom} a second value");
    } else {
        error_at!(page, source, entry.at; "`:init` has {atom} both with and without `not`");
    }
    for tree in section.items.iter().take(section.child).skip(1) {
        let before = entry_of(tree);
        if clashes(&before, &entry) {
            put_first(page, source, before.at);
            return;
        }
    }
}

/// Puts what is wrong with what stands a second time at a place of a text.
pub fn put_twice(page: &mut Page, fault: &Fault<'_>) -> Result<(), AllocError> {
    let path = fault.path(page.alloc())?;
    let entries = path.as_slice().iter().find(|step| {
        step.role == Role::ProblemSection(ProblemSection::Init) && step.child > 0
    });
    match entries {
        Some(section) => {
            put_entry(page, fault.text.source, section);
            Ok(())
        }
        None => put_word(page, fault, path.as_slice()),
    }
}
