//! What may be wrong with a list, and how it is worded.

use std::fmt;
use tp_explain_text::{Brief, Nearest, Page, Source, Tree, Words, error_at, put};

/// What was found where something else was wanted.
#[derive(Clone, Copy)]
pub enum Found<'t> {
    Tree(&'t Tree),
    List(&'t [Tree]),
    Nothing,
}

impl fmt::Display for Found<'_> {
    fn fmt<W: fmt::Write>(&self, f: &mut fmt::Formatter<W>) -> fmt::Result {
        match *self {
            Found::Tree(tree) => write!(f, "`{tree}`"),
            Found::List(items) => write!(f, "`{}`", Brief(items)),
            Found::Nothing => write!(f, "nothing"),
        }
    }
}

/// What is wrong.
#[derive(Clone, Copy)]
pub enum What<'t> {
    /// A form was wanted, and something else was found.
    Expected(&'static str, Found<'t>),
    /// The same, and what the form has to stand behind.
    ExpectedBehind(&'static str, &'t [Tree], Found<'t>),
    NoSection(&'t str),
    /// No field of an action, or of a durative one.
    NoField(&'t str, bool),
    NoName(bool),
    NoDuration(&'t str),
    NoValue(&'t str),
    NoGoal,
    /// An operator takes so many of something, and has another number of them.
    Takes(&'t str, &'static str, usize),
    /// `?duration` as a variable that is declared.
    Duration,
}

impl fmt::Display for What<'_> {
    fn fmt<W: fmt::Write>(&self, f: &mut fmt::Formatter<W>) -> fmt::Result {
        match *self {
            What::Expected(form, found) => write!(f, "expected {form}, found {found}"),
            What::ExpectedBehind(form, before, found) => {
                write!(
                    f,
                    "expected {form} behind `{}`, found {found}",
                    Words(before)
                )
            }
            What::NoSection(word) => write!(f, "no section is named `{word}`"),
            What::NoField(word, true) => write!(f, "`{word}` is no field of a durative action"),
            What::NoField(word, false) => write!(f, "`{word}` is no field of an action"),
            What::NoName(true) => write!(f, "the durative action has no name"),
            What::NoName(false) => write!(f, "the action has no name"),
            What::NoDuration(name) => write!(f, "the durative action `{name}` has no `:duration`"),
            What::NoValue(word) => write!(f, "`{word}` has no value"),
            What::NoGoal => write!(f, "the problem has no `(:goal ..)`"),
            What::Takes(operator, wanted, count) => {
                write!(f, "`{operator}` takes {wanted}, not {count}")
            }
            What::Duration => write!(f, "`?duration` is no variable that can be declared"),
        }
    }
}

/// What can be written in its place.
#[derive(Clone, Copy)]
pub enum Help<'t> {
    Nothing,
    /// A fixed text.
    Text(&'static str),
    /// A word in parentheses.
    InList(&'t str),
    /// A word behind a sign.
    Behind(&'static str, &'t str),
    /// A list at a time: of a condition or of an effect.
    When(&'t [Tree], bool),
    /// The domain of a problem.
    OfDomain(&'t str),
    /// The nearest of these words.
    Near(&'t str, &'static [&'static str]),
}

/// What is wrong at a place.
#[derive(Clone, Copy)]
pub struct Reason<'t> {
    pub at: usize,
    pub what: What<'t>,
    pub note: &'static str,
    pub help: Help<'t>,
}

impl<'t> Reason<'t> {
    /// What is wrong, and nothing more.
    pub fn new(at: usize, what: What<'t>) -> Reason<'t> {
        Reason {
            at,
            what,
            note: "",
            help: Help::Nothing,
        }
    }

    /// A form was wanted, and a tree was found.
    pub fn expected(form: &'static str, tree: &'t Tree) -> Reason<'t> {
        let found = Found::Tree(tree);
        Reason::new(tree.place(), What::Expected(form, found))
    }

    /// A form was wanted, and the list that begins there was found.
    pub fn expected_list(at: usize, form: &'static str, items: &'t [Tree]) -> Reason<'t> {
        Reason::new(at, What::Expected(form, Found::List(items)))
    }

    /// The same reason with a note.
    pub fn with_note(self, note: &'static str) -> Reason<'t> {
        Reason { note, ..self }
    }

    /// The same reason with a help.
    pub fn with_help(self, help: Help<'t>) -> Reason<'t> {
        Reason { help, ..self }
    }
}

/// What a name is.
pub const NAME_NOTE: &str = "a name is a letter, and then letters, digits, `-` and `_`";

/// The fields of actions and of durative ones.
pub static FIELDS: [&str; 3] = [":parameters", ":precondition", ":effect"];

pub static DURATIVE_FIELDS: [&str; 4] = [":parameters", ":duration", ":condition", ":effect"];

/// Puts the nearest of some words.
fn put_near(page: &mut Page, word: &str, names: &'static [&'static str]) {
    let mut nearest = Nearest::to(page.alloc(), word);
    let mut found = None;
    for name in names {
        if nearest.finds(name) {
            found = Some(*name);
        }
    }
    if let Some(name) = found {
        put!(page; "help: did you mean `{name}`?\n");
    }
}

/// Puts what can be written instead.
fn put_help(page: &mut Page, help: Help<'_>) {
    match help {
        Help::Nothing => {}
        Help::Near(word, names) => put_near(page, word, names),
        Help::When(items, true) => {
            put!(page; "help: say when: `(at start {})`, or the other\n", Brief(items));
        }
        Help::When(items, false) => {
            put!(page; "help: say when: `(at start {})`, or one of the others\n", Brief(items));
        }
        Help::Text(text) => put!(page; "help: {text}\n"),
        Help::InList(word) => put!(page; "help: write `({word})`\n"),
        Help::Behind(sign, word) => put!(page; "help: write `{sign}{word}`\n"),
        Help::OfDomain(name) => put!(page; "help: write `(:domain {name})`\n"),
    }
}

/// Puts what is wrong at a place of a text.
pub fn put_reason(page: &mut Page, source: Source<'_>, reason: &Reason<'_>) {
    error_at!(page, source, reason.at; "{}", reason.what);
    if let What::NoField(_, lasts) = reason.what {
        page.put("note: its fields are ");
        page.put(if lasts {
            "`:parameters`, `:duration`, `:condition`, `:effect`\n"
        } else {
            "`:parameters`, `:precondition`, `:effect`\n"
        });
    }
    if !reason.note.is_empty() {
        put!(page; "note: {}\n", reason.note);
    }
    put_help(page, reason.help);
}
