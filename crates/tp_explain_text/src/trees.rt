//! Parse trees that own their words: what is lent of one has the tree's own lifetime alone.

use crate::places::Source;
use std::alloc::{AllocError, Global};
use std::fmt;
use tp_text::{Span, TextFault};

/// A word or a list, with its place in the text.
#[derive(Drop)]
pub enum Tree {
    Word { text: String, span: Span },
    List { items: Vec<Tree>, span: Span },
}

/// A text that was read: its file, and its tree.
#[derive(Clone, Copy)]
pub struct Text<'t> {
    pub source: Source<'t>,
    pub tree: &'t Tree,
}

/// What a tree of a text spells.
fn owned(alloc: Global, tree: &tp_text::Tree<'_>) -> Result<Tree, AllocError> {
    match tree {
        tp_text::Tree::Word(token) => {
            let text = String::from_str(alloc, token.text)?;
            let span = token.span;
            Ok(Tree::Word { text, span })
        }
        tp_text::Tree::List { items, span } => {
            let span = *span;
            let mut all = Vec::new(alloc);
            for item in items {
                all.push(owned(alloc, item)?)?;
            }
            Ok(Tree::List { items: all, span })
        }
    }
}

/// The tree that a text spells.
pub fn read_tree(alloc: Global, text: &str) -> Result<Tree, TextFault> {
    match tp_text::read_tree(alloc, text) {
        Ok(tree) => Ok(owned(alloc, &tree)?),
        Err(fault) => Err(fault),
    }
}

impl Tree {
    /// From where to where it stands in its text.
    pub fn span(&self) -> Span {
        match self {
            Tree::Word { span, .. } | Tree::List { span, .. } => *span,
        }
    }

    /// Where it begins.
    pub fn place(&self) -> usize {
        self.span().start as usize
    }

    /// The word that it is, or nothing.
    pub fn word<'t>(&'t self) -> &'t str {
        match self {
            Tree::Word { text, .. } => text.as_str(),
            Tree::List { .. } => "",
        }
    }

    /// Its members. A word has none.
    pub fn items<'t>(&'t self) -> &'t [Tree] {
        match self {
            Tree::Word { .. } => &[],
            Tree::List { items, .. } => items.as_slice(),
        }
    }

    /// The word that it begins with, or nothing.
    pub fn head<'t>(&'t self) -> &'t str {
        head_of(self.items())
    }

    /// Its members behind the first.
    pub fn rest<'t>(&'t self) -> &'t [Tree] {
        rest_of(self.items())
    }

    /// Whether it is a list.
    pub fn is_list(&self) -> bool {
        matches!(self, Tree::List { .. })
    }

    /// Whether it is this word, in any case.
    pub fn is(&self, name: &str) -> bool {
        self.word().eq_ignore_ascii_case(name)
    }
}

/// The word that members begin with, or nothing.
pub fn head_of<'t>(items: &'t [Tree]) -> &'t str {
    match items.first() {
        Some(first) => first.word(),
        None => "",
    }
}

/// The members behind the first.
pub fn rest_of<'t>(items: &'t [Tree]) -> &'t [Tree] {
    items.get(1..).unwrap_or(&[])
}

/// A list by its head: `(HEAD ..)`, `(HEAD)`, `(..)` or `()`.
#[derive(Clone, Copy)]
pub struct Brief<'t>(pub &'t [Tree]);

impl fmt::Display for Brief<'_> {
    fn fmt<W: fmt::Write>(&self, f: &mut fmt::Formatter<W>) -> fmt::Result {
        match self.0 {
            [] => write!(f, "()"),
            [head @ Tree::Word { .. }] => write!(f, "({})", head.word()),
            [head @ Tree::Word { .. }, ..] => write!(f, "({} ..)", head.word()),
            _ => write!(f, "(..)"),
        }
    }
}

/// A word, or a list by its head.
impl fmt::Display for Tree {
    fn fmt<W: fmt::Write>(&self, f: &mut fmt::Formatter<W>) -> fmt::Result {
        match self {
            Tree::Word { text, .. } => write!(f, "{text}"),
            Tree::List { items, .. } => write!(f, "{}", Brief(items.as_slice())),
        }
    }
}

/// Words and lists by their heads, in parentheses.
#[derive(Clone, Copy)]
pub struct Words<'t>(pub &'t [Tree]);

impl fmt::Display for Words<'_> {
    fn fmt<W: fmt::Write>(&self, f: &mut fmt::Formatter<W>) -> fmt::Result {
        write!(f, "(")?;
        for (number, tree) in self.0.iter().enumerate() {
            write!(f, "{}{tree}", if number == 0 { "" } else { " " })?;
        }
        write!(f, ")")
    }
}
