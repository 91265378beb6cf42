//! Lists and words of parse trees.

use tp_explain_text::Tree;

/// What a list begins with.
#[derive(Clone, Copy, Debug, PartialEq, Eq)]
pub(crate) enum Head {
    And,
    Or,
    Not,
    Imply,
    Forall,
    Exists,
    At,
    Over,
    Equal,
    Less,
    AtMost,
    AtLeast,
    Greater,
    Plus,
    Minus,
    Times,
    Assign,
    Increase,
    Decrease,
    ScaleUp,
    Other,
}

/// The words that begin lists of the grammar.
const HEADS: [(&str, Head); 20] = [
    ("and", Head::And),
    ("or", Head::Or),
    ("not", Head::Not),
    ("imply", Head::Imply),
    ("forall", Head::Forall),
    ("exists", Head::Exists),
    ("at", Head::At),
    ("over", Head::Over),
    ("=", Head::Equal),
    ("<", Head::Less),
    ("<=", Head::AtMost),
    (">=", Head::AtLeast),
    (">", Head::Greater),
    ("+", Head::Plus),
    ("-", Head::Minus),
    ("*", Head::Times),
    ("assign", Head::Assign),
    ("increase", Head::Increase),
    ("decrease", Head::Decrease),
    ("scale-up", Head::ScaleUp),
];

/// What a word begins.
pub(crate) fn head_of_word(word: &str) -> Head {
    for (text, head) in &HEADS {
        if *text == word {
            return *head;
        }
    }
    Head::Other
}

/// Whether a tree is an object or a variable.
pub(crate) fn is_term(tree: &Tree) -> bool {
    match tree.word().as_bytes() {
        [] => false,
        [first, ..] => first.is_ascii_alphabetic() || *first == b'?',
    }
}

/// What stands behind the word of the first list of a list that begins with it.
pub(crate) fn section<'a>(tree: &'a Tree, word: &str) -> &'a [Tree] {
    match tree.items().iter().find(|item| item.head() == word) {
        Some(list) => list.rest(),
        None => &[],
    }
}

/// What stands behind a word of a list.
pub(crate) fn field<'a>(tree: &'a Tree, word: &str) -> Option<&'a Tree> {
    let place = tree.items().iter().position(|item| item.word() == word)?;
    tree.items().get(place.saturating_add(1))
}
