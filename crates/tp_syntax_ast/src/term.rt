//! Terms and atoms, and what words are names.

ghost use Rattle.std.specs.Prelude.{◌≡◌};
ghost use Rattle.std.specs.List.{list_all};
ghost use Rattle.tp_syntax_ast.specs.Terms.{is_inner, is_name};

/// An object by its name, or a variable.
#[derive(Debug, PartialEq, Eq, Hash, Drop)]
pub enum Term {
    Object(String),
    Variable(String),
}

/// A name with its arguments.
#[derive(Debug, PartialEq, Eq, Hash, Drop)]
pub struct Atom {
    pub name: String,
    pub terms: Vec<Term>,
}

fn all_inner(bytes: &[u8]) -> bool
    ensures { result ≡ list_all is_inner bytes.now }
{
    bytes.iter().all(|b| b.is_ascii_alphanumeric() || (*b == b'-' || *b == b'_'))
}

/// Whether a word is a name: a letter, and then letters, digits, '-' and '_'.
pub fn is_name(word: &[u8]) -> bool
    ensures { result ≡ is_name word.now }
{
    match word {
        [] => false,
        [first, rest @ ..] => first.is_ascii_alphabetic() && all_inner(rest),
    }
}
