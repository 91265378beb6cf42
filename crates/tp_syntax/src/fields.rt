//! The fields of an action.

ghost use Rattle.std.specs.Prelude.{◌≡◌, map, option_map};
ghost use Rattle.tp_text.specs.Trees.{shape_of};
ghost use Rattle.tp_syntax_ast.specs.Actions.{field, is_field_of, fields_of};
ghost use Rattle.tp_syntax.specs.Fields.{field_view, key_at, are_fields_of, checked_fields};
ghost use Rattle.tp_syntax_ast.specs.Terms.{shapes};
ghost use Rattle.tp_syntax_ast.specs.Gives.{Gives};

use crate::keyed::{ItemKind, Keyed, find, repeated};
use std::alloc::Global;
use tp_syntax_ast::{Key, SyntaxFault, key_of};
use tp_syntax_scope::place;
use tp_text::Tree;

/// A field: a word and its value, in the list of an action.
pub type Field<'t, 'a> = Keyed<Key, &'t Tree<'a>>;

impl ItemKind for Key {
    ghost use Rattle.std.specs.Prelude.{false};
    ghost use Rattle.tp_syntax_ast.specs.Actions.{key_number};

    ghost number = { key_number };

    ghost may_repeat = { λ _. false };

    fn number(self) -> u8 {
        match self {
            Key::Parameters => 0,
            Key::Precondition => 1,
            Key::Duration => 2,
            Key::Condition => 3,
            Key::Effect => 4,
        }
    }

    fn may_repeat(self) -> bool {
        false
    }
}

#[tactic(auto, unfolding(crate::specs::Fields::key_at))]
fn key_at(tree: &Tree, at: u32) -> Result<Key, SyntaxFault>
    ensures { Gives (λ k. k) result (key_at (shape_of tree.now)) }
{
    match tree {
        Tree::Word(token) => match key_of(token.text) {
            Some(key) => Ok(key),
            None => Err(SyntaxFault::Shape(at)),
        },
        Tree::List { .. } => Err(SyntaxFault::Shape(at)),
    }
}

fn fields_of<'t, 'a>(
    alloc: Global,
    trees: &'t [Tree<'a>],
    at: u32,
) -> Result<Vec<Field<'t, 'a>>, SyntaxFault>
    ensures { Gives (λ v. map field_view v.items) result (fields_of (shapes trees.now)) }
{
    let mut fields = Vec::new(alloc);
    let mut rest = trees;
    'fields: while let [word, others @ ..] = rest {
        let kind = key_at(word, at)?;
        let [body, more @ ..] = others else {
            return Err(SyntaxFault::Shape(at));
        };
        let word_at = place(word);
        fields.push(Keyed {
            kind,
            at,
            word_at,
            body,
        })?;
        rest = more;
    }
    Ok(fields)
}

/// The first field of a key.
pub fn find_field<'t, 'a>(key: Key, fields: &[Field<'t, 'a>]) -> Option<Field<'t, 'a>>
    ensures { option_map (λ f. shape_of f.body.now) result
        ≡ field key (map field_view fields.now) }
{
    find(key, fields)
}

fn is_field_of(lasts: bool, key: Key) -> bool
    ensures { result ≡ is_field_of lasts key }
{
    match key {
        Key::Parameters | Key::Effect => true,
        Key::Precondition => !lasts,
        Key::Duration | Key::Condition => lasts,
    }
}

fn are_fields_of(lasts: bool, fields: &[Field]) -> bool
    ensures { result ≡ are_fields_of lasts (map field_view fields.now) }
{
    for field in fields {
        if !is_field_of(lasts, field.kind) {
            return false;
        }
    }
    true
}

/// The fields of an action, or of a durative one, each at most once.
#[tactic(auto, using(crate::proofs::OnFields::fields_once))]
pub fn read_fields<'t, 'a>(
    alloc: Global,
    lasts: bool,
    trees: &'t [Tree<'a>],
    at: u32,
) -> Result<Vec<Field<'t, 'a>>, SyntaxFault>
    ensures { Gives (λ v. map field_view v.items) result (checked_fields lasts (shapes trees.now)) }
{
    let fields = fields_of(alloc, trees, at)?;
    if let Some(second) = repeated(&fields) {
        return Err(SyntaxFault::Twice(second.word_at));
    }
    if !are_fields_of(lasts, &fields) {
        return Err(SyntaxFault::Shape(at));
    }
    Ok(fields)
}
