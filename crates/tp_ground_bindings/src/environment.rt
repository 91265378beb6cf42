//! What variables stand for.

ghost use Rattle.std.specs.Prelude.{◌≡◌, option_map, map, IfOk};
ghost use Rattle.tp_syntax_ast.specs.Symbols.{typed_view};
ghost use Rattle.tp_syntax_ast.specs.Terms.{variable, term_view, atom_view};
ghost use Rattle.tp_ground_bindings.specs.Bindings.{bound, object_among, object_for, words_in};
ghost use Rattle.tp_ground_bindings.specs.Views.{env_view};

use smallvec::SmallVec;
use std::alloc::{AllocError, Global};
use tp_syntax_ast::{Atom, Term, Typed};

/// What variables stand for. An inner one hides an outer one of the same name.
#[derive(Clone, Copy)]
pub enum Env<'e, 'a> {
    Empty,
    /// Variables, the objects that they stand for, and what those outside stand for.
    Inner(&'e [Typed], &'e [&'a str], &'e Env<'e, 'a>),
}

// The object that one of some variables stands for, if each stands for the object at its place.
fn object_among<'a>(variables: &[Typed], objects: &[&'a str], name: &str) -> Option<&'a str>
    ensures { option_map (λ o. o.now) result ≡ object_among
        (bound (map typed_view variables.now) (map (λ o. o.now) objects.now)) name.now }
{
    let mut left = objects;
    for variable in variables {
        let [object, others @ ..] = left else {
            return None;
        };
        if variable.name.as_str() == name {
            return Some(*object);
        }
        left = others;
    }
    None
}

// The object that a variable stands for. One that stands for none is left as it is.
fn object_under<'a>(env: &Env<'_, 'a>, name: &'a str) -> &'a str
    ensures { result.now ≡ object_for (env_view env.now) (variable name.now) }
{
    match env {
        Env::Empty => name,
        Env::Inner(variables, objects, outer) => match object_among(variables, objects, name) {
            Some(object) => object,
            None => object_under(outer, name),
        },
    }
}

/// The object for an argument. A variable that stands for none is left as it is.
pub fn object_for<'a>(env: &Env<'_, 'a>, argument: &'a Term) -> &'a str
    ensures { result.now ≡ object_for (env_view env.now) (term_view argument.now) }
{
    match argument {
        Term::Object(name) => name.as_str(),
        Term::Variable(name) => object_under(env, name.as_str()),
    }
}

/// The words of an atom or a fluent.
pub fn words_in<'a>(
    alloc: Global,
    env: &Env<'_, 'a>,
    atom: &'a Atom,
) -> Result<SmallVec<&'a str, 4>, AllocError>
    ensures { IfOk result
        (λ v. map (λ w. w.now) v.items ≡ words_in (env_view env.now) (atom_view atom.now)) }
{
    let mut words = SmallVec::new(alloc);
    words.push(atom.name.as_str())?;
    for term in &atom.terms {
        words.push(object_for(env, term))?;
    }
    Ok(words)
}
