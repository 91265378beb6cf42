//! Lists of a known length.

ghost use Rattle.std.specs.Prelude.{◌≡◌, option_map};
ghost use Rattle.tp_text.specs.Trees.{shape_of};
ghost use Rattle.tp_syntax_ast.specs.Terms.{shapes};
ghost use Rattle.tp_syntax_ast.specs.Lists.{only, both, first_of};

use tp_text::Tree;

/// The one tree that stands there.
#[tactic(auto, unfolding(tp_syntax_ast::specs::Lists::only))]
pub fn only<'t, 'a>(trees: &'t [Tree<'a>]) -> Option<&'t Tree<'a>>
    ensures { option_map (λ t. shape_of t.now) result ≡ only (shapes trees.now) }
{
    let [tree, more @ ..] = trees else {
        return None;
    };
    if more.is_empty() { Some(tree) } else { None }
}

/// The two trees that stand there.
#[tactic(auto, unfolding(tp_syntax_ast::specs::Lists::both))]
pub fn both<'t, 'a>(trees: &'t [Tree<'a>]) -> Option<(&'t Tree<'a>, &'t Tree<'a>)>
    ensures { option_map (λ p. (shape_of p.0.now, shape_of p.1.now)) result
        ≡ both (shapes trees.now) }
{
    let [first, rest @ ..] = trees else {
        return None;
    };
    let second = only(rest)?;
    Some((first, second))
}

/// The first tree, and those behind it.
#[tactic(auto, unfolding(tp_syntax_ast::specs::Lists::first_of))]
pub fn first_of<'t, 'a>(trees: &'t [Tree<'a>]) -> Option<(&'t Tree<'a>, &'t [Tree<'a>])>
    ensures { option_map (λ p. (shape_of p.0.now, shapes p.1.now)) result
        ≡ first_of (shapes trees.now) }
{
    let [tree, more @ ..] = trees else {
        return None;
    };
    Some((tree, more))
}
