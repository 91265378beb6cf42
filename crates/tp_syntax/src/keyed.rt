//! Items that begin with a word of their kind, in any order: sections and fields.

ghost use Rattle.std.specs.Prelude.{◌≡◌, ℕ, List, Bool, Option, map, not, option_map};
ghost use Rattle.std.specs.Option.{is_some};
ghost use Rattle.tp_text.specs.Shapes.{no_shapes};
ghost use Rattle.tp_text.specs.Trees.{shape_of};
ghost use Rattle.tp_syntax_ast.specs.Gives.{Gives};
ghost use Rattle.tp_syntax_ast.specs.Terms.{shapes};
ghost use Rattle.tp_syntax.specs.KeyedParts.{with_kind, part_seen, part_of, parts_of, first, or_nothing, each_once, once_each};

use std::alloc::Global;
use tp_syntax_ast::SyntaxFault;
use tp_text::{Token, Tree};

/// A kind of item.
pub trait ItemKind: Copy {
    ghost number: { Self → ℕ };

    ghost may_repeat: { Self → Bool };

    /// Each kind has its own.
    fn number(self) -> u8
        ensures { result ≡ number self };

    /// Whether more than one item of the kind may stand in a list.
    fn may_repeat(self) -> bool
        ensures { result ≡ may_repeat self };
}

/// A kind of section, and the word that a section of the kind begins with.
pub trait SectionWord: ItemKind {
    /// The kind that a word stands for.
    ghost kind_of: { List ℕ → Option Self };

    fn kind_of(word: &str) -> Option<Self>
        ensures { result ≡ kind_of word.now };

    /// What is wrong with the list at `at` that begins with this word of no kind.
    fn fault(word: &Token, at: u32) -> SyntaxFault;
}

/// An item, with the places of the list that its word stands in and of the word, and what stands
/// behind the word.
#[derive(Clone, Copy)]
pub struct Keyed<K, B> {
    pub kind: K,
    pub at: u32,
    pub word_at: u32,
    pub body: B,
}

/// A section: a list that begins with its word.
pub type SectionItem<'t, 'a, K> = Keyed<K, &'t [Tree<'a>]>;

/// The first item of a kind.
pub fn find<K: ItemKind, B: Copy>(kind: K, items: &[Keyed<K, B>]) -> Option<Keyed<K, B>>
    ensures { option_map (λ p. p.body) result ≡ first K.number kind (map with_kind items.now) }
{
    for item in items {
        if item.kind.number() == kind.number() {
            return Some(*item);
        }
    }
    None
}

/// The second item of a kind that may stand in a list once.
pub fn repeated<K: ItemKind, B: Copy>(items: &[Keyed<K, B>]) -> Option<Keyed<K, B>>
    ensures { is_some result ≡ not (each_once K.number K.may_repeat (map with_kind items.now)) }
{
    let mut rest = items;
    'items: while let [first, others @ ..] = rest {
        if !first.kind.may_repeat() {
            let second = find(first.kind, others);
            if second.is_some() {
                return second;
            }
        }
        rest = others;
    }
    None
}

// A section in the list at `above`.
fn part_at<'t, 'a, K: SectionWord>(
    tree: &'t Tree<'a>,
    above: u32,
) -> Result<SectionItem<'t, 'a, K>, SyntaxFault>
    ensures { Gives part_seen result (part_of K.kind_of (shape_of tree.now)) }
{
    let (items, at) = match tree {
        Tree::Word(_) => return Err(SyntaxFault::Shape(above)),
        Tree::List { items, span } => (items.as_slice(), span.start),
    };
    let [first, body @ ..] = items else {
        return Err(SyntaxFault::Shape(at));
    };
    let Tree::Word(word) = first else {
        return Err(SyntaxFault::Shape(at));
    };
    let Some(kind) = K::kind_of(word.text) else {
        return Err(K::fault(word, at));
    };
    let word_at = word.span.start;
    Ok(Keyed {
        kind,
        at,
        word_at,
        body,
    })
}

fn parts_of<'t, 'a, K: SectionWord>(
    alloc: Global,
    trees: &'t [Tree<'a>],
    at: u32,
) -> Result<Vec<SectionItem<'t, 'a, K>>, SyntaxFault>
    ensures { Gives (λ v. map part_seen v.items) result (parts_of K.kind_of (shapes trees.now)) }
{
    let mut parts = Vec::new(alloc);
    for tree in trees {
        parts.push(part_at(tree, at)?)?;
    }
    Ok(parts)
}

fn no_trees<'t, 'a>() -> &'t [Tree<'a>]
    ensures { shapes result.now ≡ no_shapes }
{
    &[]
}

/// The first section of a kind; if it is missing, an empty one at `at`.
pub fn find_or_empty<'t, 'a, K: SectionWord>(
    kind: K,
    parts: &[SectionItem<'t, 'a, K>],
    at: u32,
) -> SectionItem<'t, 'a, K>
    ensures { shapes result.body.now ≡ or_nothing (first K.number kind (map part_seen parts.now)) }
{
    find(kind, parts).unwrap_or(Keyed {
        kind,
        at,
        word_at: at,
        body: no_trees(),
    })
}

/// The sections in the list at `at`, no two of a kind unless it may repeat.
#[tactic(auto, using(crate::proofs::OnKeyed::parts_once))]
pub fn read_parts<'t, 'a, K: SectionWord>(
    alloc: Global,
    trees: &'t [Tree<'a>],
    at: u32,
) -> Result<Vec<SectionItem<'t, 'a, K>>, SyntaxFault>
    ensures { Gives (λ v. map part_seen v.items) result
        (once_each K.kind_of K.number K.may_repeat (shapes trees.now)) }
{
    let parts = parts_of(alloc, trees, at)?;
    if let Some(second) = repeated(&parts) {
        return Err(SyntaxFault::Twice(second.word_at));
    }
    Ok(parts)
}
