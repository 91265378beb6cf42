//! What a problem says of its initial state.

ghost use Rattle.std.specs.Prelude.{◌≡◌, map, option_map, false, [], IfOk, not};
ghost use Rattle.std.specs.Option.{is_some};
ghost use Rattle.tp_text.specs.Trees.{shape_of};
ghost use Rattle.tp_syntax_ast.specs.Terms.{shapes, atom_view};
ghost use Rattle.tp_syntax_scope.specs.SymbolViews.{symbols_view};
ghost use Rattle.tp_syntax_ast.specs.Symbols.{atom_in};
ghost use Rattle.tp_syntax_ast.specs.Problems.{holds, initial_number, denied, valued, initial_list, initial_at, initial_of, no_clash};
ghost use Rattle.tp_syntax_ast.specs.DomainViews.{initial_view};
ghost use Rattle.tp_syntax_ast.specs.Gives.{Gives, IsKept};

use std::alloc::Global;
use tp_syntax_ast::{Atom, Initial, LeftOutPart, SyntaxFault, is_word};
use tp_syntax_bodies::{atom_at, begins_number, number_fault, outside_conditions};
use tp_syntax_scope::{Kind, Scope, Symbols, atom_in, both, only};
use tp_text::{Token, Tree, read_whole};

fn initial_number(fact: Atom, tree: &Tree, at: u32) -> Result<Initial, SyntaxFault>
    ensures { Gives initial_view result (initial_number (atom_view fact) (shape_of tree.now)) }
{
    let Tree::Word(word) = tree else {
        return Err(SyntaxFault::Shape(at));
    };
    match read_whole(word.text) {
        Some(number) => Ok(Initial::HasValue(fact, number)),
        None => Err(outside_conditions(number_fault(word, at))),
    }
}

// `(not (NAME TERM ..))`
#[tactic(auto, unfolding(tp_syntax_ast::specs::Problems::denied))]
fn denied(alloc: Global, symbols: &Symbols, args: &[Tree], at: u32) -> Result<Initial, SyntaxFault>
    ensures { Gives initial_view result (denied (symbols_view symbols.now) (shapes args.now)) }
{
    let Some(tree) = only(args) else {
        return Err(SyntaxFault::Shape(at));
    };
    let none = Scope::of(symbols);
    let atom = atom_at(alloc, &none, Kind::Predicate, tree, at)?;
    Ok(Initial::Fails(atom))
}

// `(= F NUMBER)`
#[tactic(auto, unfolding(tp_syntax_ast::specs::Problems::valued))]
fn valued(alloc: Global, symbols: &Symbols, args: &[Tree], at: u32) -> Result<Initial, SyntaxFault>
    ensures { Gives initial_view result (valued (symbols_view symbols.now) (shapes args.now)) }
{
    let Some((fluent, number)) = both(args) else {
        return Err(SyntaxFault::Shape(at));
    };
    let none = Scope::of(symbols);
    let fact = atom_at(alloc, &none, Kind::Function, fluent, at)?;
    initial_number(fact, number, at)
}

// Whether it is `(at NUMBER ..)`.
fn is_timed(word: &Token, args: &[Tree]) -> bool {
    let [first, ..] = args else {
        return false;
    };
    match first {
        Tree::Word(time) => is_word(word.text, "at") && begins_number(time.text.as_bytes()),
        Tree::List { .. } => false,
    }
}

// What is wrong with an atom that could not be read.
fn atom_fault(fault: SyntaxFault, word: &Token, args: &[Tree], at: u32) -> SyntaxFault
    ensures { IsKept fault result }
{
    match fault {
        SyntaxFault::Memory => SyntaxFault::Memory,
        other => {
            if is_timed(word, args) {
                SyntaxFault::LeftOut(at, LeftOutPart::TimedLiteral)
            } else {
                other
            }
        }
    }
}

// `(NAME TERM ..)`
fn held(
    alloc: Global,
    symbols: &Symbols,
    word: &Token,
    args: &[Tree],
    at: u32,
) -> Result<Initial, SyntaxFault>
    ensures { Gives initial_view result (option_map holds (atom_in (symbols_view symbols.now)
        (symbols_view symbols.now).predicates [] word.now.text.now (shapes args.now))) }
{
    let none = Scope::of(symbols);
    match atom_in(alloc, &none, Kind::Predicate, word, args, at) {
        Ok(atom) => Ok(Initial::Holds(atom)),
        Err(fault) => Err(atom_fault(fault, word, args, at)),
    }
}

#[tactic(auto, unfolding(tp_syntax_ast::specs::Problems::initial_list))]
fn initial_list(
    alloc: Global,
    symbols: &Symbols,
    word: &Token,
    args: &[Tree],
    at: u32,
) -> Result<Initial, SyntaxFault>
    ensures { Gives initial_view result
        (initial_list (symbols_view symbols.now) word.now.text.now (shapes args.now)) }
{
    if is_word(word.text, "not") {
        denied(alloc, symbols, args, at)
    } else if is_word(word.text, "=") {
        valued(alloc, symbols, args, at)
    } else {
        held(alloc, symbols, word, args, at)
    }
}

// An entry of the section at `section`.
fn initial_at(
    alloc: Global,
    symbols: &Symbols,
    tree: &Tree,
    section: u32,
) -> Result<Initial, SyntaxFault>
    ensures { Gives initial_view result
        (initial_at (symbols_view symbols.now) (shape_of tree.now)) }
{
    let (items, at) = match tree {
        Tree::Word(_) => return Err(SyntaxFault::Shape(section)),
        Tree::List { items, span } => (items.as_slice(), span.start),
    };
    let [first, args @ ..] = items else {
        return Err(SyntaxFault::Shape(at));
    };
    let Tree::Word(word) = first else {
        return Err(SyntaxFault::Shape(at));
    };
    initial_list(alloc, symbols, word, args, at)
}

/// What the section `:init` says, which is at `section`.
pub fn initial_of(
    alloc: Global,
    symbols: &Symbols,
    trees: &[Tree],
    section: u32,
) -> Result<Vec<Initial>, SyntaxFault>
    ensures { Gives (λ v. map initial_view v.items) result
        (initial_of (symbols_view symbols.now) (shapes trees.now)) }
{
    let mut entries = Vec::new(alloc);
    for tree in trees {
        entries.push(initial_at(alloc, symbols, tree, section)?)?;
    }
    Ok(entries)
}
