//! The variables in scope.

ghost use Rattle.tp_syntax_scope.specs.SymbolViews.{symbols_view};
ghost use Rattle.tp_syntax_scope.specs.LevelViews.{AreOver};

use crate::symbols::Symbols;
use crate::variables::Variables;

/// The variables in scope. An inner one hides an outer one of the same name.
#[derive(Clone, Copy)]
pub enum Levels<'a, 's, 'd> {
    Empty,
    Inner(&'a Variables<'s, 'd>, &'a Levels<'a, 's, 'd>),
}

/// What may be named: what is declared, and the variables in scope, all over it.
#[derive(Clone, Copy)]
pub struct Scope<'a, 's, 'd> {
    pub symbols: &'s Symbols<'d>,
    pub levels: Levels<'a, 's, 'd>,
    ghost over: { AreOver (symbols_view symbols.now) levels },
}
