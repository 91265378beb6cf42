//! Laws of texts.

ghost use Rattle.tp_text.specs.Shapes.{SpellsOneTree};
ghost use Rattle.tp_text.specs.Trees.{DeepIsNested};
ghost use Rattle.tp_text.specs.Texts.{TextSpells};

/// What is written for a tree of words, with single spaces, spells that tree.
pub fn text_of_tree()
    ensures { TextSpells }
{}

/// A text spells at most one tree.
pub fn one_tree()
    ensures { SpellsOneTree }
{}

/// A tree has a list inside 64 others exactly if its lexemes have one that begins where 64 are
/// open.
pub fn deep_is_nested()
    ensures { DeepIsNested }
{}
