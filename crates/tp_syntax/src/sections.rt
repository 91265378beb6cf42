//! The sections of a domain.

ghost use Rattle.std.specs.Prelude.{◌≡◌, map};
ghost use Rattle.tp_syntax_ast.specs.Domains.{section};
ghost use Rattle.tp_syntax.specs.SectionViews.{section_body_view, checked_sections};
ghost use Rattle.tp_syntax_ast.specs.Terms.{shapes};
ghost use Rattle.tp_syntax_ast.specs.Gives.{Gives};

use crate::keyed::{ItemKind, SectionItem, SectionWord, find_or_empty, read_parts};
use std::alloc::Global;
use tp_syntax_ast::{LeftOutPart, Section, SyntaxFault, is_word, section_of};
use tp_text::{Token, Tree};

impl ItemKind for Section {
    ghost use Rattle.tp_syntax_ast.specs.Domains.{section_number, is_action};

    ghost number = { section_number };

    ghost may_repeat = { is_action };

    fn number(self) -> u8 {
        match self {
            Section::Requirements => 0,
            Section::Types => 1,
            Section::Constants => 2,
            Section::Predicates => 3,
            Section::Functions => 4,
            Section::Action => 5,
            Section::DurativeAction => 6,
        }
    }

    fn may_repeat(self) -> bool {
        match self {
            Section::Action | Section::DurativeAction => true,
            _ => false,
        }
    }
}

impl SectionWord for Section {
    ghost use Rattle.tp_syntax_ast.specs.Words.{section_of};

    ghost kind_of = { section_of };

    fn kind_of(word: &str) -> Option<Section> {
        section_of(word)
    }

    fn fault(word: &Token, at: u32) -> SyntaxFault {
        if is_word(word.text, ":derived") {
            SyntaxFault::LeftOut(at, LeftOutPart::Derived)
        } else if is_word(word.text, ":constraints") {
            SyntaxFault::LeftOut(at, LeftOutPart::Constraint)
        } else {
            SyntaxFault::Shape(at)
        }
    }
}

/// The section of a kind; if it is missing, an empty one at 0.
pub fn find_section<'t, 'a>(
    wanted: Section,
    parts: &[SectionItem<'t, 'a, Section>],
) -> SectionItem<'t, 'a, Section>
    ensures { shapes result.body.now ≡ section wanted (map section_body_view parts.now) }
{
    find_or_empty(wanted, parts, 0)
}

/// The sections in the list at `at`, each but the actions at most once.
pub fn read_sections<'t, 'a>(
    alloc: Global,
    trees: &'t [Tree<'a>],
    at: u32,
) -> Result<Vec<SectionItem<'t, 'a, Section>>, SyntaxFault>
    ensures { Gives (λ v. map section_body_view v.items) result
        (checked_sections (shapes trees.now)) }
{
    read_parts(alloc, trees, at)
}
