//! The words that forms begin with.

ghost use Rattle.std.specs.Prelude.{◌≡◌, codes};
ghost use Rattle.tp_syntax_ast.specs.Words.{is_word, IsLower, operator_of, cond_word_of, effect_word_of, joint_of, constraint_form_of, specifier_of, key_of, section_of, problem_section_of};

/// Of conditions.
#[derive(Clone, Copy, Debug, PartialEq, Eq)]
pub enum CondWord {
    And,
    Or,
    Not,
    Imply,
    Forall,
    Exists,
    Equal,
    Less,
    AtMost,
    AtLeast,
    Greater,
    Preference,
    Other,
}

/// Of expressions.
#[derive(Clone, Copy, Debug, PartialEq, Eq)]
pub enum Operator {
    Plus,
    Minus,
    Times,
    Divide,
    Other,
}

/// Of effects.
#[derive(Clone, Copy, Debug, PartialEq, Eq)]
pub enum EffectWord {
    Not,
    Assign,
    Increase,
    Decrease,
    ScaleUp,
    ScaleDown,
    When,
    Other,
}

/// Of what is joined: effects, timed conditions and timed effects.
#[derive(Clone, Copy, Debug, PartialEq, Eq)]
pub enum Joint {
    And,
    Forall,
    One,
}

/// Of duration constraints.
#[derive(Clone, Copy, Debug, PartialEq, Eq)]
pub enum ConstraintForm {
    And,
    At,
    Limit,
}

/// How two numbers are compared.
#[derive(Clone, Copy, Debug, PartialEq, Eq)]
pub enum Comparison {
    Less,
    AtMost,
    Equal,
    AtLeast,
    Greater,
}

/// The assignment operator of a numeric effect.
#[derive(Clone, Copy, Debug, PartialEq, Eq)]
pub enum Writing {
    Assign,
    Increase,
    Decrease,
    ScaleUp,
}

/// When something of a durative action stands.
#[derive(Clone, Copy, Debug, PartialEq, Eq)]
pub enum TimeSpecifier {
    AtStart,
    OverAll,
    AtEnd,
}

/// Of an action's fields.
#[derive(Clone, Copy, Debug, PartialEq, Eq)]
pub enum Key {
    Parameters,
    Precondition,
    Duration,
    Condition,
    Effect,
}

/// Of a domain's sections.
#[derive(Clone, Copy, Debug, PartialEq, Eq)]
pub enum Section {
    Requirements,
    Types,
    Constants,
    Predicates,
    Functions,
    Action,
    DurativeAction,
}

/// What a typed list lists.
#[derive(Clone, Copy, Debug, PartialEq, Eq)]
pub enum Items {
    Variables,
    Names,
}

/// What stands after the first word of a condition.
#[derive(Clone, Copy, Debug, PartialEq, Eq)]
pub enum CondKind {
    Joined,
    Bound,
    Simple,
}

/// Of a problem's sections.
#[derive(Clone, Copy, Debug, PartialEq, Eq)]
pub enum ProblemSection {
    Requirements,
    Objects,
    Init,
    Goal,
    Metric,
    Length,
}

/// Whether a word is this one, in any case.
pub fn is_word(word: &str, name: &str) -> bool
    requires { IsLower name.now }
    ensures { result ≡ is_word name.now word.now }
{
    word.eq_ignore_ascii_case(name)
}

#[tactic(auto, unfolding(crate::specs::Words::operator_of))]
pub fn operator_of(word: &str) -> Operator
    ensures { result ≡ operator_of word.now }
{
    if is_word(word, "+") {
        Operator::Plus
    } else if is_word(word, "-") {
        Operator::Minus
    } else if is_word(word, "*") {
        Operator::Times
    } else if is_word(word, "/") {
        Operator::Divide
    } else {
        Operator::Other
    }
}

#[tactic(auto, unfolding(crate::specs::Words::cond_word_of))]
pub fn cond_word_of(word: &str) -> CondWord
    ensures { result ≡ cond_word_of word.now }
{
    if is_word(word, "and") {
        CondWord::And
    } else if is_word(word, "or") {
        CondWord::Or
    } else if is_word(word, "not") {
        CondWord::Not
    } else if is_word(word, "imply") {
        CondWord::Imply
    } else if is_word(word, "forall") {
        CondWord::Forall
    } else if is_word(word, "exists") {
        CondWord::Exists
    } else if is_word(word, "=") {
        CondWord::Equal
    } else if is_word(word, "<") {
        CondWord::Less
    } else if is_word(word, "<=") {
        CondWord::AtMost
    } else if is_word(word, ">=") {
        CondWord::AtLeast
    } else if is_word(word, ">") {
        CondWord::Greater
    } else if is_word(word, "preference") {
        CondWord::Preference
    } else {
        CondWord::Other
    }
}

#[tactic(auto, unfolding(crate::specs::Words::effect_word_of))]
pub fn effect_word_of(word: &str) -> EffectWord
    ensures { result ≡ effect_word_of word.now }
{
    if is_word(word, "not") {
        EffectWord::Not
    } else if is_word(word, "assign") {
        EffectWord::Assign
    } else if is_word(word, "increase") {
        EffectWord::Increase
    } else if is_word(word, "decrease") {
        EffectWord::Decrease
    } else if is_word(word, "scale-up") {
        EffectWord::ScaleUp
    } else if is_word(word, "scale-down") {
        EffectWord::ScaleDown
    } else if is_word(word, "when") {
        EffectWord::When
    } else {
        EffectWord::Other
    }
}

#[tactic(auto, unfolding(crate::specs::Words::joint_of))]
pub fn joint_of(word: &str) -> Joint
    ensures { result ≡ joint_of word.now }
{
    if is_word(word, "and") {
        Joint::And
    } else if is_word(word, "forall") {
        Joint::Forall
    } else {
        Joint::One
    }
}

#[tactic(auto, unfolding(crate::specs::Words::constraint_form_of))]
pub fn constraint_form_of(word: &str) -> ConstraintForm
    ensures { result ≡ constraint_form_of word.now }
{
    if is_word(word, "and") {
        ConstraintForm::And
    } else if is_word(word, "at") {
        ConstraintForm::At
    } else {
        ConstraintForm::Limit
    }
}

#[tactic(auto, unfolding(crate::specs::Words::specifier_of))]
pub fn specifier_of(word: &str, moment: &str) -> Option<TimeSpecifier>
    ensures { result ≡ specifier_of word.now moment.now }
{
    if is_word(word, "at") {
        if is_word(moment, "start") {
            Some(TimeSpecifier::AtStart)
        } else if is_word(moment, "end") {
            Some(TimeSpecifier::AtEnd)
        } else {
            None
        }
    } else if is_word(word, "over") {
        if is_word(moment, "all") {
            Some(TimeSpecifier::OverAll)
        } else {
            None
        }
    } else {
        None
    }
}

#[tactic(auto, unfolding(crate::specs::Words::key_of))]
pub fn key_of(word: &str) -> Option<Key>
    ensures { result ≡ key_of word.now }
{
    if is_word(word, ":parameters") {
        Some(Key::Parameters)
    } else if is_word(word, ":precondition") {
        Some(Key::Precondition)
    } else if is_word(word, ":duration") {
        Some(Key::Duration)
    } else if is_word(word, ":condition") {
        Some(Key::Condition)
    } else if is_word(word, ":effect") {
        Some(Key::Effect)
    } else {
        None
    }
}

#[tactic(auto, unfolding(crate::specs::Words::section_of))]
pub fn section_of(word: &str) -> Option<Section>
    ensures { result ≡ section_of word.now }
{
    if is_word(word, ":requirements") {
        Some(Section::Requirements)
    } else if is_word(word, ":types") {
        Some(Section::Types)
    } else if is_word(word, ":constants") {
        Some(Section::Constants)
    } else if is_word(word, ":predicates") {
        Some(Section::Predicates)
    } else if is_word(word, ":functions") {
        Some(Section::Functions)
    } else if is_word(word, ":action") {
        Some(Section::Action)
    } else if is_word(word, ":durative-action") {
        Some(Section::DurativeAction)
    } else {
        None
    }
}

#[tactic(auto, unfolding(crate::specs::Words::problem_section_of))]
pub fn problem_section_of(word: &str) -> Option<ProblemSection>
    ensures { result ≡ problem_section_of word.now }
{
    if is_word(word, ":requirements") {
        Some(ProblemSection::Requirements)
    } else if is_word(word, ":objects") {
        Some(ProblemSection::Objects)
    } else if is_word(word, ":init") {
        Some(ProblemSection::Init)
    } else if is_word(word, ":goal") {
        Some(ProblemSection::Goal)
    } else if is_word(word, ":metric") {
        Some(ProblemSection::Metric)
    } else if is_word(word, ":length") {
        Some(ProblemSection::Length)
    } else {
        None
    }
}
