//! What a domain and a problem declare, and the variables in scope.

use std::alloc::{AllocError, Global};
use std::fmt;
use tp_explain_text::{Role, Source, Step, Text, Tree, head_of, path_to};
use tp_syntax_ast::Section;

/// What a name may be declared as.
#[derive(Clone, Copy, Debug, PartialEq, Eq)]
pub enum Kind {
    Type,
    Predicate,
    Function,
    Object,
    Variable,
    Action,
}

impl fmt::Display for Kind {
    fn fmt<W: fmt::Write>(&self, f: &mut fmt::Formatter<W>) -> fmt::Result {
        let word = match *self {
            Kind::Type => "type",
            Kind::Predicate => "predicate",
            Kind::Function => "function",
            Kind::Object => "object",
            Kind::Variable => "variable",
            Kind::Action => "action",
        };
        write!(f, "{word}")
    }
}

/// The texts of a call that were read: those that the text at fault may name things of.
#[derive(Clone, Copy)]
pub struct World<'t> {
    pub domain: Text<'t>,
    pub problem: Option<Text<'t>>,
}

impl<'t> World<'t> {
    /// The file that something is declared in.
    pub fn source_of(&self, name: &Declared<'t>) -> Source<'t> {
        match self.problem {
            Some(problem) if name.in_problem => problem.source,
            _ => self.domain.source,
        }
    }
}

/// The place of a fault in the domain, or in the problem.
#[derive(Clone, Copy)]
pub struct Fault<'t> {
    pub world: World<'t>,
    pub text: Text<'t>,
    pub in_problem: bool,
    pub at: usize,
}

impl<'t> Fault<'t> {
    /// The lists around it, the outermost first.
    pub fn path(&self, alloc: Global) -> Result<Vec<Step<'t>>, AllocError> {
        path_to(alloc, &self.text, self.in_problem, self.at)
    }
}

/// A name as it is declared: where, and behind which `-` its type stands, if any.
#[derive(Clone, Copy)]
pub struct Declared<'t> {
    pub name: &'t str,
    pub at: usize,
    pub in_problem: bool,
    pub types: Option<&'t Tree>,
}

/// The members behind the first word of the first section of a name.
pub fn section_of<'t>(text: &Text<'t>, name: &str) -> &'t [Tree] {
    for tree in text.tree.items() {
        if tree.head().eq_ignore_ascii_case(name) {
            return tree.rest();
        }
    }
    &[]
}

/// The word that a member of a number is, or nothing.
pub fn word_at<'t>(items: &'t [Tree], number: usize) -> &'t str {
    match items.get(number) {
        Some(tree) => tree.word(),
        None => "",
    }
}

/// The members that a member of a number has, if there is one.
pub fn items_at<'t>(items: &'t [Tree], number: usize) -> &'t [Tree] {
    match items.get(number) {
        Some(tree) => tree.items(),
        None => &[],
    }
}

/// A name without types that stands at a tree.
fn plain<'t>(tree: &'t Tree, in_problem: bool) -> Declared<'t> {
    Declared {
        name: tree.word(),
        at: tree.place(),
        in_problem,
        types: None,
    }
}

/// Gives all names from a number on their type.
fn give_type<'t>(items: &mut [Declared<'t>], from: usize, types: &'t Tree) {
    for item in items.iter_mut().skip(from) {
        item.types = Some(types);
    }
}

/// Puts the items of a typed list behind others.
pub fn add_typed<'t>(
    items: &mut Vec<Declared<'t>>,
    trees: &'t [Tree],
    in_problem: bool,
) -> Result<(), AllocError> {
    let mut from = items.len();
    let mut after_dash = false;
    for tree in trees {
        if after_dash {
            give_type(items.as_mut_slice(), from, tree);
            from = items.len();
            after_dash = false;
        } else if tree.is("-") {
            after_dash = true;
        } else if !tree.is_list() {
            items.push(plain(tree, in_problem))?;
        }
    }
    Ok(())
}

/// The items of a typed list.
pub fn typed_items<'t>(
    alloc: Global,
    trees: &'t [Tree],
    in_problem: bool,
) -> Result<Vec<Declared<'t>>, AllocError> {
    let mut items = Vec::new(alloc);
    add_typed(&mut items, trees, in_problem)?;
    Ok(items)
}

/// The first of some items with a name, in any case.
pub fn find_named<'t>(items: &[Declared<'t>], name: &str) -> Option<Declared<'t>> {
    items
        .iter()
        .find(|item| item.name.eq_ignore_ascii_case(name))
        .copied()
}

/// The parents that types have and that are declared by that alone.
fn add_mentioned<'t>(items: &mut Vec<Declared<'t>>, trees: &'t [Tree]) -> Result<(), AllocError> {
    let mut after_dash = false;
    for tree in trees {
        if after_dash
            && !tree.is_list()
            && !tree.is("object")
            && find_named(items.as_slice(), tree.word()).is_none()
        {
            items.push(plain(tree, false))?;
        }
        after_dash = tree.is("-");
    }
    Ok(())
}

/// The names that lists begin with.
fn add_heads<'t>(items: &mut Vec<Declared<'t>>, trees: &'t [Tree]) -> Result<(), AllocError> {
    for tree in trees {
        if let Some(head @ Tree::Word { .. }) = tree.items().first() {
            items.push(plain(head, false))?;
        }
    }
    Ok(())
}

/// Whether a section is an action.
pub fn is_action(items: &[Tree]) -> bool {
    matches!(
        tp_syntax_ast::section_of(head_of(items)),
        Some(Section::Action | Section::DurativeAction)
    )
}

/// The names of actions.
fn add_actions<'t>(items: &mut Vec<Declared<'t>>, text: &Text<'t>) -> Result<(), AllocError> {
    for tree in text.tree.items() {
        if let (true, Some(name @ Tree::Word { .. })) = (
            is_action(tree.items()),
            tree.items().get(1),
        ) {
            items.push(plain(name, false))?;
        }
    }
    Ok(())
}

/// All names that are declared as something, in the order of their declaration: of objects the
/// constants first.
pub fn declarations_of<'t>(
    alloc: Global,
    world: &World<'t>,
    kind: Kind,
) -> Result<Vec<Declared<'t>>, AllocError> {
    let mut items = Vec::new(alloc);
    match kind {
        Kind::Type => {
            let types = section_of(&world.domain, ":types");
            add_typed(&mut items, types, false)?;
            add_mentioned(&mut items, types)?;
        }
        Kind::Predicate => add_heads(&mut items, section_of(&world.domain, ":predicates"))?,
        Kind::Function => add_heads(&mut items, section_of(&world.domain, ":functions"))?,
        Kind::Object => add_objects(&mut items, world)?,
        Kind::Action => add_actions(&mut items, &world.domain)?,
        Kind::Variable => {}
    }
    Ok(items)
}

fn add_objects<'t>(items: &mut Vec<Declared<'t>>, world: &World<'t>) -> Result<(), AllocError> {
    add_typed(items, section_of(&world.domain, ":constants"), false)?;
    match world.problem {
        Some(problem) => add_typed(items, section_of(&problem, ":objects"), true),
        None => Ok(()),
    }
}

/// The parameters of an action, as they are written.
pub fn parameters_in<'t>(action: &'t [Tree]) -> &'t [Tree] {
    for pair in action.get(2..).unwrap_or(&[]).chunks(2) {
        if let [word, value] = pair {
            if word.is(":parameters") {
                return value.items();
            }
        }
    }
    &[]
}

/// The variables that a list of a path brings into scope for what stands in it.
fn bound_in<'t>(step: &Step<'t>) -> &'t [Tree] {
    let head = head_of(step.items);
    match step.role {
        _ if step.child < 2 => &[],
        Role::Section(Section::Action | Section::DurativeAction) => parameters_in(step.items),
        Role::Condition | Role::TimedCondition | Role::TimedEffect | Role::Effect
            if head.eq_ignore_ascii_case("forall") || head.eq_ignore_ascii_case("exists") => {
            items_at(step.items, 1)
        }
        _ => &[],
    }
}

/// The variables in scope at the end of a path, the outermost first.
pub fn variables_at<'t>(alloc: Global, path: &[Step<'t>]) -> Result<Vec<Declared<'t>>, AllocError> {
    let mut items = Vec::new(alloc);
    for step in path {
        add_typed(&mut items, bound_in(step), false)?;
    }
    Ok(items)
}

/// The innermost variable of a name.
pub fn innermost<'t>(items: &[Declared<'t>], name: &str) -> Option<Declared<'t>> {
    items
        .iter()
        .rev()
        .find(|item| item.name.eq_ignore_ascii_case(name))
        .copied()
}
