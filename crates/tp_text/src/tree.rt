//! From tokens to a tree.

ghost use Rattle.std.specs.Prelude.{◌≡◌, ◌+◌, ◌<◌, ◌≤◌, drop, List, [], ◌∷◌, ◌++◌, length, IfOk, IfErr, OnOk, Ok};
ghost use Rattle.tp_text.specs.Lexemes.{left, right, word, Placed, placed};
ghost use Rattle.tp_text.specs.Trees.{tree_written, trees_written, HasNoTree, IsOneTree, IsOpen, built, CannotGoOn, IsStuck, kind_lexeme, shape_of, lefts, rights, HasRoom, IsRefused};
ghost use Rattle.tp_text.specs.Shapes.{Spells, nesting};
ghost use Rattle.tp_text.specs.Tokens.{lexeme_of, max_text, IsBad};

use crate::fault::TextFault;
use crate::lexing::{MAX_TEXT, Next, next_token};
use crate::token::{Span, Token};
use std::alloc::Global;
use std::mem;

const MAX_DEPTH: usize = 64;

/// A word or a list, with its place in the text.
#[derive(Debug, Drop)]
pub enum Tree<'a> {
    Word(Token<'a>),
    List { items: Vec<Tree<'a>>, span: Span },
}

// A list that is open: what it has before the list inside it.
#[derive(Drop)]
struct Frame<'a> {
    items: Vec<Tree<'a>>,
    start: u32,
}

// What was read so far: the lists that are open, the outermost first, and what the innermost has.
#[derive(Drop)]
struct Builder<'a> {
    outer: Vec<Frame<'a>>,
    items: Vec<Tree<'a>>,
}

fn make_list<'a>(items: Vec<Tree<'a>>, span: Span) -> Tree<'a>
    ensures { tree_written result ≡ left ∷ (trees_written items.entry.items ++ right ∷ []) }
{
    Tree::List { items, span }
}

fn make_word<'a>(token: Token<'a>) -> Tree<'a>
    ensures { tree_written result ≡ word token.entry.text.now ∷ [] }
{
    Tree::Word(token)
}

enum TokenKind {
    Left,
    Right,
    Word,
}

fn kind_of(token: &Token) -> TokenKind
    ensures { lexeme_of token.now.text.now ≡ kind_lexeme result token.now.text.now }
{
    match token.text.as_bytes() {
        [b'('] => TokenKind::Left,
        [b')'] => TokenKind::Right,
        _ => TokenKind::Word,
    }
}

impl<'a> Builder<'a> {
    fn begin(&mut self, alloc: Global, start: u32) -> Result<(), TextFault>
        requires { IsOneTree self.old.outer.items self.old.items.items
            × IsOpen self.old.outer.items self.old.items.items }
        ensures ok { OnOk result (built self.new ≡ built self.old ++ left ∷ []) }
        ensures one { OnOk result (IsOneTree self.new.outer.items self.new.items.items) }
        ensures room { OnOk result (lefts (built self.old) < rights (built self.old) + 64) }
        ensures refused { IfErr result (λ e. CannotGoOn (built self.old) left e) }
    {
        if self.outer.len() >= MAX_DEPTH {
            return Err(TextFault::Depth(start));
        }
        let items = mem::replace(&mut self.items, Vec::new(alloc));
        self.outer.push(Frame { items, start })?;
        Ok(())
    }

    fn end(&mut self, span: Span) -> Result<(), TextFault>
        requires { IsOneTree self.old.outer.items self.old.items.items
            × IsOpen self.old.outer.items self.old.items.items }
        ensures ok { OnOk result (built self.new ≡ built self.old ++ right ∷ []) }
        ensures one { OnOk result (IsOneTree self.new.outer.items self.new.items.items) }
        ensures refused { IfErr result (λ e. CannotGoOn (built self.old) right e) }
    {
        let Some(frame) = self.outer.pop() else {
            return Err(TextFault::Extra(span.start));
        };
        let inside = mem::replace(&mut self.items, frame.items);
        let start = frame.start;
        let stop = span.stop;
        self.items.push(make_list(inside, Span { start, stop }))?;
        Ok(())
    }

    fn add(&mut self, token: Token<'a>) -> Result<(), TextFault>
        requires { IsOneTree self.old.outer.items self.old.items.items
            × IsOpen self.old.outer.items self.old.items.items }
        ensures ok { OnOk result
            (built self.new ≡ built self.old ++ word token.entry.text.now ∷ []) }
        ensures one { OnOk result (IsOneTree self.new.outer.items self.new.items.items) }
        ensures refused { IfErr result
            (λ e. CannotGoOn (built self.old) (word token.entry.text.now) e) }
    {
        self.items.push(make_word(token))?;
        Ok(())
    }

    fn step(&mut self, alloc: Global, token: &Token<'a>) -> Result<(), TextFault>
        requires { IsOneTree self.old.outer.items self.old.items.items }
        ensures ok { OnOk result
            (built self.new ≡ built self.old ++ lexeme_of token.now.text.now ∷ []) }
        ensures one { OnOk result (IsOneTree self.new.outer.items self.new.items.items) }
        ensures room { OnOk result (HasRoom (built self.old) (lexeme_of token.now.text.now)) }
        ensures refused { IfErr result
            (λ e. CannotGoOn (built self.old) (lexeme_of token.now.text.now) e) }
    {
        if self.outer.is_empty() && !self.items.is_empty() {
            return Err(TextFault::Extra(token.span.start));
        }
        match kind_of(token) {
            TokenKind::Left => self.begin(alloc, token.span.start),
            TokenKind::Right => self.end(token.span),
            TokenKind::Word => self.add(*token),
        }
    }
}

// Whether each of the bytes of a text from a place on may stand where it does.
fn read_over(text: &str, bytes: &[u8], start: usize) -> Result<(), TextFault>
    requires place { start + length bytes.now ≤ max_text }
    requires there { bytes.now ≡ drop start text.now }
    ensures ok { OnOk result ((ps : List Placed) × (placed start bytes.now ≡ Ok ps)) }
    ensures refused { IfErr result (IsBad start bytes.now) }
{
    let mut rest = bytes;
    let mut at = start;
    'lexemes: while let Some(next) = next_token(text, rest, at)? {
        rest = next.rest;
        at = next.at;
    }
    Ok(())
}

impl<'a> Builder<'a> {
    // A step by the token that comes next. Where it can't go on, a byte behind it that may not
    // stand there is at fault.
    fn go_on(&mut self, alloc: Global, text: &str, next: &Next<'a>) -> Result<(), TextFault>
        requires one { IsOneTree self.old.outer.items self.old.items.items }
        requires place { next.now.at + length next.now.rest.now ≤ max_text }
        requires there { next.now.rest.now ≡ drop next.now.at text.now }
        ensures ok { OnOk result
            (built self.new ≡ built self.old ++ lexeme_of next.now.token.text.now ∷ []) }
        ensures one { OnOk result (IsOneTree self.new.outer.items self.new.items.items) }
        ensures room { OnOk result
            (HasRoom (built self.old) (lexeme_of next.now.token.text.now)) }
        ensures refused { IfErr result (IsStuck (built self.old) next.now) }
    {
        match self.step(alloc, &next.token) {
            Ok(()) => Ok(()),
            Err(fault) => {
                read_over(text, next.rest, next.at)?;
                Err(fault)
            }
        }
    }

    // The tree that was read.
    fn finish(self) -> Result<Tree<'a>, TextFault>
        requires { IsOneTree self.outer.items self.items.items }
        ensures found { IfOk result (λ t. tree_written t ≡ built self.entry) }
        ensures refused { IfErr result (λ e. HasNoTree (built self.entry) e) }
    {
        let Builder { outer, mut items } = self;
        if let [frame, ..] = outer.as_slice() {
            return Err(TextFault::Unclosed(frame.start));
        }
        match items.pop() {
            Some(tree) => Ok(tree),
            None => Err(TextFault::Empty),
        }
    }
}

// The tree that a text spells, token by token: no list of tokens is made.
fn tree_in<'a>(alloc: Global, text: &'a str) -> Result<Tree<'a>, TextFault>
    requires { length text.now ≤ max_text }
    ensures found { IfOk result (λ t. Spells text.now (shape_of t)) }
    ensures nested { IfOk result (λ t. nesting (shape_of t) ≤ 64) }
    ensures refused { IfErr result (λ e. IsRefused text.now e) }
{
    let outer = Vec::new(alloc);
    let items = Vec::new(alloc);
    let mut builder = Builder { outer, items };
    let mut rest = text.as_bytes();
    let mut at = 0;
    'lexemes: while let Some(next) = next_token(text, rest, at)? {
        builder.go_on(alloc, text, &next)?;
        rest = next.rest;
        at = next.at;
    }
    builder.finish()
}

/// The tree that the text spells.
pub fn read_tree<'a>(alloc: Global, text: &'a str) -> Result<Tree<'a>, TextFault>
    ensures found { IfOk result (λ t. Spells text.now (shape_of t)) }
    ensures nested { IfOk result (λ t. nesting (shape_of t) ≤ 64) }
    ensures limited { OnOk result (length text.now ≤ max_text) }
    ensures refused { IfErr result (λ e. IsRefused text.now e) }
{
    if text.len() > MAX_TEXT {
        return Err(TextFault::TooLong);
    }
    tree_in(alloc, text)
}
