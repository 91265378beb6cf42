//! From bytes to tokens.

ghost use Rattle.std.specs.Prelude.{◌≡◌, ◌∷◌, ◌+◌, ◌<◌, ◌≤◌, length, take, drop, map, All, IsTrue, false, IfOk, IfErr, IfSome, OnOk, Ok, slice_index, ℕ};
ghost use Rattle.std.specs.Str.{IsAscii};
ghost use Rattle.tp_text.specs.Lexemes.{class, begins_word, placed, after_comment};
ghost use Rattle.tp_text.specs.Tokens.{placed_of, max_text, HasNoLexemes, Begins, Covers, ComesFirst, StandsFirst, IsBad};

use crate::fault::TextFault;
use crate::token::{Span, Token};
use std::alloc::Global;
use std::str::from_utf8;

pub const MAX_TEXT: usize = 1_048_576;

#[derive(Clone, Copy, Debug, PartialEq, Eq)]
enum Class {
    Blank,
    Semicolon,
    Opening,
    Closing,
    Letter,
    Other,
}

#[tactic(auto, unfolding(crate::specs::Lexemes::class))]
fn class_of(b: u8) -> Class
    ensures { result ≡ class b }
{
    match b {
        b' ' | 9..=13 => Class::Blank,
        b';' => Class::Semicolon,
        b'(' => Class::Opening,
        b')' => Class::Closing,
        b'!'..=b'~' => Class::Letter,
        _ => Class::Other,
    }
}

// How many bytes of a word stand at the front.
fn word_len(bytes: &[u8]) -> usize
    ensures in_range { result ≤ length bytes.now }
    ensures letters { All (λ b. class b ≡ Class.Letter) (take result bytes.now) }
    ensures longest { begins_word (drop result bytes.now) ≡ false }
{
    for (n, b) in bytes.iter().enumerate() {
        if class_of(*b) != Class::Letter {
            return n;
        }
    }
    bytes.len()
}

// How many bytes of a comment stand at the front, its LF among them.
fn comment_len(bytes: &[u8]) -> usize
    ensures in_range { result ≤ length bytes.now }
    ensures skips { (at : ℕ)
        → after_comment at bytes.now ≡ placed (at + result) (drop result bytes.now) }
{
    for (n, b) in bytes.iter().enumerate() {
        if *b == b'\n' {
            return n + 1;
        }
    }
    bytes.len()
}

// ASCII bytes as text.
pub fn ascii_text(bytes: &[u8]) -> &str
    requires { IsAscii bytes.now }
    ensures { result.now ≡ bytes.now }
{
    from_utf8(bytes).unwrap()
}

// What stands at the front of a text, with its length.
enum Piece {
    // Blanks or a comment.
    Blank(usize),
    // A parenthesis or a word.
    Lexeme(usize),
    // A byte that may not stand there.
    Bad,
}

fn first_piece(first: u8, rest: &[u8]) -> Piece
    requires { length rest.now ≤ max_text }
    ensures { Begins result (first ∷ rest.now) }
{
    match class_of(first) {
        Class::Blank => Piece::Blank(1),
        Class::Semicolon => Piece::Blank(1 + comment_len(rest)),
        Class::Opening | Class::Closing => Piece::Lexeme(1),
        Class::Letter => Piece::Lexeme(1 + word_len(rest)),
        Class::Other => Piece::Bad,
    }
}

// The text of a token at a place: the slice there, so that its bytes are not looked at a second
// time.
fn slice_at<'a>(text: &'a str, at: usize, front: &'a [u8]) -> &'a str
    requires ascii { IsAscii front.now }
    requires there { front.now ≡ take (length front.now) (drop at text.now) }
    requires within { at + length front.now ≤ max_text }
    ensures { result.now ≡ front.now }
{
    match text.get(at..at + front.len()) {
        Some(slice) => slice,
        None => ascii_text(front),
    }
}

/// A token, and the bytes behind it with the place where they begin.
#[derive(Clone, Copy)]
pub struct Next<'a> {
    pub token: Token<'a>,
    pub rest: &'a [u8],
    pub at: usize,
}

/// The first token among the bytes of a text from a place on, if blanks and comments are not all.
pub fn next_token<'a>(
    text: &'a str,
    bytes: &'a [u8],
    start: usize,
) -> Result<Option<Next<'a>>, TextFault>
    requires place { start + length bytes.now ≤ max_text }
    requires there { bytes.now ≡ drop start text.now }
    ensures first { IfOk result (ComesFirst start bytes.now) }
    ensures place { IfOk result
        (λ o. IfSome o (λ n. n.at + length n.rest.now ≡ start + length bytes.now)) }
    ensures shorter { IfOk result (λ o. IfSome o (λ n. length n.rest.now < length bytes.now)) }
    ensures slice { IfOk result (λ o. IfSome o (StandsFirst start bytes.now)) }
    ensures there { IfOk result (λ o. IfSome o (λ n. n.rest.now ≡ drop n.at text.now)) }
    ensures refused { IfErr result (IsBad start bytes.now) }
{
    let mut rest = bytes;
    let mut at = start;
    'blanks: while let [first, others @ ..] = rest {
        match first_piece(*first, others) {
            Piece::Blank(len) => {
                rest = &rest[len..];
                at += len;
            }
            Piece::Lexeme(len) => {
                let (front, after) = rest.split_at(len);
                let span = Span {
                    start: at as u32,
                    stop: (at + len) as u32,
                };
                return Ok(Some(Next {
                    token: Token {
                        text: slice_at(text, at, front),
                        span,
                    },
                    rest: after,
                    at: at + len,
                }));
            }
            Piece::Bad => return Err(TextFault::BadByte(at as u32)),
        }
    }
    Ok(None)
}

/// The parentheses and words of a text, in order.
pub fn tokens<'a>(alloc: Global, text: &'a str) -> Result<Vec<Token<'a>>, TextFault>
    ensures found { IfOk result (λ ts. placed 0 text.now ≡ Ok (map placed_of ts.items)) }
    ensures slices { IfOk result (λ ts. Covers text.now 0 ts.items) }
    ensures limited { OnOk result (length text.now ≤ max_text) }
    ensures refused { IfErr result (λ e. HasNoLexemes text.now e) }
{
    let bytes = text.as_bytes();
    if bytes.len() > MAX_TEXT {
        return Err(TextFault::TooLong);
    }
    let mut tokens = Vec::new(alloc);
    let mut rest = bytes;
    let mut at = 0;
    'tokens: while let Some(next) = next_token(text, rest, at)? {
        tokens.push(next.token)?;
        rest = next.rest;
        at = next.at;
    }
    Ok(tokens)
}
