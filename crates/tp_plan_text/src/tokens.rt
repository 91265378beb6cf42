//! The lexemes of a line of a plan text, one after another.

ghost use Rattle.std.specs.Prelude.{◌≡◌, ◌∷◌, [], ◌<◌, ◌≤◌, length, take, drop, All, false, MatchOption, IfSome, option_map};
ghost use Rattle.std.specs.Str.{IsAscii};
ghost use Rattle.tp_plan_text.specs.PlanLexemes.{is_sign, kind, begins_blank, begins_word, lexemes, seen, is_bare, word_first, sign_first};

use std::str::from_utf8;

/// What a byte is.
#[derive(Clone, Copy, Debug, PartialEq, Eq)]
pub(crate) enum ByteKind {
    Blank,
    Semicolon,
    Letter,
    Alone,
}

/// A lexeme of a line: a word, or a byte that stands alone.
#[derive(Clone, Copy, Debug)]
pub(crate) enum Token<'a> {
    Word(&'a str),
    Sign(u8),
}

fn is_sign(b: u8) -> bool
    ensures { result ≡ is_sign b }
{
    b == b':' || (b == b'(' || (b == b')' || (b == b'[' || b == b']')))
}

#[tactic(auto, unfolding(crate::specs::PlanLexemes::kind))]
fn kind_of(b: u8) -> ByteKind
    ensures { result ≡ kind b }
{
    if b == b' ' || (9 <= b && b <= 13) {
        ByteKind::Blank
    } else if b == b';' {
        ByteKind::Semicolon
    } else if is_sign(b) {
        ByteKind::Alone
    } else if 33 <= b && b <= 126 {
        ByteKind::Letter
    } else {
        ByteKind::Alone
    }
}

// How many letters stand at the front.
fn letter_len(line: &[u8]) -> usize
    ensures in_range { result ≤ length line.now }
    ensures letters { All (λ b. kind b ≡ ByteKind.Letter) (take result line.now) }
    ensures longest { begins_word (drop result line.now) ≡ false }
{
    for (n, b) in line.iter().enumerate() {
        if kind_of(*b) != ByteKind::Letter {
            return n;
        }
    }
    line.len()
}

// The line without the blanks at its front.
fn after_blanks(line: &[u8]) -> &[u8]
    ensures same { lexemes result.now ≡ lexemes line.now }
    ensures longest { begins_blank result.now ≡ false }
    ensures shorter { length result.now ≤ length line.now }
{
    for (n, b) in line.iter().enumerate() {
        if kind_of(*b) != ByteKind::Blank {
            return &line[n..];
        }
    }
    &[]
}

// ASCII bytes as text.
fn ascii_text(bytes: &[u8]) -> &str
    requires { IsAscii bytes.now }
    ensures { result.now ≡ bytes.now }
{
    from_utf8(bytes).unwrap()
}

/// The first lexeme of a line, and what follows it.
pub(crate) fn next_token(line: &[u8]) -> Option<(Token<'_>, &[u8])>
    ensures lexeme { MatchOption result
        (lexemes line.now ≡ []) (λ r. lexemes line.now ≡ seen r.0 ∷ lexemes r.1.now) }
    ensures shorter { IfSome result (λ r. length r.1.now < length line.now) }
{
    let front = after_blanks(line);
    let [first, rest @ ..] = front else {
        return None;
    };
    match kind_of(*first) {
        ByteKind::Blank | ByteKind::Semicolon => None,
        ByteKind::Letter => {
            let (word, after) = front.split_at(1 + letter_len(rest));
            Some((Token::Word(ascii_text(word)), after))
        }
        ByteKind::Alone => Some((Token::Sign(*first), rest)),
    }
}

/// Whether a line has no lexeme.
pub(crate) fn is_bare(line: &[u8]) -> bool
    ensures { result ≡ is_bare (lexemes line.now) }
{
    match next_token(line) {
        Some(_) => false,
        None => true,
    }
}

/// The word that comes first, and what follows it.
pub(crate) fn take_word(line: &[u8]) -> Option<(&str, &[u8])>
    ensures { option_map (λ r. (r.0.now, lexemes r.1.now)) result ≡ word_first (lexemes line.now) }
{
    let (lexeme, rest) = next_token(line)?;
    match lexeme {
        Token::Word(word) => Some((word, rest)),
        Token::Sign(_) => None,
    }
}

/// What follows this sign, if it comes first.
pub(crate) fn take_sign(line: &[u8], wanted: u8) -> Option<&[u8]>
    ensures { option_map (λ r. lexemes r.now) result ≡ sign_first wanted (lexemes line.now) }
{
    let (lexeme, rest) = next_token(line)?;
    match lexeme {
        Token::Word(_) => None,
        Token::Sign(found) => { if found == wanted { Some(rest) } else { None } }
    }
}
