//! The form of a line of a plan text.

ghost use Rattle.std.specs.Prelude.{◌≡◌, map, IfOk, option_map};
ghost use Rattle.std.specs.List.{list_all};
ghost use Rattle.tp_syntax_ast.specs.Terms.{is_name};
ghost use Rattle.tp_task.specs.Readable.{are_names};
ghost use Rattle.tp_plan_text.specs.PlanLexemes.{lexemes};
ghost use Rattle.tp_plan_text.specs.PlanForms.{form_view, head_of, words_of, bracket_of, end_of, form_of, is_duration, is_well_formed, FormsAreWritten};

use crate::tokens::{Token, is_bare, next_token, take_sign, take_word};
use std::alloc::{AllocError, Global};
use tp_syntax_ast::is_name;
use tp_text::has_time_form;

/// What stands on a line: `TIME: (WORD ..)`, and `[DURATION]` or not.
#[derive(Drop)]
pub(crate) struct Form<'a> {
    pub(crate) time: &'a str,
    pub(crate) words: Vec<&'a str>,
    pub(crate) duration: Option<&'a str>,
}

// A time, ':' and '(', and what follows.
fn read_head(line: &[u8]) -> Option<(&str, &[u8])>
    ensures { option_map (λ r. (r.0.now, lexemes r.1.now)) result ≡ head_of (lexemes line.now) }
{
    let (time, after) = take_word(line)?;
    let behind = take_sign(after, b':')?;
    let inside = take_sign(behind, b'(')?;
    Some((time, inside))
}

// Words up to ')', and what follows.
fn read_words<'a>(
    alloc: Global,
    line: &'a [u8],
) -> Result<Option<(Vec<&'a str>, &'a [u8])>, AllocError>
    ensures { IfOk result (λ r. option_map (λ p. (map (λ w. w.now) p.0.items, lexemes p.1.now)) r
        ≡ words_of (lexemes line.now)) }
{
    let mut words = Vec::new(alloc);
    let mut rest = line;
    'words: while let Some((lexeme, after)) = next_token(rest) {
        match lexeme {
            Token::Word(word) => words.push(word)?,
            Token::Sign(sign) => {
                if sign == b')' {
                    return Ok(Some((words, after)));
                }
                return Ok(None);
            }
        }
        rest = after;
    }
    Ok(None)
}

// A word in brackets, with nothing behind them.
fn read_bracket(line: &[u8]) -> Option<&str>
    ensures { option_map (λ d. d.now) result ≡ bracket_of (lexemes line.now) }
{
    let inside = take_sign(line, b'[')?;
    let (duration, after) = take_word(inside)?;
    let behind = take_sign(after, b']')?;
    if is_bare(behind) {
        Some(duration)
    } else {
        None
    }
}

// Nothing, or a word in brackets with nothing behind them.
fn read_end(line: &[u8]) -> Option<Option<&str>>
    ensures { option_map (λ d. option_map (λ t. t.now) d) result ≡ end_of (lexemes line.now) }
{
    if is_bare(line) {
        return Some(None);
    }
    let duration = read_bracket(line)?;
    Some(Some(duration))
}

/// The form of a line, if it has one.
pub(crate) fn read_form<'a>(alloc: Global, line: &'a [u8]) -> Result<Option<Form<'a>>, AllocError>
    ensures { IfOk result (λ r. option_map form_view r ≡ form_of (lexemes line.now)) }
{
    let Some((time, inside)) = read_head(line) else {
        return Ok(None);
    };
    let Some((words, behind)) = read_words(alloc, inside)? else {
        return Ok(None);
    };
    let Some(duration) = read_end(behind) else {
        return Ok(None);
    };
    Ok(Some(Form {
        time,
        words,
        duration,
    }))
}

fn all_names(words: &[&str]) -> bool
    ensures { result ≡ list_all (λ w. is_name w.now) words.now }
{
    words.iter().all(|w| is_name(w.as_bytes()))
}

fn are_names(words: &[&str]) -> bool
    ensures { result ≡ are_names (map (λ w. w.now) words.now) }
{
    match words {
        [] => false,
        [_, ..] => all_names(words),
    }
}

fn is_duration(duration: Option<&str>) -> bool
    ensures { result ≡ is_duration (option_map (λ d. d.now) duration.entry) }
{
    match duration {
        None => true,
        Some(word) => has_time_form(word),
    }
}

/// Whether the times have the form of times, and the other words are names.
pub(crate) fn is_well_formed(form: &Form<'_>) -> bool
    ensures { result ≡ is_well_formed (form_view form.now) }
{
    has_time_form(form.time) && (are_names(form.words.as_slice()) && is_duration(form.duration))
}

/// A line has a form exactly if its lexemes are those that the form writes.
pub fn forms_are_written()
    ensures { FormsAreWritten }
{}
