//! Which list of a text is not closed, by its indentation: a line that begins with a list or with a
//! field of an action tells that a list before it should have ended.

use std::alloc::{AllocError, Global};
use tp_syntax_ast::key_of;

/// Which lines tell something.
#[derive(Clone, Copy, PartialEq, Eq)]
pub(crate) enum Rules {
    /// Those that begin with a list or a field.
    All,
    /// Those that begin with a field.
    Fields,
    /// None.
    Nothing,
}

/// A list that should have ended before its witness, a list or a field that begins a line.
#[derive(Clone, Copy)]
pub(crate) struct Suspect {
    pub list: usize,
    pub witness: usize,
    pub is_field: bool,
}

/// What a reading of a text found.
#[derive(Clone, Copy)]
pub(crate) struct Reading {
    /// The first list that should have ended before.
    pub first: Option<Suspect>,
    /// How many lists are open at the end.
    pub open: usize,
    /// Whether the text is one list, where those that should have ended count as closed.
    pub is_one: bool,
}

/// A list that is open.
#[derive(Drop)]
struct Open {
    at: usize,
    line: usize,
    column: usize,
    begins_line: bool,
    is_action: bool,
    members: usize,
    has_list: bool,
    is_flat: bool,
    // The columns of the first list in it and of those that begin a line.
    columns: Vec<usize>,
}

/// Where a list or a word begins.
#[derive(Clone, Copy)]
struct Spot {
    at: usize,
    line: usize,
    column: usize,
    begins_line: bool,
}

/// A reader of a text.
#[derive(Drop)]
struct Reader {
    alloc: Global,
    rules: Rules,
    stack: Vec<Open>,
    first: Option<Suspect>,
    is_ended: bool,
    is_broken: bool,
}

impl Reader {
    /// Whether the innermost list should have ended before a list in a column of a line.
    fn is_suspect(&self, spot: Spot) -> bool {
        let open = self.stack.as_slice();
        let [.., outer, inner] = open else {
            return false;
        };
        if inner.line >= spot.line || inner.members < 2 || inner.is_flat {
            return false;
        }
        inner.column == spot.column
            || (inner.begins_line && inner.column >= spot.column)
            || outer.columns.contains(&spot.column)
    }

    /// Whether the innermost list should have ended before a field.
    fn is_no_action(&self) -> bool {
        match self.stack.as_slice() {
            [_, .., inner] => !inner.is_action,
            _ => false,
        }
    }

    /// Counts the innermost list as closed.
    fn close_before(&mut self, witness: usize, is_field: bool) {
        let Some(open) = self.stack.pop() else {
            return;
        };
        if self.first.is_none() {
            self.first = Some(Suspect {
                list: open.at,
                witness,
                is_field,
            });
        }
    }

    /// Tells the innermost list of a list in it.
    fn tell_list(&mut self, spot: Spot) -> Result<(), AllocError> {
        let Some(open) = self.stack.last_mut() else {
            return Ok(());
        };
        open.members = open.members.saturating_add(1);
        if spot.begins_line && spot.column <= open.column {
            open.is_flat = true;
        }
        let counts = spot.begins_line || !open.has_list;
        open.has_list = true;
        if counts && !open.columns.contains(&spot.column) {
            open.columns.push(spot.column)?;
        }
        Ok(())
    }

    /// Takes a parenthesis that begins a list.
    fn begin(&mut self, spot: Spot) -> Result<(), AllocError> {
        if spot.begins_line && self.rules == Rules::All {
            for _ in 0..self.stack.len() {
                if !self.is_suspect(spot) {
                    break;
                }
                self.close_before(spot.at, false);
            }
        }
        self.tell_list(spot)?;
        if self.is_ended {
            self.is_broken = true;
        }
        let columns = Vec::new(self.alloc);
        self.stack.push(Open {
            at: spot.at,
            line: spot.line,
            column: spot.column,
            begins_line: spot.begins_line,
            is_action: false,
            members: 0,
            has_list: false,
            is_flat: false,
            columns,
        })?;
        Ok(())
    }

    /// Takes a parenthesis that ends a list.
    fn end(&mut self) {
        match self.stack.pop() {
            Some(_) => self.is_ended = self.stack.is_empty(),
            None => self.is_broken = true,
        }
    }

    /// Takes a word.
    fn word(&mut self, spot: Spot, word: &str) {
        if spot.begins_line && self.rules != Rules::Nothing && key_of(word).is_some() {
            for _ in 0..self.stack.len() {
                if !self.is_no_action() {
                    break;
                }
                self.close_before(spot.at, true);
            }
        }
        match self.stack.last_mut() {
            Some(open) => {
                if open.members == 0 {
                    open.is_action = word.eq_ignore_ascii_case(":action")
                        || word.eq_ignore_ascii_case(":durative-action");
                }
                open.members = open.members.saturating_add(1);
            }
            None => self.is_broken = true,
        }
    }
}

/// How many bytes of a word stand at the front.
fn word_len(bytes: &[u8]) -> usize {
    for (count, byte) in bytes.iter().enumerate() {
        let ends = match *byte {
            b'(' | b')' | b';' => true,
            other => other <= b' ' || b'~' < other,
        };
        if ends {
            return count;
        }
    }
    bytes.len()
}

/// Where the reading of a text stands.
#[derive(Clone, Copy)]
struct Cursor {
    line: usize,
    line_start: usize,
    is_first: bool,
    in_comment: bool,
    // The end of the word that was taken last.
    taken: usize,
}

impl Cursor {
    /// Goes over a byte that is no part of a list or a word. Answers whether it was one.
    fn goes_over(&mut self, at: usize, byte: u8) -> bool {
        if byte == b'\n' {
            self.line = self.line.saturating_add(1);
            self.line_start = at.saturating_add(1);
            self.is_first = true;
            self.in_comment = false;
            return true;
        }
        if byte == b';' {
            self.in_comment = true;
        }
        self.in_comment || at < self.taken || byte <= b' ' || b'~' < byte
    }

    /// The spot of what begins at a place; what follows on the line does not begin it.
    fn spot(&mut self, at: usize) -> Spot {
        let begins_line = self.is_first;
        self.is_first = false;
        Spot {
            at,
            line: self.line,
            column: at.saturating_sub(self.line_start),
            begins_line,
        }
    }
}

/// Reads a text, in which lists that should have ended count as closed.
pub(crate) fn read(alloc: Global, text: &str, rules: Rules) -> Result<Reading, AllocError> {
    let mut reader = Reader {
        alloc,
        rules,
        stack: Vec::new(alloc),
        first: None,
        is_ended: false,
        is_broken: false,
    };
    let mut cursor = Cursor {
        line: 0,
        line_start: 0,
        is_first: true,
        in_comment: false,
        taken: 0,
    };
    for (at, byte) in text.as_bytes().iter().enumerate() {
        if cursor.goes_over(at, *byte) {
            continue;
        }
        let spot = cursor.spot(at);
        match *byte {
            b'(' => reader.begin(spot)?,
            b')' => reader.end(),
            _ => {
                let rest = text.get(at..).unwrap_or("");
                let length = word_len(rest.as_bytes());
                cursor.taken = at.saturating_add(length);
                reader.word(spot, rest.get(..length).unwrap_or(""));
            }
        }
    }
    Ok(Reading {
        first: reader.first,
        open: reader.stack.len(),
        is_one: reader.is_ended && !reader.is_broken && reader.stack.is_empty(),
    })
}
