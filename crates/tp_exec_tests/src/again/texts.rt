//! Words and trees.

use std::alloc::Global;
use std::test::Fail;
use tp_testkit::{MATCH, TOGGLE};
use tp_text::{TextFault, Tree, read_tree, tokens};

/// How many words a text has.
fn words_in(alloc: Global, text: &str) -> Result<usize, TextFault> {
    let words = tokens(alloc, text)?;
    Ok(words.len())
}

/// How many members the list of a text has.
fn members_in(alloc: Global, text: &str) -> Result<usize, TextFault> {
    match read_tree(alloc, text)? {
        Tree::Word(_) => Ok(0),
        Tree::List { items, span: _ } => Ok(items.len()),
    }
}

#[test]
fn words_and_trees(rt: HostRuntime) -> Result<(), Fail> {
    for (text, words, members) in [(MATCH, 128, 7), (TOGGLE, 94, 7)] {
        assert!(rt; again!(words_in(rt.alloc(), text))? == words);
        assert!(rt; again!(members_in(rt.alloc(), text))? == members);
    }
    Ok(())
}
