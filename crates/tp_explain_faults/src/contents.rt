//! What the files of a call hold.

use std::alloc::{AllocError, Global};
use tp_cli_files::{Files, open_text};
use tp_device::Source as Reader;
use tp_explain_text::{Source, Text, Tree, read_tree};

/// The most bytes of a text.
const LONGEST: usize = 1_048_577;

/// The bytes of the file of a name, as many as a text may have and one more. What can't be read is
/// not there.
pub fn bytes_of<N: Files>(alloc: Global, files: &mut N, name: &str) -> Result<Vec<u8>, AllocError> {
    let mut bytes = Vec::new(alloc);
    let Ok(source) = files.open(name) else {
        return Ok(bytes);
    };
    let mut source = source;
    let mut chunk = [0; 4096];
    for _ in 0..LONGEST {
        if bytes.len() >= LONGEST {
            break;
        }
        match source.pull(&mut chunk) {
            Ok(count) if count > 0 => {
                bytes.extend_from_slice(chunk.get(..count).unwrap_or(&[]))?;
            }
            _ => break,
        }
    }
    Ok(bytes)
}

/// The text of the file of a name, if it has one.
pub fn text_in<N: Files>(alloc: Global, files: &mut N, name: &str) -> Option<String> {
    open_text(alloc, files, name).ok()
}

/// A file of a call whose text is a tree.
#[derive(Drop)]
pub struct ReadText {
    name: String,
    text: String,
    tree: Tree,
}

/// The text of the file of a name, if it is a tree.
pub fn read_text<N: Files>(alloc: Global, files: &mut N, name: &str) -> Option<ReadText> {
    let text = text_in(alloc, files, name)?;
    let tree = read_tree(alloc, text.as_str()).ok()?;
    let name = String::from_str(alloc, name).ok()?;
    Some(ReadText { name, text, tree })
}

/// The text that was read.
pub fn text_of<'w>(read: &'w ReadText) -> Text<'w> {
    let source = Source {
        name: read.name.as_str(),
        text: read.text.as_bytes(),
    };
    Text {
        source,
        tree: &read.tree,
    }
}
