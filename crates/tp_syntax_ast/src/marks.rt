//! Rows of items that are alike: a mark on an item says that it is as the one before it.

ghost use Rattle.std.specs.Prelude.{◌≡◌};
ghost use Rattle.tp_syntax_ast.specs.Rows.{is_marked};

/// Whether the item at a place is marked. Where there are no more marks, it isn't.
pub fn is_marked(marks: &[bool], place: usize) -> bool
    ensures { result ≡ is_marked marks.now place }
{
    match marks.get(place) {
        Some(mark) => *mark,
        None => false,
    }
}
