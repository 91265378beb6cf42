//! The elements of a picture. Each is a line.

use crate::picture::lengths::Length;
use crate::picture::letters::{SMALL, width};
use std::alloc::AllocError;
use std::fmt::Write;

/// Puts a text between tags.
pub(crate) fn put_text(svg: &mut String, text: &str) -> Result<(), AllocError> {
    for letter in text.chars() {
        match letter {
            '&' => svg.push_str("&amp;")?,
            '<' => svg.push_str("&lt;")?,
            '>' => svg.push_str("&gt;")?,
            _ => svg.push(letter)?,
        }
    }
    Ok(())
}

/// Begins an element of a class.
fn begin(svg: &mut String, tag: &str, class: &str) -> Result<(), AllocError> {
    if class.is_empty() {
        write!(svg, "<{tag}")
    } else {
        write!(svg, "<{tag} class=\"{class}\"")
    }
}

/// Begins a group of a class, up to the text of its title.
pub(crate) fn begin_group(svg: &mut String, class: &str) -> Result<(), AllocError> {
    begin(svg, "g", class)?;
    svg.push_str("><title>")
}

/// Ends the title of a group.
pub(crate) fn end_title(svg: &mut String) -> Result<(), AllocError> {
    svg.push_str("</title>\n")
}

/// Ends a group.
pub(crate) fn end_group(svg: &mut String) -> Result<(), AllocError> {
    svg.push_str("</g>\n")
}

/// Puts a rectangle.
pub(crate) fn put_rect(
    svg: &mut String,
    class: &str,
    x: Length,
    y: Length,
    wide: Length,
    high: Length,
) -> Result<(), AllocError> {
    begin(svg, "rect", class)?;
    write!(svg, " x=\"{x}\" y=\"{y}\"")?;
    writeln!(svg, " width=\"{wide}\" height=\"{high}\"/>")
}

/// Puts a path.
pub(crate) fn put_path(svg: &mut String, class: &str, path: &str) -> Result<(), AllocError> {
    begin(svg, "path", class)?;
    writeln!(svg, " d=\"{path}\"/>")
}

/// Begins a text of a class at a place.
fn begin_text(svg: &mut String, class: &str, x: Length, y: Length) -> Result<(), AllocError> {
    begin(svg, "text", class)?;
    write!(svg, " x=\"{x}\" y=\"{y}\"")
}

/// Ends a text: an element without letters is closed at once.
fn end_text(svg: &mut String, text: &str) -> Result<(), AllocError> {
    if text.is_empty() {
        return svg.push_str("/>\n");
    }
    svg.push_str(">")?;
    put_text(svg, text)?;
    svg.push_str("</text>\n")
}

/// Puts a text at a place.
pub(crate) fn put_words(
    svg: &mut String,
    class: &str,
    x: Length,
    y: Length,
    text: &str,
) -> Result<(), AllocError> {
    begin_text(svg, class, x, y)?;
    end_text(svg, text)
}

/// Puts a text at a place that is as wide in every font.
pub(crate) fn put_fitted(
    svg: &mut String,
    class: &str,
    x: Length,
    y: Length,
    text: &str,
) -> Result<(), AllocError> {
    let wide = width(text, SMALL);
    begin_text(svg, class, x, y)?;
    write!(
        svg,
        " textLength=\"{wide}\" lengthAdjust=\"spacingAndGlyphs\""
    )?;
    end_text(svg, text)
}

/// Puts a text at a place, with a title.
pub(crate) fn put_titled(
    svg: &mut String,
    class: &str,
    x: Length,
    y: Length,
    title: &str,
    text: &str,
) -> Result<(), AllocError> {
    begin_text(svg, class, x, y)?;
    svg.push_str("><title>")?;
    put_text(svg, title)?;
    svg.push_str("</title>")?;
    put_text(svg, text)?;
    svg.push_str("</text>\n")
}
