//! How the elements of a picture look.

/// The style of a picture, and what its hatching and the heads of its arrows are.
pub(crate) const STYLE: &str =
    "<style>text{font:11px Helvetica,Arial,'Liberation Sans',sans-serif;fill:#222}
.t{font-size:16px;font-weight:bold}.k{font-weight:bold}.g{fill:#666}.m{text-anchor:middle}.e{text-anchor:end}
.o{stroke:#fff;stroke-width:3px;stroke-linejoin:round;paint-order:stroke}.w{fill:#fff}
.l{fill:#f5f5f5}.c{stroke:#ddd}.z{stroke:#999}.b{fill:#fff;stroke:#222}.d{fill:#555;stroke:#222}.r{fill:none;stroke:#777;stroke-width:.9px}
.a path{fill:none;stroke:#1b5e9e;stroke-width:.9px}.v{marker-end:url(#tip)}.f{stroke-dasharray:3 2}.a .x{stroke-width:7px}
.x{fill-opacity:0;stroke-opacity:0}.h{fill:url(#late);stroke:#1b5e9e;stroke-width:.7px}.p{fill:#1b5e9e}
.n{fill:none;stroke:#1b5e9e;stroke-width:1.6px}</style>
<defs><pattern id=\"late\" width=\"4\" height=\"4\" patternUnits=\"userSpaceOnUse\" patternTransform=\"rotate(45)\">
<path fill=\"#fff\" d=\"M0 0h4v4h-4z\"/><path class=\"p\" d=\"M0 0h1.7v4h-1.7z\"/></pattern>
<marker id=\"tip\" viewBox=\"0 0 6 6\" refX=\"6\" refY=\"3\" markerWidth=\"6\" markerHeight=\"6\" markerUnits=\"userSpaceOnUse\" orient=\"auto\">
<path class=\"p\" d=\"M0 0L6 3L0 6z\"/></marker></defs>
";
