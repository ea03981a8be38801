//! How a picture looks: attributes of shapes, which show it in light where a viewer knows no style, and the style with what they
//! can't say: the room of spaces, and the same colours on a dark screen and in print.

/// The box of a node's name.
pub(crate) const HEAD: &str = "class=\"head\" fill=\"#f6f8fa\" stroke=\"#d1d9e0\"";

/// The line of a node.
pub(crate) const NODE: &str = "class=\"node\" stroke=\"#59636e\" stroke-width=\"1.5\"";

/// A datagram that arrives.
pub(crate) const ARROW: &str =
    "class=\"arrow\" stroke=\"#0969da\" stroke-width=\"1.5\" marker-end=\"url(#head)\"";

/// One that never does.
pub(crate) const LOST: &str =
    "class=\"lost\" stroke=\"#59636e\" stroke-width=\"1.5\" stroke-dasharray=\"4 3\" marker-end=\"url(#end)\"";

/// The line of a moment.
pub(crate) const CLOCK: &str = "class=\"clock\" stroke=\"#d1d9e0\" stroke-dasharray=\"2 4\"";

/// The box of a table.
pub(crate) const TABLE: &str = "class=\"table\" fill=\"#f6f8fa\" stroke=\"#d1d9e0\"";

/// The title.
pub(crate) const TITLE: &str =
    "class=\"title\" fill=\"#1f2328\" font-size=\"16\" font-weight=\"600\"";

/// The name of a node.
pub(crate) const NAME: &str =
    "class=\"name\" fill=\"#1f2328\" font-weight=\"600\" text-anchor=\"middle\"";

/// What a node is.
pub(crate) const KIND: &str =
    "class=\"kind\" fill=\"#59636e\" font-size=\"12\" text-anchor=\"middle\"";

/// The number of an event.
pub(crate) const NUMBER: &str = "class=\"number\" fill=\"#59636e\" font-size=\"12\"";

/// What arrives, to the right.
pub(crate) const LABEL: &str = "class=\"label\" fill=\"#59636e\" font-size=\"12\"";

/// What arrives, to the left.
pub(crate) const BEFORE: &str =
    "class=\"before\" fill=\"#59636e\" font-size=\"12\" text-anchor=\"end\"";

/// The line that `play` prints.
pub(crate) const LINE: &str =
    "class=\"line\" fill=\"#1f2328\" font-size=\"12\" font-family=\"ui-monospace,Menlo,Consolas,monospace\"";

/// What it means.
pub(crate) const NOTE: &str = "class=\"note\" fill=\"#59636e\" font-size=\"12\"";

/// What a refusal means.
pub(crate) const REFUSAL: &str = "class=\"refusal\" fill=\"#cf222e\" font-size=\"12\"";

/// A line of a table.
pub(crate) const CELL: &str =
    "class=\"cell\" fill=\"#1f2328\" font-size=\"12\" font-family=\"ui-monospace,Menlo,Consolas,monospace\"";

/// The style of a picture and its signs. It needs no font and no file from outside, and has no script. The ground around labels is
/// for viewers that know `paint-order`: others would draw it over the words.
pub(crate) const STYLE: &str = "\
<style>
text{white-space:pre}
@supports (paint-order:stroke){.label,.before{stroke:#fff;stroke-width:3;paint-order:stroke}}
@media (prefers-color-scheme:dark){
.sheet,.d{fill:#0d1117}
.label,.before{stroke:#0d1117}
.title,.name,.line,.cell{fill:#f0f6fc}
.kind,.number,.label,.before,.note{fill:#9198a1}
.head,.table{fill:#151b23;stroke:#3d444d}
.node,.lost{stroke:#9198a1}
.clock{stroke:#3d444d}
.arrow{stroke:#4493f8}
.b{fill:#4493f8}
.r{stroke:#f85149}
.refusal{fill:#f85149}
.s{stroke:#f0f6fc}
.d{stroke:#d29922}
}
@media print{
.sheet,.d,.head,.table{fill:#fff}
.label,.before{stroke:#fff}
.title,.name,.line,.cell{fill:#000}
.kind,.number,.label,.before,.note{fill:#333}
.head,.table,.clock{stroke:#999}
.node,.lost{stroke:#333}
.arrow{stroke:#0550ae}
.b{fill:#0550ae}
.r{stroke:#a40e26}
.refusal{fill:#a40e26}
.s{stroke:#000}
.d{stroke:#7d4e00}
}
</style>
<defs>
<marker id=\"head\" markerWidth=\"9\" markerHeight=\"8\" refX=\"8.5\" refY=\"4\" orient=\"auto\" markerUnits=\"userSpaceOnUse\"><path class=\"b\" fill=\"#0969da\" d=\"M0 0L9 4L0 8z\"/></marker>
<marker id=\"end\" markerWidth=\"8\" markerHeight=\"10\" refX=\"4\" refY=\"5\" orient=\"auto\" markerUnits=\"userSpaceOnUse\"><path class=\"s\" stroke=\"#1f2328\" stroke-width=\"2\" fill=\"none\" d=\"M4 0V10\"/></marker>
<circle id=\"done\" class=\"b\" fill=\"#0969da\" r=\"4\"/>
<path id=\"refused\" class=\"r\" stroke=\"#cf222e\" stroke-width=\"2.5\" fill=\"none\" d=\"M-6 -6L6 6M-6 6L6 -6\"/>
<path id=\"started\" class=\"s\" stroke=\"#1f2328\" stroke-width=\"2\" fill=\"none\" d=\"M-9 -2L9 -8M-9 8L9 2\"/>
<path id=\"down\" class=\"r\" stroke=\"#cf222e\" stroke-width=\"2.5\" fill=\"none\" d=\"M-8 0H8\"/>
<path id=\"untaken\" class=\"r\" stroke=\"#cf222e\" stroke-width=\"2.5\" fill=\"none\" d=\"M-6 0H6\"/>
<path id=\"asked\" class=\"s\" stroke=\"#1f2328\" stroke-width=\"2\" fill=\"none\" d=\"M0 0H10\"/>
<circle id=\"doubt\" class=\"d\" fill=\"#fff\" stroke=\"#9a6700\" stroke-width=\"2\" r=\"9\"/>
</defs>
";
