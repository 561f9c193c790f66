//! How a picture looks: the sheet of styles that stands at its head.
//!
//! Ours. Classes are those that `svg.rt` and `shapes.rt` give their elements.

// The colours of a picture, by day and by night, the tip of its arrows, and its ground.
pub(crate) const STYLE: &[u8] = b"<style>
text{font:12px sans-serif;fill:#24292f}
.back{fill:#ffffff}
.lane{stroke:#d0d7de}
.box{fill:#f6f8fa;stroke:#afb8c1}
.head{font-weight:bold;text-anchor:middle}
.step{fill:#6e7781;text-anchor:end}
.deed{paint-order:stroke;stroke:#ffffff;stroke-width:4px}
.times{fill:#8250df;font-weight:bold}
.fold{fill:#8250df;fill-opacity:.08}
.move{fill:none;stroke:#0969da;stroke-width:2;marker-end:url(#tip)}
.tip{fill:#0969da}
.count{fill:#0969da;font-weight:bold;text-anchor:middle}
.aside{fill:#0969da;font-weight:bold}
.tie{stroke:#8c959f;stroke-dasharray:3 3}
.dot{fill:#57606a}
.done{fill:#1a7f37}
.event{fill:#8250df}
.host{fill:#0969da}
.wait{fill:none;stroke:#bf8700;stroke-width:2}
.gone{fill:none;stroke:#57606a;stroke-width:2}
.refused{fill:none;stroke:#cf222e;stroke-width:2}
.said{fill:#6e7781}
.waits{fill:#9a6700}
.bad{fill:#cf222e}
@media(prefers-color-scheme:dark){
text{fill:#e6edf3}
.back{fill:#0d1117}
.lane{stroke:#30363d}
.box{fill:#161b22;stroke:#484f58}
.step,.said{fill:#8d96a0}
.deed{stroke:#0d1117}
.times,.event{fill:#ab7df8}
.move{stroke:#4493f8}
.tip,.count,.aside,.host{fill:#4493f8}
.dot{fill:#8d96a0}
.gone{stroke:#8d96a0}
.done{fill:#3fb950}
.wait{stroke:#d29922}
.waits{fill:#d29922}
.refused{stroke:#f85149}
.bad{fill:#f85149}
}
</style>
<defs><marker id=\"tip\" viewBox=\"0 0 8 8\" refX=\"8\" refY=\"4\" markerWidth=\"8\" markerHeight=\"8\" markerUnits=\"userSpaceOnUse\" orient=\"auto\"><path class=\"tip\" d=\"M0 0L8 4L0 8z\"/></marker></defs>
<rect class=\"back\" width=\"100%\" height=\"100%\"/>
";
