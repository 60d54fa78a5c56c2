//! The parts of the picture as SVG.

use crate::escape::push_escaped;
use std::alloc::{AllocError, Global};
use std::fmt::Write;

/// How the parts look. What tells them apart is their shape, their outline and their letter, and colour besides.
const STYLE: &str = r##"<style>
text{font-family:sans-serif;font-size:13px;fill:#1a1a1a}
.h{font-size:18px;font-weight:bold}
.w{font-weight:bold;fill:#8a1f11}
.n{font-size:11px;fill:#595959}
.o{font-size:12px}
.t,.p{font-family:monospace;font-size:12px;paint-order:stroke;stroke:#fff;stroke-width:3px;white-space:pre}
.p{fill:#0b4f6c}
.m{font-family:monospace;font-size:12px;font-weight:bold;text-anchor:middle}
.i{fill:#fff}
.lane{stroke:#8c8c8c;stroke-width:1}
.grid{stroke:#e4e4e4;stroke-width:1}
.bar{fill:#bcd9ef;fill-opacity:.7;stroke:#24567a;stroke-width:1.5}
.lost{fill:url(#hatch);fill-opacity:.6;stroke:#8a1f11;stroke-width:1.5;stroke-dasharray:5 3}
.void{fill:#f3f3f3;fill-opacity:.7;stroke:#1a1a1a;stroke-width:1.5;stroke-dasharray:1.5 3}
.cause{fill:none;stroke:#8a1f11;stroke-width:1.2;stroke-dasharray:6 3}
.send{fill:none;stroke:#4b2e83;stroke-width:1.3;marker-end:url(#head)}
</style>
"##;

/// The signs, each round its origin.
const SIGNS: &str = r##"<defs>
<pattern id="hatch" width="6" height="6" patternUnits="userSpaceOnUse" patternTransform="rotate(45)"><rect width="6" height="6" fill="#fbeeec"/><line y2="6" stroke="#d99a91" stroke-width="2"/></pattern>
<marker id="head" viewBox="0 0 10 10" refX="21" refY="5" markerWidth="9" markerHeight="9" markerUnits="userSpaceOnUse" orient="auto"><path d="M0 0L10 5L0 10z" fill="#4b2e83"/></marker>
<g id="commit"><circle r="9" fill="#24567a" stroke="#24567a"/><text class="m i" y="4">C</text></g>
<g id="retry"><circle r="9" fill="#fff" stroke="#8a1f11" stroke-width="2" stroke-dasharray="4 2"/><path d="M-4 -4L4 4M-4 4L4 -4" stroke="#8a1f11" stroke-width="2"/></g>
<g id="fail"><rect x="-9" y="-9" width="18" height="18" fill="#8a1f11"/><text class="m i" y="4">F</text></g>
<g id="refused"><rect x="-9" y="-9" width="18" height="18" fill="#fff" stroke="#8a1f11" stroke-width="2"/><text class="m" y="4">N</text></g>
<g id="read"><circle r="8" fill="#fff" stroke="#1a1a1a" stroke-width="1.5"/><text class="m" y="4">r</text></g>
<g id="send"><path d="M-8 -9L11 0L-8 9z" fill="#4b2e83"/><text class="m i" x="-2" y="4">s</text></g>
<g id="send-refused"><path d="M-8 -9L11 0L-8 9z" fill="#fff" stroke="#8a1f11" stroke-width="2"/><text class="m" x="-2" y="4">n</text></g>
<g id="act"><path d="M-10 0L-5 -9H5L10 0L5 9H-5z" fill="#4b2e83"/><text class="m i" y="4">A</text></g>
<g id="swap"><path d="M0 -11L11 0L0 11L-11 0z" fill="#6b4a00"/><text class="m i" y="4">S</text></g>
<g id="broke"><path d="M0 -11L11 0L0 11L-11 0z" fill="#fff" stroke="#8a1f11" stroke-width="2"/><text class="m" y="4">F</text></g>
<g id="printed"><path d="M-5 -6H2L5 -3V6H-5z" fill="#fff" stroke="#0b4f6c" stroke-width="1.3"/><path d="M-3 -1H3M-3 2H3" stroke="#0b4f6c"/></g>
<g id="done"><path d="M0 -9V9" stroke="#1a1a1a" stroke-width="3"/></g>
<g id="failed"><path d="M-4 -9H4L9 -4V4L4 9H-4L-9 4V-4z" fill="#8a1f11"/><text class="m i" y="4">!</text></g>
<g id="stopped"><path d="M-4 -9V9M4 -9V9" stroke="#1a1a1a" stroke-width="4"/></g>
</defs>
"##;

/// What each sign means.
const LEGEND: &str = r##"<g transform="translate(24 84)">
<g><rect class="bar" y="-8" width="44" height="16"/><use href="#commit" x="44"/><text x="60" y="4">a transaction, from its read</text><text x="60" y="19">point to its commit (C)</text></g>
<g transform="translate(0 40)"><rect class="lost" y="-8" width="44" height="16"/><use href="#retry" x="44"/><text x="60" y="4">a try that is lost: the</text><text x="60" y="19">transaction has to run again</text></g>
<g transform="translate(0 80)"><path class="cause" d="M9 0H44"/><use href="#commit" x="9"/><use href="#retry" x="44"/><text x="60" y="4">from the write that is the</text><text x="60" y="19">cause of it</text></g>
<g transform="translate(270 0)"><rect class="void" y="-8" width="44" height="16"/><use href="#fail" x="44"/><text x="60" y="4">a transaction that ends</text><text x="60" y="19">with a fault (F)</text></g>
<g transform="translate(270 40)"><rect class="void" y="-8" width="44" height="16"/><use href="#refused" x="44"/><text x="60" y="4">one that is refused (N): an</text><text x="60" y="19">agent of its sends has failed</text></g>
<g transform="translate(270 80)"><use href="#read" x="44"/><text x="60" y="4">a read outside transactions</text></g>
<g transform="translate(540 0)"><use href="#send" x="10"/><text x="28" y="4">a send; n: refused,</text><text x="28" y="19">the agent has failed</text></g>
<g transform="translate(540 40)"><use href="#act" x="10"/><text x="28" y="4">an agent's action is over</text></g>
<g transform="translate(540 80)"><path class="send" d="M-24 0H10"/><use href="#act" x="10"/><text x="28" y="4">from a send to its action</text></g>
<g transform="translate(770 0)"><use href="#swap" x="10"/><text x="28" y="4">an atom's new value;</text><text x="28" y="19">F: its function faults</text></g>
<g transform="translate(770 40)"><use href="#printed" x="10"/><text class="p" x="28" y="4">what was printed there</text></g>
<g transform="translate(770 80)"><use href="#done" x="-8"/><use href="#failed" x="8"/><use href="#stopped" x="30"/><text x="46" y="4">ended, failed, stopped</text></g>
</g>
"##;

/// How many pixels are before the first column.
const LEFT: usize = 160;

/// How many pixels are behind the last column.
const RIGHT: usize = 260;

/// How many pixels are above the first lane.
const TOP: usize = 222;

/// How high a lane is.
const LANE: usize = 78;

/// How many pixels are below the last lane.
const BOTTOM: usize = 16;

/// How wide a picture is at least: so wide is what each sign means.
const NARROWEST: usize = 1_020;

/// How many pixels are between a text and what is behind it.
const GAP: usize = 6;

/// How many pixels ten characters beside a sign take.
const TEN_CHARACTERS: usize = 73;

/// A picture's size.
#[derive(Clone, Copy)]
pub(crate) struct Frame {
    /// How many columns it has.
    pub(crate) columns: usize,
    /// How many lanes it has.
    pub(crate) lanes: usize,
}

impl Frame {
    /// How wide a column is: the more there are, the narrower.
    fn column(self) -> usize {
        match self.columns {
            0..=100 => 72,
            101..=1_000 => 48,
            _ => 30,
        }
    }

    /// Where an edge is: the one right behind so many columns.
    pub(crate) fn edge(self, edge: usize) -> usize {
        LEFT.saturating_add(edge.saturating_mul(self.column()))
    }

    /// Where the middle of a column is.
    pub(crate) fn x(self, column: usize) -> usize {
        self.edge(column).saturating_add(self.column() / 2)
    }

    /// Where the middle of a lane is.
    pub(crate) fn y(self, lane: usize) -> usize {
        TOP.saturating_add(lane.saturating_mul(LANE))
            .saturating_add(LANE / 2)
    }

    /// Where the last column ends.
    pub(crate) fn end(self) -> usize {
        self.edge(self.columns)
    }

    /// How wide it is.
    pub(crate) fn width(self) -> usize {
        self.end().saturating_add(RIGHT).max(NARROWEST)
    }

    /// How high it is.
    pub(crate) fn height(self) -> usize {
        TOP.saturating_add(self.lanes.saturating_mul(LANE))
            .saturating_add(BOTTOM)
    }

    /// How many characters there is room for from one place to another, in the direction of time, with a gap behind them. Behind the last column there is
    /// more room.
    pub(crate) fn room(self, from: usize, to: usize) -> usize {
        let more = if to < self.end() { 0 } else { RIGHT };
        let pixels = to
            .saturating_add(more)
            .saturating_sub(from.saturating_add(GAP));
        pixels.saturating_mul(10) / TEN_CHARACTERS
    }
}

/// Appends what a picture begins with: its size, its title, and what its signs mean.
pub(crate) fn push_head(
    out: &mut String,
    frame: Frame,
    title: &str,
    note: &str,
) -> Result<(), AllocError> {
    let width = frame.width();
    let height = frame.height();
    write!(
        out,
        "<svg xmlns=\"http://www.w3.org/2000/svg\" viewBox=\"0 0 {width} {height}\" width=\"{width}\" height=\"{height}\" role=\"img\">\n<title>{title}</title>\n"
    )?;
    out.push_str(STYLE)?;
    out.push_str(SIGNS)?;
    write!(
        out,
        "<rect width=\"{width}\" height=\"{height}\" fill=\"#fff\"/>\n<text class=\"h\" x=\"24\" y=\"32\">{title}</text>\n<text x=\"24\" y=\"54\">Time goes from left to right, with a column for each event. Point at a sign to see more of it.<tspan class=\"w\" dx=\"12\">{note}</tspan></text>\n"
    )?;
    out.push_str(LEGEND)
}

/// Appends a line down through all lanes, before the column of an event, with its number.
pub(crate) fn push_grid(out: &mut String, frame: Frame, column: usize) -> Result<(), AllocError> {
    let x = frame.edge(column);
    let y = TOP - 6;
    let bottom = frame.height();
    let label = TOP - 10;
    write!(
        out,
        "<path class=\"grid\" d=\"M{x} {y}V{bottom}\"/><text class=\"n\" x=\"{x}\" y=\"{label}\">{column}</text>\n"
    )
}

/// Appends the line of a lane.
pub(crate) fn push_lane(out: &mut String, frame: Frame, lane: usize) -> Result<(), AllocError> {
    let y = frame.y(lane);
    let end = frame.end().saturating_add(20);
    write!(out, "<path class=\"lane\" d=\"M{LEFT} {y}H{end}\"/>\n")
}

/// Appends a text that isn't escaped yet, with these attributes.
pub(crate) fn push_label(out: &mut String, attributes: &str, text: &str) -> Result<(), AllocError> {
    write!(out, "<text {attributes}>")?;
    push_escaped(out, text)?;
    out.push_str("</text>")
}

/// Appends the beginning of a group, with a title that isn't escaped yet. Its origin is at this place.
pub(crate) fn push_group(
    out: &mut String,
    x: usize,
    y: usize,
    title: &str,
) -> Result<(), AllocError> {
    write!(out, "<g transform=\"translate({x} {y})\"><title>")?;
    push_title(out, title)?;
    out.push_str("</title>")
}

/// Appends the lines of a title.
fn push_title(out: &mut String, title: &str) -> Result<(), AllocError> {
    for line in title.split('\n') {
        push_escaped(out, line)?;
        out.push('\n')?;
    }
    Ok(())
}

/// Appends a sign at the origin.
pub(crate) fn push_sign(out: &mut String, sign: &str) -> Result<(), AllocError> {
    write!(out, "<use href=\"#{sign}\"/>")
}

/// Appends the bar of a transaction that ends at the origin.
pub(crate) fn push_bar(out: &mut String, class: &str, length: usize) -> Result<(), AllocError> {
    write!(
        out,
        "<rect class=\"{class}\" x=\"-{length}\" y=\"-8\" width=\"{length}\" height=\"16\"/>"
    )
}

/// The first characters of a text, with a sign behind them if there are more; nothing if there is room for fewer than three.
pub(crate) fn shortened(alloc: Global, text: &str, most: usize) -> Result<String, AllocError> {
    let mut short = String::new(alloc);
    if most < 3 {
        return Ok(short);
    }
    for (i, c) in text.chars().enumerate() {
        if i >= most {
            short.pop();
            short.push('\u{2026}')?;
            return Ok(short);
        }
        short.push(c)?;
    }
    Ok(short)
}

/// Appends a line from one place to another. Within a lane it bends below it.
pub(crate) fn push_link(
    out: &mut String,
    class: &str,
    from: (usize, usize),
    to: (usize, usize),
) -> Result<(), AllocError> {
    let (x, y) = from;
    let (end, down) = to;
    write!(out, "<path class=\"{class}\" d=\"M{x} {y}")?;
    if y == down {
        let middle = (x / 2).saturating_add(end / 2);
        let low = y.saturating_add(LANE / 2);
        write!(out, "Q{middle} {low} ")?;
    } else {
        out.push('L')?;
    }
    write!(out, "{end} {down}\"/>\n")
}
