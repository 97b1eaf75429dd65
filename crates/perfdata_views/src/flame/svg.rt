//! The SVG of a flame graph.
ghost use Rattle.std.specs.Prelude.{ℕ, List, OnOk};
ghost use Rattle.std.specs.Io.KnownBytes.{Appends};

use crate::counts::LineCounts;
use crate::differences::{Comparison, OldCounts};
use crate::entry_tree::{EntryTree, entry_tree};
use crate::flame::boxes::{DrawnBoxes, FlameBox, GRAPH_WIDTH, drawn_boxes};
use crate::flame::changes::{OldLines, ShareChange};
use crate::flame::colors::{frame_color, lighter};
use crate::flame::script::{CHANGES_LEGEND, LEGEND, SCRIPT, START, STYLE};
use crate::flame::span::{WidthSpan, share};
use crate::flame::xml_text::XmlText;
use crate::lines::lines;
use crate::share::Share;
use bstr::ByteSlice;
use perfdata_profile::function_kinds::{FrameKind, FunctionKinds, LineRange};
use perfdata_profile::profile::Profile;
use std::alloc::Global;
use std::fmt::{Display, Formatter};
use std::io::Write;
use std::{fmt, io};

// The parts of the graph's width in which places of boxes are written: ten thousand for a percent.
const WIDTH_PARTS: u64 = 1_000_000;

// The distance of the graph from the left and the right side, in pixels.
const MARGIN: u64 = 10;

// The distance of the graph from the upper side, in pixels.
const TOP: u64 = 58;

// The distance of the graph from the lower side, in pixels.
const BOTTOM: u64 = 30;

// The height of a row of boxes, in pixels.
const ROW_HEIGHT: u64 = 18;

// The width of a character, in hundredths of a pixel.
const CHARACTER_WIDTH: u64 = 723;

// The distance of a name from the sides of its box, in pixels.
const NAME_MARGIN: u64 = 3;

// The smallest number of characters of a name for which it is written into its box.
const MIN_CHARACTERS: u64 = 3;

// The box of all samples.
const ALL: Label<'static> = Label {
    kind: FrameKind::Thread,
    is_inlined: false,
    text: b"all",
    file: b"",
    source: b"",
    lines: LineRange { first: 0, last: 0 },
};

/// What a flame graph says of itself.
#[derive(Clone, Copy)]
pub struct Caption<'a> {
    /// The heading, as `cycles: 1024 samples, 2.31 s, make all`.
    pub title: &'a [u8],
    /// What is counted, as `samples`.
    pub unit: &'a str,
}

// Displays parts of the graph's width as percent.
#[derive(Clone, Copy)]
struct WidthParts(u64);

impl Display for WidthParts {
    fn fmt<W: fmt::Write>(&self, f: &mut Formatter<W>) -> fmt::Result {
        write!(f, "{}.{:04}%", self.0 / 10_000, self.0 % 10_000)
    }
}

// A box in the picture.
#[derive(Clone, Copy)]
struct BoxGeometry {
    /// What is left of it, in parts of the graph's width.
    left: u64,
    /// Its width, in parts of the graph's width.
    width: u64,
    /// The number of rows above it.
    row: u64,
}

// What is the same for all boxes.
#[derive(Clone, Copy)]
struct Picture<'a> {
    profile: &'a Profile,
    tree: &'a EntryTree,
    /// What code functions are, if it is known.
    function_kinds: Option<&'a FunctionKinds>,
    /// The sum of all weights.
    total: u64,
    /// What is counted.
    unit: &'a str,
    /// The profile that this one is compared with, if there is one.
    old: Option<OldProfile<'a>>,
}

// The lines of an old profile.
#[derive(Clone, Copy)]
struct OldProfile<'a> {
    alloc: Global,
    lines: &'a OldLines,
    /// The sum of all weights.
    total: u64,
    /// How what it counts is written.
    counts: OldCounts,
}

// What is written in a box, and of it.
#[derive(Clone, Copy)]
struct Label<'a> {
    kind: FrameKind,
    is_inlined: bool,
    text: &'a [u8],
    file: &'a [u8],
    /// The source file, or nothing, and the lines.
    source: &'a [u8],
    lines: LineRange,
}

impl<'a> Label<'a> {
    // Returns what is written of what is in no file.
    fn without_file(kind: FrameKind, text: &'a [u8]) -> Label<'a> {
        Label { kind, text, ..ALL }
    }
}

impl<'a> Picture<'a> {
    // Returns what is written in a box. An outermost box is that of a thread.
    fn label(&self, flame_box: &FlameBox) -> Label<'a> {
        let text = self.tree.text(flame_box.text);
        if flame_box.depth == 0 {
            return Label::without_file(FrameKind::Thread, text);
        }
        let function = self.profile.tables.names.id(flame_box.text);
        let (Some(kinds), Some(name)) = (self.function_kinds, function) else {
            return Label::without_file(FrameKind::Unknown, text);
        };
        let (source, lines) = kinds.source(name);
        Label {
            kind: kinds.kind(name),
            is_inlined: kinds.is_inlined(name),
            text,
            file: kinds.path(name),
            source,
            lines,
        }
    }

    // Returns the place of samples at a depth.
    fn place(&self, span: WidthSpan, row: u64) -> BoxGeometry {
        let left = share(span.start, self.total, WIDTH_PARTS);
        let right = share(span.end, self.total, WIDTH_PARTS);
        BoxGeometry {
            left,
            width: right.saturating_sub(left),
            row,
        }
    }

    // Returns how the share of a box changed, if there is an old profile.
    fn change(&self, flame_box: &FlameBox) -> io::Result<Option<ShareChange>> {
        let Some(old) = self.old else {
            return Ok(None);
        };
        let before = Share {
            part: old.lines.box_weight(old.alloc, self.tree, flame_box)?,
            total: old.total,
        };
        let now = Share {
            part: flame_box.span.weight(),
            total: self.total,
        };
        Ok(Some(ShareChange::of_weights(before, now, old.counts)))
    }

    // Writes what is shown for a box under the pointer: its name, its weight, its share of all weights and
    // its file.
    fn write_title(
        &self,
        label: Label<'_>,
        change: Option<ShareChange>,
        weight: u64,
        out: &mut Vec<u8>,
    ) -> io::Result<()> {
        let text = XmlText::whole(label.text);
        let percent = Share {
            part: weight,
            total: self.total,
        };
        let unit = self.unit;
        let sign = change.map_or("", |change| change.sign());
        write!(out, "<g><title>{sign}{text}\n{weight} {unit}, {percent}")?;
        if let Some(change) = change {
            change.push_text(out)?;
        }
        if !label.file.is_empty() {
            let file = XmlText::whole(label.file);
            write!(out, ", {file}")?;
        }
        write_source(label, out)?;
        out.write_all(b"</title>")
    }

    // Writes a box.
    fn write_box(
        &self,
        label: Label<'_>,
        change: Option<ShareChange>,
        span: WidthSpan,
        row: u64,
        out: &mut Vec<u8>,
    ) -> io::Result<()> {
        let place = self.place(span, row);
        self.write_title(label, change, span.weight(), out)?;
        write_rectangle(place, box_color(label, change), out)?;
        let sign = change.map_or("", |change| change.sign());
        write_name(place, sign, label.text, out)?;
        out.write_all(b"</g>\n")
    }

    // Writes the boxes: that of all samples, then those of the tree.
    fn write_boxes(&self, boxes: &[FlameBox], out: &mut Vec<u8>) -> io::Result<()> {
        let all = WidthSpan {
            start: 0,
            end: self.total,
        };
        if self.total != 0 {
            self.write_box(ALL, None, all, 0, out)?;
        }
        for flame_box in boxes {
            let row = (flame_box.depth as u64).saturating_add(1);
            let change = self.change(flame_box)?;
            self.write_box(self.label(flame_box), change, flame_box.span, row, out)?;
        }
        Ok(())
    }
}

// Returns the color of a box: that of its change, or that of its code.
fn box_color(label: Label<'_>, change: Option<ShareChange>) -> [u8; 3] {
    let color = frame_color(label.kind, label.text);
    match change {
        Some(change) => change.color(),
        None if label.is_inlined => lighter(color),
        None => color,
    }
}

// Writes the source file of a function and its lines with samples, if they are known.
fn write_source(label: Label<'_>, out: &mut Vec<u8>) -> io::Result<()> {
    if label.source.is_empty() {
        return Ok(());
    }
    let source = XmlText::whole(label.source);
    let LineRange { first, last } = label.lines;
    write!(out, ", {source}:{first}")?;
    if first != last {
        write!(out, "-{last}")?;
    }
    Ok(())
}

// Returns the number of rows of boxes: that of all samples, and those below it.
fn row_count(boxes: &[FlameBox]) -> u64 {
    let mut rows = 1u64;
    for flame_box in boxes {
        rows = rows.max((flame_box.depth as u64).saturating_add(2));
    }
    rows
}

// Writes how many boxes are left out, if there are any.
fn write_omissions(drawn: &DrawnBoxes, out: &mut Vec<u8>) -> io::Result<()> {
    let narrow = drawn.omitted;
    if narrow == 0 {
        return Ok(());
    }
    let all = drawn.boxes.len().saturating_add(narrow);
    writeln!(
        out,
        "<!-- {narrow} of {all} boxes are left out: they are narrower than"
    )?;
    writeln!(out, "a tenth of a pixel of {GRAPH_WIDTH} -->")
}

// Returns the position of the upper side of a row in the graph, in pixels.
fn box_top(row: u64) -> u64 {
    row.saturating_mul(ROW_HEIGHT)
}

// Writes the rectangle of a box.
fn write_rectangle(place: BoxGeometry, color: [u8; 3], out: &mut Vec<u8>) -> io::Result<()> {
    let (x, y) = (WidthParts(place.left), box_top(place.row));
    let (width, height) = (WidthParts(place.width), ROW_HEIGHT - 1);
    let (red, green, blue) = (color[0], color[1], color[2]);
    write!(
        out,
        r#"<rect x="{x}" y="{y}" width="{width}" height="{height}""#
    )?;
    write!(out, r##" fill="#{red:02x}{green:02x}{blue:02x}"/>"##)
}

// Returns the number of characters that fit into a box.
fn character_count(place: BoxGeometry) -> u64 {
    let hundredths = share(place.width, WIDTH_PARTS, GRAPH_WIDTH * 100);
    hundredths.saturating_sub(2 * NAME_MARGIN * 100) / CHARACTER_WIDTH
}

// Writes a sign and as much of the name of a box as fits, if that is enough.
fn write_name(place: BoxGeometry, sign: &str, name: &[u8], out: &mut Vec<u8>) -> io::Result<()> {
    let limit = character_count(place).saturating_sub(sign.len() as u64);
    if limit < MIN_CHARACTERS {
        return Ok(());
    }
    let length = name.chars().count() as u64;
    if length <= limit {
        return write_text(place, sign, name, length, "", out);
    }
    write_text(place, sign, name, limit.saturating_sub(2), "..", out)
}

// Writes a sign, the first characters of a name, and what follows them.
fn write_text(
    place: BoxGeometry,
    sign: &str,
    name: &[u8],
    length: u64,
    end: &str,
    out: &mut Vec<u8>,
) -> io::Result<()> {
    let text = XmlText {
        bytes: name,
        limit: length as usize,
    };
    let x = WidthParts(place.left);
    let y = box_top(place.row).saturating_add(13);
    write!(
        out,
        r#"<text x="{x}" dx="{NAME_MARGIN}" y="{y}">{sign}{text}{end}</text>"#
    )
}

// Writes what precedes the boxes: the size of the picture, its title and its look.
fn write_start(title: &[u8], legend: &str, height: u64, out: &mut Vec<u8>) -> io::Result<()> {
    let title = XmlText::whole(title);
    let width = GRAPH_WIDTH + 2 * MARGIN;
    out.write_all(START.as_bytes())?;
    write!(
        out,
        r#" width="{width}" height="{height}" viewBox="0 0 {width} {height}""#
    )?;
    writeln!(out, r#" aria-label="Flame graph of {title}">"#)?;
    out.write_all(STYLE.as_bytes())?;
    writeln!(out, r#"<text x="{MARGIN}" y="18">{title}</text>"#)?;
    out.write_all(legend.as_bytes())
}

// Writes the graph: its place, and the boxes.
fn write_graph(
    picture: &Picture<'_>,
    drawn: &DrawnBoxes,
    height: u64,
    out: &mut Vec<u8>,
) -> io::Result<()> {
    write_omissions(drawn, out)?;
    writeln!(
        out,
        r#"<svg id="boxes" x="{MARGIN}" y="{TOP}" width="{GRAPH_WIDTH}" height="{height}">"#
    )?;
    picture.write_boxes(drawn.boxes.as_slice(), out)?;
    out.write_all(b"</svg>\n")
}

// Writes what follows the boxes: the line at the foot, and the script.
fn write_end(height: u64, out: &mut Vec<u8>) -> io::Result<()> {
    let y = height.saturating_sub(8);
    writeln!(out, r#"<text id="details" x="{MARGIN}" y="{y}"></text>"#)?;
    out.write_all(b"<script><![CDATA[")?;
    out.write_all(SCRIPT.as_bytes())?;
    out.write_all(b"]]></script>\n</svg>\n")
}

// Returns the flame graph of a profile.
fn flame_graph(
    alloc: Global,
    profile: &Profile,
    function_kinds: Option<&FunctionKinds>,
    old: Option<OldProfile<'_>>,
    caption: Caption<'_>,
) -> io::Result<Vec<u8>> {
    let tree = entry_tree(alloc, profile)?;
    let drawn = drawn_boxes(alloc, &tree)?;
    let picture = Picture {
        profile,
        tree: &tree,
        function_kinds,
        total: drawn.total,
        unit: caption.unit,
        old,
    };
    let legend = match old {
        Some(_) => CHANGES_LEGEND,
        None => LEGEND,
    };
    let graph_height = box_top(row_count(drawn.boxes.as_slice()));
    let height = graph_height.saturating_add(TOP + BOTTOM);
    let mut out = Vec::new(alloc);
    write_start(caption.title, legend, height, &mut out)?;
    write_graph(&picture, &drawn, graph_height, &mut out)?;
    write_end(height, &mut out)?;
    Ok(out)
}

/// Writes the flame graph of a profile as an SVG file: a box for each node of its tree, as wide as its share
/// of all weights, below that of its caller. `function_kinds` says what code functions are, if it is known.
/// Boxes below a tenth of a pixel at a width of 1,180 pixels are left out, and a comment says how many.
///
/// Fails if memory runs out or if the output can't be written.
pub fn write_svg<W: Write>(
    alloc: Global,
    profile: &Profile,
    function_kinds: Option<&FunctionKinds>,
    caption: Caption<'_>,
    out: &mut W,
) -> io::Result<()>
    ensures { OnOk result ((picture : List ℕ) × Appends (W.contents out.old) (W.contents out.new) picture) }
{
    out.write_all(flame_graph(alloc, profile, function_kinds, None, caption)?.as_slice())
}

// Returns the flame graph of a profile with the changes since another one, whose lines have counts.
fn changed_graph(
    alloc: Global,
    old_counts: &LineCounts,
    compared: Comparison<'_>,
    function_kinds: Option<&FunctionKinds>,
    caption: Caption<'_>,
) -> io::Result<Vec<u8>> {
    let old_lines = OldLines::of_counts(alloc, old_counts)?;
    let old = OldProfile {
        alloc,
        lines: &old_lines,
        total: old_counts.total(),
        counts: compared.counts,
    };
    flame_graph(alloc, compared.new, function_kinds, Some(old), caption)
}

/// Writes the flame graph of a new profile as an SVG file, in which the color of a box and the sign before
/// its name say how its share changed since an old profile: red and `+` for more, blue and `-` for less.
///
/// Fails if memory runs out or if the output can't be written.
pub fn write_changes<W: Write>(
    alloc: Global,
    compared: Comparison<'_>,
    function_kinds: Option<&FunctionKinds>,
    caption: Caption<'_>,
    out: &mut W,
) -> io::Result<()>
    ensures { OnOk result ((picture : List ℕ) × Appends (W.contents out.old) (W.contents out.new) picture) }
{
    let old_counts = lines(alloc, compared.old)?;
    let graph = changed_graph(alloc, &old_counts, compared, function_kinds, caption)?;
    out.write_all(graph.as_slice())
}
