//! The page of HTML that `show` writes, but for its data. They stand between two constant parts, an object of
//! JSON a line, and the script behind them draws all that is told of the volume.

/// The page up to its data.
pub const BEFORE: &str = r##"<!DOCTYPE html>
<html lang="en">
<head>
<meta charset="utf-8">
<meta name="viewport" content="width=device-width, initial-scale=1">
<meta http-equiv="Content-Security-Policy"
  content="default-src 'none'; style-src 'unsafe-inline'; script-src 'unsafe-inline'">
<title>A volume of nlkeep</title>
<style>
:root {
  color-scheme: light dark;
  --back: #fff; --text: #1b1f24; --quiet: #57606a; --line: #d0d7de; --clean: #e8ecf1;
  --needed: #2563eb; --dead: #d97706; --other: #94a3b8; --error: #dc2626; --plain: #0f766e; --minor: #6b7280;
}
@media (prefers-color-scheme: dark) {
  :root {
    --back: #14171b; --text: #e6e9ed; --quiet: #a3adba; --line: #3a424d; --clean: #262c34;
    --needed: #60a5fa; --dead: #f59e0b; --other: #64748b; --error: #f87171; --plain: #2dd4bf;
    --minor: #9aa3af;
  }
}
body {
  margin: 0 auto; max-width: 64rem; padding: 1rem; font: 16px/1.5 system-ui, sans-serif;
  background: var(--back); color: var(--text);
}
h1 { font-size: 1.5rem; overflow-wrap: anywhere }
h2 { font-size: 1.2rem; margin-top: 2rem }
nav a { margin-right: 1rem }
a { color: var(--needed) }
:focus-visible { outline: 3px solid var(--needed); outline-offset: 2px }
svg { display: block; width: 100%; height: auto; overflow: visible }
svg text { fill: var(--quiet); font-size: 14px }
table { border-collapse: collapse; width: 100% }
th, td {
  text-align: left; padding: .2rem .6rem; border-bottom: 1px solid var(--line); vertical-align: top;
  overflow-wrap: break-word;
}
.n { text-align: right; white-space: nowrap }
.date { white-space: nowrap }
.path, .kind, details { overflow-wrap: anywhere }
.kind { min-width: 8rem }
.changes { min-width: 14rem }
ul { margin: .2rem 0; padding-left: 1.2rem }
tr:target { outline: 2px solid var(--needed) }
.quiet { color: var(--quiet) }
.axis { stroke: var(--line) }
.snapshot { fill: var(--needed) }
.plain { fill: var(--back); stroke: var(--plain); stroke-width: 3 }
.minor { fill: var(--minor) }
.clean { fill: var(--clean) }
.needed { fill: var(--needed) }
.dead { fill: var(--dead) }
.other { fill: var(--other) }
.error { fill: none; stroke: var(--error); stroke-width: 14 }
.item { display: inline-block }
.key { display: inline-block; width: .8em; height: .8em; margin: 0 .3em 0 1em; border-radius: 2px }
.key.needed { background: var(--needed) }
.key.dead { background: var(--dead) }
.key.other { background: var(--other) }
.key.clean { background: var(--clean); border: 1px solid var(--line) }
.share { width: 40% }
.bar { background: var(--needed); height: .7rem; min-width: 1px; border-radius: 2px; margin-top: .4rem }
@media (max-width: 52rem) {
  thead { display: none }
  table, tbody, tr, td { display: block }
  td, td.n { border: 0; padding: 0 0 0 6rem; min-height: 1.5em; text-align: left; white-space: normal }
  td { overflow-wrap: anywhere }
  td::before { content: attr(data-name); float: left; margin-left: -6rem; color: var(--quiet) }
  tr { border-bottom: 1px solid var(--line); padding: .4rem 0 }
  .share { width: auto }
  .bar { margin-top: 0; position: relative; top: .4rem }
  svg text { font-size: 20px }
}
@media (max-width: 40rem) {
  svg text { font-size: 36px }
}
</style>
<noscript><style>nav, main { display: none }</style></noscript>
</head>
<body>
<h1></h1>
<noscript>
<p>A script in this page draws it, and scripts are turned off. <code>nlkeep list --json</code>,
<code>nlkeep diff --json</code>, <code>nlkeep df --json</code> and <code>nlkeep du</code> tell the same.</p>
</noscript>
<nav>
<a href="#time">Timeline</a>
<a href="#checkpoints">Checkpoints</a>
<a href="#segments">Segments</a>
<a href="#folders">Folders</a>
</nav>
<main>
<section id="time" aria-label="Timeline">
<h2>Timeline</h2>
<p class="quiet">From above: snapshots, plain checkpoints, minor ones.</p>
<svg viewBox="0 0 1000 120" aria-label="Timeline of checkpoints">
<line class="axis" x1="0" x2="1000" y1="25" y2="25"/>
<line class="axis" x1="0" x2="1000" y1="50" y2="50"/>
<line class="axis" x1="0" x2="1000" y1="75" y2="75"/>
</svg>
</section>
<section id="checkpoints" aria-label="Checkpoints">
<h2>Checkpoints</h2>
<table>
<thead><tr><th class="n">Number</th><th>Date</th><th class="kind">Kind</th><th class="n">Paths</th><th class="n">Bytes</th>
<th class="changes">Changes</th></tr></thead>
<tbody></tbody>
</table>
</section>
<section id="segments" aria-label="Segments">
<h2>Segments</h2>
<p></p>
<p></p>
<svg role="img" aria-label="Map of segments, of which a table follows"></svg>
<details>
<summary>The segments in a table</summary>
<table>
<thead><tr><th class="n">Segment</th><th>State</th><th class="n">Needed</th><th class="n">Dead</th>
<th class="n">Summaries</th><th class="n">Clean or unused</th></tr></thead>
<tbody></tbody>
</table>
</details>
</section>
<section id="folders" aria-label="Biggest folders of the current tree">
<h2>Biggest folders of the current tree</h2>
<table>
<thead><tr><th>Folder</th><th class="n">Bytes</th><th class="share">Share</th></tr></thead>
<tbody></tbody>
</table>
</section>
</main>
<script type="application/json" id="data">
"##;

/// The page behind its data.
pub const BEHIND: &str = r##"</script>
<script>
"use strict";

// How many paths are listed of a checkpoint at most, and how many folders.
const MOST_PATHS = 50;
const MOST_FOLDERS = 20;

const checkpoints = [];
const segments = [];
const folders = [];

// ---- elements

function find(selector) {
  return document.querySelector(selector);
}

// Control characters of names would not be seen.
function visible(text) {
  return String(text).replace(/\p{Cc}/gu, it => `\\u{${it.codePointAt(0).toString(16)}}`);
}

// Adds an element of the parent's kind, HTML or SVG.
function add(parent, tag, attributes = {}, text = "") {
  const made = document.createElementNS(parent.namespaceURI, tag);
  for (const [name, value] of Object.entries(attributes)) {
    made.setAttribute(name, value);
  }
  made.textContent = visible(text);
  parent.append(made);
  return made;
}

// Adds a cell of a column, whose name a narrow window shows beside it.
function addCell(row, name, text = "", kind = "") {
  return add(row, "td", {class: kind, "data-name": name}, text);
}

function addNumber(row, name, value) {
  addCell(row, name, value, "n");
}

// ---- the data

// Each object tells by its fields what it is of. Changes follow the checkpoint that they are of.
function read(line) {
  const told = JSON.parse(line);
  if ("checkpoint" in told) {
    checkpoints.push({...told, changes: []});
  } else if ("change" in told) {
    checkpoints.at(-1).changes.push(told);
  } else if ("state" in told) {
    segments.push(told);
  } else if ("folder" in told) {
    folders.push(told);
  } else {
    document.title = visible(told.image);
    find("h1").textContent = visible(told.image);
  }
}

function sumOf(all, field) {
  return all.reduce((sum, it) => sum + it[field], 0);
}

// ---- the timeline

// How high a checkpoint of a kind stands, and how great its mark is.
const MARKS = {snapshot: [25, 8], plain: [50, 7], minor: [75, 4]};

function kindOf(checkpoint) {
  const text = checkpoint.text ? `: ${checkpoint.text}` : "";
  return checkpoint.kind + (checkpoint.pinned ? `, pinned${text}` : "");
}

// Draws the mark of a checkpoint, which leads to its row.
function drawMark(map, checkpoint, first, last) {
  const gone = Math.max(0, checkpoint.seconds - first) / Math.max(1, last - first);
  const [height, size] = MARKS[checkpoint.kind];
  const link = add(map, "a", {href: `#c${checkpoint.checkpoint}`});
  add(link, "title", {}, `${checkpoint.checkpoint}, ${checkpoint.date}: ${kindOf(checkpoint)}`);
  add(link, "circle", {class: checkpoint.kind, cx: 20 + Math.round(960 * gone), cy: height, r: size});
}

// A volume begins at moment 0, so long before all else that the timeline doesn't go back to that.
function drawTimeline() {
  const map = find("#time svg");
  const last = checkpoints.at(-1);
  const first = checkpoints.find(it => it.seconds > 0) ?? last;
  for (const it of checkpoints) {
    drawMark(map, it, first.seconds, last.seconds);
  }
  add(map, "text", {x: 20, y: 110}, first.date);
  add(map, "text", {x: 980, y: 110, "text-anchor": "end"}, last.date);
}

// ---- checkpoints

// How many bytes the files have that came or were written anew.
function newBytes(changes) {
  const written = changes.filter(it => ["added", "rewritten", "replaced"].includes(it.change));
  return written.reduce((sum, it) => sum + (it.new?.bytes ?? 0), 0);
}

function countsOf(changes) {
  const added = changes.filter(it => it.change === "added").length;
  const removed = changes.filter(it => it.change === "removed").length;
  const changed = changes.length - added - removed;
  return `${added} added, ${removed} removed, ${changed} changed, ${newBytes(changes)} bytes new`;
}

function listChanges(cell, changes) {
  const details = add(cell, "details");
  add(details, "summary", {}, countsOf(changes));
  const list = add(details, "ul");
  for (const it of changes.slice(0, MOST_PATHS)) {
    add(list, "li", {}, `${it.change} ${it.path}`);
  }
  if (changes.length > MOST_PATHS) {
    add(list, "li", {}, `and ${changes.length - MOST_PATHS} more`);
  }
}

function addCheckpoint(body, checkpoint, isFirst) {
  const row = add(body, "tr", {id: `c${checkpoint.checkpoint}`});
  addNumber(row, "Number", checkpoint.checkpoint);
  addCell(row, "Date", checkpoint.date, "date");
  addCell(row, "Kind", kindOf(checkpoint), "kind");
  addNumber(row, "Paths", checkpoint.paths);
  addNumber(row, "Bytes", checkpoint.bytes);
  if (isFirst || checkpoint.changes.length === 0) {
    addCell(row, "Changes", isFirst ? "the first one" : "none");
  } else {
    listChanges(addCell(row, "Changes"), checkpoint.changes);
  }
}

// Each is compared with the one before that isn't minor.
function fillCheckpoints() {
  let isFirst = true;
  for (const it of checkpoints) {
    addCheckpoint(find("#checkpoints tbody"), it, isFirst);
    isFirst = isFirst && it.kind === "minor";
  }
}

// ---- segments

// How wide a segment is drawn, and how wide with the gap behind it.
const SIDE = 120;
const STEP = 140;

function unusedOf(segment) {
  return segment.clean + segment.unused;
}

// A segment has each part from above, as high as its share.
function drawSegment(map, segment, place, columns) {
  const blocks = segment.needed + segment.dead + segment.summaries + unusedOf(segment);
  const group = add(map, "g");
  const corner = {x: (place % columns) * STEP, y: Math.floor(place / columns) * STEP};
  add(group, "title", {}, `Segment ${place}, ${segment.state}: ${segment.needed} needed, `
    + `${segment.dead} dead, ${segment.summaries} summaries of ${blocks} blocks`);
  add(group, "rect", {...corner, class: "clean", width: SIDE, height: SIDE});
  const parts = [["needed", segment.needed], ["dead", segment.dead], ["other", segment.summaries]];
  let above = corner.y;
  for (const [name, count] of parts) {
    const height = Math.floor(count * SIDE / blocks);
    add(group, "rect", {class: name, x: corner.x, y: above, width: SIDE, height});
    above += height;
  }
  if (segment.state === "in error") {
    add(group, "rect", {...corner, class: "error", width: SIDE, height: SIDE});
  }
}

// Few segments have short rows, in which they are larger.
function drawSegments() {
  const map = find("#segments svg");
  const columns = segments.length <= 256 ? 32 : 64;
  const rows = Math.ceil(segments.length / columns);
  map.setAttribute("viewBox", `-10 -10 ${columns * STEP} ${rows * STEP + 10}`);
  segments.forEach((it, place) => drawSegment(map, it, place, columns));
}

// What the colours mean, and how many blocks each stands for.
function tellSegments() {
  const [key, states] = document.querySelectorAll("#segments p");
  const unused = sumOf(segments, "clean") + sumOf(segments, "unused");
  const parts = [["needed", "needed", sumOf(segments, "needed")], ["dead", "dead", sumOf(segments, "dead")],
    ["other", "summaries of logs", sumOf(segments, "summaries")], ["clean", "clean or unused", unused]];
  for (const [colour, name, count] of parts) {
    const item = add(key, "span", {class: "item"});
    add(item, "span", {class: `key ${colour}`});
    item.append(`${name}: ${count} blocks`);
  }
  const clean = segments.filter(it => it.state === "clean").length;
  const failed = segments.filter(it => it.state === "in error").length;
  states.textContent = `${clean} of ${segments.length} segments are clean, and ${failed} in error.`;
}

function fillSegments() {
  segments.forEach((it, place) => {
    const row = add(find("#segments tbody"), "tr");
    addNumber(row, "Segment", place);
    addCell(row, "State", it.state);
    addNumber(row, "Needed", it.needed);
    addNumber(row, "Dead", it.dead);
    addNumber(row, "Summaries", it.summaries);
    addNumber(row, "Unused", unusedOf(it));
  });
}

// ---- folders

function fillFolders() {
  folders.sort((one, other) => other.bytes - one.bytes);
  for (const it of folders.slice(0, MOST_FOLDERS)) {
    const row = add(find("#folders tbody"), "tr");
    addCell(row, "Folder", it.folder, "path");
    addNumber(row, "Bytes", it.bytes);
    const percent = 100 * it.bytes / Math.max(1, folders[0].bytes);
    add(addCell(row, "Share", "", "share"), "div", {class: "bar", style: `width: ${percent}%`});
  }
}

find("#data").textContent.trim().split("\n").forEach(read);
drawTimeline();
fillCheckpoints();
tellSegments();
drawSegments();
fillSegments();
fillFolders();
</script>
</body>
</html>
"##;
