//! The parts of the page that are always the same. Its title, its heading and the bytes of a profile in
//! base64 are between them.

/// The start of the page, up to its title.
pub(crate) const START: &str = r##"<!DOCTYPE html>
<html lang="en">
<head>
<meta charset="utf-8">
<meta name="viewport" content="width=device-width">
<meta http-equiv="Content-Security-Policy"
 content="default-src 'none'; base-uri 'none'; form-action 'none'; img-src data:;
 script-src 'unsafe-inline'; style-src 'unsafe-inline'">
<link rel="icon" href="data:,">
<title>"##;

/// What is between the title and the heading.
pub(crate) const STYLE: &str = r##"</title>
<style>
:root { color-scheme: light dark; --back: #fff; --ink: #202020; --edge: #ccc; --mark: #ddeaff; }
@media (prefers-color-scheme: dark) {
 :root { --back: #1c1c1c; --ink: #e0e0e0; --edge: #444; --mark: #2b3f5c; }
}
* { box-sizing: border-box; }
body { margin: 0; height: 100vh; display: grid;
 grid: auto auto minmax(0, 1fr) auto / minmax(0, 2fr) minmax(0, 1fr);
 background: var(--back); color: var(--ink); font: 14px sans-serif; }
header, footer, #times { grid-column: 1 / 3; }
#times { border-bottom: 1px solid var(--edge); }
#times[hidden] { display: none; }
#strip { display: block; width: 100%; cursor: crosshair; touch-action: none; outline-offset: -2px; }
input[aria-invalid=true] { outline: 2px dashed; }
header, footer { padding: 6px 10px; display: flex; gap: 10px; align-items: center; }
header { flex-wrap: wrap; border-bottom: 1px solid var(--edge); }
h1 { font-size: 15px; margin: 0; }
footer { border-top: 1px solid var(--edge); height: 48px; overflow: auto;
 font: 12px monospace; white-space: pre-wrap; }
select { max-width: 220px; }
#scroll { overflow: hidden auto; position: relative; }
#graph { position: sticky; top: 0; display: block; cursor: pointer; outline-offset: -2px; }
aside { overflow: auto; border-left: 1px solid var(--edge); padding: 4px; }
table { border-collapse: collapse; font: 12px monospace; white-space: pre; }
caption, th { text-align: left; font-weight: bold; padding: 4px 6px; }
td { padding: 1px 6px; text-align: right; }
td.text { text-align: left; }
tr.chosen { background: var(--mark); }
td button { all: unset; cursor: pointer; }
td button:focus-visible { outline: 2px solid; }
@media (max-height: 500px) {
 body { grid-template-columns: minmax(0, 1fr) minmax(0, 1fr); }
 header { gap: 2px 8px; padding: 2px 6px; }
 footer { height: 34px; padding: 2px 6px; }
 #rows { display: none; }
}
@media (max-width: 700px) and (min-height: 501px) {
 body { grid: auto auto minmax(0, 2fr) minmax(0, 3fr) auto / minmax(0, 1fr); }
 header, footer, #times { grid-column: 1; }
 header { gap: 4px 10px; padding: 3px 6px; }
 aside { border-left: 0; border-top: 1px solid var(--edge); }
}
</style>
</head>
<body>
<header>
<h1 id="title">"##;

/// What is between the heading and the profile.
pub(crate) const BODY: &str = r##"</h1>
<output id="shown"></output>
<label>Thread <select id="thread"><option value="">all</option></select></label>
<label>Count <select id="column"></select></label>
<label>View
 <select id="view"><option value="">callers first</option><option>leaves first</option></select></label>
<label id="changes" hidden><input id="compare" type="checkbox" checked> Changes: + red more, - blue less</label>
<input id="search" type="search" placeholder="Search names ( / )" aria-label="Search names, a regular expression">
<output id="found"></output>
<input id="range" size="31" placeholder="Time: from,to in seconds" aria-label="Times in seconds: from,to">
<button id="all" disabled>Show all (Esc)</button>
</header>
<div id="times" hidden><canvas id="strip" tabindex="0" role="application"></canvas>
<button id="rows" hidden>All threads</button></div>
<div id="scroll"><canvas id="graph" tabindex="0" role="application"></canvas><div id="space"></div></div>
<aside>
<table id="callers"></table><table id="callees"></table>
<label>Functions by <select id="order"><option>self</option><option>total</option></select></label>
<table id="functions"></table>
</aside>
<footer id="details" aria-live="polite">Arrows move, Enter zooms in, Escape zooms out, / searches.</footer>
<noscript>This page needs JavaScript.</noscript>
<script id="profile" type="text/plain">
"##;

/// What is between the profile and its samples in order.
pub(crate) const TIMES: &str = r##"</script>
<script id="samples" type="text/plain">
"##;

/// What is between the bytes of the samples and how the counts of an old profile are shown.
pub(crate) const COUNTS: &str = r##"</script>
<script id="before" type="text/plain" data-counts=""##;

/// What is between that and the bytes of the old profile.
pub(crate) const BEFORE: &str = r##"">
"##;

/// The end of the page: the script that reads the profile. It sets names as text alone.
pub(crate) const END: &str = r##"</script>
<script>
"use strict";
(() => {
  const ROW = 18, ROWS = 1000, NARROWEST = 0.4, decoder = new TextDecoder("utf-8", { ignoreBOM: true });
  const element = id => document.getElementById(id);
  function decode(id) {
    const text = atob(element(id).textContent.trim()), decoded = new Uint8Array(text.length);
    for (let i = 0; i < text.length; i++) decoded[i] = text.charCodeAt(i);
    return decoded;
  }
  let bytes;

  // The messages of a profile. A field with bytes is the range at which they are.
  // `low` is the last number modulo 2 ** 32 and signed, which doesn't lose the bits of a negative one.
  let at = 0, low = 0;
  function number() {
    if (bytes[at] < 128) return low = bytes[at++];
    let sum = 0, unit = 1, shift = 0, byte;
    low = 0;
    do {
      byte = bytes[at++];
      sum += (byte & 127) * unit;
      if (shift < 32) low |= (byte & 127) << shift;
      unit *= 128;
      shift += 7;
    } while (byte > 127);
    return sum;
  }
  function message(end, field) {
    while (at < end) {
      const key = number(), value = number();
      if (key % 8 !== 2) { field(key >> 3, value); continue; }
      const stop = at + value;
      field(key >> 3, value, stop);
      at = stop;
    }
  }
  function numbers(end) {
    const all = [];
    while (at < end) all.push(number());
    return all;
  }
  function fields(end) {
    const all = [];
    message(end, (field, value, stop) => { all[field] = stop === undefined ? value : fields(stop); });
    return all;
  }
  // A location with all its lines, the innermost function's first.
  function placeFields(end) {
    const place = { lines: [] };
    message(end, (field, value, stop) => {
      if (field === 4) place.lines.push(fields(stop)); else place[field] = value;
    });
    return place;
  }
  function readProfile(id) {
    const all = { strings: [], types: [], ranges: [], mappings: [null], places: [null], names: [null], shown: 0 };
    bytes = decode(id);
    at = 0;
    message(bytes.length, (field, value, stop) => {
      if (field === 1) all.types.push(fields(stop));
      if (field === 2) all.ranges.push([at, stop]);
      if (field === 3) all.mappings.push(fields(stop));
      if (field === 4) all.places.push(placeFields(stop));
      if (field === 5) all.names.push(fields(stop));
      if (field === 6) all.strings.push(decoder.decode(bytes.subarray(at, stop)));
      if (field === 14) all.shown = value;
    });
    all.string = index => all.strings[index || 0];
    return all;
  }

  // What is known of each function: its name, the file and the kind of code of one of its locations, its
  // source file and the lines of samples in it. The first is the root of the tree. After the functions come
  // that of the locations without a function, and the functions where they are inlined. Those of a profile
  // that this one is compared with follow.
  const KINDS = [
    [/^\[kernel|^\[guest|\.ko(\.|$)/, "kernel"], [/^\[(perf-|jit|anon)|^\/\/anon|jitted-/, "generated"]
  ];
  const functions = [];
  const describeFunction = (name, source, kind, inlined) =>
    ({ name, plain: name, file: "", source, first: 0, last: 0, kind, inlined, found: false });
  function addFunctions(profile) {
    const { names, string } = profile, base = functions.length;
    profile.unknown = base + names.length;
    for (const row of names) {
      functions.push(row ? describeFunction(string(row[2]), string(row[4]), "unknown", false)
        : describeFunction("all", "", "all", false));
    }
    functions.push(describeFunction("[unknown]", "", "unknown", false));
    for (const row of names.slice(1)) {
      const name = string(row[2]), one = describeFunction(name + " (inlined)", string(row[4]), "unknown", true);
      one.plain = name;
      functions.push(one);
    }
    profile.codesOf = profile.places.map(place => {
      const lines = place && place.lines.length ? place.lines : [[]];
      return lines.map(([, id, line], index) => {
        if (!(id > 0 && id < names.length)) return profile.unknown;
        const code = (index < lines.length - 1 ? profile.unknown : base) + id, one = functions[code];
        if (line && (!one.first || line < one.first)) one.first = line;
        if (line && line > one.last) one.last = line;
        return code;
      });
    });
    profile.places.forEach((place, id) => {
      const mapping = place && profile.mappings[place[2] || 0];
      for (const code of mapping ? profile.codesOf[id] : []) {
        const one = functions[code];
        if (one.file) continue;
        one.file = string(mapping[5]);
        one.kind = (KINDS.find(kind => kind[0].test(one.file)) || ["", one.file ? "user" : "unknown"])[1];
      }
    });
  }
  function sourceOf({ source, first, last }, parts) {
    if (source === "") return "";
    const path = source.split("/").slice(-parts).join("/");
    return first === 0 ? path : path + ":" + first + (last > first ? "-" + last : "");
  }
  // The samples: the values of each, its thread, and the range of its functions in `codes`, the root first.
  function labelText(end, string) {
    const label = [];
    message(end, (field, value) => { label[field] = field === 3 ? low : value; });
    return label[2] ? string(label[2]) : string(label[1]) + " " + (label[3] || 0);
  }
  let codes = new Int32Array(1024), used = 0;
  function push(added) {
    if (used + added.length > codes.length) {
      const longer = new Int32Array(2 * codes.length + added.length);
      longer.set(codes);
      codes = longer;
    }
    for (const code of added) codes[used++] = code;
  }
  function readSample([start, end], { codesOf, unknown, string }) {
    const sample = { from: used, to: used, values: [], thread: "" }, labels = [];
    at = start;
    message(end, (field, value, stop) => {
      if (field === 1) while (at < stop) push(codesOf[number()] || [unknown]);
      if (field === 2) sample.values = numbers(stop);
      if (field === 3) labels.push(labelText(stop, string));
    });
    sample.to = used;
    sample.thread = labels.join(", ");
    codes.subarray(sample.from, used).reverse();
    return sample;
  }
  function readSamples(profile) {
    addFunctions(profile);
    const all = profile.ranges.map(range => readSample(range, profile));
    all.forEach((sample, id) => { sample.id = id; });
    return all;
  }
  const profile = readProfile("profile"), { string, types } = profile, samples = readSamples(profile);

  // The profile that this one is compared with, if there is one, and its samples. `valueOf` has the index of
  // the values in it of each type. Functions with the same name are one: `groups` has the first of them.
  const ownFunctions = functions.length, before = readProfile("before"), samplesBefore = readSamples(before);
  const valueOf = types.map(([, kind, unit]) => before.types.findIndex(
    type => before.string(type[1]) === string(kind) && before.string(type[2]) === string(unit)));
  const isScaled = element("before").dataset.counts === "scaled", byPlainName = new Map();
  const groups = functions.map((one, code) => {
    if (one.kind === "all") return 0;
    if (!byPlainName.has(one.plain)) byPlainName.set(one.plain, code);
    const first = functions[byPlainName.get(one.plain)];
    if (!first.file) [first.file, first.kind] = [one.file, one.kind];
    return byPlainName.get(one.plain);
  });
  let compares = false;
  const shownCode = code => compares ? groups[code] : code;

  // The samples in order: of each its index above, its time in nanoseconds from the first one, its weight and
  // the index of its values. `start` is the time of the first one, by the clock of perf.
  let start = 0n;
  function longNumber() {
    let sum = 0n, shift = 0n, byte;
    do {
      byte = bytes[at++];
      sum |= BigInt(byte & 127) << shift;
      shift += 7n;
    } while (byte > 127);
    return sum;
  }
  function readOrder() {
    bytes = decode("samples");
    at = 0;
    const count = bytes.length ? number() : 0, all = {
      count, index: new Int32Array(count), time: new Float64Array(count), weight: new Float64Array(count),
      column: new Uint16Array(count), first: 0, last: 0, ascends: true
    };
    let known = 0, time = NaN, weight = 0, kind = 0;
    for (let i = 0; i < count; i++) {
      const first = number(), code = Math.floor(first / 8);
      all.index[i] = code ? known - code : known++;
      if (first & 1 && isNaN(time)) {
        start = longNumber() >> 1n;
        time = 0;
      } else if (first & 1) {
        const step = number();
        time += step % 2 ? (1 - step) / 2 : step / 2;
      }
      all.time[i] = first & 1 ? time : NaN;
      if (!(all.time[i] >= (i ? all.time[i - 1] : 0))) all.ascends = false;
      if (first & 2) weight = number();
      if (first & 4) kind = number();
      all.weight[i] = weight;
      all.column[i] = kind;
      if (time < all.first) all.first = time;
      if (time > all.last) all.last = time;
    }
    return all;
  }
  const order = readOrder();
  for (const sample of samples) sample.all = sample.values;
  // The times that are selected, both included, or null.
  let range = null, parts = null;
  // The index of the first sample at a time or later, if times ascend.
  function indexAt(time) {
    let low = 0, high = order.count;
    while (low < high) {
      const middle = low + high >> 1;
      if (order.time[middle] < time) low = middle + 1; else high = middle;
    }
    return low;
  }
  // The indices between which the samples at these times are.
  const indicesOf = ([from, to]) => order.ascends ? [indexAt(from), indexAt(to + 1)] : [0, order.count];
  // The values of the samples in the range are in one array, of which each sample has a part.
  function sumRange() {
    const { index, time, weight, column } = order, size = types.length;
    if (!parts) {
      parts = new Float64Array(samples.length * size);
      for (const sample of samples) sample.part = parts.subarray(sample.id * size, (sample.id + 1) * size);
    }
    parts.fill(0);
    const [begin, end] = indicesOf(range);
    for (let i = begin; i < end; i++) {
      if (!(time[i] >= range[0] && time[i] <= range[1])) continue;
      const at = index[i] * size;
      parts[at]++;
      if (column[i]) parts[at + column[i]] += weight[i];
    }
  }
  function selectTimes() {
    if (range) sumRange();
    for (const sample of samples) sample.values = range ? sample.part : sample.all;
  }
  // A time as text: seconds with nine decimals, as `--time` takes them.
  function timeText(time) {
    const all = start + BigInt(Math.round(time));
    return all / 1000000000n + "." + String(all % 1000000000n).padStart(9, "0");
  }
  function timeOf(text, missing) {
    if (text === "") return missing;
    const found = /^(\d+)(?:\.(\d{0,9}))?$/.exec(text);
    if (!found) return NaN;
    return Number(BigInt(found[1]) * 1000000000n + BigInt((found[2] || "").padEnd(9, "0")) - start);
  }
  // The times of a text A,B: null for an empty one, or undefined if it isn't one.
  function parseRange(text) {
    const ends = text.split(",");
    if (text.trim() === "") return null;
    if (ends.length !== 2) return undefined;
    const from = timeOf(ends[0].trim(), order.first), to = timeOf(ends[1].trim(), order.last);
    return from <= to ? [from, to] : undefined;
  }
  const rangeText = () => range ? timeText(range[0]) + "," + timeText(range[1]) : "";
  const seconds = time => (time / 1e9).toFixed(3) + " s";

  // The samples of the chosen thread, what they add up to, and their tree: nodes by number, the root is 0.
  let column = 0, chosen = [], total = 0, tree, self, sums;
  // The same of the profile that this one is compared with.
  let chosenBefore = [], totalBefore = 0, selfBefore, sumsBefore;
  let zoomed = 0, current = 0, selected = 0, boxes = [];
  // The child of a node with this code, which is found by a hash of both.
  let slots = new Int32Array(0);
  function child(parent, code) {
    const mask = slots.length - 1;
    let slot = (Math.imul(parent, 0x9E3779B1) ^ Math.imul(code, 0x85EBCA6B)) >>> 8 & mask;
    while (slots[slot] && (tree.parent[slots[slot]] !== parent || tree.code[slots[slot]] !== code)) {
      slot = slot + 1 & mask;
    }
    if (!slots[slot]) {
      const node = slots[slot] = tree.count++;
      tree.code[node] = code;
      tree.parent[node] = parent;
      tree.depth[node] = tree.depth[parent] + 1;
      let above = parent;
      while (above && tree.code[above] !== code) above = tree.parent[above];
      tree.isOuter[node] = above === 0;
      tree.next[node] = tree.first[parent];
      tree.first[parent] = node;
    }
    return slots[slot];
  }
  // The trees of all samples, the callers first and the leaves first, are made once: of each node, whether no
  // node above it is one of the same function, and of each sample the last node. Those of comparisons have
  // the samples of both profiles.
  const trees = [];
  function grow(leaves) {
    const all = compares ? samples.concat(samplesBefore) : samples;
    let size = 1;
    for (const sample of all) size += sample.to - sample.from;
    tree = {
      code: new Int32Array(size), parent: new Int32Array(size), weight: new Float64Array(size),
      first: new Int32Array(size), next: new Int32Array(size), depth: new Int32Array(size),
      own: new Float64Array(size), isOuter: new Uint8Array(size), ends: new Int32Array(all.length),
      before: new Float64Array(compares ? size : 0), ownBefore: new Float64Array(compares ? size : 0),
      count: 1, rows: 1
    };
    slots = new Int32Array(2 ** Math.ceil(Math.log2(size) + 1));
    all.forEach(({ from, to }, index) => {
      let node = 0;
      for (let i = 0; i < to - from; i++) node = child(node, shownCode(codes[leaves ? to - 1 - i : from + i]));
      tree.ends[index] = node;
    });
    slots = new Int32Array(0);
    return tree;
  }
  // Sets the tree to that of the chosen samples. A node is after its parent.
  function weigh(leaves) {
    tree = trees[Number(leaves) + (compares ? 2 : 0)] ||= grow(leaves);
    for (const numbers of [tree.weight, tree.own, tree.before, tree.ownBefore]) numbers.fill(0);
    tree.rows = 1;
    for (const { id, values } of chosen) tree.own[tree.ends[id]] += values[column];
    for (const { id, values } of chosenBefore) tree.ownBefore[tree.ends[samples.length + id]] += values[valueOf[column]];
    for (let node = compares ? tree.count - 1 : -1; node >= 0; node--) {
      tree.before[node] += tree.ownBefore[node];
      if (node) tree.before[tree.parent[node]] += tree.before[node];
    }
    for (let node = tree.count - 1; node >= 0; node--) {
      tree.weight[node] += tree.own[node];
      if (node) tree.weight[tree.parent[node]] += tree.weight[node];
      if (tree.weight[node] && tree.depth[node] >= tree.rows) tree.rows = tree.depth[node] + 1;
    }
  }
  const byName = (a, b) => functions[a].name < functions[b].name ? -1 : 1;
  function childrenOf(node) {
    const all = [];
    for (let child = tree.first[node]; child; child = tree.next[child]) {
      if (tree.weight[child]) all.push(child);
    }
    return all.sort((a, b) => tree.weight[b] - tree.weight[a] || byName(tree.code[a], tree.code[b]));
  }

  // The sums of each function. A sample counts once for a function, however often its stack has it.
  function sumsOf(weights) {
    const all = new Float64Array(functions.length);
    for (let node = 1; node < tree.count; node++) {
      if (tree.isOuter[node]) all[tree.code[node]] += weights[node];
    }
    return all;
  }
  function selfOf(weights) {
    const all = new Float64Array(functions.length);
    for (let node = 1; node < tree.count; node++) all[tree.code[node]] += weights[node];
    return all;
  }
  function add() {
    weigh(false);
    total = tree.weight[0];
    totalBefore = compares ? tree.before[0] : 0;
    [self, sums] = [selfOf(tree.own), sumsOf(tree.weight)];
    if (compares) [selfBefore, sumsBefore] = [selfOf(tree.ownBefore), sumsOf(tree.before)];
  }
  const hundredths = (weight, all) => all ? Math.floor((20000 * weight + all) / (2 * all)) : 0;
  const percent = hundredths => (hundredths / 100).toFixed(2) + " %";
  const share = weight => percent(hundredths(weight, total));
  const shareBefore = weight => percent(hundredths(weight, totalBefore));
  // How a share changed, in hundredths of a percent, and what is written of it.
  const changeOf = (old, now) => hundredths(now, total) - hundredths(old, totalBefore);
  const signOf = change => change > 0 ? "+" : change < 0 ? "-" : "";
  const pointsOf = change => signOf(change) + (Math.abs(change) / 100).toFixed(2);
  // What was counted before, or as much of the total now.
  const countBefore = weight => isScaled && totalBefore
    ? Number(BigInt(weight) * BigInt(total) / BigInt(totalBefore)) : weight;

  // The table of functions, and those of the callers and callees of the selected one. At first they have the
  // rows that can be seen without scrolling. A later task adds the others.
  const FIRST_ROWS = 100, side = element("functions").parentElement;
  let later = [], isScrolled = false;
  side.onscroll = () => { isScrolled = side.scrollTop > 0; };
  function addRows() {
    for (const add of later) add();
    later = [];
  }
  function fill(table, title, heads, rows) {
    table.replaceChildren();
    if (!rows) return;
    table.createCaption().textContent = title;
    const head = table.createTHead().insertRow();
    for (const name of heads) {
      const cell = head.appendChild(document.createElement("th"));
      cell.scope = "col";
      cell.textContent = name;
    }
    const body = table.createTBody();
    const insertText = row => {
      const cell = row.insertCell();
      cell.className = "text";
      return cell;
    };
    const insert = ([code, ...numbers]) => {
      const row = body.insertRow(), button = document.createElement("button");
      for (const number of numbers) row.insertCell().textContent = number;
      row.classList.toggle("chosen", code === selected);
      button.textContent = functions[code].name;
      button.value = code;
      button.setAttribute("aria-pressed", code === selected);
      button.onclick = () => {
        selected = code === selected ? 0 : code;
        describe(code, sums[code], compares && sumsBefore[code]);
        list();
        addRows();
        draw();
        const again = element("functions").querySelector("button[value='" + code + "']");
        if (again) again.focus();
      };
      insertText(row).append(button);
      if (heads.includes("source")) insertText(row).textContent = sourceOf(functions[code], 2);
    };
    const first = isScrolled ? rows.length : FIRST_ROWS;
    rows.slice(0, first).forEach(insert);
    later.push(() => rows.slice(first).forEach(insert));
  }
  function neighbours(step) {
    const weights = new Map();
    for (const { from, to, values } of chosen) {
      const seen = new Set();
      for (let i = from; i < to; i++) {
        const isBeside = i + step >= from && i + step < to;
        if (isBeside && shownCode(codes[i]) === selected) seen.add(shownCode(codes[i + step]));
      }
      for (const other of seen) weights.set(other, (weights.get(other) || 0) + values[column]);
    }
    const sorted = [...weights].sort((a, b) => b[1] - a[1]).slice(0, ROWS);
    return sorted.map(([code, weight]) => [code, share(weight)]);
  }
  const isCounted = code => sums[code] > 0 || compares && sumsBefore[code] > 0;
  // The functions in the order of the table, with what it shows of them.
  function usualRows(listed) {
    const weights = element("order").value === "self" ? self : sums;
    listed.sort((a, b) => weights[b] - weights[a] || sums[b] - sums[a] || byName(a, b));
    return listed.slice(0, ROWS).map(code => [code, share(self[code]), share(sums[code])]);
  }
  function changeRows(listed) {
    const [now, old] = element("order").value === "self" ? [self, selfBefore] : [sums, sumsBefore];
    const distance = code => Math.abs(now[code] * (totalBefore || 1) - old[code] * (total || 1));
    listed.sort((a, b) => distance(b) - distance(a) || byName(a, b));
    return listed.slice(0, ROWS).map(code => {
      const count = now[code] - countBefore(old[code]), change = changeOf(old[code], now[code]);
      return [code, shareBefore(old[code]), share(now[code]), pointsOf(change), signOf(count) + Math.abs(count)];
    });
  }
  function list() {
    const all = element("search").value === "";
    const listed = [...functions.keys()].filter(code => isCounted(code) && (all || functions[code].found));
    const title = listed.length > ROWS ? "the first " + ROWS + " of " + listed.length : "";
    const heads = compares ? ["old", "new", "points", unitOf(), "function"] : ["self", "total", "function"];
    if (functions.some(one => one.source !== "")) heads.push("source");
    later = [];
    fill(element("functions"), title, heads, compares ? changeRows(listed) : usualRows(listed));
    const name = functions[selected].name;
    fill(element("callers"), "Callers of " + name, ["total", "function"], selected && neighbours(-1));
    fill(element("callees"), "Callees of " + name, ["total", "function"], selected && neighbours(1));
    setTimeout(addRows);
  }

  // The graph: a box for each node, as wide as its share of the zoomed one, whose callers are above it.
  const canvas = element("graph"), area = element("scroll"), context = canvas.getContext("2d");
  const dark = matchMedia("(prefers-color-scheme: dark)");
  const HUES = { user: [42, 65], kernel: [222, 65], generated: [140, 55], unknown: [0, 0], all: [0, 0] };
  function hash(name) {
    let sum = 7;
    for (let i = 0; i < name.length; i++) sum = (sum * 31 + name.charCodeAt(i)) | 0;
    return Math.abs(sum);
  }
  function colour(code, dim) {
    const one = functions[code], [hue, strength] = HUES[one.kind], kind = hash(one.name);
    const light = (dark.matches ? 28 : 72) + kind % 7 + (one.inlined ? 11 : 0);
    return "hsl(" + (hue - 18 + kind % 37) + "," + (dim ? 8 : strength) + "%," + light + "%)";
  }
  // A change is red for more and blue for less, and what has less is hatched too. A tenth of all samples, or
  // more, has the full hue.
  function changeColour(change, dim) {
    const strength = change ? Math.max(0.1, Math.min(Math.abs(change) / 1000, 1)) : 0;
    const light = dark.matches ? 24 + 12 * strength : 94 - 22 * strength;
    return "hsl(" + (change < 0 ? 215 : 5) + "," + (change && !dim ? dark.matches ? 55 : 85 : change && 8) + "%," + light + "%)";
  }
  function hatching() {
    const tile = document.createElement("canvas"), lines = tile.getContext("2d");
    tile.width = tile.height = 8;
    lines.strokeStyle = ink;
    lines.globalAlpha = 0.3;
    for (const x of [-8, 0, 8]) {
      lines.moveTo(x, 8);
      lines.lineTo(x + 8, 0);
    }
    lines.stroke();
    return context.createPattern(tile, "repeat");
  }
  let hatch = null;
  function box(node, left, width, top) {
    const change = compares ? changeOf(tree.before[node], tree.weight[node]) : 0;
    drawBox(tree.code[node], left, width, top, node === current, change);
  }
  function drawBox(code, left, width, top, isCurrent, change) {
    const one = functions[code], searching = element("search").value !== "";
    const dim = searching && !one.found || selected && code !== selected;
    const drawn = Math.max(width - (width > 3 ? 1 : 0), NARROWEST);
    context.fillStyle = compares ? changeColour(change, dim) : colour(code, dim);
    context.fillRect(left, top, drawn, ROW - 1);
    if (change < 0) {
      context.fillStyle = hatch;
      context.fillRect(left, top, drawn, ROW - 1);
    }
    if (isCurrent) {
      context.strokeStyle = ink;
      context.strokeRect(left + 1, top + 1, width - 3, ROW - 3);
    }
    const fits = Math.floor((width - 8) / 7.3);
    if (fits < 3) return;
    context.fillStyle = ink;
    const text = (change ? signOf(change) + " " : "") + one.name;
    context.fillText(text.length > fits ? text.slice(0, fits - 1) + "\u2026" : text, left + 4, top + 13);
  }
  let ink = "#000";
  // The strip of time: a row a thread, the one with most samples first, and one for the others.
  const strip = element("strip"), stripContext = strip.getContext("2d"), STRIP_ROW = 24;
  let stripRows = [], isOpen = false;
  function threadRows() {
    const counts = new Map();
    for (let i = 0; i < order.count; i++) {
      const { thread } = samples[order.index[i]];
      counts.set(thread, (counts.get(thread) || 0) + 1);
    }
    const sorted = [...counts].sort((a, b) => b[1] - a[1] || (a[0] < b[0] ? -1 : 1)).map(([name]) => name);
    const most = innerHeight > 500 ? 5 : 1;
    const shownCount = isOpen || sorted.length <= most + 1 ? sorted.length : most;
    stripRows = sorted.slice(0, shownCount).map(name => [name]);
    if (shownCount < sorted.length) stripRows.push(sorted.slice(shownCount));
    element("rows").hidden = sorted.length <= most + 1;
    element("rows").textContent = isOpen ? "Fewer threads" : "All " + sorted.length + " threads";
  }
  const spread = () => order.last - order.first || 1;
  const timeAt = x => order.first + Math.max(0, Math.min(1, x / strip.clientWidth)) * spread();
  function density(bins) {
    const rowOf = new Map(), all = stripRows.map(() => new Float64Array(bins));
    stripRows.forEach((names, row) => names.forEach(name => rowOf.set(name, row)));
    const rows = samples.map(sample => rowOf.get(sample.thread));
    for (let i = 0; i < order.count; i++) {
      if (isNaN(order.time[i]) || column && order.column[i] !== column) continue;
      const x = Math.floor((order.time[i] - order.first) / spread() * (bins - 1));
      all[rows[order.index[i]]][x] += column ? order.weight[i] : 1;
    }
    return all;
  }
  function drawCurve(numbers, top, most, step) {
    stripContext.beginPath();
    stripContext.moveTo(0, top + STRIP_ROW);
    numbers.forEach((number, x) => {
      const height = number ? Math.max(1, (STRIP_ROW - 3) * number / most) : 0;
      stripContext.lineTo(x * step, top + STRIP_ROW - height);
      stripContext.lineTo((x + 1) * step, top + STRIP_ROW - height);
    });
    stripContext.lineTo(numbers.length * step, top + STRIP_ROW);
    stripContext.fill();
  }
  let kept = { key: "", rows: [] };
  function drawStrip(from, to) {
    if (element("times").hidden) return;
    const width = strip.parentElement.clientWidth, height = stripRows.length * STRIP_ROW;
    const ratio = devicePixelRatio || 1, key = [width, column, stripRows.length].join();
    strip.width = width * ratio;
    strip.height = height * ratio;
    strip.style.height = height + "px";
    stripContext.scale(ratio, ratio);
    stripContext.font = "12px monospace";
    const colour = getComputedStyle(document.body).color, chosenThread = element("thread").value;
    // A step has some samples, or is a pixel.
    const bins = Math.max(1, Math.min(width, Math.max(50, Math.ceil(order.count / 4))));
    if (kept.key !== key) kept = { key, rows: density(bins) };
    stripRows.forEach((names, row) => {
      const top = row * STRIP_ROW, numbers = kept.rows[row];
      stripContext.fillStyle = dark.matches ? "hsl(42,45%,38%)" : "hsl(42,65%,66%)";
      if (chosenThread && !names.includes(chosenThread)) stripContext.fillStyle = dark.matches ? "#444" : "#ccc";
      drawCurve(numbers, top, numbers.reduce((most, number) => Math.max(most, number), 1), width / bins);
    });
    const ends = (from === undefined ? [] : [from, to]).map(time => (time - order.first) / spread() * width);
    if (ends.length) {
      stripContext.fillStyle = dark.matches ? "rgba(0,0,0,.55)" : "rgba(255,255,255,.7)";
      stripContext.fillRect(0, 0, ends[0], height);
      stripContext.fillRect(ends[1], 0, width - ends[1], height);
    }
    stripContext.fillStyle = colour;
    for (const x of ends) stripContext.fillRect(Math.min(width - 1, Math.max(0, x - 0.5)), 0, 1, height);
    stripRows.forEach((names, row) => {
      const name = names.length > 1 ? names.length + " other threads" : names[0];
      stripContext.fillText((names.includes(chosenThread) ? "\u25b8 " : "") + name, 4, row * STRIP_ROW + 13);
    });
  }
  function setRange(wanted) {
    range = wanted;
    element("range").value = rangeText();
    choose();
  }

  // The chart in order of time: boxes as wide as consecutive samples of one thread that share a frame.
  const isChart = () => element("view").value === "order of time";
  function chartThread() {
    const counted = new Map();
    for (const { thread, values } of chosen) counted.set(thread, (counted.get(thread) || 0) + values[0]);
    return [...counted].sort((a, b) => b[1] - a[1]).map(([name]) => name)[0];
  }
  function chartStacks(width) {
    const thread = chartThread(), isShown = Uint8Array.from(samples, sample => sample.thread === thread), picked = [];
    const [from, to] = range || [order.first, order.last], size = to - from || 1;
    const [begin, end] = indicesOf([from, to]);
    let last = -1, count = 0;
    for (let i = begin; i < end; i++) {
      const time = order.time[i];
      if (!isShown[order.index[i]] || !(time >= from && time <= to)) continue;
      if (column && order.column[i] !== column) continue;
      const x = (time - from) / size * width;
      count++;
      if (last >= 0 && x - last < 1) continue;
      picked.push([x, samples[order.index[i]]]);
      last = x;
    }
    return { picked, gap: Math.max(2, 5 * width / Math.max(1, count)) };
  }
  function chartBoxes(width) {
    const { picked, gap } = chartStacks(width), all = [], open = [];
    const close = (depth, x) => {
      while (open.length > depth) {
        const { code, left } = open.pop();
        all.push({ code, left, width: Math.max(x - left, 1), depth: open.length });
      }
    };
    let before = 0;
    for (const [x, { from, to }] of picked) {
      if (x - before > gap) close(0, before + gap / 5);
      let same = 0;
      while (same < open.length && same < to - from && open[same].code === codes[from + same]) same++;
      close(same, x);
      for (let i = from + same; i < to; i++) open.push({ code: codes[i], left: x });
      before = x;
    }
    close(0, Math.min(width, before + gap / 5));
    return all;
  }
  function drawChart(width, height, top) {
    const all = chartBoxes(width);
    tree.rows = all.reduce((most, one) => Math.max(most, one.depth + 1), 1);
    for (const { code, left, width: size, depth } of all) {
      const y = depth * ROW - top;
      if (y >= height || y <= -ROW) continue;
      drawBox(code, left, size, y, false, 0);
      boxes.push([-1 - code, left, size, y]);
    }
  }
  function draw() {
    const height = area.clientHeight, ratio = devicePixelRatio || 1;
    element("space").style.height = Math.max(0, tree.rows * ROW - height) + "px";
    const width = area.clientWidth, top = area.scrollTop; // a scroll bar may be there now
    canvas.style.width = width + "px";
    canvas.style.height = height + "px";
    canvas.width = width * ratio;
    canvas.height = height * ratio;
    context.scale(ratio, ratio);
    context.font = "12px monospace";
    ink = getComputedStyle(document.body).color;
    hatch = hatching();
    boxes = [];
    drawStrip(...(range || []));
    element("all").disabled = !zoomed && !selected && !range && !element("search").value;
    if (isChart()) return drawChart(width, height, top);
    const path = [];
    for (let node = zoomed; node; node = tree.parent[node]) path.push(tree.parent[node]);
    const open = path.map(node => [node, 0, width]), start = open.length;
    open.push([zoomed, 0, width]);
    while (open.length) {
      const [node, left, size] = open.pop(), y = tree.depth[node] * ROW - top;
      if (y < height && y > -ROW) {
        box(node, left, size, y);
        boxes.push([node, left, size, y]);
      }
      if (open.length < start || y > height) continue;
      let x = left;
      for (const child of childrenOf(node)) {
        const part = size * tree.weight[child] / tree.weight[node];
        if (part < NARROWEST) break;
        open.push([child, x, part]);
        x += part;
      }
    }
  }
  function what() {
    const [, kind, unit] = types[column] || [];
    return string(unit) === "count" ? string(kind) : string(unit) + " of " + string(kind);
  }
  function unitOf() {
    const [, kind, unit] = types[column] || [];
    return string(unit === undefined || string(unit) === "count" ? kind : unit);
  }
  function describe(code, weight, old) {
    const one = functions[code], parts = [weight + " " + what(), share(weight)];
    if (compares) parts.push(pointsOf(changeOf(old, weight)) + " points", "before " + countBefore(old));
    parts.push(one.file, sourceOf(one, Infinity));
    element("details").textContent = one.name + "\n" + parts.filter(part => part !== "").join(", ");
  }
  function show(node) {
    current = node;
    describe(tree.code[node], tree.weight[node], tree.before[node]);
    draw();
  }
  function nodeAt({ offsetX: x, offsetY: y }) {
    const hit = boxes.find(([, left, width, top]) =>
      x >= left && x < left + width && y >= top && y < top + ROW);
    return hit === undefined ? NaN : hit[0];
  }

  // The search, which is kept in the address.
  // What a name matches, or null for a text that isn't a regular expression.
  function pattern() {
    try { return new RegExp(element("search").value, "i"); } catch { return null; }
  }
  function search() {
    const text = element("search").value, wanted = text !== "" && pattern();
    let count = 0, weight = 0;
    functions.forEach((one, code) => {
      one.found = code > 0 && Boolean(wanted) && wanted.test(one.name);
      if (one.found && isCounted(code)) count++;
    });
    const found = functions.map(one => one.found);
    for (const { from, to, values } of wanted ? chosen : []) {
      let i = from;
      while (i < to && !found[shownCode(codes[i])]) i++;
      if (i < to) weight += values[column];
    }
    const words = count + (count === 1 ? " function, " : " functions, ") + share(weight);
    element("found").textContent = wanted ? words : text ? "not a regular expression" : "";
    element("search").setAttribute("aria-invalid", wanted === null);
    const parts = text ? ["s=" + encodeURIComponent(text)] : [];
    if (range) parts.push("t=" + rangeText());
    const address = "#" + parts.join("&");
    if (address !== (location.hash || "#")) location.replace(address);
    list();
    draw();
  }
  function restore() {
    const parts = new Map(location.hash.slice(1).split("&").map(part => [part.slice(0, 2), part.slice(2)]));
    const keptPart = name => {
      try { return decodeURIComponent(parts.get(name) || ""); } catch { return ""; }
    };
    element("search").value = keptPart("s=");
    range = order.count ? parseRange(keptPart("t=")) || null : null;
    element("range").value = rangeText();
    element("range").removeAttribute("aria-invalid");
  }
  function choose() {
    const thread = element("thread").value;
    column = element("column").selectedIndex;
    compares = before.types.length > 0 && element("compare").checked && !isChart();
    selected = compares ? groups[selected] : selected < ownFunctions ? selected : 0;
    selectTimes();
    const isChosen = (sample, value) => sample.values[value] > 0 && (thread === "" || sample.thread === thread);
    chosen = samples.filter(sample => isChosen(sample, column));
    chosenBefore = compares ? samplesBefore.filter(sample => isChosen(sample, valueOf[column])) : [];
    add();
    if (element("view").value === "leaves first") weigh(true);
    zoomed = current = 0;
    const kind = isChart() ? "Chart in order of time, thread " + (chartThread() || "none") + ", "
      : "Flame graph of " + chosen.length + " stacks, ";
    const old = compares ? ", compared with " + totalBefore + " before" : "";
    canvas.setAttribute("aria-label", kind + total + " " + what() + old);
    if (isChart()) element("details").textContent = kind + "most samples of those that are shown";
    const times = range ? ", " + seconds(range[0]) + " to " + seconds(range[1]) + " from the start" : "";
    element("shown").textContent = total + " " + what() + times + old;
    strip.setAttribute("aria-label", "Samples over time, " + seconds(spread()) + ": drag to select a range, "
      + "click a thread, arrows move the range, Escape shows all");
    search();
  }
  function showAll() {
    zoomed = selected = 0;
    element("search").value = "";
    setRange(null);
  }
  function move(key) {
    const parent = tree.parent[current], beside = current ? childrenOf(parent) : [0];
    const index = beside.indexOf(current), below = childrenOf(current)[0];
    const targets = {
      ArrowUp: parent, ArrowDown: below, ArrowLeft: beside[index - 1], ArrowRight: beside[index + 1]
    };
    if (targets[key] === undefined) return;
    const y = tree.depth[targets[key]] * ROW, height = area.clientHeight;
    if (y < area.scrollTop || y + ROW > area.scrollTop + height) area.scrollTop = y - height / 2;
    show(targets[key]);
  }
  function zoom(node) {
    zoomed = node;
    draw();
  }
  canvas.onmousemove = event => {
    const node = nodeAt(event);
    if (node < 0) describe(-1 - node, sums[-1 - node]); else if (node >= 0 && node !== current) show(node);
  };
  canvas.onclick = event => {
    const node = nodeAt(event);
    if (node >= 0) zoom(node);
    if (node >= 0 || isNaN(node)) return;
    selected = selected === -1 - node ? 0 : -1 - node;
    list();
    draw();
  };
  canvas.onkeydown = event => {
    if (isChart() || event.key !== "Enter" && !event.key.startsWith("Arrow")) return;
    event.preventDefault();
    if (event.key === "Enter") zoom(current); else move(event.key);
  };
  document.onkeydown = event => {
    if (event.ctrlKey || event.metaKey || event.altKey) return;
    if (event.key === "Escape" && zoomed) zoom(0);
    else if (event.key === "Escape" && range) setRange(null);
    else if (event.key === "Escape") showAll();
    if (event.key !== "/" || document.activeElement === element("search")) return;
    event.preventDefault();
    element("search").focus();
  };
  let dragged = null;
  strip.onpointerdown = event => {
    dragged = event.offsetX;
    strip.setPointerCapture(event.pointerId);
  };
  const rangeTo = x => [timeAt(Math.min(dragged, x)), timeAt(Math.max(dragged, x))].map(Math.round);
  strip.onpointermove = event => {
    if (dragged !== null) drawStrip(...rangeTo(event.offsetX));
  };
  strip.onpointerup = event => {
    const ends = rangeTo(event.offsetX), isClick = Math.abs(event.offsetX - dragged) < 3;
    dragged = null;
    if (!isClick) return setRange(ends);
    const names = stripRows[Math.floor(event.offsetY / STRIP_ROW)] || [];
    if (names.length > 1) return openRows();
    element("thread").value = element("thread").value === names[0] ? "" : names[0];
    return choose();
  };
  strip.onkeydown = event => {
    if (event.key !== "ArrowLeft" && event.key !== "ArrowRight") return;
    event.preventDefault();
    const [from, to] = range || [order.first, order.first + Math.round(spread() / 10)];
    const step = range ? Math.max(1, Math.round((to - from) / 2)) * (event.key === "ArrowLeft" ? -1 : 1) : 0;
    setRange([from + step, to + step]);
  };
  function openRows() {
    isOpen = !isOpen;
    threadRows();
    draw();
  }
  element("rows").onclick = openRows;
  element("range").onchange = () => {
    const wanted = parseRange(element("range").value);
    element("range").setAttribute("aria-invalid", wanted === undefined);
    if (wanted !== undefined) setRange(wanted);
  };
  element("all").onclick = showAll;
  element("search").oninput = search;
  element("order").onchange = list;
  for (const id of ["thread", "column", "view", "compare"]) element(id).onchange = choose;
  area.onscroll = draw;
  window.onresize = () => {
    threadRows();
    draw();
  };
  window.onhashchange = () => {
    const before = rangeText();
    restore();
    if (rangeText() === before) search(); else choose();
  };
  dark.onchange = draw;
  const threads = new Set(samples.map(sample => sample.thread));
  for (const thread of [...threads].sort()) element("thread").add(new Option(thread));
  for (const type of types) element("column").add(new Option(string(type[1])));
  element("column").selectedIndex = Math.max(0, types.findIndex(type => type[1] === profile.shown));
  element("changes").hidden = before.types.length === 0;
  if (order.count && order.last > order.first) {
    element("times").hidden = false;
    element("view").add(new Option("order of time"));
  } else element("range").hidden = true;
  threadRows();
  restore();
  choose();
})();
</script>
</body>
</html>
"##;
