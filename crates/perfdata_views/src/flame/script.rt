//! The parts of the picture that are always the same.

/// The start of the file.
pub(crate) const START: &str =
    r#"<svg xmlns="http://www.w3.org/2000/svg" role="img" font-family="monospace" font-size="12""#;

/// How boxes look.
pub(crate) const STYLE: &str = r##"<style>
svg { --background: #f8f8f8; --ink: #202020; --button: #e4e4e4; }
svg:root { background: var(--background); }
svg text { fill: #000; pointer-events: none; white-space: pre; }
svg > text { fill: var(--ink); }
#background { fill: var(--background); }
#boxes g { cursor: pointer; }
#boxes g:hover rect, #boxes g.current rect { stroke: var(--ink); }
#boxes g.outer { opacity: 0.6; }
.searching #boxes g:not(.found) rect { opacity: 0.25; }
.searching #boxes g:not(.found) text { fill: var(--ink); }
.thread { fill: #c4c4d0; } .user { fill: #f0a038; } .kernel { fill: #88b8ec; }
.generated { fill: #84c878; } .unknown { fill: #d4a8dc; }
.bar input, .bar button { font: inherit; color: var(--ink); background: var(--button); border: 1px solid #888;
  border-radius: 3px; height: 24px; box-sizing: border-box; }
@media (prefers-color-scheme: dark) { svg { --background: #1c1c1c; --ink: #e0e0e0; --button: #383838; } }
</style>
<rect id="background" width="100%" height="100%"/>
"##;

/// What the hues mean.
pub(crate) const LEGEND: &str = r##"<text x="100%" dx="-10" y="43" text-anchor="end">
<tspan class="user">&#9632;</tspan> user <tspan class="kernel">&#9632;</tspan> kernel
<tspan class="generated">&#9632;</tspan> generated <tspan class="unknown">&#9632;</tspan> unknown</text>
"##;

/// What colors and signs mean where a profile is compared with another one.
pub(crate) const CHANGES_LEGEND: &str = r##"<text x="100%" dx="-10" y="43" text-anchor="end">
<tspan fill="#f52d2d">&#9632;</tspan> + more <tspan fill="#2d2df5">&#9632;</tspan> - less than before</text>
"##;

/// Zooms, searches and says what a box is. It reads names as text, and makes elements without markup.
pub(crate) const SCRIPT: &str = r##"
"use strict";
(function () {
  var SVG = "http://www.w3.org/2000/svg", HTML = "http://www.w3.org/1999/xhtml";
  var CHARACTER_WIDTH = 7.23, NAME_MARGIN = 3, SIDE_MARGIN = 10, FOOT = 26, SLACK = 0.00011;
  var script = document.currentScript;
  var svg = script && script.ownerSVGElement || document.documentElement;
  var graph = svg.querySelector("#boxes"), details = svg.querySelector("#details");
  var boxes = [], boxOf = new Map(), zoomed = null, current = null, graphWidth = 0;

  function number(element, name) {
    return parseFloat(element.getAttribute(name));
  }

  // A box: its elements, its name, what else its title says, and its place in percent of the graph's width,
  // before any zoom and now.
  graph.querySelectorAll("g").forEach(function (group) {
    var rect = group.querySelector("rect"), title = group.querySelector("title").textContent;
    var end = title.lastIndexOf("\n");
    var left = number(rect, "x"), width = number(rect, "width");
    var box = {
      group: group, rect: rect, text: group.querySelector("text"), name: title.slice(0, end),
      weight: title.slice(end + 1), left: left, width: width, top: number(rect, "y"), shownLeft: left,
      shownWidth: width
    };
    boxes.push(box);
    boxOf.set(group, box);
  });
  var all = boxes[0];

  // Writes as much of the name as fits.
  function setName(box) {
    var width = box.shownWidth / 100 * graphWidth;
    var limit = Math.floor((width - 2 * NAME_MARGIN + 0.001) / CHARACTER_WIDTH);
    if (limit < 3 && !box.text) {
      return;
    }
    var characters = Array.from(box.name);
    if (characters.length > limit) {
      characters = limit < 3 ? [] : characters.slice(0, limit - 2).concat("..");
    }
    if (!box.text) {
      box.text = make(SVG, "text", { y: box.top + 13, dx: NAME_MARGIN });
      box.group.appendChild(box.text);
    }
    box.text.textContent = characters.join("");
    box.text.setAttribute("x", box.shownLeft + "%");
  }

  function setPlace(box, left, width) {
    box.shownLeft = left;
    box.shownWidth = width;
    box.rect.setAttribute("x", left + "%");
    box.rect.setAttribute("width", width + "%");
    setName(box);
  }

  function isIn(inner, outer) {
    return inner.left >= outer.left - SLACK && inner.left + inner.width <= outer.left + outer.width + SLACK;
  }

  // Shows a box at full width, with what is below it and above it.
  function zoom(target) {
    var scale = all.width / target.width;
    zoomed = target === all ? null : target;
    boxes.forEach(function (box) {
      var isOuter = box.top < target.top && isIn(target, box);
      var isInner = box.top >= target.top && isIn(box, target);
      box.group.style.display = isOuter || isInner ? "" : "none";
      box.group.classList.toggle("outer", isOuter);
      if (isOuter) {
        setPlace(box, all.left, all.width);
      } else if (isInner) {
        setPlace(box, all.left + (box.left - target.left) * scale, box.width * scale);
      }
    });
    reset.style.visibility = zoomed ? "visible" : "hidden";
  }

  // Says what a box is, at the foot of the picture.
  function show(box) {
    if (current) {
      current.group.classList.toggle("current", false);
    }
    current = box;
    if (box) {
      box.group.classList.toggle("current", true);
    }
    details.textContent = box ? box.name + ": " + box.weight : "";
  }

  // Marks the boxes whose names contain the term. Returns how many names do, and the share of the samples
  // that have such a box.
  function search(term) {
    var names = new Set();
    var found = boxes.filter(function (box) {
      var isFound = term !== "" && box.name.toLowerCase().includes(term.toLowerCase());
      box.group.classList.toggle("found", isFound);
      if (isFound) {
        names.add(box.name);
      }
      return isFound;
    });
    svg.classList.toggle("searching", term !== "");
    found.sort(function (a, b) { return a.left - b.left || b.width - a.width; });
    var end = 0, width = 0;
    found.forEach(function (box) {
      width += Math.max(0, box.left + box.width - Math.max(box.left, end));
      end = Math.max(end, box.left + box.width);
    });
    return { names: names.size, share: all ? width / all.width : 0 };
  }

  function make(space, name, attributes) {
    var element = document.createElementNS(space, name);
    Object.keys(attributes).forEach(function (key) { element.setAttribute(key, attributes[key]); });
    return element;
  }

  // The bar: a search, what it found, and a button that ends the zoom.
  var holder = make(SVG, "foreignObject", { x: SIDE_MARGIN, y: 26, width: 420, height: 26 });
  var bar = make(HTML, "div", { class: "bar" });
  var input = make(HTML, "input", { type: "search", placeholder: "Search names", "aria-label": "Search names" });
  var reset = make(HTML, "button", { type: "button", title: "Escape" });
  var result = make(SVG, "text", { x: SIDE_MARGIN + 430, y: 43 });
  reset.textContent = "Zoom out";
  reset.style.visibility = "hidden";
  bar.appendChild(input);
  bar.appendChild(reset);
  holder.appendChild(bar);
  svg.appendChild(holder);
  svg.appendChild(result);

  function showSearch() {
    var found = search(input.value), functions = found.names === 1 ? " function, " : " functions, ";
    var share = (Math.floor(10000 * found.share + 0.5) / 100).toFixed(2) + " %";
    result.textContent = input.value === "" ? "" : found.names + functions + share;
  }

  // Keeps the term in the address, where that is allowed.
  function keepTerm() {
    try {
      history.replaceState(null, "", input.value === "" ? "#" : "#s=" + encodeURIComponent(input.value));
    } catch (error) {}
  }

  function readTerm() {
    try {
      input.value = location.hash.startsWith("#s=") ? decodeURIComponent(location.hash.slice(3)) : "";
    } catch (error) {}
    showSearch();
  }

  // The shown box nearest to the middle of the current one, a row below or above; or the next one beside it.
  function neighbor(key) {
    var row = key === "ArrowDown" ? 18 : key === "ArrowUp" ? -18 : 0, from = current || zoomed || all;
    var middle = from.shownLeft + from.shownWidth / 2, best = null, distance = Infinity;
    boxes.forEach(function (box) {
      var shift = box.shownLeft + box.shownWidth / 2 - middle;
      var isThere = box.top === from.top + row && box.group.style.display !== "none" && box !== from;
      var isAside = row !== 0 || (key === "ArrowRight") === (shift > 0);
      var isAround = row >= 0 || isIn(from, box), isWithin = row <= 0 || isIn(box, from);
      if (isThere && isAside && isAround && isWithin && Math.abs(shift) < distance) {
        best = box;
        distance = Math.abs(shift);
      }
    });
    return best || from;
  }

  function press(event) {
    if (event.key === "Escape" && all) {
      zoom(all);
    } else if (event.target === input) {
      return;
    } else if (event.key.startsWith("Arrow") && all) {
      show(neighbor(event.key));
      event.preventDefault();
    } else if (event.key === "Enter" && current && event.target !== reset) {
      zoom(current);
    } else if (event.key === "/") {
      input.focus();
      event.preventDefault();
    }
  }

  // The foot stays in sight of a picture that is a document by itself.
  function placeFoot() {
    var height = number(svg, "height"), isDocument = svg === document.documentElement;
    var bottom = isDocument ? Math.min(height, window.scrollY + window.innerHeight) : height;
    details.setAttribute("y", bottom - 8);
    foot.setAttribute("y", bottom - FOOT);
  }

  // Gives the picture the width that there is.
  function resize() {
    graphWidth = Math.max(100, svg.clientWidth - 2 * SIDE_MARGIN);
    graph.setAttribute("width", graphWidth);
    boxes.forEach(setName);
    placeFoot();
  }

  function boxAt(event) {
    return boxOf.get(event.target.closest("#boxes > g"));
  }

  var foot = make(SVG, "rect", { x: 0, width: "100%", height: FOOT, style: "fill: var(--background)" });
  svg.insertBefore(foot, details);
  svg.removeAttribute("viewBox");
  svg.setAttribute("width", "100%");
  svg.setAttribute("tabindex", "0");
  input.addEventListener("input", function () { showSearch(); keepTerm(); });
  reset.addEventListener("click", function () { zoom(all); });
  svg.addEventListener("keydown", press);
  graph.addEventListener("click", function (event) { zoom(boxAt(event) || all); });
  graph.addEventListener("mouseover", function (event) { show(boxAt(event) || null); });
  window.addEventListener("hashchange", readTerm);
  window.addEventListener("resize", resize);
  window.addEventListener("scroll", placeFoot);
  resize();
  readTerm();
})();
"##;
