//! The constant text of a page. `page/pack` writes it here from `page/template.html`; change it there.

/// The page before its data.
pub const HEAD: &[u8] = br##"<!doctype html>
<html lang="en">
<head>
<meta charset="utf-8">
<meta name="viewport" content="width=device-width">
<title>ghs: a run, step by step</title>
<style>
:root { --paper: #fff; --ink: #111; --dim: #555; --faint: #8a8a8a; --line: #c8c8c8; --panel: #f3f3f1; --act: #c2185b; --on-act: #fff; --num: 17px;
  --c0: hsl(190 85% 62%); --c1: hsl(60 85% 80%); --c2: hsl(340 85% 62%); --c3: hsl(210 85% 56%); --c4: hsl(60 85% 50%); --c5: hsl(30 60% 50%); }
:root.dark { --paper: #121417; --ink: #f2f2f2; --dim: #b4b4b4; --faint: #8c8c8c; --line: #42464d; --panel: #1c1f24; --act: #ff7eb6; --on-act: #111; color-scheme: dark;
  --c0: hsl(200 60% 35%); --c1: hsl(10 85% 40%); --c2: hsl(240 85% 50%); --c3: hsl(20 35% 20%); --c4: hsl(260 60% 55%); --c5: hsl(240 85% 20%); }
* { box-sizing: border-box; }
html, body { height: 100%; margin: 0; }
body { display: grid; grid-template: auto minmax(0, 1fr) auto / minmax(0, 1fr) 24.5rem; font: var(--num)/1.35 system-ui, "Segoe UI", "DejaVu Sans", sans-serif;
  color: var(--ink); background: var(--paper); }
header, footer { grid-column: 1 / 3; background: var(--panel); padding: .3rem .7rem; display: flex; gap: .4rem .7rem; align-items: center; flex-wrap: wrap; }
header b { font-size: 1.1em; }
header .gap { flex: 1; }
button, select, input { font: inherit; color: inherit; background: var(--paper); border: 1px solid var(--faint); border-radius: .3em; padding: .1em .5em; }
button { cursor: pointer; min-width: 2.2em; }
button[aria-pressed=true], button[aria-selected=true] { background: var(--ink); color: var(--paper); }
:focus-visible { outline: 3px solid var(--act); outline-offset: 1px; }
main { position: relative; min-width: 0; min-height: 0; overflow: hidden; }
main > svg { position: absolute; inset: 0; width: 100%; height: 100%; display: block; }
#time { overflow: auto; position: absolute; inset: 0 0 2.9rem 0; }
[hidden] { display: none !important; }
aside { display: flex; flex-direction: column; min-height: 0; overflow-y: auto; border-left: 1px solid var(--line); padding: .4rem .3rem .3rem .8rem; }
aside > div { flex: none; }
aside h2 { font-size: 1em; margin: .35rem 0 .1rem; }
/* the explanation is whole; what a node knows and the accounts give way */
aside #say { min-height: 5em; }
aside #vars { flex: 1 3 auto; min-height: 7.5em; overflow-y: auto; }
aside #census { flex: 0 4 auto; min-height: 7em; overflow-y: auto; }
.fold { all: unset; cursor: pointer; }
.fold::before { content: "\25BE "; }
.fold[aria-expanded=false]::before { content: "\25B8 "; }
aside p { margin: .15rem 0; }
table { border-collapse: collapse; width: 100%; font-variant-numeric: tabular-nums; font-size: .92em; }
th, td { text-align: left; padding: 0 .4em 0 0; font-weight: normal; vertical-align: top; white-space: nowrap; }
th { color: var(--dim); }
td.n, th.n { text-align: right; padding-right: .5em; }
tr.new td, td.new { font-weight: bold; }
td.new::after, tr.new td:nth-child(4)::after { content: " \25C0"; color: var(--act); }
.old { color: var(--dim); font-weight: normal; }
.row { font-weight: bold; }
.say { font-size: 1.12em; }
.bad { background: var(--act); color: var(--on-act); padding: .2rem .6rem; grid-column: 1 / 3; }
.bar { height: .8em; border: 1px solid var(--ink); margin: .2em 0; }
.bar i { display: block; height: 100%; background: var(--ink); }
.pill { display: inline-block; min-width: 1.5em; text-align: center; background: var(--ink); color: var(--paper); border-radius: .7em; font-weight: bold; font-size: .85em; }
#ledger { container-type: inline-size; }
/* as large as its columns have room for */
table.wide { font-size: min(.92em, calc(100cqw / var(--ems))); }
table.wide td, table.wide th { padding: 0 .15em; }
footer { display: grid; grid-template-columns: minmax(0, 1fr); }
footer div { display: flex; gap: .4rem .5rem; align-items: center; flex-wrap: wrap; }
#strip { width: 100%; height: 84px; display: block; cursor: pointer; touch-action: none; }
#seek { width: 100%; margin: 0; accent-color: var(--act); padding: 0; height: 1.1rem; }
#count { font-weight: bold; font-variant-numeric: tabular-nums; }
#speed { max-width: 8.5em; }
#goal { max-width: 12em; }
svg text { fill: var(--ink); font-family: inherit; }
.half { fill: none; stroke: var(--faint); stroke-width: 1.4; }
.tiny .half, .tiny .cross { stroke-width: .8; }
.tiny .body { stroke-width: .9; }
.tiny .node text, .tiny .node .stop { display: none; }
.tiny .ring { stroke-width: .8 !important; }
.half.asked { stroke: var(--ink); stroke-width: var(--thin, 1.8); stroke-dasharray: 9 3; }
.half.tree { stroke: var(--ink); stroke-width: var(--thick, 5); }
.half.closed { stroke-dasharray: 5 5; }
.cross { fill: none; stroke: var(--ink); stroke-width: 1.8; }
.core { fill: none; stroke: var(--paper); stroke-width: var(--thin, 1.8); }
.halo { fill: none; stroke-linecap: round; stroke-width: var(--band, 12px); }
path.halo.bx { stroke: var(--line); }
circle.halo { stroke: none; }
circle.halo.bx { fill: var(--line); }
.look path, .look circle { stroke: var(--paper); stroke-width: 2; fill: none; }
.look circle { fill: var(--paper); stroke: none; }
.sw { width: 1.5em; height: 1em; vertical-align: -.15em; margin-right: .3em; }
.sw rect { stroke: var(--ink); stroke-width: 1.5; }
.body { fill: var(--paper); stroke: var(--ink); stroke-width: 1.8; }
.asleep .body { stroke-dasharray: 3 3; stroke: var(--faint); }
.asleep text { fill: var(--dim); }
.ring { display: none; fill: none; stroke: none; }
.searching .ring { display: inline; stroke: var(--ink); stroke-width: 1.8; }
.stop { display: none; fill: none; stroke: none; }
.halted .stop { display: inline; stroke: var(--ink); stroke-width: 3.5; }
.at .body { stroke: var(--act); stroke-width: 5.5; stroke-dasharray: none; }
.at .ring { stroke-width: 2.5; }
.pinmark path, .pinmark circle { fill: none; stroke: var(--ink); stroke-width: 3; }
.pinmark .under { stroke: var(--paper); stroke-width: 7; }
.eye { fill: none; stroke: var(--act); stroke-width: 4; }
#view #marks { pointer-events: none; }
.node { cursor: pointer; }
.node text, .msg text, .tag text { text-anchor: middle; dominant-baseline: central; pointer-events: none; }
.node .lev { font-weight: bold; text-anchor: start; paint-order: stroke; stroke: var(--paper); stroke-width: 3px; }
.tag rect { fill: var(--paper); opacity: .86; }
.tag.frag rect { fill: var(--ink); opacity: 1; }
.tag.frag text { fill: var(--paper); font-weight: bold; }
#weights text { fill: var(--dim); text-anchor: middle; dominant-baseline: central; }
.msg path { fill: var(--ink); stroke: var(--paper); stroke-width: 1; }
.msg text { fill: var(--paper); font-weight: bold; }
.msg.fresh path { stroke: var(--act); stroke-width: 3; }
.msg.taken path { fill: var(--act); stroke: none; }
.msg.taken text { fill: var(--on-act); }
.msg.back path { fill: var(--paper); stroke: var(--ink); stroke-width: 2; stroke-dasharray: 4 2; }
.tiny .msg path { stroke-width: .6; }
.msg.back text { fill: var(--ink); }
.msg.again path { stroke: var(--act); stroke-width: 2.5; stroke-dasharray: none; }
.msg.asked path { fill: var(--act); }
.msg.asked text { fill: var(--on-act); }
.pill.back { background: var(--paper); color: var(--ink); outline: 1.5px dashed var(--ink); outline-offset: -1.5px; }
#hint { position: absolute; max-width: 22rem; padding: .3rem .6rem; background: var(--paper); border: 2px solid var(--ink); pointer-events: none; font-size: .9em; }
.way { fill: none; stroke: var(--act); stroke-width: 2.5; stroke-dasharray: 2 5; stroke-linecap: round; }
.legend { position: absolute; left: .5rem; bottom: .4rem; font-size: .78em; color: var(--dim); background: var(--paper); opacity: .93; padding: .15rem .4rem; pointer-events: none; }
.legend svg { vertical-align: middle; margin-right: .2em; }
.legend span { margin-right: .8em; display: inline-block; }
.lane { stroke: var(--line); stroke-width: 1; }
.arrow { fill: none; stroke: var(--dim); stroke-width: 1.5; }
.arrow.past { stroke: var(--ink); stroke-width: 2.5; }
.arrow.open { stroke-dasharray: 6 4; }
.arrow.chain { stroke: var(--act); stroke-width: 4; }
.arrow.idle { stroke-dasharray: 2 3; stroke-width: 1.5; }
.dot { fill: var(--paper); stroke: var(--dim); stroke-width: 1.6; cursor: pointer; }
.dot.past { fill: var(--ink); stroke: var(--ink); }
.dot.now { fill: var(--act); stroke: var(--act); }
.nowline { stroke: var(--act); stroke-width: 1.5; stroke-dasharray: 3 4; }
.plot { fill: none; stroke: var(--ink); stroke-width: 2; }
.plot.b { stroke-dasharray: 5 3; }
#strip text { paint-order: stroke; stroke: var(--panel); stroke-width: 10px; stroke-linejoin: round; }
.tickline { stroke: var(--dim); stroke-width: 1; }
dialog { color: var(--ink); background: var(--paper); border: 2px solid var(--ink); max-width: 46rem; }
dialog td:first-child { font-weight: bold; padding-right: 1.2em; }
dialog td { white-space: normal; }
@media (min-width: 1500px) { body { grid-template-columns: minmax(0, 1fr) 29rem; } }
@media (max-height: 905px), (max-width: 1499px) and (max-height: 1030px) { :root { --num: 15px; } aside { font-size: 13.5px; line-height: 1.25; } #strip { height: 60px; } }
@media (max-height: 719px) { aside { font-size: 12.5px; } }
@media (max-width: 900px) { body { grid-template: auto minmax(0, 1fr) minmax(0, 18rem) auto / minmax(0, 1fr); } header, footer, .bad { grid-column: 1; } aside { display: block; overflow-y: auto; border-left: 0; border-top: 1px solid var(--line); } }
@media (max-width: 500px) { :root { --num: 14px; } header, footer { padding: .2rem .4rem; gap: .25rem; } footer div { gap: .25rem; } button { min-width: 2em; padding: .1em .35em; } #what, .legend, .wordy { display: none; } #strip { height: 44px; } #strip text { font-size: 11px; } body { grid-template-rows: auto minmax(0, 1fr) minmax(0, 18rem) auto; } #goal { max-width: 9em; } }
.sr { position: absolute; width: 1px; height: 1px; overflow: hidden; clip-path: inset(50%); }
#glass { position: absolute; inset: 0; }
#glass, #net, #under { touch-action: none; }
#net, #under { pointer-events: none; }
#view, #lower { pointer-events: auto; }
/* painted by itself, as events seldom change it; links too thin to be met leave all to the glass */
#under, #plots { will-change: transform; }
#under.tiny { touch-action: auto; }
.tiny #lower { pointer-events: none; }
.node:focus { outline: none; }
.node:focus-visible .body { stroke: var(--act); stroke-width: 5; }
.ask button { margin: .1rem .2rem .1rem 0; }
@media print {
  @page { size: landscape; margin: 8mm; }
  * { print-color-adjust: exact; -webkit-print-color-adjust: exact; }
  :root { --num: 12px; }
  html, body { height: 178mm; width: 100%; overflow: hidden; }
  body { grid-template: auto minmax(0, 1fr) auto / minmax(0, 1fr) 88mm; }
  header, footer { grid-column: 1 / 3; }
  aside > [hidden] { display: block !important; }
  aside { display: flex; font-size: 11px; line-height: 1.2; border-left: 1px solid var(--line); border-top: 0; }
  header button, footer button, footer label, #seek, #hint, dialog { display: none !important; }
  #strip { height: 60px; }
  #count::before { content: attr(data-at); }
}
</style>
<style id="looks"></style>
</head>
<body>
<header>
<b>ghs</b><span id="what"></span><span class="gap"></span>
<span role="tablist"><button role="tab" id="tabnet" aria-selected="true" title="t">Network</button>
<button role="tab" id="tabtime" aria-selected="false" title="t">Space and time</button></span>
<button id="only" data-key="x" title="x" aria-pressed="false" hidden>causes only</button><button id="follow" data-key="f" title="f" aria-pressed="false">follow</button><button id="layout" data-key="c" title="c">circle</button><button id="save" data-key="p" title="p: the picture as a file (SVG)">picture</button><button id="theme" data-key="d" title="d">dark</button><button id="help" data-key="?" title="?">?</button>
</header>
<main id="stage">
<div id="glass"></div><svg id="under"><g id="lower"><g id="halos"></g><g id="weights"></g><g id="links"></g><g id="cores"></g></g></svg>
<svg id="net" role="group" aria-label="The network"><defs id="defs"></defs><g id="view"><g id="ways"></g><g id="tags"></g><g id="nodes"></g><g id="msgs"></g><g id="marks"></g></g></svg>
<div id="time" hidden><svg id="lanes" role="img" aria-label="Space-time diagram"></svg></div>
<div class="legend" id="legend"></div>
<div id="hint" hidden></div>
</main>
<aside>
<div class="sr" aria-live="polite" id="live"></div><div id="say"></div>
<h2><label>Node <input id="pick" type="number" min="1" style="width:6em" title="/: search for a node, which pins it; empty: the event's node"></label> <span id="pinned" class="old"></span></h2>
<div id="vars"></div>
<h2><button class="fold">Messages</button></h2><div id="ledger"></div>
<h2><button class="fold">Fragments</button></h2><div id="census"></div>
</aside>
<footer>
<div><label>Event <input id="goto" type="number" min="0" style="width:5.5em" title="e: to an event's number"></label> <span id="count"></span>
<button id="first" data-key="Home" title="Home" aria-label="to the start">|&lt;</button><button id="back" data-key="ArrowLeft" title="left arrow" aria-label="one event back">&lt;</button>
<button id="play" data-key=" " title="space" aria-label="play">Play</button><button id="next" data-key="ArrowRight" title="right arrow" aria-label="one event on">&gt;</button><button id="last" data-key="End" title="End" aria-label="to the end">&gt;|</button>
<label>speed <select id="speed"><option value="1500">slow</option><option value="600" selected>middle</option><option value="150">fast</option><option value="16">rush</option><option value="minute">a run in a minute</option></select></label> <span id="pace"></span>
<label><input type="checkbox" id="skip"> skip deferrals</label>
<label><input type="checkbox" id="ask"> ask first</label>
<label>jump to <select id="goal"></select></label>
<button id="jumpback" data-key="ArrowUp" title="up arrow" aria-label="jump back">&lt;&lt;</button><button id="jump" data-key="ArrowDown" title="down arrow" aria-label="jump on">&gt;&gt;</button></div>
<svg id="strip" aria-hidden="true"></svg>
<input type="range" id="seek" aria-label="event">
</footer>
<dialog id="keys"></dialog>
<!-- plain text, in the element that browsers read fastest -->
<noembed id="steps">
"##;

/// The page behind its data.
pub const TAIL: &[u8] = br##"</noembed>
<script>
'use strict';
const $ = id => document.getElementById(id);
// ---- the protocol, as the data tell of it. The page has none of its own
let P, KINDS, KIND, NAMES, LETTER, BITS, MARK, PHASE, THEN, PUTS, NAMED;
// a mark's look on its half of a link
const SHOWN = ['open', 'tree', 'closed', 'asked'];
function adopt(o) {
  const by = (list, name, f) => Object.fromEntries(list.map((x, i) => [x[name], f(x, i)]));
  P = o;
  KINDS = o.kinds.map(k => k.kind);
  KIND = by(o.kinds, 'kind', (_, i) => i);
  NAMES = by(o.kinds, 'kind', k => k.name);
  LETTER = by(o.kinds, 'kind', k => k.letter);
  BITS = by(o.kinds, 'kind', k => k.bits);
  MARK = by(o.marks, 'mark', m => ({ ...m, code: SHOWN.indexOf(m.look) }));
  // a user's own node marks with any word
  if (o.own) MARK = new Proxy(MARK, { get: (all, x) => Object.hasOwn(all, x) ? all[x] : { name: x, code: 0 } });
  PHASE = by(o.phases, 'phase', x => x);
  // what reasons of deferring tell of a node, and whether there are any
  THEN = [...new Set([...Object.values(o.waits).join().matchAll(/{node\.(\w+)}/g)].map(x => x[1]))];
  PUTS = Object.keys(o.waits).length > 0;
  NAMED = 'name' in o.opening;
  ledger = zero();
  for (let v = 1; v <= G.nodes; v++) nodes[v] = { v, ports: [], marks: [], queues: [], ...o.opening };
}
const asleep = n => PHASE[n.phase].look === 'asleep';
const filled = (text, f) => text.replace(/{(?:(\w+)\.)?(\w+)}/g, (_, of, x) => f(x, of));
// what only nodes with levels and names have
const own = x => NAMED ? x : '';
const TREE = () => P.marks.find(m => m.look === 'tree').name;
const KEYS = [['left, right', 'one event back or on'], ['space', 'play, stop'], ['up, down', 'to the previous or next event of the sort chosen under "jump to"'],
  ['Page up, Page down', 'ten events'], ['Home, End', 'start, end'], ['n', 'pins the event\'s node, or lets it go'], ['[ and ]', 'pins the node before or after'],
  ['e', 'to an event\'s number'], ['/', 'search for a node'], ['q', 'asks you what the next event does'], ['w', 'skips events that only defer'], ['t', 'network, or space and time'], ['c', 'laid out by forces, or as a circle in the order of numbers'], ['d', 'dark, light'],
  ['x', 'space and time: only what acted on the event or what it acts on'], ['f', 'follows the event\'s node, larger'],
  ['+ - 0', 'larger, smaller, whole network; the mouse drags and its wheel zooms'], ['k', 'weights of links'], ['p', 'the picture as a file (SVG)'], ['g', 'legend'], ['?', 'this list']];

// ---- the data
let G, steps = [], links = [], nodes = [], ledgerEnd = null;
const queues = new Map();
const queueAt = (v, p) => nodes[v].queues[p] ||= newQueue({ v, p, list: [] });
const newQueue = q => { queues.set(q, q); return q; };
const queue = (v, p) => queueAt(v, p).list;
// the queues that may look otherwise than they were drawn
let changed = new Set();
// `back`: how many messages in queues were deferred
const zero = () => ({ sent: KINDS.map(() => 0), bits: KINDS.map(() => 0), consumed: KINDS.map(() => 0), requeued: 0, queued: 0, back: 0 });
let ledger;
// a link knows the looks of the marks of both its ends
function setMark(n, port, mark) {
  const l = links[n.ports[port].link];
  n.marks[port] = mark;
  l.halves = 4 * MARK[nodes[l.a].marks[l.a_port]].code + MARK[nodes[l.b].marks[l.b_port]].code;
}
// the variables of a user's own node stand behind a blank; those that any runtime knows are the page's own
const KNOWN = ['asleep', 'halted', 'marks'];
function freed(set, stops) {
  const out = {};
  for (const x in set) if (!KNOWN.includes(x)) { out[' ' + x] = set[x]; if (!P.variables.some(row => row[0] === ' ' + x)) P.variables.push([' ' + x]); }
  if ('asleep' in set || stops) out.phase = stops ? 'stopped' : set.asleep === 'yes' ? 'yes' : 'no';
  if ('halted' in set) out.halted = set.halted === 'yes';
  return out;
}
// each of them opens in its own way
const openings = [];
function begin(o) {
  const n = nodes[o.opens];
  for (const x in n) if (x[0] === ' ') n[x] = null;
  Object.assign(n, o.set);
  o.marks.forEach((m, p) => { if (m !== n.marks[p]) setMark(n, p, m); });
}
function read(text) {
  // many lines at once: a page may have a hundred thousand
  for (let from = 0, to; from < text.length; from = to + 1) {
    to = text.indexOf('\n', from + 1e6);
    if (to < 0) to = text.length;
    for (const o of JSON.parse('[' + text.slice(from, to).trim().replaceAll('\n', ',') + ']')) readLine(o);
  }
  measure();
}
function readLine(o) {
  if (!P && !('ghs' in o || 'protocol' in o)) throw Error('the data tell of no protocol');
  if ('step' in o) { o.marks ??= o.mark ? [o.mark] : NOTHING; if (P.own) o.set = freed(o.set, o.row === 'stopped'); steps.push(o); }
  else if ('link' in o) {
    // links come in key order, and so do the ports of a node
    const i = links.push(o) - 1;
    o.a_port = nodes[o.a].ports.push({ link: i, far: o.b }) - 1;
    o.b_port = nodes[o.b].ports.push({ link: i, far: o.a }) - 1;
    nodes[o.a].marks.push(P.marks[0].mark);
    nodes[o.b].marks.push(P.marks[0].mark);
    o.halves = 0;
  } else if ('opens' in o) { o.set = { phase: 'no', ...freed(o.set, Object.keys(o.set).join() === 'stopped') }; openings.push(o); begin(o); }
  else if ('ledger' in o) ledgerEnd = o;
  else if ('protocol' in o) adopt(o);
  else if ('ghs' in o) G = o;
}
// how many bits a message has: those of its kind, and of what it carries
const width = n => n.toString(2).length;
let widths;
function measure() {
  // the last link has the greatest weight; the highest level is the floor of log2 of the nodes
  const number = width(G.nodes), weight = width(links.length ? links[links.length - 1].weight : 0);
  widths = { number, weight, level: width(number - 1), key: 2 * number + weight, count: width(links.length) };
}
// of a user's own by the types of its values; a comma in brackets parts none
function ownLength(m) {
  let depth = 0, sum = width(KINDS.length - 1);
  const { types } = P.kinds[KIND[m.kind]], list = (m.values ?? '').replace(/&\w+;/g, '.').replace(/[,()[\]{}]/g, c => c === ',' ? depth ? c : '\n' : (depth = Math.max(0, depth + ('([{'.includes(c) ? 1 : -1)), c)).split('\n');
  if (types) types.split(',').forEach((t, i) => { const x = list[i] ?? ''; sum += t === 'bit' ? 1 : t === 'text' ? 8 * x.length : t === 'key?' ? 1 + (x === '-' ? 0 : widths.key) : t === 'keys' ? widths.count + (x.split(':').length - 1) * widths.key : widths[t === 'node' ? 'number' : t] ?? +t; });
  return Math.min(sum, 2 ** 32 - 1);
}
const lengthOf = m => P.own ? ownLength(m) : BITS[m.kind] + (m.level === undefined ? 0 : widths.level) + (m.key ? widths.key : 0) + (m.wave ? widths.number : 0) + (m.links ? widths.count + m.links.length * widths.key : 0);
const message = (m, born, from, to, at) => ({ kind: m.kind, level: m.level, key: m.key, phase: m.phase, wave: m.wave, links: m.links, values: m.values, bits: lengthOf(m), born, from, to, at, takes: NOTHING, backs: 0, done: 0, number: 0 });

// ---- one step on, one step back: every value is one that the step carries; what it replaces is kept
let at, undo = [];
const NONE = {}, NOTHING = [];
const tally = (m, d) => { const k = KIND[m.kind]; ledger.sent[k] += d; ledger.bits[k] += d * m.bits; ledger.queued += d; };
function on() {
  const s = steps[at], n = nodes[s.node], u = undo[at] = undo[at] || { set: NONE, sent: s.send.length ? s.send.map(x => message(x, s.step, s.node, x.to, x.at)) : NOTHING, taken: undefined, marks: NOTHING, number: 0, then: undefined };
  if (s.port !== null) {
    const q = queueAt(s.node, s.port), m = u.taken = q.list.shift();
    if (!m || m.kind !== s.kind || m.level !== s.level || m.key !== s.key) throw Error('event ' + s.step + ' takes a message that is not first in its queue');
    changed.add(q);
    if (s.fate === 'waits') { q.list.push(m); if (!m.backs++) ledger.back++; ledger.requeued++; } else { ledger.consumed[KIND[m.kind]]++; ledger.queued--; if (m.backs) ledger.back--; }
  }
  if (s.marks.length) { u.marks = s.marks.map(([p]) => n.marks[p]); for (const m of s.marks) setMark(n, ...m); }
  for (const x in s.set) { if (u.set === NONE) u.set = {}; u.set[x] = n[x]; n[x] = s.set[x]; }
  for (const m of u.sent) { const q = queueAt(m.to, m.at); q.list.push(m); changed.add(q); tally(m, 1); }
  if (s.fate === 'waits' && !u.then) { u.then = {}; for (const x of THEN) u.then[x] = x === 'mark' ? n.marks[s.port] : n[x]; }
  at++;
}
function off() {
  at--;
  const s = steps[at], n = nodes[s.node], u = undo[at];
  for (let k = u.sent.length; k--;) { const m = u.sent[k], q = queueAt(m.to, m.at); q.list.pop(); changed.add(q); tally(m, -1); }
  for (const x in u.set) n[x] = u.set[x];
  s.marks.forEach(([p], i) => setMark(n, p, u.marks[i]));
  if (s.port !== null) {
    const q = queueAt(s.node, s.port), m = u.taken;
    if (s.fate === 'waits') { q.list.pop(); if (!--m.backs) ledger.back--; ledger.requeued--; } else { ledger.consumed[KIND[m.kind]]--; ledger.queued++; if (m.backs) ledger.back++; }
    q.list.unshift(m);
    changed.add(q);
  }
}
// the opening at once, where that is nearer than all the steps back
function rewind() {
  for (const n of nodes) if (n) { Object.assign(n, P.opening); n.marks.fill(P.marks[0].mark); }
  for (const l of links) l.halves = 0;
  openings.forEach(begin);
  for (const q of queues.values()) { q.list.length = 0; changed.add(q); }
  for (const u of undo) for (const m of u.sent) m.backs = 0;
  ledger = zero();
  at = 0;
}
function goto(k) { k = Math.max(0, Math.min(G.to, k)); if (at > 2 * k + 1000) rewind(); while (at < k) on(); while (at > k) off(); }
const stepNow = () => steps[at - 1];
const undoNow = () => undo[at - 1];

// ---- why a message waits, with the numbers of message and node at that event
const lastBack = m => m.takes[m.backs - 1];
const reasonOf = m => { const k = lastBack(m) - 1, row = steps[k].row; return filled(P.waits[row] ?? row, (x, of) => value(x, of === 'node' ? undo[k].then[x] : m[x])); };
const listed = list => (list.length > 6 ? (list.length - 6) + ' before and ' : '') + list.slice(-6).join(', ');
const backsOf = m => 'deferred by event' + (m.backs > 1 ? 's ' : ' ') + listed(m.takes.slice(0, m.backs));
const bornOf = m => words(m) + ' from node ' + m.from + ' to node ' + m.to + ', sent by event ' + m.born + ', number ' + m.number + ' of its chain, ' + m.bits + ' bits';
const storyOf = m => bornOf(m) + (m.backs ? '; ' + backsOf(m) + ': ' + reasonOf(m) : '') + '.';

// ---- what the page adds: components of joined links, and curves over the whole run
const joined = l => P.ends === 1 ? branchy(l) : l.halves === 5;
// two fragments merge over a link until an end enters the next level: till then they have one level, and two names or none
const merging = l => NAMED && joined(l) && nodes[l.a].level === nodes[l.b].level && (nodes[l.a].name !== nodes[l.b].name || !nodes[l.a].name);
const whole = l => joined(l) && !merging(l);
const branchy = l => l.halves >> 2 === 1 || (l.halves & 3) === 1;
function classes(n, pairs) {
  const up = Array.from({ length: n + 1 }, (_, i) => i);
  const top = x => { while (up[x] !== x) x = up[x] = up[up[x]]; return x; };
  for (const [a, b] of pairs) { const x = top(a), y = top(b); if (x !== y) up[Math.max(x, y)] = Math.min(x, y); }
  return top;
}
function census() {
  const top = classes(G.nodes, links.filter(whole).map(l => [l.a, l.b])), all = new Map(), of = [];
  for (let v = 1; v <= G.nodes; v++) {
    const t = top(v), n = nodes[v];
    let f = of[t];
    if (!f) all.set(t, f = of[t] = { least: t, level: 0, name: null, nodes: 0 });
    of[v] = f;
    f.nodes++;
    if (n.name && (!f.name || n.level > f.level)) { f.level = n.level; f.name = n.name; }
  }
  // each fragment by its least node, and that of each node
  return { top, all, of };
}
// four numbers for each event, two, and for each node its events
let curve = [], before = [], doings = [], look = new Map(), clashes = new Map();
const figures = i => curve.slice(4 * i, 4 * i + 4);
function survey() {
  let count = G.nodes;
  const lastAt = [], root = nodes.map((_, v) => v), members = nodes.map((_, v) => [v]), band = [], head = [];
  const clash = (x, y) => { if (x && y && x !== y && !clashes.get(x)?.has(y)) for (const [a, b] of [[x, y], [y, x]]) { if (!clashes.has(a)) clashes.set(a, new Set()); clashes.get(a).add(b); } };
  const join = l => {
    if (!whole(l)) return;
    let a = root[l.a], b = root[l.b];
    if (a === b) return;
    if (members[a].length < members[b].length) [a, b] = [b, a];
    for (const v of members[b]) { root[v] = a; members[a].push(v); }
    count--;
    bands(a, members[b]);
  };
  // a fragment's name that is new, or has new nodes, is held to what lies next to it
  const bands = (r, fresh) => {
    for (const v of fresh) { const n = nodes[v], m = nodes[head[r]]; if (n.name && (!m || n.level > m.level)) head[r] = v; }
    const name = head[r] ? nodes[head[r]].name : null;
    for (const v of band[r] === name ? fresh : members[r]) {
      clash(name, nodes[v].name);
      for (const p of nodes[v].ports) if (root[p.far] !== r) clash(name, band[root[p.far]]);
    }
    band[r] = name;
  };
  // chains: a message carries its sender's number plus one; who consumes it, or is woken by it, takes the greater
  const number = nodes.map(() => 0);
  let longest = 0, sent = 0, most = 0;
  clashes = new Map();
  chained = null;
  doings = nodes.map(() => []);
  curve.push(count, 0, 0, 0);
  before.push(0, 0);
  for (const s of steps) {
    const slept = asleep(nodes[s.node]);
    on();
    const u = undoNow(), i = s.step, n = nodes[s.node];
    if (s.port !== null && n.ports[s.port].far !== s.far) throw Error('event ' + i + ' comes from node ' + s.far + ', to which its port does not lead');
    if (u.taken) { if (u.taken.takes === NOTHING) u.taken.takes = [i]; else u.taken.takes.push(i); if (s.fate !== 'waits') u.taken.done = i; }
    if (u.taken && (slept || s.fate !== 'waits')) number[s.node] = Math.max(number[s.node], u.taken.number);
    u.number = number[s.node];
    longest = Math.max(longest, u.number);
    for (const m of u.sent) { m.number = u.number + 1; most = Math.max(most, m.bits); }
    before.push(lastAt[s.node] || 0, u.taken ? u.taken.born : 0);
    if (!idle(s)) doings[s.node].push(i);
    lastAt[s.node] = i;
    if (s.set.name) { if (!look.has(s.set.name)) look.set(s.set.name, 0); for (const p of n.ports) { clash(n.name, nodes[p.far].name); join(links[p.link]); } }
    for (const [p] of s.marks) join(links[n.ports[p].link]);
    if (s.set.level < u.set.level) { const r = root[s.node]; head[r] = 0; bands(r, members[r]); }
    else if (s.set.name || s.set.level) bands(root[s.node], [s.node]);
    curve.push(count, s.total, longest, most);
    sent += u.sent.length;
    if (s.total !== sent) throw Error('event ' + i + ' counts ' + s.total + ' messages sent');
  }
  looks(clashes);
  if (ledgerEnd) for (const x of ['requeued', 'queued', 'sent', 'consumed'])
    if (JSON.stringify(ledgerEnd[x]) !== JSON.stringify(ledger[x])) throw Error('the last ledger does not fit the steps: ' + x);
  if (at !== G.to) throw Error('the steps end at event ' + at + ', not ' + G.to);
}
// a look is a colour and a pattern; names that ever stand side by side differ, as long as there are enough
const COLOURS = 6, PATTERNS = 4, LOOKS = COLOURS * PATTERNS;
function looks(clashes) {
  const order = [...look.keys()].map((name, i) => [name, i, (clashes.get(name) || new Set()).size]).sort((a, b) => b[2] - a[2] || a[1] - b[1]), given = new Map(), spent = new Array(LOOKS).fill(0);
  for (const [name, i] of order) {
    const used = new Array(LOOKS).fill(0);
    for (const other of clashes.get(name) || []) if (given.has(other)) used[given.get(other)]++;
    let best = -1;
    for (let t = 0; t < LOOKS; t++) { const x = t - t % COLOURS + (t + i) % COLOURS; if (best < 0 || used[x] < used[best] || used[x] === used[best] && spent[x] < spent[best]) best = x; }
    spent[best]++;
    given.set(name, best);
  }
  look = given;
}
const PATTERN = ['', '<path d="M0 2H7"/>', '<circle cx="3.5" cy="3.5" r="1.5"/>', '<path d="M0 3.5H7M3.5 0V7"/>'];
function paintLooks() {
  // a band's colors are those of the fills, half paper
  let defs = '', css = ':root {' + Array.from({ length: COLOURS }, (_, i) => '--b' + i + ': color-mix(in srgb, var(--c' + i + ') 50%, var(--paper));').join('') + '}\n';
  for (let i = 0; i < LOOKS; i++) {
    const c = i % COLOURS, p = Math.floor(i / COLOURS);
    for (const [kind, colour] of [['s', '--c' + c], ['b', '--b' + c]]) {
      const fill = p ? 'url(#' + kind + 'p' + i + ')' : 'var(' + colour + ')';
      if (p) defs += '<pattern id="' + kind + 'p' + i + '" class="look" patternUnits="userSpaceOnUse" width="7" height="7" patternTransform="rotate(' + (p === 1 ? 45 : 0) + ')"><rect width="7" height="7" style="fill:var(' + colour + ')"/>' + PATTERN[p] + '</pattern>';
      css += kind === 's' ? '.s' + i + ' .body, .sw.s' + i + ' rect { fill: ' + fill + '; }\n' : 'path.halo.b' + i + ' { stroke: ' + fill + '; }\ncircle.halo.b' + i + ' { fill: ' + fill + '; }\n';
    }
  }
  $('defs').innerHTML = defs;
  $('looks').textContent = css;
}

// ---- where the nodes stand: classical scaling, then stress majorization over distances in links; no chance in it
// the two strongest axes of a symmetric matrix
function twoAxes(n, rounds, times) {
  const axes = [];
  for (let a = 0; a < 2; a++) {
    let v = Float64Array.from({ length: n }, (_, i) => Math.sin(1 + i * (a ? 2.3 : 1.3)) + .01 * i), norm = 1;
    for (let t = 0; t < rounds; t++) {
      const w = times(v);
      for (const u of axes) { const s = u.reduce((s, x, i) => s + x * w[i], 0); u.forEach((x, i) => { w[i] -= s * x; }); }
      norm = Math.hypot(...w) || 1;
      v = w.map(x => x / norm);
    }
    axes.push(v);
    v.size = Math.sqrt(norm);
  }
  return axes;
}
const nearOf = (list, far) => { const idx = new Map(list.map((v, i) => [v, i])); return list.map(v => [...new Set(far(v).map(w => idx.get(w)))]); };
function hops(near, i) {
  const d = new Float64Array(near.length).fill(-1), q = [i];
  d[i] = 0;
  for (const h of q) for (const j of near[h]) if (d[j] < 0) { d[j] = d[h] + 1; q.push(j); }
  return d;
}
function place(list, far) {
  const n = list.length, hub = list.find(v => far(v).length > 8 && far(v).length === n - 1);
  if (n === 1) return [[0, 0]];
  // the leaves of a star stand round it
  if (hub && list.every(v => v === hub || far(v).length === 1)) return list.map((v, i) => v === hub ? [0, 0] : [Math.cos(6.283 * i / (n - 1)), Math.sin(6.283 * i / (n - 1))]);
  const near = nearOf(list, far), D = near.map((_, i) => hops(near, i));
  const mean = D.map(d => d.reduce((a, x) => a + x * x, 0) / n), all = mean.reduce((a, b) => a + b) / n;
  const axes = twoAxes(n, 40, v => v.map((_, i) => { let s = 0; for (let j = 0; j < n; j++) s -= (D[i][j] * D[i][j] - mean[i] - mean[j] + all) * v[j]; return s / 2; }));
  const P = list.map((_, i) => [axes[0][i] * axes[0].size + 1e-3 * Math.sin(i * 7 + 1), axes[1][i] * axes[1].size + 1e-3 * Math.cos(i * 5 + 2)]);
  for (let t = 0; t < (n > 300 ? 30 : 120); t++)
    for (let i = 0; i < n; i++) {
      let x = 0, y = 0, s = 0;
      for (let j = 0; j < n; j++) {
        if (i === j) continue;
        const d = D[i][j], w = 1 / (d * d), dx = P[i][0] - P[j][0], dy = P[i][1] - P[j][1], e = d / (Math.hypot(dx, dy) || 1e-9);
        x += w * (P[j][0] + dx * e); y += w * (P[j][1] + dy * e); s += w;
      }
      P[i] = [x / s, y / s];
    }
  return P;
}
// many nodes: distances to some pivots alone, then stress over these and the neighbours
const PIVOTS = 50, MANY = 300;
function placeMany(list, far) {
  const n = list.length, near = nearOf(list, far);
  const K = Math.min(PIVOTS, n), D = [], pivots = [], least = new Float64Array(n).fill(1e9), region = new Int32Array(n), weight = new Float64Array(K);
  for (let k = 0, p = 0; k < K; k++) {
    const d = hops(near, p);
    for (let i = 0; i < n; i++) if (d[i] < least[i]) { least[i] = d[i]; region[i] = k; }
    D.push(d); pivots.push(p);
    // the next pivot is the node farthest from all of them
    p = least.reduce((far, x, i) => x > least[far] ? i : far, 0);
  }
  region.forEach(k => weight[k]++);
  // begun by classical scaling over the pivots
  const mean = D.map(d => d.reduce((a, x) => a + x * x, 0) / n), row = Float64Array.from({ length: n }, (_, i) => D.reduce((s, d) => s + d[i] * d[i], 0) / K), all = mean.reduce((a, b) => a + b) / K;
  const C = D.map((d, k) => d.map((x, i) => (row[i] + mean[k] - all - x * x) / 2)), M = C.map(a => C.map(b => { let s = 0; for (let i = 0; i < n; i++) s += a[i] * b[i]; return s; }));
  const axes = twoAxes(K, 60, v => Float64Array.from(M, r => r.reduce((s, x, i) => s + x * v[i], 0)));
  const X = new Float64Array(n), Y = new Float64Array(n);
  for (let i = 0; i < n; i++) for (let k = 0; k < K; k++) { X[i] += C[k][i] * axes[0][k]; Y[i] += C[k][i] * axes[1][k]; }
  // to the size at which the pivots' distances fit best
  let up = 0, low = 1e-9;
  for (let k = 0; k < K; k++) for (let i = 0; i < n; i++) { const e = Math.hypot(X[i] - X[pivots[k]], Y[i] - Y[pivots[k]]); up += D[k][i] * e; low += e * e; }
  for (let i = 0; i < n; i++) { X[i] = X[i] * up / low + .05 * Math.sin(i * 7 + 1); Y[i] = Y[i] * up / low + .05 * Math.cos(i * 5 + 2); }
  // what each node is held to: other node, distance, weight; two links away counts too, where that's few
  const first = new Int32Array(n + 1), seen = new Int32Array(n).fill(-1), end = [], d = [], w = [], tie = (j, far, pull) => { end.push(j); d.push(far); w.push(pull); };
  for (let i = 0; i < n; i++) {
    first[i] = end.length;
    seen[i] = i;
    for (const j of near[i]) { seen[j] = i; tie(j, 1, 1); }
    if (near[i].length <= 6) for (const j of near[i]) if (near[j].length <= 6) for (const h of near[j]) if (seen[h] !== i) { seen[h] = i; tie(h, 2, .25); }
    for (let k = 0; k < K; k++) if (D[k][i] > 2) tie(pivots[k], D[k][i], weight[k] * .5 / (D[k][i] * D[k][i]));
  }
  first[n] = end.length;
  const ends = Int32Array.from(end), wanted = Float64Array.from(d), pull = Float64Array.from(w);
  for (let t = 0; t < 60; t++) for (let i = 0; i < n; i++) {
    let x = 0, y = 0, s = 0;
    const xi = X[i], yi = Y[i];
    for (let k = first[i]; k < first[i + 1]; k++) {
      const xj = X[ends[k]], yj = Y[ends[k]], dx = xi - xj, dy = yi - yj, e = wanted[k] / (Math.sqrt(dx * dx + dy * dy) || 1e-9);
      x += pull[k] * (xj + dx * e); y += pull[k] * (yj + dy * e); s += pull[k];
    }
    X[i] = x / s; Y[i] = y / s;
  }
  return Array.from(X, (x, i) => [x, Y[i]]);
}
// the long axis lies flat, the least node to the left and above
function flat(P) {
  const n = P.length, cx = P.reduce((a, p) => a + p[0], 0) / n, cy = P.reduce((a, p) => a + p[1], 0) / n;
  let xx = 0, xy = 0, yy = 0;
  for (const p of P) { p[0] -= cx; p[1] -= cy; xx += p[0] * p[0]; xy += p[0] * p[1]; yy += p[1] * p[1]; }
  const turn = .5 * Math.atan2(2 * xy, xx - yy), c = Math.cos(turn), s = Math.sin(turn);
  const R = P.map(([x, y]) => [c * x + s * y, c * y - s * x]);
  const fx = R[0][0] > 0 ? -1 : 1, fy = R[0][1] > 0 ? -1 : 1;
  return R.map(([x, y]) => [x * fx, y * fy]);
}
// pushes apart what is nearer than `least`; a grid of cells says who may be
function apart(P, least) {
  const N = P.length - 1, X = Float64Array.from(P, p => p ? p[0] : 0), Y = Float64Array.from(P, p => p ? p[1] : 0), next = new Int32Array(N + 1), cell = x => Math.floor(x / least);
  for (let t = 0, moved = true; t < 40 && moved; t++) {
    moved = false;
    const x0 = cell(X.subarray(1).reduce((a, x) => Math.min(a, x))) - 1, y0 = cell(Y.subarray(1).reduce((a, y) => Math.min(a, y))) - 1;
    const wide = cell(X.subarray(1).reduce((a, x) => Math.max(a, x))) - x0 + 2, high = cell(Y.subarray(1).reduce((a, y) => Math.max(a, y))) - y0 + 2, cells = new Int32Array(wide * high);
    const inside = (x, most) => Math.max(1, Math.min(most - 2, x));
    for (let v = N; v >= 1; v--) { const c = cell(X[v]) - x0 + wide * (cell(Y[v]) - y0); next[v] = cells[c]; cells[c] = v; }
    for (let a = 1; a <= N; a++) {
      const c = inside(cell(X[a]) - x0, wide) + wide * inside(cell(Y[a]) - y0, high);
      for (let i = -1; i < 2; i++) for (let j = -1; j < 2; j++) for (let b = cells[c + i + wide * j]; b; b = next[b]) {
        if (b <= a) continue;
        const dx = X[b] - X[a], dy = Y[b] - Y[a], d = Math.sqrt(dx * dx + dy * dy);
        if (d >= least) continue;
        const f = (least - d) / 2 / (d || 1), ux = d ? dx * f : least / 2, uy = dy * f;
        X[a] -= ux; Y[a] -= uy; X[b] += ux; Y[b] += uy;
        moved = true;
      }
    }
  }
  for (let v = 1; v <= N; v++) P[v] = [X[v], Y[v]];
}
let unit = null, circle = false, base = null, pos = [], radius = 12, big = true, weights = null, roomy = false, shaped = 1;
function piecesOf() {
  const N = G.nodes, far = v => nodes[v].ports.map(p => p.far), top = classes(N, links.map(l => [l.a, l.b])), groups = new Map();
  for (let v = 1; v <= N; v++) { const t = top(v); groups.has(t) ? groups.get(t).push(v) : groups.set(t, [v]); }
  return [...groups.values()].sort((a, b) => b.length - a.length || a[0] - b[0]).map(list => ({ list, P: flat(list.length > MANY ? placeMany(list, far) : place(list, far)) }));
}
// pieces on shelves; a window that is higher than wide has them upright
function shelves(W, H) {
  const upright = H > W * 1.15, raw = [];
  const boxes = unit.map(({ list, P }) => {
    const Q = upright ? P.map(([x, y]) => [y, x]) : P, xs = Q.map(p => p[0]), ys = Q.map(p => p[1]), x0 = Math.min(...xs), y0 = Math.min(...ys);
    return { list, Q: Q.map(p => [p[0] - x0, p[1] - y0]), w: Math.max(...xs) - x0 + 1.1, h: Math.max(...ys) - y0 + 1.1 };
  });
  const area = boxes.reduce((a, u) => a + u.w * u.h, 0), shelf = Math.max(Math.sqrt(area * W / H) * 1.05, ...boxes.map(u => u.w));
  let x = 0, y = 0, h = 0;
  for (const u of boxes) {
    if (x && x + u.w > shelf) { x = 0; y += h; h = 0; }
    u.list.forEach((v, i) => { raw[v] = [x + u.Q[i][0], y + u.Q[i][1]]; });
    x += u.w; h = Math.max(h, u.h);
  }
  return raw;
}
function layout() {
  const box = $('stage').getBoundingClientRect(), W = Math.max(box.width, 200), H = Math.max(box.height, 150), N = G.nodes;
  let raw = [];
  if (circle) for (let v = 1; v <= N; v++) { const a = 2 * Math.PI * (v - 1) / N - Math.PI / 2; raw[v] = N > 1 ? [Math.cos(a) * W / H * .8, Math.sin(a)] : [0, 0]; }
  else { unit = unit || piecesOf(); raw = shelves(W, H); }
  let x0 = 1e9, x1 = -1e9, y0 = 1e9, y1 = -1e9;
  for (let v = 1; v <= N; v++) { const [x, y] = raw[v]; x0 = Math.min(x0, x); x1 = Math.max(x1, x); y0 = Math.min(y0, y); y1 = Math.max(y1, y); }
  const pad = N < 40 ? Math.min(60, W * .1) : 30, low = $('legend').hidden ? 0 : $('legend').offsetHeight;
  const fx = (W - 2 * pad) / (x1 - x0 || 1e-9), fy = (H - 2 * pad - low) / (y1 - y0 || 1e-9), ky = Math.min(fy, fx * 1.7, 320), kx = Math.min(fx, ky * 1.7, 320);
  const P = [];
  for (let v = 1; v <= N; v++) P[v] = [(raw[v][0] - (x0 + x1) / 2) * kx + W / 2, (raw[v][1] - (y0 + y1) / 2) * ky + (H - low) / 2];
  let r = Math.max(2.5, Math.min(24, Math.sqrt(W * H / N) * .2));
  if (!circle) apart(P, r * 2.9);
  for (let v = 1; v <= N; v++) P[v] = [Math.max(r + 10, Math.min(W - r - 24, P[v][0])), Math.max(r + 12, Math.min(H - low - r - 8, P[v][1]))];
  const lens = links.map(l => Math.hypot(P[l.a][0] - P[l.b][0], P[l.a][1] - P[l.b][1])).sort((a, b) => a - b), len = lens.length ? lens[lens.length >> 2] : 100;
  r = Math.min(r, Math.max(N > MANY ? 2.5 : 5, len * .24));
  // what stood in the middle stays there
  if (base) { zoom.x = W / 2 + (zoom.x - base.W / 2) * W / base.W; zoom.y = H / 2 + (zoom.y - base.H / 2) * H / base.H; }
  base = { P, r, W, H, len };
  for (const e of SHEETS) e.setAttribute('viewBox', '0 0 ' + W + ' ' + H);
}

// ---- the network. A link is a curve; parallel links are bent apart.
const el = (name, attrs, parent) => { const e = document.createElementNS('http://www.w3.org/2000/svg', name); for (const a in attrs) e.setAttribute(a, attrs[a]); if (parent) parent.append(e); return e; };
const put = (e, name, value) => { if (e.getAttribute(name) !== value) e.setAttribute(name, value); };
const f1 = p => p[0].toFixed(1) + ' ' + p[1].toFixed(1);
let zoom = { k: 1, x: 0, y: 0 }, drawn = [], bend = [], grid = null, tagged = null;
const mix = (p, q, t) => [p[0] + (q[0] - p[0]) * t, p[1] + (q[1] - p[1]) * t];
const ctrl = i => {
  const l = links[i], p = pos[l.a], q = pos[l.b], d = Math.hypot(q[0] - p[0], q[1] - p[1]) || 1, m = mix(p, q, .5), b = bend[i] * Math.min(d * .35, radius * 2.6);
  return [m[0] - (q[1] - p[1]) / d * b * 2, m[1] + (q[0] - p[0]) / d * b * 2];
};
const curveAt = (i, t) => { const l = links[i], c = ctrl(i); return mix(mix(pos[l.a], c, t), mix(c, pos[l.b], t), t); };
const titled = g => { const l = links[g.i]; if (!g.querySelector('title')) el('title', {}, g).textContent = 'link ' + l.link + ': port ' + l.a_port + ' of node ' + l.a + ', port ' + l.b_port + ' of node ' + l.b; };
// the elements, once; what few links have is made when it is first shown
function build() {
  const same = new Map();
  links.forEach((l, i) => { const k = l.a + '-' + l.b; same.has(k) ? same.get(k).push(i) : same.set(k, [i]); });
  for (const list of same.values()) list.forEach((i, j) => { bend[i] = j - (list.length - 1) / 2; });
  drawn = links.map((l, i) => {
    const g = el('g', {}, $('links'));
    g.i = i;
    if (G.nodes <= MANY) titled(g);
    return { i, g, a: el('path', {}, g) };
  });
  const first = el('g', { class: 'node', role: 'button', tabindex: -1 }), halo = el('circle', { class: 'halo' });
  el('circle', { class: 'body' }, first);
  for (let v = 1; v <= G.nodes; v++) {
    const n = nodes[v], g = n.g = first.cloneNode(true);
    n.body = g.firstChild;
    g.dataset.v = v;
    $('nodes').append(g);
    $('halos').append(n.halo = halo.cloneNode());
  }
  tagged = null;
}
const crossAt = (i, v) => { const [x, y] = curveAt(i, v === links[i].a ? .4 : .6), r = Math.max(radius < 8 ? 1.5 : 3, radius * .3); return 'M' + f1([x - r, y - r]) + 'l' + f1([2 * r, 2 * r]) + 'm0 ' + (-2 * r).toFixed(1) + 'l' + f1([-2 * r, 2 * r]); };
// a link as a path: whole, or its first or second half
const wayOf = (i, half = 0) => {
  const p = pos[links[i].a], q = pos[links[i].b], c = ctrl(i), m = half ? curveAt(i, .5) : p, [x, y, z] = half ? half < 2 ? [p, mix(p, c, .5), m] : [m, mix(c, q, .5), q] : [p, c, q];
  return 'M' + f1(x) + (bend[i] ? 'Q' + f1(y) + ' ' : 'L') + f1(z);
};
const barAt = (i, v) => { const a = v === links[i].a, [x, y] = curveAt(i, a ? .3 : .7), q = curveAt(i, .5), r = Math.max(radius < 8 ? 2 : 4, radius * .35) / (Math.hypot(q[0] - x, q[1] - y) || 1), u = (y - q[1]) * r, w = (q[0] - x) * r; return 'M' + f1([x - u, y - w]) + 'L' + f1([x + u, y + w]); };
const ENDS = { x: [crossAt, 'closed'], t: [barAt, 'asked'] };
const EXTRA = { b: ['', d => wayOf(d.i, 2)], halo: ['halos', d => wayOf(d.i)], core: ['cores', d => wayOf(d.i)] };
for (const c in ENDS) for (const end of 'ab') EXTRA[c + end] = ['links', d => ENDS[c][0](d.i, links[d.i][end])];
function extra(d, name, cls) {
  if (!d[name]) { if (!cls) return; d[name] = el('path', { d: EXTRA[name][1](d) }, $(EXTRA[name][0]) || d.g); }
  put(d[name], 'visibility', cls ? 'visible' : 'hidden');
  if (cls) put(d[name], 'class', cls);
}
// zoomed, nodes move apart; circles and letters keep their size once they can be read
const FULL = 20, LEGIBLE = 8;
function shape() {
  const k = shaped = zoom.k, N = G.nodes;
  for (let v = 1; v <= N; v++) pos[v] = [base.P[v][0] * k, base.P[v][1] * k];
  radius = k < 1 ? base.r * k : Math.max(base.r, Math.min(FULL, base.r * k * .8));
  big = base.len * k > 150 && N * Math.min(1, 1 / (k * k)) <= 40 && radius >= FULL * .8 && nodes.every(n => !n || n.ports.length <= 8);
  const r = radius, style = '--thick:' + Math.max(Math.min(2, r * .5), Math.min(5, r * .32)) + ';--thin:' + Math.max(.7, Math.min(1.8, r * .11)) + ';--band:' + (r * 1.5).toFixed(1);
  for (const e of SHEETS) { e.setAttribute('style', style); e.classList.toggle('tiny', r < LEGIBLE); }
  $('under').onwheel = r < LEGIBLE ? null : wheel;
  grid = new Map();
  for (let v = 1; v <= N; v++) { const c = cellOf(pos[v][0]) * 100003 + cellOf(pos[v][1]); grid.has(c) ? grid.get(c).push(v) : grid.set(c, [v]); }
  for (const d of drawn) {
    d.a.setAttribute('d', wayOf(d.i, d.parted ? 1 : 0));
    for (const name in EXTRA) if (d[name]) d[name].setAttribute('d', EXTRA[name][1](d));
  }
  for (let v = 1; v <= N; v++) shapeNode(v, r);
  placeWeights();
  for (const q of queues.values()) { q.sig = null; changed.add(q); }
}
const set = (e, attrs) => { for (const a in attrs) e.setAttribute(a, attrs[a]); };
// among many nodes a transform costs too much: each is a layer of its own to a browser
const centre = v => G.nodes > MANY ? pos[v].map(x => Math.round(x * 10) / 10) : [0, 0];
const shapeRing = n => { const [cx, cy] = centre(n.v); set(n.ring, { r: radius + (radius < LEGIBLE ? 1.5 : 4), cx, cy }); };
function shapeNode(v, r) {
  const [x, y] = centre(v), n = nodes[v], [cx, cy] = pos[v];
  n.sig = null;
  if (G.nodes <= MANY) n.g.setAttribute('transform', 'translate(' + f1(pos[v]) + ')');
  set(n.halo, { r: r + Math.min(8, r * .45 + 1), cx: cx.toFixed(1), cy: cy.toFixed(1) });
  set(n.body, { r, cx: x, cy: y });
  if (n.ring) shapeRing(n);
  if (r < LEGIBLE) return;
  if (!n.lev) {
    n.g.prepend(n.stop = el('rect', { class: 'stop' }));
    n.text = el('text', { 'font-weight': 'bold' }, n.g);
    n.text.textContent = v;
    n.lev = el('text', { class: 'lev' }, n.g);
  }
  set(n.stop, { x: x - r - 4, y: y - r - 4, width: 2 * r + 8, height: 2 * r + 8 });
  set(n.text, { x, y, 'font-size': Math.min(18, r * (v > 999 ? .68 : v > 99 ? .8 : 1)) });
  // the level stands upper right, or in the corner that lies freest of links
  const away = n.ports.map(({ link: i }) => { const [a, b] = curveAt(i, links[i].a === v ? .2 : .8); return Math.atan2(b - cy, a - cx); });
  const gap = ([a, b]) => Math.min(9, ...away.map(t => Math.abs(Math.atan2(Math.sin(t - Math.atan2(b, a)), Math.cos(t - Math.atan2(b, a))))));
  const corner = n.corner = [[1, -1], [-1, -1], [1, 1], [-1, 1]].reduce((p, q) => gap(p) > .7 || gap(q) <= gap(p) ? p : q);
  set(n.lev, { x: x + corner[0] * (r * .75 + 2), y: y + corner[1] * (r * .95 + 2), 'font-size': Math.max(6, Math.min(14, r * .8)), style: corner[0] < 0 ? 'text-anchor:end' : '' });
}
// weights stand under all links; by themselves only where they fit
function placeWeights() {
  const size = Math.max(8, Math.min(13, radius * .85)), asked = weights === true;
  const sizes = links.map(l => Math.min(size, (Math.hypot(pos[l.a][0] - pos[l.b][0], pos[l.a][1] - pos[l.b][1]) - 2 * radius - 6) / String(l.weight).length / .6));
  roomy = radius >= LEGIBLE && links.length <= Math.min(90 * Math.max(1, zoom.k * zoom.k), 3 * G.nodes) && sizes.filter(x => x >= 8).length >= links.length * .8;
  $('weights').innerHTML = !(weights ?? roomy) ? '' : links.map((l, i) => {
    const size = Math.max(6, sizes[i]);
    if (!asked && sizes[i] < 8) return '';
    const [x, y] = curveAt(i, .5), p = pos[l.a], q = pos[l.b], turned = p[0] > q[0] || p[0] === q[0] && p[1] < q[1], a = Math.atan2(turned ? p[1] - q[1] : q[1] - p[1], turned ? p[0] - q[0] : q[0] - p[0]), o = size * .62 + 3;
    return '<text font-size="' + size.toFixed(1) + '" transform="translate(' + f1([x + Math.sin(a) * o, y - Math.cos(a) * o]) + ') rotate(' + (a * 180 / Math.PI).toFixed(1) + ')">' + l.weight + '</text>';
  }).join('');
}
const tag = (cls, x, y, text, size) => { const w = text.length * size * .6 + size * .7; return '<g class="tag ' + cls + '"><rect rx="4" x="' + (x - w / 2).toFixed(1) + '" y="' + (y - size * .65).toFixed(1) + '" width="' + w.toFixed(1) + '" height="' + size * 1.3 + '"/><text x="' + x.toFixed(1) + '" y="' + y.toFixed(1) + '" font-size="' + size + '">' + text + '</text></g>'; };
const cellOf = x => Math.floor(x / 64);
// whether a pill would lie over a node
function covers(x, y, a, w, h) {
  for (const t of [h - w / 2, 0, w / 2 - h]) {
    const px = x + Math.cos(a) * t, py = y + Math.sin(a) * t;
    for (let i = -1; i < 2; i++) for (let j = -1; j < 2; j++)
      for (const v of grid.get((cellOf(px) + i) * 100003 + cellOf(py) + j) || []) if (Math.hypot(pos[v][0] - px, pos[v][1] - py) < radius + h * 1.15) return true;
  }
  return false;
}
// messages on their way: pills that point to their receiver, the first of the queue nearest to it
function pills(i, to, port, list) {
  const l = links[i], back = l.b === to, L = Math.hypot(pos[l.a][0] - pos[l.b][0], pos[l.a][1] - pos[l.b][1]) || 1;
  const h = big ? 11 : radius < LEGIBLE ? Math.max(1.5, radius * .5) : Math.max(5, radius * .58), span = t => big ? t.length * 8.6 + 18 : h * 2.3, sum = list => list.reduce((x, t) => x + span(t), 0);
  const whole = list.map(([m]) => short(m)), text = big && sum(whole) > L - radius * 2 - 14 ? list.map(([m]) => LETTER[m.kind] + (m.level ?? '')) : whole, wide = text.map(span), full = sum(text);
  const squeeze = Math.min(1, Math.max(.2, (L * .8 - radius * 2) / full));
  // round a node of many links they stand on a wider circle
  const round = nodes[to].ports.length * (2 * h + 3) / 6.3 - h;
  let off = Math.max(radius + (big ? 9 : radius < LEGIBLE ? 2 : 5), Math.min(round, L * .55)), html = '';
  list.forEach(([m, cls], k) => {
    const w = wide[k];
    let x, y, a;
    const at = (off, turn) => {
      const d = (off + w / 2) / L, t = back ? 1 - d : d, p = curveAt(i, t), q = curveAt(i, back ? t + .02 : t - .02), side = (h + (big ? 4 : 2)) * turn;
      a = Math.atan2(q[1] - p[1], q[0] - p[0]);
      x = p[0] - Math.sin(a) * side; y = p[1] + Math.cos(a) * side;
    };
    at(off, 1);
    if (radius >= LEGIBLE && covers(x, y, a, w, h)) {
      // farther back on its link, else on the other side
      let free = false;
      for (const turn of [1, -1]) for (let o = off; !free && o + w / 2 < L - radius; o += h) { at(o, turn); free = !covers(x, y, a, w, h); if (free && turn > 0) off = o; }
      if (!free) at(off, 1);
    }
    off += w * squeeze + 1;
    const deg = a * 180 / Math.PI, flip = Math.abs(a) > Math.PI / 2 + .01 ? deg + 180 : deg;
    // among many nodes without transforms too
    const many = G.nodes > MANY, c = Math.cos(a), s = Math.sin(a), at0 = f1([x, y]), corners = [[-w / 2, -h], [w / 2 - h * .7, -h], [w / 2, 0], [w / 2 - h * .7, h], [-w / 2, h]].map(([u, v]) => f1(many ? [x + c * u - s * v, y + s * u + c * v] : [u, v])).join('L');
    html = '<g class="msg ' + cls + '" data-q="' + to + ' ' + port + ' ' + (k - (list[0][1] === 'taken' ? 1 : 0)) + (many ? '"><path' : '" transform="translate(' + at0 + ')"><path transform="rotate(' + deg.toFixed(1) + ')"') + ' d="M' + corners + 'Z"/>'
      + (radius < LEGIBLE ? '' : '<text font-size="' + (big ? 15 : Math.max(6, h * 1.45)).toFixed(1) + (many ? '" x="' + x.toFixed(1) + '" y="' + y.toFixed(1) : '') + (big ? '" transform="rotate(' + flip.toFixed(1) + (many ? ' ' + at0 : '') + ')' : '') + '">' + text[k] + '</text>') + '</g>' + html;
  });
  return html;
}
const short = m => {
  const k = P.kinds[KIND[m.kind]];
  return big ? k.short + (m.level !== undefined ? ' ' + m.level : k.none ? ' ' + (m.key ? m.key.split(':')[0] : k.none[1]) : '') : k.letter;
};
const bandOf = f => f.band ??= f.name ? 'b' + (look.get(f.name) ?? 0) : 'bx';
const stateOf = v => { const n = nodes[v]; return 'node ' + v + ': ' + own('level ' + n.level + ', name ' + (n.name ?? '-') + ', ') + PHASE[n.phase].name + (n.halted ? ', halted' : '') + (pin === v ? ', pinned' : ''); };
function drawNet(c) {
  if (shaped !== zoom.k) shape();
  const s = stepNow(), frag = v => c.of[v], names = new Map([...c.all.values()].filter(f => f.name).map(f => [f.name, f]));
  const size = big ? 15 : Math.max(8, Math.min(13, radius * .85)), focus = pin || (s ? s.node : 1);
  let html = '';
  links.forEach((l, i) => {
    const d = drawn[i], j = joined(l), m = merging(l), f = frag(l.a), isCore = m || j && f.name === l.link, band = j && !m ? bandOf(f) : '';
    // what looks as before isn't touched
    if (!d.sig || d.halves !== l.halves || d.isCore !== isCore || d.band !== band) {
      const a = SHOWN[l.halves >> 2], b = SHOWN[l.halves & 3];
      d.sig = 1; d.halves = l.halves; d.isCore = isCore; d.band = band;
      // one line where its halves look alike; dashes begin at each end
      const parted = a !== b || l.halves > 5;
      if (d.parted !== parted) { d.parted = parted; put(d.a, 'd', wayOf(i, parted ? 1 : 0)); }
      put(d.a, 'class', 'half ' + a);
      extra(d, 'b', parted && 'half ' + b);
      extra(d, 'halo', band && 'halo ' + band);
      extra(d, 'core', isCore && 'core');
      for (const c in ENDS) { extra(d, c + 'a', a === ENDS[c][1] && 'cross'); extra(d, c + 'b', b === ENDS[c][1] && 'cross'); }
    }
    if (j && (m || names.get(l.link)) && radius >= LEGIBLE) html += coreTag(l, i, s, m ? big ? 'merging' : '+' : (big ? 'level ' : 'L') + names.get(l.link).level, size);
  });
  if (tagged !== html) $('tags').innerHTML = tagged = html;
  for (let v = 1; v <= G.nodes; v++) {
    const n = nodes[v], f = frag(v), mine = (s && s.node === v ? 1 : 0) + (pin === v ? 2 : 0) + (v === focus ? 4 : 0) + (n.halted ? 8 : 0) + (f.nodes > 1 ? 16 : 0), o = n.sig;
    if (o && o.phase === n.phase && o.level === n.level && o.name === n.name && o.of === f.name && o.mine === mine) continue;
    n.sig = { phase: n.phase, level: n.level, name: n.name, of: f.name, mine };
    if (PHASE[n.phase].look === 'searching' && !n.ring) { n.body.before(n.ring = el('circle', { class: 'ring' })); shapeRing(n); }
    put(n.g, 'class', 'node ' + PHASE[n.phase].look + (n.name ? ' named s' + (look.get(n.name) ?? 0) : '') + (n.halted ? ' halted' : '') + (s && s.node === v ? ' at' : '') + (pin === v ? ' pinned' : ''));
    put(n.g, 'aria-label', stateOf(v));
    put(n.g, 'tabindex', v === focus ? '0' : '-1');
    put(n.halo, 'class', 'halo ' + bandOf(f));
    put(n.halo, 'visibility', f.nodes > 1 ? 'visible' : 'hidden');
    if (radius < LEGIBLE) continue;
    const t = asleep(n) ? '' : own('L' + n.level);
    if (n.lev.textContent !== t) n.lev.textContent = t;
    if (t) put(n.lev, 'transform', n.halted ? 'translate(' + n.corner[0] * 6 + ' ' + n.corner[1] * 5 + ')' : '');
  }
  drawMessages(s, s && undoNow());
  const next = asking ? steps[at] : s;
  $('ways').innerHTML = next && next.port !== null ? '<path class="way" d="' + wayOf(nodes[next.node].ports[next.port].link) + '"/>' : '';
  $('marks').innerHTML = (s && radius < LEGIBLE ? '<circle class="eye" r="8" cx="' + pos[s.node][0] + '" cy="' + pos[s.node][1] + '"/>' : '') + (pin ? pinMark(pin) : '');
  if (follow) { zoom.x = base.W / 2 - pos[focus][0]; zoom.y = base.H / 2 - pos[focus][1]; }
  moveView();
}
// a ring with four rays, and the number where the circle has no room for it
function pinMark(v) {
  const r = Math.max(radius + 9, 13), [x, y] = pos[v], d = [[1, 0], [-1, 0], [0, 1], [0, -1]].map(([a, b]) => 'M' + f1([a * r, b * r]) + 'l' + f1([a * 14, b * 14])).join('');
  return '<g class="pinmark" transform="translate(' + f1([x, y]) + ')"><path class="under" d="' + d + '"/><circle class="under" r="' + r + '"/><path d="' + d + '"/><circle r="' + r + '"/>' + (radius < LEGIBLE ? tag('frag', 0, -r - 26, 'node ' + v, 15) : '') + '</g>';
}
function coreTag(l, i, s, text, size) {
  const [x, y] = curveAt(i, .5), dx = pos[l.b][0] - pos[l.a][0], dy = pos[l.b][1] - pos[l.a][1], d = Math.hypot(dx, dy) || 1;
  // small letters beside the messages, where these go one way only
  const to = (v, p) => queue(v, p).length || s && s.node === v && s.port === p && s.fate === 'done', ways = (to(l.b, l.b_port) ? 1 : 0) - (to(l.a, l.a_port) ? 1 : 0);
  const o = big ? 36 + 30 * Math.abs(dy) / d : ways ? size * 1.1 : 0, w = !big && ways || (dx > 0 || !dx && dy < 0 ? 1 : -1);
  return tag('frag', x + dy / d * o * w, y - dx / d * o * w, text, size);
}
// a queue is drawn anew only where it looks different
function drawMessages(s, u) {
  const asked = asking ? steps[at] : null, now = new Set();
  // those of this event look otherwise at the next one
  for (const e of [s, asked]) if (e && e.port !== null) now.add(queueAt(e.node, e.port));
  if (u) for (const m of u.sent) now.add(queueAt(m.to, m.at));
  for (const q of now) changed.add(q);
  for (const q of changed) {
    const taken = !asking && s && s.node === q.v && s.port === q.p && s.fate === 'done' ? [[s, 'taken']] : [];
    const all = taken.concat(q.list.map((m, k) => [m, asked && asked.node === q.v && asked.port === q.p && !k ? 'asked' : u && u.sent.includes(m) ? 'fresh' : u && s.fate === 'waits' && u.taken === m ? 'again back' : m.backs ? 'back' : '']));
    const sig = all.map(([m, c]) => (m.born ?? m.step) + c).join(' ');
    if (q.sig === sig) continue;
    q.sig = sig;
    if (!q.g) { if (!sig) continue; q.g = el('g', {}, $('msgs')); }
    q.g.innerHTML = all.length ? pills(nodes[q.v].ports[q.p].link, q.v, q.p, all) : '';
  }
  changed = now;
}
const SHEETS = [$('under'), $('net')];
function moveView() { for (const e of SHEETS) put(e.lastChild, 'transform', 'translate(' + f1([zoom.x, zoom.y]) + ')' + (zoom.k === shaped ? '' : ' scale(' + zoom.k / shaped + ')')); }

// ---- space and time: a lane a node, an arrow a message; what could have acted on the event at hand is filled
function pastOf(k) {
  const seen = new Set(), todo = [k];
  while (todo.length) { const i = todo.pop(); for (const b of [before[2 * i], before[2 * i + 1]]) if (b && !seen.has(b)) { seen.add(b); todo.push(b); } }
  return seen;
}
function futureOf(k) {
  const seen = new Set([k]);
  for (let i = k + 1; i <= G.to; i++) if (seen.has(before[2 * i]) || seen.has(before[2 * i + 1])) seen.add(i);
  seen.delete(k);
  return seen;
}
// the messages of the longest chain, back from the last event that heard it
let chained = null;
function chain() {
  chained = new Set();
  let k = 1;
  while (k < G.to && figures(k)[2] < figures(G.to)[2]) k++;
  while (k) {
    const { number, taken } = undo[k - 1], earlier = before[2 * k];
    if (earlier && undo[earlier - 1].number === number) k = earlier;
    else { if (number) chained.add(taken); k = number && taken.born; }
  }
  return chained;
}
let only = null;
function drawTime() {
  const box = $('time').getBoundingClientRect(), W = box.width - 4, left = G.nodes > 99 ? 96 : 78, gap = 34, room = Math.max(6, Math.floor((W - left - 30) / gap));
  const past = pastOf(at), after = only ? futureOf(at) : null;
  const keep = i => steps[i].step === at || (!($('skip').checked && idle(steps[i])) && (!only || past.has(steps[i].step) || after.has(steps[i].step)));
  let lo = at - 1, hi = lo + 1, list = lo >= 0 ? [lo] : [];
  lo--;
  while (list.length < room && (lo >= 0 || hi < steps.length)) {
    if (hi < steps.length && (list.length % 3 === 2 || lo < 0)) { if (keep(hi)) list.push(hi); hi++; } else { if (keep(lo)) list.unshift(lo); lo--; }
  }
  const first = list.length ? steps[list[0]].step : 0, end = list.length ? steps[list[list.length - 1]].step : 0;
  const xOf = new Map(list.map((i, k) => [steps[i].step, left + 20 + k * gap]));
  const flights = new Set();
  for (const i of list) { const u = undo[i]; if (u.taken) flights.add(u.taken); u.sent.forEach(m => flights.add(m)); }
  const lanes = new Set(list.map(i => steps[i].node));
  if (G.nodes <= 12) for (let v = 1; v <= G.nodes; v++) lanes.add(v);
  const order = [...lanes].sort((a, b) => a - b), high = Math.max(22, Math.min(90, (box.height - 60) / Math.max(order.length, 1)));
  const yOf = new Map(order.map((v, i) => [v, 34 + high * (i + .5)])), H = 34 + high * order.length + 20;
  const edgeL = left + 4, edgeR = left + 20 + list.length * gap;
  let h = '<defs>' + [['', 7, 'dim'], ['past', 5, 'ink'], ['chain', 4, 'act']].map(([c, w, ink]) => '<marker id="tip' + c + '" viewBox="0 0 8 8" refX="7" refY="4" markerWidth="' + w + '" markerHeight="' + w + '" orient="auto"><path d="M0 0L8 4L0 8Z" fill="var(--' + ink + ')"/></marker>').join('') + '</defs>';
  for (const v of order) h += '<line class="lane" x1="' + left + '" x2="' + edgeR + '" y1="' + yOf.get(v) + '" y2="' + yOf.get(v) + '"/><text x="8" y="' + (yOf.get(v) + 5) + '"' + (pinned() === v ? ' font-weight="bold"' : '') + '>node ' + v + '</text>';
  if (xOf.has(at)) h += '<line class="nowline" x1="' + xOf.get(at) + '" x2="' + xOf.get(at) + '" y1="24" y2="' + H + '"/>';
  const arrow = (cls, x0, y0, x1, y1, m, tx, ty) => '<path class="arrow ' + cls + '" marker-end="url(#tip' + (cls.length > 4 ? 'chain' : cls === 'past' ? cls : '') + ')" d="M' + x0 + ' ' + y0.toFixed(1) + 'L' + x1.toFixed(1) + ' ' + y1.toFixed(1) + '"><title>' + words(m) + ' from ' + m.from + ' to ' + m.to + ', ' + m.bits + ' bits</title></path><text font-size="13" x="' + tx.toFixed(1) + '" y="' + ty.toFixed(1) + '">' + LETTER[m.kind] + '</text>';
  for (const m of flights) {
    const y0 = yOf.get(m.from), y1 = yOf.get(m.to), x0 = xOf.get(m.born), inside = m.takes.filter(t => xOf.has(t)), hit = inside[0], x1 = xOf.get(hit);
    const early = m.takes.some(t => t < first) || (m.born < first && m.takes.length && m.takes[0] < hit), later = !m.done || m.done > end;
    const caused = (m.takes.some(t => t === at || past.has(t)) && past.has(m.born) ? 'past' : '') + ((chained || chain()).has(m) ? ' chain' : ''), down = m.to > m.from ? 1 : -1;
    if (x0 !== undefined && x1 !== undefined) {
      const dx = x1 - x0, dy = y1 - y0, d = Math.hypot(dx, dy), cut = 8 / d;
      h += arrow(caused, x0, y0, x1 - dx * cut, y1 - dy * cut, m, x0 + dx * .45 + 5, y0 + dy * .45 - (dy > 0 ? 4 : -10));
    } else if (x0 !== undefined) h += arrow('open', x0, y0, x0 + 24, y0 + 17 * down, m, x0 + 26, y0 + 17 * down + (down > 0 ? 6 : 4));
    else if (x1 !== undefined && !early) h += arrow(caused || 'open', x1 - 26, y1 - 17 * down, x1 - 7, y1 - 5 * down, m, x1 - 36, y1 - 17 * down + 5);
    // from the first try to the last, where it waits
    if (x1 !== undefined && (inside.length > 1 || early || later)) h += '<path class="arrow idle" d="M' + (early ? edgeL : x1) + ' ' + (y1 - 10) + 'H' + (later ? edgeR : xOf.get(inside[inside.length - 1])) + '"/>';
  }
  for (const i of list) {
    const s = steps[i], x = xOf.get(s.step), y = yOf.get(s.node);
    h += '<circle class="dot' + (s.step === at ? ' now' : past.has(s.step) ? ' past' : '') + '" data-k="' + s.step + '" cx="' + x + '" cy="' + y + '" r="' + (idle(s) ? 4 : 7) + '"><title>' + s.step + ': ' + s.row + '</title></circle><text font-size="12" text-anchor="middle" x="' + x + '" y="' + 18 + '"' + (s.step === at ? ' font-weight="bold"' : ' opacity=".7"') + '>' + s.step + '</text>';
  }
  $('lanes').setAttribute('width', Math.max(W - 14, edgeR + 8));
  $('lanes').setAttribute('height', H);
  $('lanes').innerHTML = h;
  $('legend').innerHTML = '<span>filled, thick: could have acted on event ' + at + ' (' + past.size + ' events)</span><span>colored: the longest chain (' + figures(G.to)[2] + ' messages)</span>' + (PUTS ? '<span>small, dotted: deferred</span>' : '') + letters();
}

// ---- words and tables
const cap = x => x[0].toUpperCase() + x.slice(1);
const words = m => { const k = P.kinds[KIND[m.kind]]; return k.name + (m.values ? '(' + m.values + ')' : k.has.length ? '(' + k.has.map(x => x === 'key' ? m.key ?? k.none[0] : x === 'links' ? (m.links[4] ? [...m.links.slice(0, 3), m.links.length - 3 + ' more'] : m.links).join(', ') : value(x, m[x])).join(', ') + ')' : ''); };
const value = (x, y) => y === null || y === undefined ? '-' : Array.isArray(y) ? y[0] + ': ' + y[1] : x === 'phase' ? PHASE[y].name : x === 'mark' ? MARK[y].name : y === true ? 'yes' : y === false ? 'no' : String(y);
const letters = () => '<span>' + KINDS.map(k => LETTER[k] + ' ' + NAMES[k]).join(', ') + '</span>';
const idle = s => s.fate === 'waits' && !s.marks.length && !s.send.length;
const td = (x, c) => '<td' + (c ? ' class="' + c + '"' : '') + '>' + x + '</td>';
const opens = s => 'Node <b>' + s.node + '</b> ' + (s.port === null ? 'wakes by itself.' : 'takes <b>' + words(s) + '</b> from node <b>' + s.far + '</b> at port ' + s.port + '.');
function live(s) {
  const a = asking ? steps[at] : s, text = !a ? 'The start' : 'Event ' + a.step + ': node ' + a.node + (a.port === null ? ' wakes by itself' : ' takes ' + words(a) + ' from node ' + a.far) + (asking ? '. What happens?' : '. ' + a.row + (a.fate ? ', ' + FATE[a.fate] : '') + '.');
  if ($('live').textContent !== text) $('live').textContent = text;
}
// ask first: the next event without what it does; then what was guessed, and what is so
const FATE = { done: 'consumed', waits: 'deferred' };
let asking = false, guess = null;
const marksOf = s => s.marks.length ? [...new Set(s.marks.map(m => m[1]))] : ['none'];
const choice = (part, value, text) => '<button data-part="' + part + '" data-value="' + value + '" aria-pressed="' + (guess[part] === value) + '">' + text + '</button>';
function question(s) {
  return '<div class="ask"><p class="say">Event ' + s.step + ': ' + opens(s) + '</p>' + (s.fate && PUTS ? '<p>Is the message consumed or deferred? ' + Object.keys(FATE).map(x => choice('fate', x, FATE[x])).join('') + '</p>' : '')
    + '<p>Which mark does a port of the node get? ' + choice('mark', 'none', 'no change') + P.marks.slice(1).map(m => choice('mark', m.mark, m.name)).join('') + '</p><p><button data-part="show">Show it</button> (right arrow)</p></div>';
}
function verdict(s) {
  if (!guess || guess.step !== s.step) return '';
  const told = [];
  const tell = (you, right, so) => told.push('You said: ' + you + '. ' + (right ? 'Right.' : so)), called = m => m === 'none' ? 'no change' : MARK[m].name;
  if (guess.fate && s.fate) tell(FATE[guess.fate], guess.fate === s.fate, 'The message is ' + FATE[s.fate] + '.');
  if (guess.mark) tell(called(guess.mark), marksOf(s).includes(guess.mark), s.marks.length ? 'The link becomes ' + marksOf(s).map(called).join(' or ') + '.' : 'No mark changes.');
  return told.length ? '<p class="verdict">' + told.join(' ') + '</p>' : '';
}
function choose(e) {
  const d = e.target.dataset;
  if (d.part === 'show') one(1);
  else if (d.part) { guess[d.part] = d.value; show(); }
}
// a table that is as it was is left alone
const tables = {}, table = (id, html) => { if (tables[id] !== html) $(id).innerHTML = tables[id] = html; };
let pin = 0;
const pinned = () => pin;
const LENGTHS = () => 'In bits; each message counts once, as it is sent. ' + filled(P.lengths, x => widths[x]);
function panel(c) {
  const s = stepNow(), u = s && undoNow();
  $('count').textContent = 'of ' + G.events;
  $('count').dataset.at = 'Event ' + at + ' ';
  if (document.activeElement !== $('goto')) $('goto').value = at;
  live(s);
  if (asking) $('say').innerHTML = question(steps[at]);
  else if (!s) $('say').innerHTML = '<p class="say">' + (P.own ? 'N' : 'All nodes sleep, all marks are ' + P.marks[0].name + ', and n') + 'othing is on its way.' + '</p>';
  else {
    let h = verdict(s) + '<p class="say">' + opens(s) + '</p>';
    h += '<p><span class="row">' + s.row + '</span>. ' + (P.rows[s.row] || '') + (s.fate === 'waits' ? ' <b class="why">' + reasonOf(u.taken) + '.</b>' : '') + '</p>';
    const ch = [], change = (what, x, old, now) => ch.push(what + ': <span class="old">' + value(x, old) + '</span> &rarr; <b>' + value(x, now) + '</b>');
    s.marks.forEach(([p, m], i) => change('port ' + p, 'mark', u.marks[i], m));
    for (const x in s.set) change(x, x, u.set[x], s.set[x]);
    if (!idle(s)) h += '<p>' + (ch.length ? ch.join('; ') + '.' : 'Nothing changes at the node.') + '</p>';
    h += s.send.map((x, i) => '<p>Sends <b>' + words(x) + '</b>, ' + u.sent[i].bits + ' bits, to node ' + x.to + ' on port ' + x.port + '.</p>').join('');
    if (s.fate === 'waits') h += '<p>The message goes to the end of its queue' + (queue(s.node, s.port).length > 1 ? ', behind ' + (queue(s.node, s.port).length - 1) + ' more' : '') + '. It was sent by event ' + u.taken.born + ', and ' + backsOf(u.taken) + '.</p>';
    h += '<p class="time">Chain: ' + (u.taken ? 'message number ' + u.taken.number + ', ' : '') + 'node number ' + u.number + '.</p>';
    $('say').innerHTML = h;
  }
  const v = pin || (s ? s.node : 1), n = nodes[v], mine = s && s.node === v;
  $('pinned').textContent = pin ? 'pinned (n lets go)' : 'the event\'s';
  if (document.activeElement !== $('pick')) $('pick').value = v;
  const cell = (x, _, row) => '<th>' + x + '</th><td' + (row.length === 1 ? ' colspan="5"' : '') + (mine && x in s.set ? ' class="new"' : '') + '>' + value(x, n[x]) + '</td>';
  let h = '<table>' + P.variables.map(row => '<tr>' + row.map(cell).join('') + '</tr>').join('') + '</table>';
  h += '<table><tr><th class="n">port</th><th>to</th><th>key</th><th>mark</th><th>waiting</th></tr>';
  n.ports.forEach((p, j) => {
    const q = queue(v, j).map(m => '<span class="pill' + (m.backs ? ' back' : '') + '">' + LETTER[m.kind] + '</span>').join(' ');
    if (n.ports.length <= 12 || n.marks[j] !== P.marks[0].mark || q || P.ports.some(x => n[x] === j)) h += '<tr' + (mine && s.marks.some(m => m[0] === j) ? ' class="new"' : '') + '>' + td(j, 'n') + td(p.far) + td(links[p.link].link) + td(value('mark', n.marks[j])) + td(q) + '</tr>';
  });
  h += '</table>';
  n.ports.forEach((_, j) => { for (const m of queue(v, j)) if (m.backs) h += '<p class="waiter">' + storyOf(m) + '</p>'; });
  table('vars', h);
  const sum = list => list.reduce((a, b) => a + b), total = sum(ledger.sent), max = G.bound, ems = .64 * (8 + sum(ledger.bits.map(x => Math.max(2, String(x).length)))) + 2.6;
  h = '<div class="bar" role="img" aria-label="' + total + ' of ' + max + '"><i style="width:' + (max ? 100 * total / max : 0) + '%"></i></div><p>messages sent <b>' + total + '</b>, bound ' + max + '; <span id="bits" title="' + LENGTHS() + '">bits <b>' + sum(ledger.bits) + '</b></span></p><table class="wide" style="--ems:' + ems + '"><tr><th></th>' + KINDS.map(k => '<th class="n" title="' + NAMES[k] + '"><span class="pill">' + LETTER[k] + '</span></th>').join('') + '</tr>';
  for (const x of ['sent', 'bits', 'consumed']) h += '<tr><th>' + x + '</th>' + ledger[x].map(y => td(y, 'n')).join('') + '</tr>';
  table('ledger', h + '</table><p>in queues <b>' + ledger.queued + '</b>' + (PUTS ? ', deferred <b>' + ledger.back + '</b>; deferrals <b>' + ledger.requeued + '</b>' : '') + '</p><p>longest: <span id="chain" title="A message goes out with one more than its sender\'s number; who consumes it, or is woken by it, takes the greater of the two.">chain <b>' + figures(at)[2] + '</b> (at the end ' + figures(G.to)[2] + ')</span>, <span id="long" title="' + LENGTHS() + '">message <b>' + figures(at)[3] + '</b> bits</span></p>');
  const fr = [...c.all.values()].sort((a, b) => b.nodes - a.nodes || a.least - b.least), many = fr.filter(f => f.nodes > 1);
  const tree = links.filter(branchy), halts = nodes.filter(x => x && x.halted).map(x => x.v);
    h = '<p><b>' + fr.length + '</b> of ' + G.nodes + ' at the start; ' + TREE() + ' links ' + tree.length + ', weight ' + tree.reduce((a, l) => a + l.weight, 0) + (halts.length ? '; <b>halted: ' + halts.slice(0, 9).join(', ') + '</b>' : '') + '</p>';
  h += '<table><tr>' + own('<th class="n">level</th>') + '<th class="n">nodes</th><th class="n">least</th>' + own('<th>name (core)</th>') + '</tr>' + many.slice(0, 12).map(f => '<tr>' + own(td(f.level, 'n')) + td(f.nodes, 'n') + td(f.least, 'n') + own(td('<svg class="sw s' + (look.get(f.name) ?? 'x') + '"><rect width="100%" height="100%"' + (f.name ? '' : ' fill="none"') + '/></svg>' + (f.name ?? '-'))) + '</tr>').join('') + '</table>';
  const who = v => c.of[v].name ?? 'node ' + v;
  for (const l of links.filter(merging)) h += '<p class="merges">merging: ' + who(l.a) + ' and ' + who(l.b) + '</p>';
  h += '<p>' + (many.length > 12 ? (many.length - 12) + ' more, ' : '') + (fr.length - many.length) + ' single nodes</p>';
  table('census', h);
}
function strip() {
  const box = $('strip').getBoundingClientRect(), W = box.width || 800, H = box.height || 84, n = curve.length / 4, x = i => 8 + (W - 16) * (n > 1 ? i / (n - 1) : 0), N = G.nodes, B = Math.max(G.bound, 1), half = H * .5;
  // one point a half pixel is enough
  const path = (f, top, high) => {
    let d = '', last = '';
    const stepBy = Math.max(1, n / (W * 2)), y = i => (top + high * (1 - f(i))).toFixed(1);
    for (let k = 0; k < n; k += stepBy) { const i = Math.min(n - 1, Math.floor(k)); d += (d ? 'H' + x(i).toFixed(1) + (y(i) !== last ? 'V' + y(i) : '') : 'M' + x(i) + ' ' + y(i)); last = y(i); }
    return d + 'H' + x(n - 1).toFixed(1) + 'V' + y(n - 1);
  };
  let h = '<g id="plots"><path class="plot" d="' + path(i => N > 1 ? (curve[4 * i] - 1) / (N - 1) : 0, 4, half - 8) + '"/><path class="plot b" d="' + path(i => curve[4 * i + 1] / B, half + 2, half - 10) + '"/><line class="lane" x1="8" x2="' + (W - 8) + '" y1="' + (half + 2) + '" y2="' + (half + 2) + '"/></g><text id="cap1" font-size="14" x="' + (W - 12) + '" y="18" text-anchor="end"></text><text id="cap2" font-size="14" x="14" y="' + (half + 16) + '"></text><g id="ticks"></g><line id="cursor" class="nowline" y1="0" y2="' + H + '" style="stroke-width:2.5;stroke-dasharray:none"/>';
  $('strip').innerHTML = h;
  $('strip').setAttribute('viewBox', '0 0 ' + W + ' ' + H);
  strip.x = x;
  strip.low = H - 5;
  strip.ticksOf = -1;
}
function cursor() {
  const x = strip.x(at);
  $('cursor').setAttribute('x1', x); $('cursor').setAttribute('x2', x);
  const [f, sent] = figures(at), end = figures(G.to);
  $('cap1').textContent = 'fragments ' + f + ' (from ' + curve[0] + ' to ' + end[0] + ')';
  $('cap2').textContent = 'messages sent ' + sent + ' (to ' + end[1] + '; bound, the line above: ' + G.bound + ')';
  const v = pin || (stepNow() ? stepNow().node : 0);
  if (strip.ticksOf !== v) {
    strip.ticksOf = v;
    $('ticks').innerHTML = '<path class="tickline" d="' + (doings[v] || []).map(i => 'M' + strip.x(i).toFixed(1) + ' ' + strip.low + 'v5').join('') + '"/>';
  }
  $('seek').value = at;
  $('seek').setAttribute('aria-valuetext', 'event ' + at + ' of ' + G.events);
}
const LEGEND = () => {
  const s = (w, body) => '<span><svg width="' + w + '" height="18" viewBox="0 0 ' + w + ' 18">' + body + '</svg>', c = (cls, more = '') => '<g class="' + cls + '" transform="translate(12 9)" ><circle class="ring" r="8"/><circle class="body" r="6"/>' + more + '</g>', l = cls => '<path class="' + cls + '" d="M2 9H30"/>';
  const half = cls => '<path class="half" d="M2 9H30"/><path class="half ' + cls + '" d="M2 9H16"/>';
  return P.phases.map(x => s(24, c(x.look)) + x.legend + '</span>').join('') + s(24, c('halted', '<rect class="stop" x="-8" y="-8" width="16" height="16"/>')) + 'halted</span>'
    + P.marks.map(m => m.look === 'tree' ? s(32, half('tree')) + m.name + ' at one end</span>' + own(s(32, l('half tree')) + 'joined</span>' + s(32, l('half tree') + '<path class="core" d="M2 9H30"/>') + 'core</span>')
      : s(32, m.look === 'closed' ? '<path class="half closed" d="M2 9H30"/><path class="cross" d="M12 5l8 8m0 -8l-8 8"/>' : m.look === 'asked' ? half('asked') + '<path class="cross" d="M10 4V14"/>' : l('half')) + m.name + '</span>').join('')
    + (PUTS ? s(30, '<g class="msg back"><path d="M4 3H20L26 9L20 15H4Z"/></g>') + 'deferred</span>' : '') + letters();
};

// what a message at the pointer is, and why it waits
function tip(e) {
  const g = e.target.closest('.msg, .node'), t = $('hint'), b = $('stage').getBoundingClientRect();
  if (!g || e.buttons && e.pointerType === 'mouse') return;
  const [v, p, k] = (g.dataset.q || '0').split(' ').map(Number), m = v && (k < 0 ? undoNow().taken : queue(v, p)[k]);
  t.textContent = !v ? cap(stateOf(+g.dataset.v)) : k < 0 ? bornOf(m) + ', consumed by event ' + at + '.' : storyOf(m);
  t.hidden = false;
  t.style.left = Math.max(0, Math.min(b.width - t.offsetWidth, e.clientX - b.left + 14)) + 'px';
  t.style.top = Math.max(0, Math.min(b.height - t.offsetHeight, e.clientY - b.top + 14)) + 'px';
}

// ---- moving about
let timer = 0, tab = 'net', follow = false;
function show() {
  clearTimeout(scale.later);
  $('hint').hidden = true;
  const c = census();
  if (tab === 'net') drawNet(c); else drawTime();
  panel(c);
  cursor();
  clearTimeout(show.later);
  show.later = setTimeout(() => { try { history.replaceState(null, '', address()); } catch { } }, 300);
}
// the address holds event, pinned node, tab, zoom and middle
function address() {
  const whole = zoom.k === 1 && !zoom.x && !zoom.y, part = (x, size) => ((size / 2 - x) / zoom.k / size).toFixed(4);
  return '#' + at + (pin ? ',n' + pin : '') + (tab === 'time' ? ',time' : '') + (whole || !base ? '' : ',k' + zoom.k.toFixed(3) + ',x' + part(zoom.x, base.W) + ',y' + part(zoom.y, base.H));
}
// where an address leads; by now the page may have written its own in its place
function goAddress(hash = location.hash) {
  const found = /^#(\d+)((?:,[-a-z0-9.]+)*)$/.exec(hash);
  if (!found || hash === address()) return;
  const parts = found[2].split(','), number = letter => { const x = parts.find(p => new RegExp('^' + letter + '-?[0-9.]+$').test(p)); return x === undefined ? undefined : +x.slice(1); };
  goto(+found[1]);
  asking = false;
  pin = Math.min(G.nodes, number('n') || 0);
  const k = Math.min(100, Math.max(.05, number('k') ?? 1));
  zoom = { k, x: base.W / 2 - (number('x') ?? .5) * k * base.W, y: base.H / 2 - (number('y') ?? .5) * k * base.H };
  setTab(parts.includes('time') ? 'time' : 'net');
}
function move(k) { asking = false; goto(k); show(); }
function one(d) {
  let k = at + d;
  if ($('skip').checked) while (k > 0 && k < G.to && idle(steps[k - 1])) k += d;
  if ($('ask').checked && d > 0 && !asking && k <= G.to) {
    goto(k - 1);
    asking = true;
    guess = { step: k };
    return show();
  }
  move(k);
}
function halt() { clearInterval(timer); timer = 0; $('play').textContent = 'Play'; $('live').setAttribute('aria-live', 'polite'); $('pace').textContent = ''; }
// the whole run in a minute: the clock says which event is due
const minute = (start, from) => () => {
  const due = Math.min(G.to, from + Math.floor((performance.now() - start) / 60000 * G.to)), over = due - at;
  if (at >= G.to) return halt();
  if (!over) return;
  $('pace').textContent = over > 1 ? '1 event in ' + over + ' is shown' : '';
  move(due);
};
function play() {
  if (timer) return halt();
  if (at >= G.to) goto(0);
  $('play').textContent = 'Stop';
  $('live').setAttribute('aria-live', 'off');
  timer = $('speed').value === 'minute' ? setInterval(minute(performance.now(), at), 40) : setInterval(() => { if (at >= G.to) halt(); else if (!asking) one(1); }, +$('speed').value);
}
const goals = () => [['node', 'events of the node'], ['frag', 'fragments merging'], ...own([['level', 'a level rising']]), ...(PUTS ? [['waits', 'deferrals']] : []), ['wake', 'nodes waking'], ['halted', 'a halt'], ...KINDS.map(k => [k, NAMES[k]])];
function fits(s, goal) {
  switch (goal) {
    case 'node': return s.node === (pin || (stepNow() ? stepNow().node : 1)) && !($('skip').checked && idle(s));
    case 'frag': return curve[4 * s.step] < curve[4 * s.step - 4];
    case 'level': return 'level' in s.set;
    case 'waits': return s.fate === 'waits';
    case 'wake': return s.set.phase !== undefined && undo[s.step - 1].set.phase === P.opening.phase;
    case 'halted': return s.set.halted === true;
    default: return s.kind === goal && !($('skip').checked && idle(s));
  }
}
function jump(d) {
  const goal = $('goal').value;
  for (let k = at + d; k >= 1 && k <= G.to; k += d) if (fits(steps[k - 1], goal)) return move(k);
}
function setPin(v) {
  pin = v >= 1 && v <= G.nodes ? v : 0;
  if (document.activeElement.matches('.node') && pin) nodes[pin].g.focus();
  show();
}
function search(v) {
  setPin(v);
  if (!pin || tab !== 'net') return;
  const x = pos[pin][0] + zoom.x, y = pos[pin][1] + zoom.y;
  if (x < 30 || y < 30 || x > base.W - 30 || y > base.H - 60) { zoom.x += base.W / 2 - x; zoom.y += base.H / 2 - y; show(); }
}
// what is shown, as a picture by itself
function picture() {
  const svg = $(tab === 'net' ? 'net' : 'lanes').cloneNode(true), box = tab === 'net' ? [base.W, base.H] : [+$('lanes').getAttribute('width'), +$('lanes').getAttribute('height')], style = el('style', {});
  style.textContent = [...document.querySelectorAll('style')].map(x => x.textContent).join('\n');
  if (tab === 'net') svg.lastChild.prepend(...$('lower').cloneNode(true).children);
  svg.prepend(style, el('rect', { width: box[0], height: box[1], style: 'fill:var(--paper)' }));
  svg.setAttribute('width', box[0]); svg.setAttribute('height', box[1]);
  svg.setAttribute('font-family', 'system-ui, sans-serif');
  svg.classList.toggle('dark', document.documentElement.classList.contains('dark'));
  return new XMLSerializer().serializeToString(svg);
}
function save() {
  const a = document.createElement('a');
  a.href = URL.createObjectURL(new Blob([picture()], { type: 'image/svg+xml' }));
  a.download = 'ghs-' + at + '.svg';
  a.click();
  setTimeout(() => URL.revokeObjectURL(a.href), 1000);
}
function setTab(x) {
  tab = x;
  $('only').hidden = x === 'net';
  $('only').setAttribute('aria-pressed', only);
  $('follow').hidden = $('layout').hidden = x !== 'net';
  for (const e of SHEETS) e.toggleAttribute('hidden', x !== 'net');
  $('time').hidden = x === 'net';
  $('tabnet').setAttribute('aria-selected', x === 'net');
  $('tabtime').setAttribute('aria-selected', x !== 'net');
  if (x === 'net') $('legend').innerHTML = LEGEND();
  show();
}
// accounts are open where there's room, until a hand opens or closes one
let folded = false;
function fold(b, shut) { b.setAttribute('aria-expanded', !shut); b.parentNode.nextSibling.hidden = shut; }
// sizes are read before anything is written, so that the browser measures once
function relay() {
  if (!folded) for (const b of document.querySelectorAll('.fold')) fold(b, innerHeight < (innerWidth > 1499 ? 940 : 790) || innerWidth < 901);
  if (tab === 'net') $('legend').innerHTML = LEGEND();
  layout();
  strip();
  if (!nodes[1].g) build();
  shape();
  show();
}
const setCircle = () => { circle = !circle; $('layout').textContent = circle ? 'forces' : 'circle'; relay(); };
const setTheme = dark => { document.documentElement.classList.toggle('dark', dark); $('theme').textContent = dark ? 'light' : 'dark'; };
// what a reader chose stays chosen, where the browser keeps such things
const recall = (name, value) => { try { name = 'ghs ' + name; if (value !== undefined) localStorage.setItem(name, value); return localStorage.getItem(name); } catch { return null; } };
function scale(f, x, y) { zoom.x = x - (x - zoom.x) * f; zoom.y = y - (y - zoom.y) * f; zoom.k *= f; moveView(); clearTimeout(scale.later); scale.later = setTimeout(show, G.nodes > MANY ? 90 : 0); }
function mid(f) { const b = $('stage').getBoundingClientRect(); scale(f, b.width / 2, b.height / 2); }
const wheel = e => { e.preventDefault(); const b = $('stage').getBoundingClientRect(); scale(Math.exp(-e.deltaY / 400), e.clientX - b.left, e.clientY - b.top); };
const ACTS = {
  ArrowRight: () => one(1), ArrowLeft: () => one(-1), ArrowDown: () => jump(1), ArrowUp: () => jump(-1), PageDown: () => move(at + 10), PageUp: () => move(at - 10),
  Home: () => move(0), End: () => move(G.to), ' ': play, n: () => setPin(pin ? 0 : stepNow() ? stepNow().node : 1), Escape: () => setPin(0),
  '[': () => setPin(Math.max(1, (pin || (stepNow() ? stepNow().node : 1)) - 1)), ']': () => setPin(Math.min(G.nodes, (pin || (stepNow() ? stepNow().node : 0)) + 1)),
  x: () => { only = !only; setTab('time'); }, f: () => { follow = !follow; $('follow').setAttribute('aria-pressed', follow); zoom = { k: follow ? Math.max(1.6, 16 / base.r) : 1, x: 0, y: 0 }; show(); },
  w: () => { $('skip').checked = !$('skip').checked; show(); }, t: () => setTab(tab === 'net' ? 'time' : 'net'), c: setCircle,
  d: () => { setTheme(!document.documentElement.classList.contains('dark')); recall('theme', $('theme').textContent); }, '+': () => mid(1.25), '-': () => mid(.8), 0: () => { if (follow) ACTS.f(); zoom = { k: 1, x: 0, y: 0 }; show(); },
  e: () => $('goto').select(), '/': () => $('pick').select(), q: () => { $('ask').checked = !$('ask').checked; asking = false; show(); }, p: save,
  k: () => { weights = !(weights ?? roomy); placeWeights(); },
  g: () => { $('legend').hidden = !$('legend').hidden; relay(); }, '?': () => $('keys').open ? $('keys').close() : $('keys').showModal(),
};
// one pointer drags, two pinch
function fingers() {
  const down = new Map();
  $('stage').addEventListener('pointerdown', e => { if (tab !== 'net') return; down.set(e.pointerId, [e.clientX, e.clientY]); fingers.from = [e.clientX, e.clientY]; fingers.moved = false; });
  addEventListener('pointermove', e => {
    const old = down.get(e.pointerId), now = [e.clientX, e.clientY];
    if (!old) return;
    if (Math.hypot(now[0] - fingers.from[0], now[1] - fingers.from[1]) > 4 || down.size > 1) fingers.moved = true;
    if (!fingers.moved) return;
    if (down.size === 1) { zoom.x += now[0] - old[0]; zoom.y += now[1] - old[1]; }
    else {
      const other = [...down].find(([id]) => id !== e.pointerId)[1], b = $('stage').getBoundingClientRect(), far = p => Math.hypot(p[0] - other[0], p[1] - other[1]) || 1;
      zoom.x += (now[0] - old[0]) / 2; zoom.y += (now[1] - old[1]) / 2;
      scale(far(now) / far(old), (now[0] + other[0]) / 2 - b.left, (now[1] + other[1]) / 2 - b.top);
    }
    down.set(e.pointerId, now);
    moveView();
    clearTimeout(scale.later);
    scale.later = setTimeout(show, 90);
  });
  for (const end of ['pointerup', 'pointercancel']) addEventListener(end, e => down.delete(e.pointerId));
}
function start() {
  read($('steps').textContent);
  at = 0;
  survey();
  goto(G.from - 1);
  const title = document.querySelector('header b');
  title.innerHTML = P.title;
  $('skip').parentNode.hidden = !PUTS;
  document.title = title.textContent + ': ' + G.nodes + ' nodes, ' + G.events + ' events';
  $('what').textContent = G.nodes + ' nodes, ' + G.links + ' links, ' + (G.to < G.events ? 'the first ' + G.to + ' of ' : '') + G.events + ' events';
  $('seek').min = 0; $('seek').max = G.to;
  $('pick').max = G.nodes;
  $('goal').innerHTML = goals().map(([k, t]) => '<option value="' + k + '">' + t + '</option>').join('');
  $('keys').innerHTML = '<table>' + KEYS.map(([k, t]) => '<tr>' + td(k) + td(t) + '</tr>').join('') + '</table><form method="dialog"><button>close</button></form>';
  setTheme(recall('theme') ? recall('theme') === 'light' : matchMedia('(prefers-color-scheme: dark)').matches);
  only = G.nodes > 12;
  paintLooks();
  relay();
  goAddress();
  for (const b of document.querySelectorAll('[data-key]')) b.onclick = () => ACTS[b.dataset.key]();
  $('tabnet').onclick = () => setTab('net'); $('tabtime').onclick = () => setTab('time');
  $('seek').oninput = () => move(+$('seek').value);
  $('speed').onchange = () => { if (timer) { halt(); play(); } };
  $('skip').onchange = show;
  $('goto').max = G.to;
  // Enter takes the number, changed or not, and gives the keys back to the page
  for (const [box, go] of [[$('pick'), search], [$('goto'), move]]) {
    box.onchange = () => go(+box.value);
    box.onkeydown = e => { if (e.key === 'Enter') go(+box.value); if (e.key === 'Enter' || e.key === 'Escape') box.blur(); };
  }
  $('ask').onchange = () => { asking = false; show(); };
  $('say').onclick = choose;
  for (const b of document.querySelectorAll('.fold')) b.onclick = () => { folded = true; fold(b, b.getAttribute('aria-expanded') === 'true'); };
  $('nodes').onclick = e => { const g = e.target.closest('.node'); if (g && !fingers.moved) setPin(pin === +g.dataset.v ? 0 : +g.dataset.v); };
  $('links').onpointerover = e => { if (e.target.parentNode.i >= 0) titled(e.target.parentNode); };
  $('msgs').onpointerover = $('msgs').onpointerdown = $('nodes').onpointerover = tip;
  $('msgs').onpointerout = $('nodes').onpointerout = e => { if (e.pointerType === 'mouse') $('hint').hidden = true; };
  $('lanes').onclick = e => { if (e.target.dataset.k) move(+e.target.dataset.k); };
  const seekTo = e => { const b = $('strip').getBoundingClientRect(); move(Math.round((e.clientX - b.left - 8) / (b.width - 16) * G.to)); };
  $('strip').onpointerdown = e => { $('strip').setPointerCapture(e.pointerId); seekTo(e); };
  $('strip').onpointermove = e => { if (e.buttons) seekTo(e); };
  $('glass').onwheel = $('net').onwheel = wheel;
  fingers();
  const isDark = () => document.documentElement.classList.contains('dark');
  let wasDark = false;
  addEventListener('beforeprint', () => { wasDark = isDark(); setTheme(false); });
  addEventListener('afterprint', () => setTheme(wasDark));
  addEventListener('resize', relay);
  // after a click the keys are the page's again
  let mouse = false;
  addEventListener('pointerdown', () => { mouse = true; }, true);
  addEventListener('keydown', () => { mouse = false; }, true);
  const free = e => { if (mouse && e.target.matches('button, select, input:not([type=number])')) e.target.blur(); };
  addEventListener('click', e => { if (!e.target.matches('select')) free(e); });
  addEventListener('change', free);
  $('keys').onclose = () => document.activeElement.blur();
  addEventListener('hashchange', e => goAddress(new URL(e.newURL).hash));
  addEventListener('keydown', e => {
    if (e.ctrlKey || e.altKey || e.metaKey || e.target.matches('select, input[type=number]')) return;
    if (e.key === ' ' && e.target.matches('button, input[type=checkbox]')) return;
    if ($('keys').open && e.key !== '?') return;
    if ((e.key === ' ' || e.key === 'Enter') && e.target.matches('.node')) { e.preventDefault(); const v = +e.target.dataset.v; return setPin(pin === v ? 0 : v); }
    const f = ACTS[e.key];
    if (f) { e.preventDefault(); f(); }
  });
}
try { start(); } catch (e) { const d = document.createElement('div'); d.className = 'bad'; d.id = 'fault'; d.textContent = 'This page cannot be shown: ' + e.message; document.body.prepend(d); console.error(e); }
</script>
</body>
</html>
"##;
