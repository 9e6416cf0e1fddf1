//! The constant text of a page. `page/pack` writes it here from `page/pair.html`; change it there.

/// The page of two runs before the page of one, which it holds.
pub const PAIR_HEAD: &[u8] = br##"<!doctype html>
<html lang="en">
<head>
<meta charset="utf-8">
<meta name="viewport" content="width=device-width">
<title>ghs: two runs of one network</title>
<style>
:root { --paper: #fff; --ink: #111; --dim: #555; --faint: #8a8a8a; --line: #c8c8c8; --panel: #f3f3f1; --act: #c2185b; --num: 17px; }
:root.dark { --paper: #121417; --ink: #f2f2f2; --dim: #b4b4b4; --faint: #8c8c8c; --line: #42464d; --panel: #1c1f24; --act: #ff7eb6; color-scheme: dark; }
* { box-sizing: border-box; }
html, body { height: 100%; margin: 0; }
body { display: grid; grid-template: auto minmax(0, 1fr) auto auto / minmax(0, 1fr); font: var(--num)/1.35 system-ui, "Segoe UI", "DejaVu Sans", sans-serif; color: var(--ink); background: var(--paper); }
header, footer { background: var(--panel); padding: .3rem .7rem; display: flex; gap: .3rem .6rem; align-items: center; flex-wrap: wrap; }
header b { font-size: 1.1em; }
.gap { flex: 1; }
button, select, input { font: inherit; color: inherit; background: var(--paper); border: 1px solid var(--faint); border-radius: .3em; padding: .1em .5em; }
button { cursor: pointer; min-width: 2.2em; }
button[aria-pressed=true] { background: var(--ink); color: var(--paper); }
:focus-visible { outline: 3px solid var(--act); outline-offset: 1px; }
[hidden] { display: none !important; }
main { display: grid; grid-template-columns: minmax(0, 1fr) minmax(0, 1fr); min-height: 0; }
figure { margin: 0; display: grid; grid-template-rows: auto minmax(0, 1fr); min-height: 0; border-top: 4px solid transparent; }
figure + figure { border-left: 2px solid var(--ink); }
figure.led { border-top-color: var(--act); }
figcaption { padding: 0 .6rem; font-weight: bold; }
figcaption span { font-weight: normal; }
iframe { border: 0; width: 100%; height: 100%; display: block; }
#accounts { padding: .2rem .7rem; border-top: 1px solid var(--line); overflow-x: auto; }
#accounts p { margin: .1rem 0 .2rem; }
table { border-collapse: collapse; width: 100%; font-variant-numeric: tabular-nums; font-size: .88em; }
th, td { text-align: right; padding: 0 .5em 0 0; font-weight: normal; white-space: nowrap; }
th { color: var(--dim); }
tbody th { text-align: left; color: var(--ink); font-weight: bold; }
td.other { font-weight: bold; }
td.wide, th.wide { width: 20%; min-width: 6em; }
.bar { height: .75em; border: 1px solid var(--ink); }
.bar i { display: block; height: 100%; background: var(--ink); }
.pill { display: inline-block; min-width: 1.5em; text-align: center; background: var(--ink); color: var(--paper); border-radius: .7em; font-weight: bold; font-size: .85em; }
.bad { background: var(--act); color: var(--paper); padding: .2rem .6rem; }
dialog { color: var(--ink); background: var(--paper); border: 2px solid var(--ink); max-width: 46rem; }
dialog td { text-align: left; white-space: normal; }
dialog td:first-child { font-weight: bold; padding-right: 1.2em; }
#goal { max-width: 12em; }
@media (max-height: 820px) { :root { --num: 15px; } }
@media (max-width: 1100px) { table { font-size: .8em; } #names th { white-space: normal; vertical-align: bottom; } }
@media (max-width: 700px) {
  :root { --num: 14px; }
  html, body { height: auto; }
  body { display: block; }
  main { grid-template: 380px 380px / minmax(0, 1fr); }
  figure + figure { border-left: 0; }
  header, footer { padding: .2rem .4rem; gap: .25rem; }
  footer { position: sticky; bottom: 0; }
  button { min-width: 2em; padding: .1em .35em; }
  .wordy { display: none; }
}
@media print {
  @page { size: landscape; margin: 8mm; }
  * { print-color-adjust: exact; -webkit-print-color-adjust: exact; }
  :root { --num: 12px; }
  html, body { height: 178mm; overflow: hidden; }
  body { display: grid; }
  main { grid-template: minmax(0, 1fr) / 1fr 1fr; }
  header button, footer, dialog { display: none !important; }
}
</style>
</head>
<body>
<header>
<b>ghs</b><span id="what"></span><span class="gap"></span>
<span role="group" aria-label="which run is led"><button id="lead0" title="1" aria-pressed="false">first run</button> <button id="leadboth" title="b: both runs are led together" aria-pressed="true">together</button> <button id="lead1" title="2" aria-pressed="false">second run</button></span>
<button id="tab" title="t">space and time</button><button id="theme" title="d">dark</button><button id="help" title="?">?</button>
</header>
<main>
<figure><figcaption>First run <span id="said0"></span></figcaption><iframe id="frame0" title="the first run"></iframe></figure>
<figure><figcaption>Second run <span id="said1"></span></figcaption><iframe id="frame1" title="the second run"></iframe></figure>
</main>
<section id="accounts"><p id="told" aria-live="polite"></p><table><thead id="names"></thead><tbody id="counts"></tbody></table></section>
<footer>
<label>Event <input id="goto" type="number" min="0" style="width:5.5em" title="e: to an event's number"></label>
<button id="first" title="Home" aria-label="to the start">|&lt;</button><button id="back" title="left arrow" aria-label="one event back">&lt;</button>
<button id="play" title="space" aria-label="play">Play</button><button id="next" title="right arrow" aria-label="one event on">&gt;</button><button id="last" title="End" aria-label="to the end">&gt;|</button>
<button id="part" title="r">where they part</button>
<label><span class="wordy">speed</span> <select id="speed" aria-label="speed"><option value="1500">slow</option><option value="600" selected>middle</option><option value="150">fast</option><option value="16">rush</option><option value="minute">a run in a minute</option></select></label>
<label class="wordy"><input type="checkbox" id="skip"> skip deferrals</label>
<label><span class="wordy">jump to</span> <select id="goal" aria-label="jump to"></select></label>
<button id="jumpback" title="up arrow" aria-label="jump back">&lt;&lt;</button><button id="jump" title="down arrow" aria-label="jump on">&gt;&gt;</button>
</footer>
<dialog id="keys"></dialog>
<!-- the page of one run, as text: each of the two is shown in it -->
<noframes id="one">"##;

/// Between that and the data of the first run.
pub const PAIR_BEFORE: &[u8] = br##"</noframes>
<noembed id="steps0">
"##;

/// Between the data of the two.
pub const PAIR_BETWEEN: &[u8] = br##"</noembed>
<noembed id="steps1">
"##;

/// Behind the data of the second.
pub const PAIR_TAIL: &[u8] = br##"</noembed>
<script>
'use strict';
const $ = id => document.getElementById(id);
// how the page of one looks in a pane: the network, the strip, what is said of the event, and what a node knows
const PANE = '<style>header, .legend, footer > div, #seek, aside h2, #ledger, #census { display: none !important; }'
  + 'body { grid-template: minmax(0, 1fr) auto 8.6em / minmax(0, 1fr) !important; } main { grid-row: 1; } footer { grid-row: 2; grid-column: 1; padding: 0 .3rem; } #strip { height: 56px; }'
  + 'aside { grid-row: 3; display: grid !important; grid-template-columns: minmax(0, 5fr) minmax(0, 6fr); gap: .6em; border: 0; border-top: 1px solid var(--line); padding: .1rem .3rem 0 .6rem; overflow: hidden !important; }'
  + 'aside #say, aside #vars { min-height: 0; height: 8.4em; overflow-y: auto; } @media (max-width: 560px) { #vars { font-size: .85em; } }'
  + '.shown .legend { display: block !important; }'
  + '@media (max-width: 400px) { body { grid-template-rows: minmax(0, 1fr) auto 6.2em !important; } aside { grid-template-columns: 1fr; } aside #say { height: 6em; } #vars { display: none; } #strip { height: 40px; } }'
  + '@media print { html, body { height: 100% !important; } #strip { height: 40px; } }</style>';
const KEYS = [['1, b, 2', 'leads the first run alone, both together, the second alone'], ['r', 'where the runs part: the first event that is another one'], ['left, right', 'one event back or on'], ['space', 'play, stop'],
  ['up, down', 'to the previous or next event of the sort chosen under "jump to", in each run that is led'], ['Page up, Page down', 'ten events'], ['Home, End', 'start, end'], ['e', 'to an event\'s number'], ['w', 'skips events that only defer'],
  ['n', 'pins the event\'s node in both, or lets it go; a click on a node does too'], ['[ and ]', 'pins the node before or after'], ['t', 'network, or space and time'], ['x', 'space and time: only causes and effects'], ['c', 'laid out by forces, or as a circle'],
  ['f', 'follows the event\'s node, larger'], ['+ - 0', 'larger, smaller, whole network; the mouse drags and its wheel zooms, in both'], ['k', 'weights of links'], ['g', 'legend'], ['d', 'dark, light'], ['?', 'this list']];
const runs = [0, 1].map(i => ({ i, frame: $('frame' + i) }));
// which run is led: one of them, or both
let lead = 'both', acting = false, timer = 0, parts = 0;
const led = () => lead === 'both' ? runs : [runs[lead]];
const front = () => led()[0];

// ---- the two pages of one run
function open(run) {
  const text = $('one').textContent, mark = 'id="steps">\n', cut = text.indexOf(mark) + mark.length;
  run.frame.srcdoc = text.slice(0, cut).replace('</head>', PANE + '</head>') + $('steps' + run.i).textContent + text.slice(cut);
  return new Promise(done => { run.frame.onload = () => {
    const w = run.page = run.frame.contentWindow;
    run.see = text => w.eval(text);
    run.$ = id => w.document.getElementById(id);
    if (run.$('fault')) throw told(run.$('fault').textContent);
    done();
  }; });
}
const told = text => { const d = document.createElement('div'); d.className = 'bad'; d.id = 'fault'; d.textContent = text; document.body.prepend(d); return Error(text); };
// what is done to runs is done by the functions of their pages, and what these show then isn't answered
function act(which, f) {
  acting = true;
  try { for (const run of which) f(run); } finally { acting = false; }
  tell();
}
// a hand in one of the pages: its moves go to all that are led, and where it looks, the other looks too
function tie(run) {
  const w = run.page, move = w.move, show = w.show, moveView = w.moveView, other = runs[1 - run.i];
  w.move = k => {
    if (acting) return move(k);
    if (lead !== 'both') lead = run.i;
    act(led(), it => it.page.move(k));
  };
  w.show = () => { show(); if (!acting) act([other], () => look(run, other)); };
  w.moveView = () => { moveView(); if (!acting) act([other], () => { view(run, other); other.see('moveView()'); }); };
  w.addEventListener('keydown', e => { if (!e.target.matches('.node') || e.key !== ' ' && e.key !== 'Enter') key(e); }, true);
}
// the part of the network that is looked at, in parts of each stage; followed, each shows its own node
function view(from, to) {
  const [k, x, y] = from.see('[zoom.k, (base.W / 2 - zoom.x) / zoom.k / base.W, (base.H / 2 - zoom.y) / zoom.k / base.H]');
  to.see('zoom = follow && !pin ? { ...zoom, k: ' + k + ' } : { k: ' + k + ', x: base.W / 2 - ' + x + ' * base.W * ' + k + ', y: base.H / 2 - ' + y + ' * base.H * ' + k + ' }');
}
function look(from, to) {
  const [pin, follow, tab, only] = from.see('[pin, follow, tab, only]');
  to.see('pin = ' + pin + ', follow = ' + follow + ', only = ' + only);
  view(from, to);
  if (to.see('tab') === tab) to.page.show(); else to.page.setTab(tab);
}
// one name has one look in both
function sameLooks() {
  const [a, b] = runs.map(run => run.see('look')), [c, d] = runs.map(run => run.see('clashes')), all = new Map(c);
  for (const [name, beside] of d) all.set(name, new Set([...(all.get(name) || []), ...beside]));
  const names = [...new Set([...a.keys(), ...b.keys()])];
  for (const run of runs) { run.see('(names => { look = new Map(names.map(name => [name, 0])); })')(names); run.page.looks(all); run.page.relay(); }
}

// ---- what the two have in common
// the first event that is another one, or that only one of them has; 0 where there is none
function parting() {
  const [a, b] = runs.map(run => run.see('steps'));
  for (let k = 0; k < Math.max(a.length, b.length); k++) if (!a[k] || !b[k] || a[k].node !== b[k].node || a[k].port !== b[k].port) return k + 1;
  return 0;
}
// the nodes that are not in the same state
function differing() {
  const [a, b] = runs.map(run => run.see('nodes')), known = Object.keys(runs[0].see('P').opening), out = [];
  for (let v = 1; v < a.length; v++) if (known.some(x => a[v][x] !== b[v][x] && String(a[v][x]) !== String(b[v][x])) || a[v].marks.some((m, j) => m !== b[v].marks[j])) out.push(v);
  return out;
}
const tree = run => run.see("links.filter(branchy).map(l => l.link).join(' ')");
function verdict(nodes) {
  const ends = runs.every(run => run.see('at === G.to')), whole = runs.every(run => run.see('G.to === G.events && nodes.some(n => n && n.halted)'));
  const differ = nodes.length ? nodes.length + ' of ' + runs[0].see('G.nodes') + (nodes.length > 1 ? ' nodes are' : ' nodes is') + ' in another state' + (nodes.length <= 12 ? ': ' + nodes.join(', ') : '') : 'every node is in the same state';
  if (!ends) return differ[0].toUpperCase() + differ.slice(1) + '.';
  const [a, b] = runs.map(tree), weight = runs[0].see('links.filter(branchy).reduce((x, l) => x + l.weight, 0)'), cores = [...new Set(runs[0].see("nodes.filter(n => n && n.halted && n.name).map(n => n.name + ' at level ' + n.level)"))];
  if (!whole) return 'The last events that are shown' + (a === b ? ', and the same ' + runs[0].see('TREE()') + ' links' : '') + ': ' + differ + '.';
  if (a !== b) return 'Both have ended, in other ' + runs[0].see('TREE()') + ' links: ' + differ + '.';
  return 'Both have ended, in one tree: ' + (a ? a.split(' ').length : 0) + ' links of weight ' + weight + (cores.length ? ', the core' + (cores.length > 1 ? 's ' : ' ') + cores.slice(0, 4).join(', ') + (cores.length > 4 ? ' ..' : '') : '') + '; ' + differ + (nodes.length && runs.some(run => run.see('ledger.queued')) ? ', as messages are still on their way' : '') + '.';
}
const KINDS = () => runs[0].see('KINDS.map(k => [LETTER[k], NAMES[k]])');
function tell() {
  const seen = runs.map(run => run.see('({ at, to: G.to, events: G.events, bound: G.bound, sent: ledger.sent, bits: ledger.bits, consumed: ledger.consumed, requeued: ledger.requeued, queued: ledger.queued, now: figures(at) })'));
  const sum = list => list.reduce((a, b) => a + b, 0), rows = seen.map(s => [s.at + ' of ' + s.events, ...s.sent, sum(s.sent), sum(s.bits), s.now[3], sum(s.consumed), s.queued, s.requeued, s.now[0], s.now[2]]);
  $('counts').innerHTML = rows.map((row, i) => '<tr><th>' + (i ? 'Second run' : 'First run') + '</th>' + row.map((x, k) => '<td' + (x !== rows[1 - i][k] && k ? ' class="other"' : '') + '>' + x + '</td>').join('')
    + '<td class="wide"><div class="bar" role="img" aria-label="' + sum(seen[i].sent) + ' of ' + seen[i].bound + '"><i style="width:' + (seen[i].bound ? 100 * sum(seen[i].sent) / seen[i].bound : 0) + '%"></i></div></td></tr>').join('');
  const same = parts && seen.every(s => s.at < parts) && seen[0].at === seen[1].at, text = (parts ? same ? 'The same events so far; the runs part in event ' + parts + '. ' : 'The runs part in event ' + parts + '. ' : 'The runs are the same. ') + verdict(differing());
  if ($('told').textContent !== text) $('told').textContent = text;
  runs.forEach((run, i) => {
    $('said' + i).textContent = 'event ' + seen[i].at + ' of ' + seen[i].events + (seen[i].to < seen[i].events ? ', shown to ' + seen[i].to : '');
    run.frame.parentNode.classList.toggle('led', lead !== 'both' && lead === i);
    $('lead' + i).setAttribute('aria-pressed', lead === i);
  });
  $('leadboth').setAttribute('aria-pressed', lead === 'both');
  if (document.activeElement !== $('goto')) $('goto').value = seen[front().i].at;
  $('tab').textContent = runs[0].see('tab') === 'net' ? 'space and time' : 'network';
  clearTimeout(tell.later);
  tell.later = setTimeout(() => { try { history.replaceState(null, '', address()); } catch { } }, 300);
}
// the address holds the event of each, and the pinned node
const address = () => '#' + runs.map(run => run.see('at')).join(',') + (runs[0].see('pin') ? ',n' + runs[0].see('pin') : '');
// where an address leads that was given; by now the page may have written its own in its place
function goAddress(hash = location.hash) {
  const found = /^#(\d+),(\d+)(?:,n(\d+))?$/.exec(hash);
  if (found && hash !== address()) act(runs, run => { run.see('pin = Math.min(G.nodes, ' + (found[3] || 0) + ')'); run.page.move(+found[run.i + 1]); });
}

// ---- leading
const move = k => act(led(), run => run.page.move(k));
const one = d => act(led(), run => run.page.one(d));
const jump = d => act(led(), run => { run.$('goal').value = $('goal').value; run.page.jump(d); });
const part = () => { if (parts) act(runs, run => run.page.move(parts)); };
const setLead = x => { lead = x; tell(); };
const halt = () => { clearInterval(timer); timer = 0; $('play').textContent = 'Play'; };
function play() {
  if (timer) return halt();
  const start = performance.now(), over = () => led().every(run => run.see('at >= G.to')), minute = $('speed').value === 'minute';
  if (over()) move(0);
  const from = led().map(run => run.see('at / G.to'));
  $('play').textContent = 'Stop';
  timer = setInterval(() => {
    if (over()) return halt();
    if (minute) act(led(), run => run.page.move(run.see('Math.floor(Math.min(1, ' + ((from[led().indexOf(run)] || 0) + (performance.now() - start) / 60000) + ') * G.to)')));
    else one(1);
  }, minute ? 40 : +$('speed').value);
}
const setTheme = dark => { document.documentElement.classList.toggle('dark', dark); $('theme').textContent = dark ? 'light' : 'dark'; act(runs, run => run.see('setTheme')(dark)); };
const setSkip = on => { $('skip').checked = on; act(runs, run => { run.$('skip').checked = on; }); };
// a key of the page of one: where a hand looks goes from one to the other by itself
const ofPage = name => () => { front().see('ACTS')[name](); };
const ofBoth = name => () => act(runs, run => run.see('ACTS')[name]());
const ACTS = {
  ArrowRight: () => one(1), ArrowLeft: () => one(-1), ArrowDown: () => jump(1), ArrowUp: () => jump(-1), Home: () => move(0), End: () => act(led(), run => run.page.move(run.see('G.to'))),
  PageDown: () => act(led(), run => run.page.move(run.see('at') + 10)), PageUp: () => act(led(), run => run.page.move(run.see('at') - 10)),
  ' ': play, 1: () => setLead(0), 2: () => setLead(1), b: () => setLead('both'), r: part, e: () => { $('goto').focus(); $('goto').select(); }, w: () => setSkip(!$('skip').checked),
  d: () => setTheme(!document.documentElement.classList.contains('dark')), '?': () => $('keys').open ? $('keys').close() : $('keys').showModal(),
  c: ofBoth('c'), k: ofBoth('k'), g: () => act(runs, run => { run.page.document.body.classList.toggle('shown'); run.page.relay(); }),
};
for (const name of ['n', '[', ']', 'Escape', 't', 'x', 'f', '+', '-', '0']) ACTS[name] = ofPage(name);
function key(e) {
  if (e.ctrlKey || e.altKey || e.metaKey || e.target.matches('select, input[type=number]')) return;
  if (e.key === ' ' && e.target.matches('button, input[type=checkbox]')) return;
  if ($('keys').open && e.key !== '?' || !ACTS[e.key]) return;
  e.preventDefault();
  e.stopImmediatePropagation();
  ACTS[e.key]();
}
async function start() {
  await Promise.all(runs.map(open));
  const [a, b] = runs.map(run => run.see('G.nodes + " " + links.map(l => l.link).join()'));
  if (a !== b) throw told('This page cannot be shown: the runs are of two networks.');
  sameLooks();
  parts = parting();
  runs.forEach(tie);
  const [nodes, links] = runs[0].see('[G.nodes, G.links]');
  document.title = 'ghs: two runs of ' + nodes + ' nodes';
  $('what').textContent = 'two runs of one network: ' + nodes + ' nodes, ' + links + ' links';
  $('goal').innerHTML = runs[0].$('goal').innerHTML;
  $('names').innerHTML = '<tr><th></th><th>event</th>' + KINDS().map(([letter, name]) => '<th title="sent: ' + name + '"><span class="pill">' + letter + '</span></th>').join('') + '<th>sent</th><th title="the bits of what was sent">bits</th><th title="the bits of the longest message">longest message</th><th>consumed</th><th>in queues</th><th>deferrals</th><th>fragments</th><th>longest chain</th><th class="wide">of the bound, ' + runs[0].see('G.bound') + '</th></tr>';
  $('keys').innerHTML = '<table>' + KEYS.map(([k, t]) => '<tr><td>' + k + '</td><td>' + t + '</td></tr>').join('') + '</table><form method="dialog"><button>close</button></form>';
  for (const [id, name] of [['first', 'Home'], ['last', 'End'], ['back', 'ArrowLeft'], ['next', 'ArrowRight'], ['play', ' '], ['part', 'r'], ['jump', 'ArrowDown'], ['jumpback', 'ArrowUp'], ['theme', 'd'], ['help', '?'], ['tab', 't'], ['lead0', '1'], ['lead1', '2'], ['leadboth', 'b']]) $(id).onclick = e => { ACTS[name](); if (e.detail) e.target.blur(); };
  $('skip').onchange = () => setSkip($('skip').checked);
  $('goto').onchange = () => move(+$('goto').value);
  $('goto').onkeydown = e => { if (e.key === 'Enter') move(+$('goto').value); if (e.key === 'Enter' || e.key === 'Escape') $('goto').blur(); };
  $('goal').onchange = $('speed').onchange = e => { e.target.blur(); if (timer) { halt(); play(); } };
  $('part').disabled = !parts;
  addEventListener('keydown', key);
  addEventListener('hashchange', e => goAddress(new URL(e.newURL).hash));
  setTheme(matchMedia('(prefers-color-scheme: dark)').matches);
  goAddress();
  document.body.dataset.ready = 'yes';
}
start().catch(e => { if (!$('fault')) told('This page cannot be shown: ' + e.message); console.error(e); });
</script>
</body>
</html>
"##;
