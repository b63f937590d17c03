//! The page around its document, which `page/make.py` makes from the files beside it. Do not edit it here.

/// The page up to the document.
pub(crate) const HEAD: &[u8] = b"\
<!doctype html>\n\
<html lang=\"en\">\n\
<head>\n\
<meta charset=\"utf-8\">\n\
<meta name=\"viewport\" content=\"width=device-width, initial-scale=1\">\n\
<title>Runs of a litmus test</title>\n\
<style>\n\
/* Colors: --now is what the step does, --wait a store that waits, --bad what goes wrong, --fence a fence. */\n\
:root {\n\
\x20 color-scheme: light;\n\
\x20 --bg: #f6f7f8;\n\
\x20 --card: #fff;\n\
\x20 --ink: #1b2026;\n\
\x20 --soft: #56606b;\n\
\x20 --line: #d3d8de;\n\
\x20 --now: #0a51bd;\n\
\x20 --now-bg: #e3edfd;\n\
\x20 --wait: #7a4a00;\n\
\x20 --wait-bg: #ffedc2;\n\
\x20 --bad: #b01b17;\n\
\x20 --bad-bg: #fdecea;\n\
\x20 --fence: #1a6b3c;\n\
\x20 --fence-bg: #e4f4ea;\n\
\x20 --mono: ui-monospace, \"SF Mono\", Menlo, Consolas, \"DejaVu Sans Mono\", monospace;\n\
\x20 --sans: system-ui, \"Segoe UI\", \"DejaVu Sans\", sans-serif;\n\
}\n\
\n\
@media screen and (prefers-color-scheme: dark) {\n\
\x20 :root {\n\
\x20   color-scheme: dark;\n\
\x20   --bg: #13161a;\n\
\x20   --card: #1b2026;\n\
\x20   --ink: #e8ebef;\n\
\x20   --soft: #a6b0bb;\n\
\x20   --line: #3a424c;\n\
\x20   --now: #8fbcff;\n\
\x20   --now-bg: #1b3157;\n\
\x20   --wait: #ffd27a;\n\
\x20   --wait-bg: #44350f;\n\
\x20   --bad: #ff938b;\n\
\x20   --bad-bg: #47211f;\n\
\x20   --fence: #7fd6a3;\n\
\x20   --fence-bg: #173524;\n\
\x20 }\n\
}\n\
\n\
/* Texts */\n\
* { box-sizing: border-box; }\n\
body { margin: 0; background: var(--bg); color: var(--ink); font: 16px/1.5 var(--sans); }\n\
main { max-width: 120rem; margin: 0 auto; padding: 0.8rem 1rem 2rem; overflow-wrap: anywhere; }\n\
h1 { font-size: 1.5rem; line-height: 1.25; margin: 0 0 0.3rem; }\n\
h2 { font-size: 1.05rem; margin: 0 0 0.5rem; }\n\
h3, h4 { font-size: 0.85rem; margin: 0; }\n\
p { margin: 0 0 0.6rem; max-width: 95ch; }\n\
.lead { font-size: 1.1rem; max-width: none; }\n\
.about { margin: 0 0 0.5rem; }\n\
.about p { margin: 0.3rem 0 0; }\n\
summary { cursor: pointer; width: fit-content; }\n\
.notes p { margin: 0 0 0.3rem; max-width: none; }\n\
.soft { color: var(--soft); }\n\
.note { margin: 0.6rem 0 0; font-size: 0.9rem; }\n\
.choice { display: flex; flex-wrap: wrap; gap: 0.3rem 0.6rem; align-items: center; margin: 0 0 0.6rem; }\n\
.choice > span { font-weight: 600; }\n\
.verdict { color: var(--bad); font-weight: 600; }\n\
code, .code, table, .cell, .slot, svg text {\n\
\x20 font-family: var(--mono);\n\
\x20 font-size: 0.85em;\n\
\x20 font-variant-ligatures: none;\n\
}\n\
code { white-space: nowrap; }\n\
.long { white-space: normal; }\n\
.word { white-space: nowrap; }\n\
.command { user-select: all; }\n\
\n\
/* Cards and controls */\n\
.card {\n\
\x20 background: var(--card);\n\
\x20 border: 1px solid var(--line);\n\
\x20 border-radius: 10px;\n\
\x20 padding: 0.9rem 1rem;\n\
\x20 margin: 0 0 0.9rem;\n\
\x20 min-width: 0;\n\
}\n\
.scroll { overflow-x: auto; position: relative; }\n\
button {\n\
\x20 font: inherit;\n\
\x20 color: inherit;\n\
\x20 background: var(--card);\n\
\x20 border: 1px solid var(--line);\n\
\x20 border-radius: 7px;\n\
\x20 padding: 0.3rem 0.7rem;\n\
\x20 min-height: 2.2rem;\n\
\x20 cursor: pointer;\n\
}\n\
button:hover { border-color: var(--now); }\n\
button[aria-disabled=true] { color: var(--soft); cursor: default; border-style: dashed; }\n\
:focus-visible { outline: 3px solid var(--now); outline-offset: 2px; }\n\
[role=tablist] { display: flex; flex-wrap: wrap; gap: 0.3rem; align-items: center; }\n\
[role=tab] { min-height: 1.9rem; padding: 0.1rem 0.6rem; border-radius: 99px; font-size: 0.9rem; }\n\
[role=tab][aria-selected=true] { background: var(--now-bg); border-color: var(--now); font-weight: 600; }\n\
.controls { display: flex; flex-wrap: wrap; gap: 0.4rem; align-items: center; }\n\
.controls button { padding: 0.2rem 0.6rem; min-height: 2rem; }\n\
.place { display: flex; flex: 1 1 16rem; gap: 0.6rem; align-items: center; }\n\
.track { position: relative; flex: 1; }\n\
.track input { display: block; width: 100%; accent-color: var(--now); height: 2rem; margin: 0; min-width: 6rem; }\n\
.ticks { position: absolute; inset: auto 8px 0; height: 6px; pointer-events: none; }\n\
.tick { position: absolute; left: calc(100% * var(--share)); width: 2px; height: 6px; margin-left: -1px; background: var(--soft); }\n\
.tick.bad { background: var(--bad); }\n\
.bubble {\n\
\x20 position: absolute;\n\
\x20 bottom: 100%;\n\
\x20 right: 0;\n\
\x20 padding: 0.1rem 0.5rem;\n\
\x20 border-radius: 6px;\n\
\x20 background: var(--ink);\n\
\x20 color: var(--card);\n\
\x20 font-size: 0.85rem;\n\
\x20 z-index: 4;\n\
}\n\
.count { min-width: 6.5rem; }\n\
.say { margin: 0.4rem 0 0.6rem; min-height: 3em; max-width: none; }\n\
\n\
/* The panel: one column in which the machine is no higher than the screen */\n\
.panel { display: flex; flex-direction: column; min-width: 0; }\n\
.texts { display: contents; }\n\
.wrong { order: 1; }\n\
.view { order: 2; display: flex; flex-direction: column; }\n\
.table { order: 3; }\n\
.graph { order: 4; }\n\
.view .machine { margin: -2px; padding: 2px; border: 0; display: flex; flex-direction: column; min-height: 0; overflow: auto; }\n\
@media screen and (min-height: 36rem) {\n\
\x20 .view { max-height: calc(100vh - 1rem); }\n\
}\n\
@media screen and (min-width: 62rem) and (min-height: 36rem) {\n\
\x20 .stacked .view { order: 0; max-height: calc(100vh - 11rem); }\n\
}\n\
\n\
/* Where there is room, the whole page is one screen: the texts scroll beside the machine */\n\
@media screen and (min-width: 62rem) and (min-height: 36rem) {\n\
\x20 .framed { height: 100vh; display: flex; flex-direction: column; padding-bottom: 0.8rem; }\n\
\x20 .framed header { display: grid; grid-template-columns: minmax(0, 1fr) auto; column-gap: 1rem; align-items: baseline; }\n\
\x20 .framed .lead { grid-area: 2 / 1 / auto / span 2; }\n\
\x20 .framed .notes { grid-area: 3 / 1 / auto / span 2; }\n\
\x20 .framed .about { grid-area: 1 / 2; margin: 0; }\n\
\x20 .framed .about[open] { grid-area: 4 / 1 / auto / span 2; margin: 0 0 0.5rem; columns: 2; column-gap: 2rem; }\n\
\x20 .framed .about summary { column-span: all; }\n\
\x20 .framed .about p { break-inside: avoid; }\n\
\x20 .framed [role=tabpanel] { display: flex; flex-direction: column; }\n\
\x20 .framed [role=tabpanel], .framed .panel { flex: 1; min-height: 0; }\n\
\x20 .framed .panel { display: grid; grid-template: minmax(0, 1fr) / minmax(0, 2fr) minmax(0, 3fr); gap: 0.8rem; }\n\
\x20 .framed .texts { display: block; overflow-y: auto; }\n\
\x20 .framed .view { align-self: start; max-height: 100%; margin: 0; }\n\
\x20 .framed .code { max-height: none; }\n\
\x20 .framed .texts .card:last-child { margin: 0; }\n\
}\n\
\n\
/* On wide screens the table has a column of its own */\n\
@media screen and (min-width: 100rem) and (min-height: 36rem) {\n\
\x20 .framed .panel { grid-template: fit-content(60%) minmax(0, 1fr) / minmax(0, 5fr) minmax(0, 8fr) minmax(0, 6fr); }\n\
\x20 .framed .texts { display: contents; }\n\
\x20 .framed .card { margin: 0; }\n\
\x20 .framed .wrong { grid-area: 1 / 1; overflow-y: auto; }\n\
\x20 .framed .graph { grid-area: 2 / 1; overflow-y: auto; }\n\
\x20 .framed .view { grid-area: 1 / 2 / span 2; }\n\
\x20 .framed .table { grid-area: 1 / 3 / span 2; max-height: none; }\n\
}\n\
\n\
/* A label names its thread: beside the machine, and on telephones, the table has no room to say it twice */\n\
@media screen and (min-width: 62rem), (max-width: 40rem) {\n\
\x20 th:nth-child(3), td:nth-child(3) { display: none; }\n\
}\n\
\n\
/* The moments */\n\
.moments { margin: 0; padding: 0; list-style: none; }\n\
.moments li { display: flex; gap: 0.6rem; align-items: baseline; padding: 0.15rem 0; }\n\
.moments button { padding: 0 0.5rem; min-height: 1.7rem; font-size: 0.85rem; min-width: 5.2rem; }\n\
.moments .bad { color: var(--bad); font-weight: 600; }\n\
.moments [aria-current] { border-color: var(--now); background: var(--now-bg); }\n\
.where { flex: none; display: grid; gap: 0.2rem; }\n\
\n\
/* The machine: where it is higher than its box, the lists of instructions scroll, and then the threads, above the memory */\n\
.stage {\n\
\x20 position: relative;\n\
\x20 display: grid;\n\
\x20 grid-template-rows: minmax(var(--row), 1fr) auto;\n\
\x20 gap: 2rem;\n\
\x20 min-height: 0;\n\
}\n\
.threads {\n\
\x20 display: grid;\n\
\x20 grid-template-columns: repeat(auto-fit, minmax(max(8.8rem, 100% / var(--threads) - 0.6rem), 1fr));\n\
\x20 grid-auto-rows: minmax(var(--row), 1fr);\n\
\x20 gap: 0.6rem;\n\
\x20 min-height: 0;\n\
\x20 position: relative;\n\
\x20 overflow-y: auto;\n\
}\n\
.thread {\n\
\x20 container-type: inline-size;\n\
\x20 border: 1px solid var(--line);\n\
\x20 border-radius: 8px;\n\
\x20 padding: 0.4rem;\n\
\x20 min-width: 0;\n\
\x20 min-height: 0;\n\
\x20 display: grid;\n\
\x20 grid-template-rows: minmax(0, 1fr);\n\
}\n\
.column { display: grid; grid-template-rows: minmax(5rem, 1fr) auto; gap: 0.5rem; min-height: 0; }\n\
.program { display: flex; flex-direction: column; min-height: 0; }\n\
.code { list-style: none; margin: 0.2rem 0 0; padding: 0; overflow-y: auto; position: relative; line-height: 1.35; }\n\
.code li {\n\
\x20 padding: 0.12rem 0.3rem 0.12rem 1.7rem;\n\
\x20 position: relative;\n\
\x20 border-radius: 4px;\n\
\x20 border: 1px solid transparent;\n\
}\n\
.code li[data-number]::before {\n\
\x20 content: attr(data-number);\n\
\x20 position: absolute;\n\
\x20 left: 0;\n\
\x20 width: 1.3rem;\n\
\x20 text-align: right;\n\
\x20 color: var(--soft);\n\
}\n\
.code .label, .code .done, .code .skipped { color: var(--soft); }\n\
.code .skipped .text { text-decoration: line-through; }\n\
.code .now { background: var(--now-bg); border-color: var(--now); color: var(--ink); font-weight: 600; }\n\
.code .fence {\n\
\x20 padding-left: 0.5rem;\n\
\x20 margin: 0.1rem 0;\n\
\x20 width: 0;\n\
\x20 min-width: 100%; /* so that a list is as wide as its instructions */\n\
\x20 background: var(--fence-bg);\n\
\x20 border: 1px solid var(--fence);\n\
\x20 color: var(--fence);\n\
\x20 font-weight: 600;\n\
}\n\
.code .out { background: none; border: 2px dashed var(--bad); color: var(--bad); }\n\
.code .passing { background: var(--bad-bg); }\n\
.fence small { font-weight: 400; display: inline-block; }\n\
.low { display: grid; grid-template-columns: minmax(0, 2fr) minmax(5.4rem, 3fr); gap: 0.5rem; }\n\
.low h4 { font-size: 0.8rem; overflow-wrap: normal; }\n\
.low .none { font-size: 0.8rem; margin: 0; }\n\
.cells { display: flex; flex-wrap: wrap; gap: 0.4rem; margin: 0.2rem 0 0; padding: 0; list-style: none; }\n\
.cell { border: 1px solid var(--line); border-radius: 5px; padding: 0.15rem 0.5rem; background: var(--card); }\n\
.cell b, .cell s { margin-left: 0.35em; }\n\
.cell s { color: var(--soft); }\n\
.moved { border-color: var(--now); background: var(--now-bg); box-shadow: 0 0 0 1px var(--now); }\n\
\n\
/* A store buffer is open towards the memory below it. Its oldest store is the lowest. */\n\
.buffer { display: flex; flex-direction: column; }\n\
.buffer ol {\n\
\x20 flex: 1;\n\
\x20 display: flex;\n\
\x20 flex-direction: column-reverse;\n\
\x20 gap: 3px;\n\
\x20 list-style: none;\n\
\x20 margin: 0.2rem 0 0;\n\
\x20 padding: 4px;\n\
\x20 border: 2px solid var(--wait);\n\
\x20 border-bottom-style: dotted;\n\
\x20 border-radius: 6px 6px 0 0;\n\
}\n\
.slot {\n\
\x20 border-radius: 4px;\n\
\x20 min-height: 1.75rem;\n\
\x20 padding: 0.15rem 0.4rem;\n\
\x20 border: 1px dashed var(--line);\n\
\x20 text-align: center;\n\
}\n\
.slot.full { background: var(--wait-bg); color: var(--wait); border: 1px solid var(--wait); font-weight: 600; }\n\
.slot.moved { border-color: var(--now); box-shadow: 0 0 0 1px var(--now); }\n\
.buffer s { margin-left: 0.5em; overflow-wrap: anywhere; font-family: var(--mono); font-weight: 400; color: var(--soft); }\n\
.memory {\n\
\x20 border: 2px solid var(--ink);\n\
\x20 border-radius: 8px;\n\
\x20 padding: 0.5rem 0.7rem;\n\
\x20 display: flex;\n\
\x20 flex-wrap: wrap;\n\
\x20 gap: 0.3rem 0.7rem;\n\
\x20 align-items: center;\n\
}\n\
.memory h3 { flex: 1 0 4.5rem; }\n\
.memory .cells { flex: 6 1 15rem; justify-content: space-evenly; margin: 0; }\n\
.memory .cell { font-size: 1.05em; padding: 0.3rem 0.9rem; }\n\
\n\
/* A wide column of the machine has the registers and the store buffer beside the program */\n\
@container (min-width: 17rem) {\n\
\x20 .column { grid-template: minmax(5rem, 1fr) / fit-content(65%) minmax(6rem, 1fr); column-gap: 0.8rem; }\n\
\x20 .column .low { display: flex; flex-wrap: wrap; gap: 0.4rem; align-content: end; align-items: flex-end; }\n\
\x20 .code { min-width: 9.5rem; }\n\
\x20 .low .registers { flex: 1 1 5rem; }\n\
\x20 .low .buffer { flex: 2 1 4.2rem; }\n\
}\n\
\n\
/* A narrow column of the machine */\n\
@container (max-width: 12rem) {\n\
\x20 .code li { padding-left: 1.4rem; }\n\
\x20 .code li[data-number]::before { width: 1.1rem; }\n\
\x20 .low { grid-template-columns: minmax(3.6rem, 1fr) minmax(4rem, 1.3fr); gap: 0.25rem; }\n\
\x20 .low h4 { font-size: 0.7rem; }\n\
\x20 .low .cell, .slot { padding: 0.15rem 0.2rem; }\n\
\x20 .buffer ol { padding: 2px; }\n\
}\n\
\n\
/* What moves */\n\
.arrows { position: absolute; inset: 0; width: 100%; height: 100%; pointer-events: none; overflow: visible; }\n\
.arrows path { fill: none; stroke: var(--now); stroke-width: 2.5; }\n\
.arrows rect { fill: var(--now); }\n\
.arrows text { fill: var(--card); font-weight: 700; font-size: 12px; }\n\
.token {\n\
\x20 position: absolute;\n\
\x20 left: 0;\n\
\x20 top: 0;\n\
\x20 background: var(--now);\n\
\x20 color: var(--card);\n\
\x20 font: 700 13px var(--mono);\n\
\x20 padding: 0.1rem 0.45rem;\n\
\x20 border-radius: 99px;\n\
\x20 pointer-events: none;\n\
\x20 z-index: 2;\n\
}\n\
\n\
/* The table: its head stays in sight, so its box has no padding above */\n\
.table { max-height: 28rem; overflow-y: auto; padding-top: 0; }\n\
table { border-collapse: collapse; width: 100%; }\n\
caption { text-align: left; font: 600 1.05rem/1.5 var(--sans); padding: 0.9rem 0 0.4rem; }\n\
th, td {\n\
\x20 text-align: left;\n\
\x20 padding: 0.15rem 0.35rem;\n\
\x20 border-bottom: 1px solid var(--line);\n\
\x20 vertical-align: top;\n\
}\n\
th { color: var(--soft); font-weight: 600; position: sticky; top: 0; background: var(--card); overflow-wrap: normal; }\n\
.table .out { color: var(--bad); font-weight: 700; white-space: nowrap; }\n\
tbody tr { cursor: pointer; }\n\
tbody tr:hover { background: var(--bg); }\n\
tr[aria-current] td { background: var(--now-bg); font-weight: 600; }\n\
tr.pass td:first-child { box-shadow: inset 4px 0 var(--bad); }\n\
tr.later td { color: var(--soft); }\n\
\n\
/* The candidate execution */\n\
.split { display: flex; flex-wrap: wrap; gap: 0.9rem; align-items: flex-start; }\n\
.split > * { flex: 1 1 24rem; min-width: 0; }\n\
.split > .scroll { flex: 1 1 auto; max-width: 100%; } /* a wide graph has a row of its own */\n\
.graph svg { display: block; max-width: 100%; height: auto; }\n\
.graph text { font-size: 12.5px; fill: var(--ink); }\n\
.graph .node { fill: var(--card); stroke: var(--line); stroke-width: 1.5; }\n\
.graph .in { stroke: var(--bad); stroke-width: 2.5; }\n\
.graph .here { fill: var(--now-bg); }\n\
.graph path { fill: none; stroke: var(--soft); stroke-width: 1.2; }\n\
.graph path.red { stroke: var(--bad); stroke-width: 2.6; }\n\
.graph .tag { paint-order: stroke; stroke: var(--card); stroke-width: 5px; fill: var(--soft); }\n\
.graph .tag.red { fill: var(--bad); font-weight: 700; }\n\
.graph .cut { stroke: var(--bad); stroke-width: 2; stroke-dasharray: 5 3; }\n\
.cycle { padding-left: 1.4rem; margin: 0 0 0.6rem; }\n\
.cycle li { padding: 0.12rem 0; }\n\
.cycle b { color: var(--bad); }\n\
\n\
/* Telephones, and windows as narrow */\n\
@media (max-width: 40rem) {\n\
\x20 main { padding: 0.8rem 0.6rem 2rem; }\n\
\x20 .card { padding: 0.7rem 0.6rem; }\n\
\x20 .table { padding-top: 0; max-height: 24rem; }\n\
\x20 h1 { font-size: 1.3rem; }\n\
\x20 .lead { font-size: 1rem; }\n\
\x20 .say { font-size: 0.9rem; }\n\
\x20 .stage { gap: 1.6rem; }\n\
\x20 .slot { min-height: 1.6rem; }\n\
\x20 .memory { padding: 0.3rem 0.5rem 0.5rem; }\n\
\x20 .memory h3 { flex-basis: 100%; }\n\
\x20 .memory .cell { padding: 0.15rem 0.5rem; }\n\
}\n\
\n\
/* Paper: white, without controls, and without arrows, since they are placed for the screen's layout */\n\
@media print {\n\
\x20 :root { font-size: 10.5px; }\n\
\x20 body { background: #fff; font-size: 1rem; }\n\
\x20 * { print-color-adjust: exact; }\n\
\x20 .controls, .pick, .arrows { display: none; }\n\
\x20 .code, .table { max-height: none; }\n\
\x20 .card { break-inside: avoid; }\n\
}\n\
</style>\n\
</head>\n\
<body>\n\
<main id=\"page\">\n\
<noscript><p>This page draws itself with JavaScript, from the JSON document in its source.</p></noscript>\n\
</main>\n\
<script type=\"application/json\" id=\"data\">\n\
";

/// The page after the document.
pub(crate) const TAIL: &[u8] = b"\
</script>\n\
<script>\n\
\"use strict\";\n\
\n\
// The document that the page shows, and the words and elements that all parts of the page use.\n\
\n\
const given = JSON.parse(document.getElementById(\"data\").textContent);\n\
\n\
// Gives an element its attributes, listeners and children. A child is an element or a text, never markup, since the\n\
// names of the document may hold anything. An attribute that is null or false is left out.\n\
function furnish(element, { on = {}, ...attributes }, children) {\n\
\x20 for (const [event, listener] of Object.entries(on)) {\n\
\x20   element.addEventListener(event, listener);\n\
\x20 }\n\
\x20 for (const [name, value] of Object.entries(attributes)) {\n\
\x20   if (value !== null && value !== false) {\n\
\x20     element.setAttribute(name, value === true ? \"\" : value);\n\
\x20   }\n\
\x20 }\n\
\x20 element.append(...children.flat().filter(child => child !== null && child !== \"\"));\n\
\x20 return element;\n\
}\n\
\n\
const html = (tag, attributes = {}, ...children) => furnish(document.createElement(tag), attributes, children);\n\
\n\
const svg = (tag, attributes = {}, ...children) =>\n\
\x20 furnish(document.createElementNS(\"http://www.w3.org/2000/svg\", tag), attributes, children);\n\
\n\
const all = (root, selector) => [...root.querySelectorAll(selector)];\n\
\n\
// Marks an element as the current one of its kind, for style sheets and for screen readers.\n\
function mark(element, isCurrent) {\n\
\x20 if (isCurrent) {\n\
\x20   element.setAttribute(\"aria-current\", \"step\");\n\
\x20 } else {\n\
\x20   element.removeAttribute(\"aria-current\");\n\
\x20 }\n\
}\n\
\n\
// Texts up to this length are not broken.\n\
const SHORT_CODE = 24;\n\
\n\
const code = text => html(\"code\", text.length > SHORT_CODE ? { class: \"long\" } : {}, text);\n\
\n\
// A command, whose words are not broken.\n\
const command = text => html(\"code\", { class: \"long\" },\n\
\x20 text.split(\" \").flatMap((word, i) => [i > 0 ? \" \" : \"\", html(\"span\", { class: \"word\" }, word)]));\n\
\n\
const threadName = thread => \"P\" + thread;\n\
\n\
// `x=1`, of a store or of what is read.\n\
const assignment = access => `${access.location}=${access.value}`;\n\
\n\
const assignments = accesses => accesses.map(access => code(assignment(access)));\n\
\n\
// The parts as they are listed in a sentence: `a, b and c`.\n\
function listed(parts, last = \" and \") {\n\
\x20 return parts.flatMap((part, i) => i === 0 ? [part] : [i === parts.length - 1 ? last : \", \", part]);\n\
}\n\
\n\
// The thread and the instruction of a gap.\n\
const gapPlace = gap => gap.split(\":\").map(Number);\n\
\n\
const gapCost = gap => given.gaps.find(priced => priced.gap === gap).cost;\n\
\n\
// The gaps that go together with a gap, itself among them.\n\
const tieOf = gap => (given.ties ?? []).find(tie => tie.includes(gap)) ?? [gap];\n\
\n\
// The gaps that are fenced: those of the answer, or those that `fencer witness` was asked to fence.\n\
const fencedGaps = () => given.answer ? given.answer.set : given.fences ?? [];\n\
\n\
const instructionText = (thread, number) => given.threads[thread].instructions[number].text;\n\
\n\
// The instruction that a gap lies before, with its thread, the gap, the line of the file in which the instruction stands,\n\
// and what else is said of the gap.\n\
function placeOf(gap, more = \"\") {\n\
\x20 const [thread, number] = gapPlace(gap);\n\
\x20 const { text, line } = given.threads[thread].instructions[number];\n\
\x20 return [code(text), ` of ${threadName(thread)} (gap ${gap}, line ${line}${more})`];\n\
}\n\
\n\
// The quantifier of the file's condition, and its formula without the parentheses around it.\n\
const quantifier = () => given.condition.split(\" \")[0];\n\
const formulaText = () => given.condition.slice(quantifier().length).trim().slice(1, -1);\n\
\n\
// What is said beside the answer, and whether a note of this kind is.\n\
const notes = given.notes ?? [];\n\
\n\
const hasNote = kind => notes.some(note => note.kind === kind);\n\
\n\
const outcomeText = run => run.outcome.map(({ name, value }) => `${name}=${value};`).join(\" \");\n\
\n\
const initialText = location => `${location}=${given.initial.memory[given.locations.indexOf(location)]}`;\n\
// The formula of the file's condition, as far as it takes to find the step that decides it. What the formula comes to is\n\
// the document's to say.\n\
\n\
// Truths are true, false or null, which is not known.\n\
const anyOf = truths => truths.includes(true) ? true : truths.includes(null) ? null : false;\n\
const allOf = truths => truths.includes(false) ? false : truths.includes(null) ? null : true;\n\
const opposite = truth => truth === null ? null : !truth;\n\
\n\
// A formula, read once: a function from the values of names to its truth.\n\
class FormulaReader {\n\
\x20 constructor(condition) {\n\
\x20   this.signs = condition.slice(condition.indexOf(\" \")).match(/[()]|[^\\s()]+/g);\n\
\x20   this.at = 0;\n\
\x20 }\n\
\n\
\x20 takes(sign) {\n\
\x20   const isNext = this.signs[this.at] === sign;\n\
\x20   this.at += isNext ? 1 : 0;\n\
\x20   return isNext;\n\
\x20 }\n\
\n\
\x20 // Operands with this sign between them.\n\
\x20 operands(sign, operand) {\n\
\x20   const found = [operand()];\n\
\x20   while (this.takes(sign)) {\n\
\x20     found.push(operand());\n\
\x20   }\n\
\x20   return found;\n\
\x20 }\n\
\n\
\x20 disjunction() {\n\
\x20   const parts = this.operands(\"\\\\/\", () => this.conjunction());\n\
\x20   return valueOf => anyOf(parts.map(part => part(valueOf)));\n\
\x20 }\n\
\n\
\x20 conjunction() {\n\
\x20   const parts = this.operands(\"/\\\\\", () => this.negation());\n\
\x20   return valueOf => allOf(parts.map(part => part(valueOf)));\n\
\x20 }\n\
\n\
\x20 negation() {\n\
\x20   if (this.takes(\"not\")) {\n\
\x20     const inner = this.negation();\n\
\x20     return valueOf => opposite(inner(valueOf));\n\
\x20   }\n\
\x20   if (this.takes(\"(\")) {\n\
\x20     const inner = this.disjunction();\n\
\x20     this.takes(\")\");\n\
\x20     return inner;\n\
\x20   }\n\
\x20   return this.atom();\n\
\x20 }\n\
\n\
\x20 atom() {\n\
\x20   const sign = this.signs[this.at++];\n\
\x20   if (sign === \"true\" || sign === \"false\") {\n\
\x20     return () => sign === \"true\";\n\
\x20   }\n\
\x20   const [name, value] = sign.split(\"=\");\n\
\x20   return valueOf => {\n\
\x20     const found = valueOf(name);\n\
\x20     return found === null ? null : found === Number(value);\n\
\x20   };\n\
\x20 }\n\
}\n\
\n\
const formulaOf = condition => new FormulaReader(condition).disjunction();\n\
\n\
// After how many steps of a run the formula is decided: from there on no write that comes changes its truth. A register\n\
// or a location counts once its last write is made. Null where it is decided before the first step, or where the formula\n\
// comes to something else than the document says.\n\
function decidingStep(run) {\n\
\x20 const truth = formulaOf(given.condition);\n\
\x20 const truthAfter = steps => truth(name => run.lastWrite(name) <= steps ? run.finalValue(name) : null);\n\
\x20 const decided = run.states.findIndex((_, steps) => truthAfter(steps) !== null);\n\
\x20 return decided > 0 && truthAfter(run.last) === run.run.meets_condition ? decided : null;\n\
}\n\
// A run, as far as its steps show it: the state after each step, and the moments that matter. Nothing is executed\n\
// here: each value comes from the document.\n\
\n\
class Run {\n\
\x20 constructor(run) {\n\
\x20   this.run = run;\n\
\x20   this.steps = run.steps;\n\
\x20   this.threads = run.steps.map(step => Number(step.label.slice(1)));\n\
\x20   this.states = this.findStates();\n\
\x20   this.moments = [];\n\
\x20   this.gap = run.without ?? null;\n\
\x20   if (this.gap !== null) {\n\
\x20     this.findGap();\n\
\x20     this.findMoments();\n\
\x20   }\n\
\x20   this.decided = decidingStep(this);\n\
\x20 }\n\
\n\
\x20 // Whether it is a run of the machine without store buffers.\n\
\x20 get isSequential() {\n\
\x20   return this.run.model === \"sequential\";\n\
\x20 }\n\
\n\
\x20 get last() {\n\
\x20   return this.steps.length;\n\
\x20 }\n\
\n\
\x20 // The whole state before the first step, and after each one.\n\
\x20 findStates() {\n\
\x20   const states = [{\n\
\x20     memory: given.initial.memory,\n\
\x20     registers: given.initial.registers,\n\
\x20     buffers: given.threads.map(() => []),\n\
\x20   }];\n\
\x20   this.steps.forEach((step, i) => {\n\
\x20     const before = states[i];\n\
\x20     const own = (values, value) => values.map((other, thread) => thread === this.threads[i] ? value : other);\n\
\x20     states.push({\n\
\x20       memory: step.memory,\n\
\x20       registers: own(before.registers, step.registers),\n\
\x20       buffers: own(before.buffers, step.buffer),\n\
\x20     });\n\
\x20   });\n\
\x20   return states;\n\
\x20 }\n\
\n\
\x20 // The instruction that a thread executes next after some steps, or the number of its instructions where it has ended.\n\
\x20 next(steps, thread) {\n\
\x20   const executes = (step, i) => i >= steps && this.threads[i] === thread && step.instruction !== null;\n\
\x20   const found = this.steps.find(executes);\n\
\x20   return found ? found.instruction : given.threads[thread].instructions.length;\n\
\x20 }\n\
\n\
\x20 // Whether a thread has jumped over an instruction in some steps.\n\
\x20 isSkipped(steps, thread, number) {\n\
\x20   const executes = (step, i) => i < steps && this.threads[i] === thread && step.instruction === number;\n\
\x20   return number < this.next(steps, thread) && !this.steps.some(executes);\n\
\x20 }\n\
\n\
\x20 // The label that a step jumps to; null where it does not jump, or jumps to the next instruction.\n\
\x20 jumpLabel(i) {\n\
\x20   const { instruction } = this.steps[i];\n\
\x20   const isJump = instruction !== null && this.text(i).startsWith(\"J\");\n\
\x20   return isJump && this.next(i + 1, this.threads[i]) !== instruction + 1 ? this.text(i).split(\" \")[1] : null;\n\
\x20 }\n\
\n\
\x20 // The register that a step puts a value in: the operand of a load, an exchange or a move that is no location.\n\
\x20 target(i) {\n\
\x20   if (this.steps[i].instruction === null || !/^(MOV|XCHG) /.test(this.text(i))) {\n\
\x20     return null;\n\
\x20   }\n\
\x20   const operands = this.text(i).split(\" \")[1].split(\",\");\n\
\x20   const isExchange = this.text(i).startsWith(\"XCHG\");\n\
\x20   return operands.slice(0, isExchange ? 2 : 1).find(operand => !operand.startsWith(\"[\")) ?? null;\n\
\x20 }\n\
\n\
\x20 // After how many steps a register `0:EAX` or a location has its last value.\n\
\x20 lastWrite(name) {\n\
\x20   const [thread, register] = name.split(\":\");\n\
\x20   return 1 + this.steps.findLastIndex((step, i) => register === undefined\n\
\x20     ? step.reaches !== null && step.reaches.location === name\n\
\x20     : this.threads[i] === Number(thread) && this.target(i) === register);\n\
\x20 }\n\
\n\
\x20 // What a register or a location holds in the end.\n\
\x20 finalValue(name) {\n\
\x20   const { memory, registers } = this.states[this.last];\n\
\x20   const [thread, register] = name.split(\":\");\n\
\x20   const values = register === undefined ? memory : registers[thread];\n\
\x20   return values[(register === undefined ? given.locations : given.registers[thread]).indexOf(register ?? name)] ?? 0;\n\
\x20 }\n\
\n\
\x20 // Whether a step reads or stores.\n\
\x20 isAccess(i) {\n\
\x20   return this.steps[i].reads !== null || this.steps[i].stores !== null;\n\
\x20 }\n\
\n\
\x20 text(i) {\n\
\x20   return instructionText(this.threads[i], this.steps[i].instruction);\n\
\x20 }\n\
\n\
\x20 // The step that passes the gap that is left out, and the stores that wait there, the oldest first.\n\
\x20 findGap() {\n\
\x20   [this.gapThread, this.gapInstruction] = gapPlace(this.gap);\n\
\x20   this.pass = this.steps.findIndex((step, i) =>\n\
\x20     this.threads[i] === this.gapThread && step.instruction === this.gapInstruction);\n\
\x20   this.waiting = this.states[this.pass].buffers[this.gapThread];\n\
\x20 }\n\
\n\
\x20 // The moments from the step that passes the gap to the one at which the last store that waited there has reached\n\
\x20 // memory: `arrival`. Moments with the same words are one moment with several steps.\n\
\x20 findMoments() {\n\
\x20   let late = this.waiting;\n\
\x20   for (let i = this.pass; late.length > 0 && i < this.last; i++) {\n\
\x20     const moment = momentOf(this, i, late);\n\
\x20     if (moment !== null) {\n\
\x20       this.addMoment(i + 1, moment);\n\
\x20     }\n\
\x20     if (this.threads[i] === this.gapThread && this.steps[i].instruction === null) {\n\
\x20       late = late.slice(1);\n\
\x20       this.arrival = i;\n\
\x20     }\n\
\x20   }\n\
\x20 }\n\
\n\
\x20 addMoment(step, { say, isBad }) {\n\
\x20   const words = say.map(part => part.textContent ?? part).join(\"\");\n\
\x20   const same = this.moments.find(moment => moment.words === words);\n\
\x20   if (same) {\n\
\x20     same.steps.push(step);\n\
\x20   } else {\n\
\x20     this.moments.push({ steps: [step], words, say, isBad });\n\
\x20   }\n\
\x20 }\n\
\n\
\x20 // The edges of the cycle: where each one comes from, where it leads to, and its relation.\n\
\x20 cycle() {\n\
\x20   const { cycle } = this.run.execution;\n\
\x20   return cycle.map(({ event, relation }, i) => ({\n\
\x20     relation,\n\
\x20     from: event,\n\
\x20     to: cycle[(i + 1) % cycle.length].event,\n\
\x20   }));\n\
\x20 }\n\
\n\
\x20 // Whether a pair of events of one thread lies around the gap that is left out.\n\
\x20 isAroundGap(from, to) {\n\
\x20   return this.gap !== null && this.threads[from] === this.gapThread && this.threads[to] === this.gapThread\n\
\x20     && this.steps[from].instruction < this.gapInstruction && this.gapInstruction <= this.steps[to].instruction;\n\
\x20 }\n\
}\n\
// The sentences about a run.\n\
\n\
// What a step after the passed gap does with the stores that waited there and have not reached memory yet: its words,\n\
// and whether it is where the fence is missing; null if it does nothing with them.\n\
function momentOf(run, i, late) {\n\
\x20 const step = run.steps[i];\n\
\x20 const thread = threadName(run.threads[i]);\n\
\x20 const isOwn = run.threads[i] === run.gapThread;\n\
\x20 const newest = access => late.filter(store => access && store.location === access.location).slice(-1);\n\
\x20 if (i === run.pass) {\n\
\x20   return { say: passingWords(run, late), isBad: true };\n\
\x20 }\n\
\x20 if (isOwn && step.reads && step.reads.from === \"memory\") {\n\
\x20   const own = listed(assignments(late));\n\
\x20   return { say: [`${thread} reads `, code(assignment(step.reads)), \", ahead of its own waiting \", ...own, \".\"] };\n\
\x20 }\n\
\x20 if (!isOwn && newest(step.reads).length > 0) {\n\
\x20   const hidden = assignments(newest(step.reads));\n\
\x20   return {\n\
\x20     say: [`${thread} reads `, code(assignment(step.reads)), `: ${threadName(run.gapThread)}'s `, ...hidden,\n\
\x20       \" still waits, and no other thread sees it.\"],\n\
\x20   };\n\
\x20 }\n\
\x20 if (!isOwn && newest(step.reaches).length > 0) {\n\
\x20   return { say: [`${thread}'s store `, code(assignment(step.reaches)), \" reaches memory first.\"] };\n\
\x20 }\n\
\x20 if (isOwn && step.instruction === null) {\n\
\x20   const end = late.length > 1 ? \" reaches memory only now.\" : \" reaches memory only now: too late.\";\n\
\x20   return { say: [`${thread}'s store `, code(assignment(step.reaches)), end] };\n\
\x20 }\n\
\x20 return null;\n\
}\n\
\n\
function passingWords(run, late) {\n\
\x20 const { reads } = run.steps[run.pass];\n\
\x20 return [\n\
\x20   `${threadName(run.gapThread)} goes on to `, code(run.text(run.pass)),\n\
\x20   late.length > 1 ? \" while its stores \" : \" while its store \", ...listed(assignments(late)),\n\
\x20   late.length > 1 ? \" still wait in its buffer\" : \" still waits in its buffer\",\n\
\x20   ...(reads ? [\", and reads \", code(assignment(reads))] : []),\n\
\x20   \". A fence here would have made it wait.\",\n\
\x20 ];\n\
}\n\
\n\
// What a step does, in a few words.\n\
function shortWords(run, i) {\n\
\x20 const { instruction, reads, stores, reaches } = run.steps[i];\n\
\x20 const thread = threadName(run.threads[i]);\n\
\x20 const label = run.jumpLabel(i);\n\
\x20 if (instruction === null) {\n\
\x20   return [`${thread}'s store `, code(assignment(reaches)), \" reaches memory\"];\n\
\x20 }\n\
\x20 if (reads) {\n\
\x20   const from = reads.from === \"buffer\" ? [\" from its buffer\"] : [];\n\
\x20   return [`${thread} reads `, code(assignment(reads)), ...from, ...stores ? [\" and stores \", code(assignment(stores))] : []];\n\
\x20 }\n\
\x20 if (stores) {\n\
\x20   return [`${thread} stores `, code(assignment(stores)), reaches ? \"\" : \" in its buffer\"];\n\
\x20 }\n\
\x20 return label === null ? [`${thread} executes `, code(run.text(i))] : [`${thread} jumps to `, code(label)];\n\
}\n\
\n\
// The moments with the step that decides the file's condition among them, in the order of their first steps. It is bad in\n\
// a run that a fence prevents, and where it breaks the condition.\n\
function allMoments(run) {\n\
\x20 const says = decisionWords(run);\n\
\x20 if (run.decided === null || says === null) {\n\
\x20   return run.moments;\n\
\x20 }\n\
\x20 const isAlone = moment => moment.steps.length === 1 && moment.steps[0] === run.decided;\n\
\x20 const same = run.moments.find(isAlone);\n\
\x20 const say = [...same ? [...same.say, \" \"] : [...shortWords(run, run.decided - 1), \". \"], ...says];\n\
\x20 const others = run.moments.filter(moment => moment !== same);\n\
\x20 const isBad = run.gap !== null || isBroken(run);\n\
\x20 return [...others, { steps: [run.decided], say, isBad }].sort((a, b) => a.steps[0] - b.steps[0]);\n\
}\n\
\n\
// Whether a run breaks the file's condition: alone it can't break one with `exists`.\n\
const isBroken = run => quantifier() !== \"exists\" && run.run.meets_condition === (quantifier() === \"~exists\");\n\
\n\
// What is said of the step that decides the condition; null where the condition is neither broken nor met, and not asked\n\
// about.\n\
function decisionWords(run) {\n\
\x20 if (isBroken(run)) {\n\
\x20   return [\"This breaks the condition \", code(given.condition), \".\"];\n\
\x20 }\n\
\x20 if (quantifier() === \"exists\" && run.run.meets_condition) {\n\
\x20   return [\"This meets the condition \", code(given.condition), \".\"];\n\
\x20 }\n\
\x20 const isAsked = given.command === \"witness\" || given.answer && given.answer.condition;\n\
\x20 return isAsked ? [`From here on the formula of the condition is ${run.run.meets_condition}.`] : null;\n\
}\n\
\n\
// What happens in the last of some steps.\n\
function stepWords(run, steps) {\n\
\x20 if (steps === 0) {\n\
\x20   const empty = run.isSequential ? \"\" : \", and the store buffers are empty\";\n\
\x20   return [`Before the first step: nothing has been executed${empty}. Press Next, or the right arrow key; Space plays.`];\n\
\x20 }\n\
\x20 const i = steps - 1;\n\
\x20 const step = run.steps[i];\n\
\x20 const thread = threadName(run.threads[i]);\n\
\x20 if (step.instruction === null) {\n\
\x20   return [`${thread}'s oldest waiting store leaves its buffer: `, code(assignment(step.reaches)),\n\
\x20     \" is in memory now, where every thread sees it.\"];\n\
\x20 }\n\
\x20 const say = [`${thread} executes `, code(run.text(i)), ...effectWords(run, i)];\n\
\x20 if (i === run.pass) {\n\
\x20   say.push(html(\"span\", { class: \"verdict\" }, ` Its own ${run.waiting.map(assignment).join(\" \")} still `\n\
\x20     + `${run.waiting.length > 1 ? \"wait\" : \"waits\"}: the fence that is left out would have made ${thread} wait here `\n\
\x20     + \"until its buffer is empty.\"));\n\
\x20 }\n\
\x20 return say;\n\
}\n\
\n\
// What an instruction does, after its text.\n\
function effectWords(run, i) {\n\
\x20 const step = run.steps[i];\n\
\x20 const { reads, stores, reaches } = step;\n\
\x20 if (reads && stores) {\n\
\x20   return [run.isSequential ? \": it reads \" : \": with its buffer empty, it reads \", code(assignment(reads)), \" and stores \",\n\
\x20     code(assignment(stores)), \" in memory, at once.\"];\n\
\x20 }\n\
\x20 if (stores && reaches) {\n\
\x20   return [\": \", code(assignment(stores)), \" is in memory at once, where every thread sees it.\"];\n\
\x20 }\n\
\x20 if (stores) {\n\
\x20   const found = step.memory[given.locations.indexOf(stores.location)];\n\
\x20   return [\": \", code(assignment(stores)), \" goes into its store buffer. No other thread sees it yet; memory still \",\n\
\x20     \"has \", code(`${stores.location}=${found}`), \".\"];\n\
\x20 }\n\
\x20 return reads ? loadWords(run, i) : localWords(run, i);\n\
}\n\
\n\
function loadWords(run, i) {\n\
\x20 const { reads } = run.steps[i];\n\
\x20 const from = reads.from === \"buffer\" ? \" from its own store buffer, where only it can see it.\" : \" from memory.\";\n\
\x20 const say = [\" and reads \", code(assignment(reads)), from];\n\
\x20 run.states[i].buffers.forEach((buffer, thread) => {\n\
\x20   const hidden = buffer.filter(store => store.location === reads.location).slice(-1);\n\
\x20   if (thread !== run.threads[i] && hidden.length > 0) {\n\
\x20     say.push(` It cannot see ${threadName(thread)}'s `, ...assignments(hidden), \", which still waits.\");\n\
\x20   }\n\
\x20 });\n\
\x20 return say;\n\
}\n\
\n\
// An instruction that neither reads nor stores: where the run goes on tells whether a jump was taken.\n\
function localWords(run, i) {\n\
\x20 const text = run.text(i);\n\
\x20 const label = run.jumpLabel(i);\n\
\x20 if (text === \"MFENCE\") {\n\
\x20   return [run.isSequential ? \", which has nothing to wait for.\" : \": its store buffer is empty, so the fence lets it go on.\"];\n\
\x20 }\n\
\x20 if (label !== null) {\n\
\x20   return [\", and jumps to \", code(label), \".\"];\n\
\x20 }\n\
\x20 return [text.startsWith(\"J\") ? \", and goes on with the next instruction.\" : \".\"];\n\
}\n\
\n\
// What the file's condition is about, as its quantifier says: its formula, which must not happen with `~exists`. As words\n\
// of a sentence, and as a text.\n\
const subject = () => quantifier() === \"~exists\" ? [\"What must not happen (\", code(formulaText()), \")\"] : [code(formulaText())];\n\
\n\
const subjectText = () => quantifier() === \"~exists\" ? `What must not happen (${formulaText()})` : formulaText();\n\
\n\
// Whether that is so in a run, by whether the run meets the formula.\n\
function happens(meets) {\n\
\x20 const verb = quantifier() === \"forall\" ? [\"holds\", \"fails\"] : [\"happens\", \"does not happen\"];\n\
\x20 return verb[meets ? 0 : 1];\n\
}\n\
\n\
// What is said beside the answer: of the condition by its formula, of a slip by its line.\n\
function noteWords({ kind, line, message }) {\n\
\x20 if (kind === \"no_fence_mends\" || kind === \"happens_sequentially\") {\n\
\x20   const end = kind === \"no_fence_mends\" ? \": no fence mends it.\" : \".\";\n\
\x20   return [...subject(), ` ${happens(quantifier() !== \"forall\")} without store buffers too${end}`];\n\
\x20 }\n\
\x20 const sentence = line === null ? message[0].toUpperCase() + message.slice(1) : `Line ${line}: ${message}`;\n\
\x20 return [sentence.endsWith(\"?\") ? sentence : sentence + \".\"];\n\
}\n\
\n\
// Which command shows a sequential run that breaks the condition.\n\
const sequentialCommand = () =>\n\
\x20 [\" \", command(`fencer witness --model sequential ${quantifier() === \"forall\" ? \"--not \" : \"\"}LITMUS`), \" shows such a run.\"];\n\
\n\
// A paragraph for each note.\n\
const noteBox = () => notes.length === 0 ? \"\" : html(\"div\", { class: \"notes\", role: \"note\" },\n\
\x20 notes.map(note => note.kind === \"no_fence_mends\"\n\
\x20   ? html(\"p\", { class: \"verdict\" }, noteWords(note), sequentialCommand()) : html(\"p\", {}, noteWords(note))));\n\
\n\
// A condition that names a part of what is compared may be decided sequentially too, with other final values.\n\
const elsewhere = () => hasNote(\"no_fence_mends\") || hasNote(\"happens_sequentially\")\n\
\x20 ? [\", and in a sequential run too, which ends otherwise.\"] : [\", and in no sequential run.\"];\n\
\n\
// A run that keeps the condition shows no need of its fence for the condition alone.\n\
const fewer = () => [\"; but registers or memory end as they sequentially cannot. For the condition alone fewer fences may be \",\n\
\x20 \"enough: \", command(\"fencer why --condition LITMUS\"), \" asks for those.\"];\n\
\n\
// Whether the run's outcome is what the file's condition is about.\n\
function conditionWords(run) {\n\
\x20 const isDecided = run.meets_condition === (quantifier() !== \"forall\");\n\
\x20 return [...subject(), ` ${happens(run.meets_condition)} in this run`, ...isDecided ? elsewhere() : fewer()];\n\
}\n\
\n\
// Whether what the condition is about is so in the run, as in no sequential run.\n\
function aloneWords(run) {\n\
\x20 const others = run.meets_condition ? \", and in no sequential run.\" : `; it ${happens(true)} in each sequential run.`;\n\
\x20 return [\" \", ...subject(), ` ${happens(run.meets_condition)} in this run${others}`];\n\
}\n\
\n\
// How the run ends. That no sequential run has the outcome is said by `fencer why`, not by `fencer trace`.\n\
function verdictWords(run) {\n\
\x20 if (run.gap === null) {\n\
\x20   return [code(outcomeText(run.run)), \" \", ...subject(), ` ${happens(run.run.meets_condition)} in this run.`];\n\
\x20 }\n\
\x20 if (given.answer.condition) {\n\
\x20   return [code(outcomeText(run.run)), html(\"span\", { class: \"verdict\" }, aloneWords(run.run))];\n\
\x20 }\n\
\x20 return [code(outcomeText(run.run)), html(\"span\", { class: \"verdict\" }, \" No sequential run has this outcome. \")];\n\
}\n\
\n\
// The cycle of the candidate execution, a sentence for each edge.\n\
function cycleWords(run) {\n\
\x20 const name = event => [threadName(run.threads[event]) + \"'s \", code(run.text(event))];\n\
\x20 const edges = run.cycle();\n\
\x20 return edges.map(({ relation, from, to }, i) => {\n\
\x20   const last = i === edges.length - 1 ? \": back at the first access.\" : \".\";\n\
\x20   return html(\"li\", {}, name(from), \" \", edgeWords(run, relation, from, name(to), to), \" (\",\n\
\x20     html(\"b\", {}, relation), \")\", last);\n\
\x20 });\n\
}\n\
\n\
function edgeWords(run, relation, from, target, to) {\n\
\x20 const { reads, stores } = run.steps[from];\n\
\x20 if (relation === \"po\") {\n\
\x20   return [\"comes before \", ...target, \" in the program\"];\n\
\x20 }\n\
\x20 if (relation === \"rf\") {\n\
\x20   return [\"stores \", code(assignment(stores)), \", which \", ...target, \" reads\"];\n\
\x20 }\n\
\x20 if (relation === \"co\") {\n\
\x20   return [\"stores \", code(assignment(stores)), \", and then \", ...target, \" overwrites it\"];\n\
\x20 }\n\
\x20 const overwritten = run.steps[to].stores;\n\
\x20 return [\"reads \", code(assignment(reads)), \", so it comes before \", ...target, \", which stores \",\n\
\x20   code(assignment(overwritten))];\n\
}\n\
// The machine as a picture: the program in a column for each thread, beside or below it the thread's registers and its\n\
// store buffer, and the memory at the bottom.\n\
\n\
// The cells of registers or locations, as a list.\n\
const cellList = (label, names) =>\n\
\x20 html(\"ul\", { class: \"cells\", \"aria-label\": label },\n\
\x20   names.map(name => html(\"li\", { class: \"cell\" }, name, html(\"b\"), html(\"s\"))));\n\
\n\
// The lines of a thread's program: its labels and instructions, and the fences.\n\
function programLines({ instructions, end }, thread, leftOut) {\n\
\x20 const lines = instructions.flatMap(({ labels, text }, number) => {\n\
\x20   const gap = `${thread}:${number}`;\n\
\x20   const label = html(\"span\", { class: \"label\" }, labels.map(name => name + \": \").join(\"\"));\n\
\x20   const line = html(\"li\", { \"data-number\": number, \"data-at\": gap }, label, html(\"span\", { class: \"text\" }, text));\n\
\x20   return fencedGaps().includes(gap) ? [fenceLine(gap, leftOut !== null && tieOf(leftOut).includes(gap)), line] : [line];\n\
\x20 });\n\
\x20 if (end.length > 0) {\n\
\x20   const label = html(\"span\", { class: \"label\" }, end.map(name => name + \":\").join(\" \"));\n\
\x20   lines.push(html(\"li\", { \"data-at\": `${thread}:${instructions.length}` }, label));\n\
\x20 }\n\
\x20 return lines;\n\
}\n\
\n\
// A fence, with its cost in the pages of answers, and the gaps that go together with it.\n\
function fenceLine(gap, isOut) {\n\
\x20 const others = tieOf(gap).filter(other => other !== gap);\n\
\x20 const together = others.length > 0 ? ` with ${others.join(\", \")}` : \"\";\n\
\x20 const cost = given.gaps ? [\" \", html(\"small\", {}, `${isOut ? \"left out, \" : \"\"}cost ${gapCost(gap)}${together}`)] : [];\n\
\x20 return html(\"li\", { class: isOut ? \"fence out\" : \"fence\", \"data-gap\": gap }, \"MFENCE\", ...cost);\n\
}\n\
\n\
// A store buffer with room for as many stores as ever wait in it. Its newest store is at the top.\n\
function bufferBox(thread, depth) {\n\
\x20 return html(\"div\", { class: \"buffer\" }, html(\"h4\", {}, \"store buffer\", html(\"s\")),\n\
\x20   html(\"ol\", { \"aria-label\": `store buffer of ${threadName(thread)}, oldest first` },\n\
\x20     Array.from({ length: depth }, () => html(\"li\", { class: \"slot\" }))));\n\
}\n\
\n\
function registerBox(thread) {\n\
\x20 const names = given.registers[thread];\n\
\x20 return html(\"div\", { class: \"registers\" }, html(\"h4\", {}, \"registers\"),\n\
\x20   names.length > 0 ? cellList(`registers of ${threadName(thread)}`, names)\n\
\x20     : html(\"p\", { class: \"soft none\" }, \"none\"));\n\
}\n\
\n\
// A thread's registers, and its store buffer where the machine has one.\n\
function stateBoxes(run, thread) {\n\
\x20 const depth = Math.max(1, ...run.states.map(state => state.buffers[thread].length));\n\
\x20 return html(\"div\", { class: \"low\" }, registerBox(thread), run.isSequential ? \"\" : bufferBox(thread, depth));\n\
}\n\
\n\
// A thread's column. Without a run it is the program alone.\n\
function threadColumn(program, thread, run) {\n\
\x20 const lines = programLines(program, thread, run ? run.gap : null);\n\
\x20 return html(\"section\", { class: \"thread\", \"aria-label\": \"thread \" + threadName(thread) },\n\
\x20   html(\"div\", { class: \"column\" },\n\
\x20     html(\"div\", { class: \"program\" }, html(\"h3\", {}, threadName(thread)), html(\"ol\", { class: \"code\" }, lines)),\n\
\x20     run ? stateBoxes(run, thread) : \"\"));\n\
}\n\
\n\
// The columns stand in one row where it has room for them, and else in several.\n\
const threadColumns = run => html(\"div\", {\n\
\x20 class: \"threads\", role: \"group\", \"aria-label\": \"the threads\", style: `--threads: ${given.threads.length}`,\n\
}, given.threads.map((program, thread) => threadColumn(program, thread, run)));\n\
\n\
// Up to so many columns fit on a screen beside the texts.\n\
const BESIDE = 4;\n\
\n\
const isBeside = () => given.threads.length <= BESIDE;\n\
\n\
// Shows values in cells, each with its former value where it changes. The cell that is written is lit also where its\n\
// value stays the same.\n\
function showValues(cells, values, former, written) {\n\
\x20 cells.forEach((cell, i) => {\n\
\x20   const hasChanged = values[i] !== former[i];\n\
\x20   cell.querySelector(\"b\").textContent = values[i];\n\
\x20   cell.querySelector(\"s\").textContent = hasChanged ? former[i] : \"\";\n\
\x20   cell.classList.toggle(\"moved\", hasChanged || cell.firstChild.data === written);\n\
\x20 });\n\
}\n\
\n\
// How much higher than its registers and its buffer a column is at least, in pixels: beside its program, and below it.\n\
const BESIDE_PROGRAM = 16;\n\
const BELOW_PROGRAM = 100;\n\
\n\
class Machine {\n\
\x20 constructor(run) {\n\
\x20   this.run = run;\n\
\x20   this.columns = threadColumns(run);\n\
\x20   this.threads = all(this.columns, \".thread\");\n\
\x20   this.memory = html(\"section\", { class: \"memory\", \"aria-label\": \"memory\" },\n\
\x20     html(\"h3\", {}, \"memory\"), cellList(\"memory\", given.locations));\n\
\x20   this.arrows = svg(\"svg\", { class: \"arrows\", \"aria-hidden\": \"true\" });\n\
\x20   this.stage = html(\"div\", { class: \"stage\" }, this.columns, this.memory, this.arrows);\n\
\x20 }\n\
\n\
\x20 // Shows the state after some steps.\n\
\x20 show(steps) {\n\
\x20   const state = this.run.states[steps];\n\
\x20   const former = this.run.states[Math.max(0, steps - 1)];\n\
\x20   const step = steps > 0 ? this.run.steps[steps - 1] : null;\n\
\x20   this.threads.forEach((column, thread) => this.showThread(column, thread, steps));\n\
\x20   const reached = step && step.reaches ? step.reaches.location : null;\n\
\x20   showValues(all(this.memory, \".cell\"), state.memory, former.memory, reached);\n\
\x20   const fence = this.stage.querySelector(`.out[data-gap=\"${this.run.gap}\"]`);\n\
\x20   if (fence) {\n\
\x20     fence.classList.toggle(\"passing\", steps > this.run.pass && steps <= this.run.arrival);\n\
\x20   }\n\
\x20   this.fit();\n\
\x20   this.follow(steps);\n\
\x20 }\n\
\n\
\x20 // Makes each row of columns high enough for registers and buffers, and for some lines where the program is above them.\n\
\x20 // Where the rows are higher than their box, it scrolls, also by keyboard.\n\
\x20 fit() {\n\
\x20   const needs = this.threads.map(column => {\n\
\x20     const boxes = [...column.querySelector(\".low\").children].map(box => box.getBoundingClientRect());\n\
\x20     const low = Math.max(...boxes.map(box => box.bottom)) - Math.min(...boxes.map(box => box.top));\n\
\x20     return low + (boxes[0].left > column.querySelector(\".code\").getBoundingClientRect().right ? BESIDE_PROGRAM : BELOW_PROGRAM);\n\
\x20   });\n\
\x20   this.stage.style.setProperty(\"--row\", `${Math.ceil(Math.max(...needs))}px`);\n\
\x20   this.columns.tabIndex = this.columns.scrollHeight > this.columns.clientHeight ? 0 : -1;\n\
\x20 }\n\
\n\
\x20 // Scrolls the threads as little as it takes to have the one of the step in sight, and each list of instructions so that\n\
\x20 // the one that is executed, or else the next one, stands in the middle; to its end where the thread has ended.\n\
\x20 follow(steps) {\n\
\x20   const { offsetTop: top, offsetHeight: height } = this.threads[steps > 0 ? this.run.threads[steps - 1] : 0];\n\
\x20   this.columns.scrollTop = Math.min(top, Math.max(this.columns.scrollTop, top + height - this.columns.clientHeight));\n\
\x20   this.threads.forEach((column, thread) => {\n\
\x20     const lines = column.querySelector(\".code\");\n\
\x20     const line = lines.querySelector(\".now\") ?? lines.querySelector(`[data-number=\"${this.run.next(steps, thread)}\"]`);\n\
\x20     lines.scrollTop = line === null ? lines.scrollHeight\n\
\x20       : line.offsetTop + line.offsetHeight / 2 - lines.clientHeight / 2;\n\
\x20   });\n\
\x20 }\n\
\n\
\x20 showThread(column, thread, steps) {\n\
\x20   const step = steps > 0 && this.run.threads[steps - 1] === thread ? this.run.steps[steps - 1] : null;\n\
\x20   const former = this.run.states[Math.max(0, steps - 1)];\n\
\x20   const state = this.run.states[steps];\n\
\x20   this.showPlace(column, thread, step ? step.instruction : null, steps);\n\
\x20   if (!this.run.isSequential) {\n\
\x20     this.showBuffer(column, state.buffers[thread], former.buffers[thread]);\n\
\x20   }\n\
\x20   const written = step ? this.run.target(steps - 1) : null;\n\
\x20   showValues(all(column, \".cell\"), state.registers[thread], former.registers[thread], written);\n\
\x20 }\n\
\n\
\x20 // Shows the stores that wait, the one that came in lit, and the one that left struck out above them.\n\
\x20 showBuffer(column, buffer, former) {\n\
\x20   all(column, \".slot\").forEach((slot, i) => {\n\
\x20     slot.textContent = i < buffer.length ? assignment(buffer[i]) : \"\";\n\
\x20     slot.classList.toggle(\"full\", i < buffer.length);\n\
\x20     slot.classList.toggle(\"moved\", buffer.length > former.length && i === buffer.length - 1);\n\
\x20   });\n\
\x20   column.querySelector(\".buffer s\").textContent = buffer.length < former.length ? assignment(former[0]) : \"\";\n\
\x20 }\n\
\n\
\x20 // Lights the instruction that the step executes, greys the ones that were executed, and strikes out the ones that were\n\
\x20 // jumped over.\n\
\x20 showPlace(column, thread, executed, steps) {\n\
\x20   const lines = column.querySelector(\".code\");\n\
\x20   const next = this.run.next(steps, thread);\n\
\x20   all(lines, \"[data-at]\").forEach(line => {\n\
\x20     const number = gapPlace(line.dataset.at)[1];\n\
\x20     const isNow = number === executed;\n\
\x20     const isSkipped = this.run.isSkipped(steps, thread, number);\n\
\x20     line.classList.toggle(\"now\", isNow);\n\
\x20     line.classList.toggle(\"done\", !isNow && !isSkipped && number < next);\n\
\x20     line.classList.toggle(\"skipped\", isSkipped);\n\
\x20     mark(line, isNow);\n\
\x20   });\n\
\x20 }\n\
}\n\
// What moves in a step: an arrow over the machine from where it was to where it is, and where motion is welcome a token\n\
// that goes along it.\n\
\n\
const calm = matchMedia(\"(prefers-reduced-motion: reduce)\");\n\
\n\
// An arrow that is less high than this has no label.\n\
const LABEL_HEIGHT = 34;\n\
\n\
// Points on elements, measured from the stage.\n\
class Places {\n\
\x20 constructor(stage) {\n\
\x20   this.origin = stage.getBoundingClientRect();\n\
\x20 }\n\
\n\
\x20 top(element) {\n\
\x20   const { left, top, width } = element.getBoundingClientRect();\n\
\x20   return [left - this.origin.left + width / 2, top - this.origin.top];\n\
\x20 }\n\
\n\
\x20 bottom(element) {\n\
\x20   const { left, bottom, width } = element.getBoundingClientRect();\n\
\x20   return [left - this.origin.left + width / 2, bottom - this.origin.top];\n\
\x20 }\n\
\n\
\x20 // The lower right corner, where no text is.\n\
\x20 corner(element) {\n\
\x20   const { right, bottom } = element.getBoundingClientRect();\n\
\x20   return [right - this.origin.left - 24, bottom - this.origin.top];\n\
\x20 }\n\
}\n\
\n\
// The ends of the arrows of a step, and what moves along each.\n\
function movesOf(machine, steps) {\n\
\x20 const { run } = machine;\n\
\x20 const { reads, stores, reaches, buffer } = run.steps[steps - 1];\n\
\x20 const column = machine.threads[run.threads[steps - 1]];\n\
\x20 const places = new Places(machine.stage);\n\
\x20 const slots = all(column, \".slot\");\n\
\x20 const cell = location => all(machine.memory, \".cell\")[given.locations.indexOf(location)];\n\
\x20 const moves = [];\n\
\x20 if (reads) {\n\
\x20   const waiting = run.states[steps - 1].buffers[run.threads[steps - 1]].map(store => store.location);\n\
\x20   const source = reads.from === \"buffer\" ? slots[waiting.lastIndexOf(reads.location)] : cell(reads.location);\n\
\x20   moves.push({ from: places.top(source), to: places.bottom(column.querySelector(\".cell.moved\")), value: reads });\n\
\x20 }\n\
\x20 if (stores && !reaches) {\n\
\x20   const target = slots[buffer.length - 1];\n\
\x20   moves.push({ from: places.corner(column.querySelector(\".now\")), to: places.top(target), value: stores });\n\
\x20 }\n\
\x20 if (reaches) {\n\
\x20   const from = stores ? places.corner(column.querySelector(\".now\")) : places.bottom(slots[0]);\n\
\x20   moves.push({ from, to: places.top(cell(reaches.location)), value: reaches });\n\
\x20 }\n\
\x20 return moves;\n\
}\n\
\n\
// Where an arrow's label stands: on the way between the threads and the memory where the arrow leads over it, since no\n\
// text is there. Of two arrows the first has its label nearer to its start.\n\
function labelSpot(machine, line, move, isFirstOfTwo) {\n\
\x20 const length = line.getTotalLength();\n\
\x20 const spots = Array.from({ length: 21 }, (_, i) => line.getPointAtLength(length * i / 20));\n\
\x20 if (isFirstOfTwo) {\n\
\x20   return spots[7];\n\
\x20 }\n\
\x20 const way = machine.memory.getBoundingClientRect().top - machine.stage.getBoundingClientRect().top - 19;\n\
\x20 if (Math.max(move.from[1], move.to[1]) <= way) {\n\
\x20   return spots[10];\n\
\x20 }\n\
\x20 return spots.reduce((best, spot) => Math.abs(best.y - way) <= Math.abs(spot.y - way) ? best : spot);\n\
}\n\
\n\
function drawMove(machine, move, isFirstOfTwo, flies) {\n\
\x20 const [[x1, y1], [x2, y2]] = [move.from, move.to];\n\
\x20 const bend = (y2 - y1) / 2;\n\
\x20 const path = `M${x1},${y1} C${x1},${y1 + bend} ${x2},${y2 - bend} ${x2},${y2}`;\n\
\x20 const line = svg(\"path\", { d: path, \"marker-end\": \"url(#head)\" });\n\
\x20 const label = assignment(move.value);\n\
\x20 machine.arrows.append(line);\n\
\x20 if (Math.abs(y2 - y1) > LABEL_HEIGHT) {\n\
\x20   drawLabel(machine, label, labelSpot(machine, line, move, isFirstOfTwo));\n\
\x20 }\n\
\x20 if (flies && !calm.matches) {\n\
\x20   fly(machine.stage, path, label);\n\
\x20 }\n\
}\n\
\n\
// Draws a label, above those that are there, and inside of the stage.\n\
function drawLabel({ arrows, stage }, label, { x: middle, y }) {\n\
\x20 const width = label.length * 8 + 12;\n\
\x20 const x = Math.max(width / 2, Math.min(stage.clientWidth - width / 2, middle));\n\
\x20 const isInTheWay = ({ x: left, y: top, width: size }) =>\n\
\x20   Math.abs(left + size / 2 - x) < (size + width) / 2 && Math.abs(top + 10 - y) < 20;\n\
\x20 const height = all(arrows, \"rect\").map(box => box.getBBox()).some(isInTheWay) ? y - 22 : y;\n\
\x20 arrows.append(\n\
\x20   svg(\"rect\", { x: x - width / 2, y: height - 10, width, height: 20, rx: 10 }),\n\
\x20   svg(\"text\", { x, y: height + 4, \"text-anchor\": \"middle\" }, label));\n\
}\n\
\n\
function fly(stage, path, label) {\n\
\x20 const style = `offset-path: path(\"${path}\"); offset-rotate: 0deg`;\n\
\x20 const token = html(\"div\", { class: \"token\", \"aria-hidden\": \"true\", style }, label);\n\
\x20 stage.append(token);\n\
\x20 const flight = [{ offsetDistance: \"0%\" }, { offsetDistance: \"100%\" }];\n\
\x20 token.animate(flight, { duration: 750, easing: \"ease-in-out\" }).onfinish = () => token.remove();\n\
}\n\
\n\
// A marker with the head of an arrow.\n\
function arrowHead(id, color, size) {\n\
\x20 const head = svg(\"path\", { d: \"M0,0 L10,5 L0,10 z\", style: `fill: var(${color}); stroke: none` });\n\
\x20 return svg(\"marker\", {\n\
\x20   id, viewBox: \"0 0 10 10\", refX: 9, refY: 5, markerWidth: size, markerHeight: size, markerUnits: \"userSpaceOnUse\",\n\
\x20   orient: \"auto\",\n\
\x20 }, head);\n\
}\n\
\n\
// Draws the arrows of the last of some steps anew.\n\
function drawArrows(machine, steps, flies) {\n\
\x20 machine.arrows.replaceChildren(svg(\"defs\", {}, arrowHead(\"head\", \"--now\", 12)));\n\
\x20 all(machine.stage, \".token\").forEach(token => token.remove());\n\
\x20 if (steps === 0 || !machine.stage.isConnected) {\n\
\x20   return;\n\
\x20 }\n\
\x20 const moves = movesOf(machine, steps);\n\
\x20 moves.forEach((move, i) => drawMove(machine, move, moves.length > 1 && i === 0, flies));\n\
}\n\
// The candidate execution as a picture: threads as columns in program order, and the initial writes above them.\n\
\n\
const GRAPH = { left: 50, height: 46, row: 92, lane: 20, initialHeight: 28 };\n\
\n\
// What an event does, as it is written in its box: `R x=0  W x=1`.\n\
function accessText(step) {\n\
\x20 const parts = [step.reads && \"R \" + assignment(step.reads), step.stores && \"W \" + assignment(step.stores)];\n\
\x20 return parts.filter(Boolean).join(\"  \");\n\
}\n\
\n\
class Graph {\n\
\x20 // Without `isWhole` it has the threads of the cycle alone, with program order and the edges of the cycle.\n\
\x20 constructor(run, isWhole) {\n\
\x20   this.run = run;\n\
\x20   this.events = run.steps.map((_, i) => i).filter(i => run.isAccess(i));\n\
\x20   const texts = this.events.flatMap(i => [run.text(i), accessText(run.steps[i])]);\n\
\x20   this.width = 20 + 7.6 * Math.max(0, ...texts.map(text => text.length));\n\
\x20   this.cycle = run.cycle();\n\
\x20   const inCycle = this.cycle.map(edge => run.threads[edge.from]);\n\
\x20   this.columns = given.threads.map((_, thread) => thread)\n\
\x20     .filter(thread => isWhole || inCycle.length === 0 || inCycle.includes(thread));\n\
\x20   this.edges = this.chosenEdges(isWhole);\n\
\x20   this.spots = new Map();\n\
\x20   this.placeEvents();\n\
\x20   this.placeInitialWrites();\n\
\x20   this.lanes = 0;\n\
\x20 }\n\
\n\
\x20 // The edges that are shown, those of the cycle last, so that they lie above the others.\n\
\x20 chosenEdges(isWhole) {\n\
\x20   const { execution } = this.run.run;\n\
\x20   const isRed = (relation, from, to) =>\n\
\x20     this.cycle.some(edge => edge.relation === relation && edge.from === from && edge.to === to);\n\
\x20   const edges = [\"po\", \"rf\", \"co\", \"fr\"].flatMap(relation => execution[relation].map(([from, to]) =>\n\
\x20     ({ relation, from, to, isRed: isRed(relation, from, to) })));\n\
\x20   const isShown = edge => isWhole || edge.isRed\n\
\x20     || edge.relation === \"po\" && this.columns.includes(this.run.threads[edge.from]);\n\
\x20   return edges.filter(isShown).sort((a, b) => a.isRed - b.isRed);\n\
\x20 }\n\
\n\
\x20 // Initial writes stand in a row at the top, if an edge leads from one.\n\
\x20 get initialLocations() {\n\
\x20   return given.locations.filter(location => this.edges.some(edge => edge.from === location));\n\
\x20 }\n\
\n\
\x20 placeEvents() {\n\
\x20   const top = this.initialLocations.length > 0 ? 104 : 34;\n\
\x20   const rows = given.threads.map(() => 0);\n\
\x20   for (const i of this.events) {\n\
\x20     const thread = this.run.threads[i];\n\
\x20     const column = this.columns.indexOf(thread);\n\
\x20     if (column >= 0) {\n\
\x20       const row = rows[thread]++;\n\
\x20       const x = GRAPH.left + column * (this.width + 90);\n\
\x20       this.spots.set(i, { thread, column, row, x, y: top + GRAPH.row * row });\n\
\x20     }\n\
\x20   }\n\
\x20   this.top = top;\n\
\x20   this.bottom = top + GRAPH.row * (Math.max(...rows) - 1) + GRAPH.height + 16;\n\
\x20   this.used = this.columns.filter(thread => rows[thread] > 0);\n\
\x20 }\n\
\n\
\x20 placeInitialWrites() {\n\
\x20   const locations = this.initialLocations;\n\
\x20   const texts = locations.map(location => 7.8 * `W ${initialText(location)}`.length + 20);\n\
\x20   this.initialWidth = Math.max(90, ...texts);\n\
\x20   const row = locations.length * (this.initialWidth + 14);\n\
\x20   this.wide = Math.max(2 * GRAPH.left + (this.width + 90) * (this.columns.length - 1) + this.width, row);\n\
\x20   locations.forEach((location, i) => {\n\
\x20     const x = (this.wide - row) / 2 + i * (this.initialWidth + 14) + 7;\n\
\x20     this.spots.set(location, { thread: -1, column: -1, row: -1, x, y: 10 });\n\
\x20   });\n\
\x20 }\n\
\n\
\x20 // The line of an edge, and where its relation is written.\n\
\x20 route({ relation, from, to }, i) {\n\
\x20   const a = this.spots.get(from);\n\
\x20   const b = this.spots.get(to);\n\
\x20   const shift = ((i % 3) - 1) * 8; // so that lines between the same boxes lie apart\n\
\x20   if (a.thread < 0) {\n\
\x20     return this.routeFromInitial(a, b, shift);\n\
\x20   }\n\
\x20   if (relation === \"po\") {\n\
\x20     const x = a.x + this.width / 2;\n\
\x20     return { path: `M${x},${a.y + GRAPH.height} L${x},${b.y}`, x: x + 14, y: (a.y + GRAPH.height + b.y) / 2 + 4 };\n\
\x20   }\n\
\x20   if (a.thread === b.thread) {\n\
\x20     return this.routeInThread(a, b);\n\
\x20   }\n\
\x20   return Math.abs(a.column - b.column) > 1 ? this.routeBelow(a, b, shift) : this.routeAcross(a, b, shift);\n\
\x20 }\n\
\n\
\x20 routeFromInitial(a, b, shift) {\n\
\x20   const x = a.x + this.initialWidth / 2;\n\
\x20   const y = a.y + GRAPH.initialHeight;\n\
\x20   if (b.row === 0) {\n\
\x20     const end = b.x + this.width / 2 + shift * 2;\n\
\x20     const path = `M${x},${y} C${x},${y + 42} ${end},${b.y - 34} ${end},${b.y}`;\n\
\x20     return { path, x: (x + 3 * end) / 4, y: (y + 3 * b.y) / 4 - 6 };\n\
\x20   }\n\
\x20   const isLeft = b.column < this.columns.length / 2;\n\
\x20   const end = isLeft ? b.x : b.x + this.width;\n\
\x20   const bow = isLeft ? -46 : 46;\n\
\x20   const height = b.y + GRAPH.height / 2 + shift;\n\
\x20   const path = `M${x},${y} C${x},${y + 42} ${end + bow},${height} ${end},${height}`;\n\
\x20   return { path, x: end + bow * 0.6, y: height - 9 };\n\
\x20 }\n\
\n\
\x20 routeInThread(a, b) {\n\
\x20   const bow = a.x - 26 - 9 * Math.abs(a.row - b.row);\n\
\x20   const from = a.y + GRAPH.height / 2 + 6;\n\
\x20   const to = b.y + GRAPH.height / 2 - 6;\n\
\x20   const path = `M${a.x},${from} C${bow},${from} ${bow},${to} ${a.x},${to}`;\n\
\x20   return { path, x: a.x + (bow - a.x) * 0.75, y: (from + to) / 2 };\n\
\x20 }\n\
\n\
\x20 routeAcross(a, b, shift) {\n\
\x20   const side = b.x > a.x ? 1 : -1;\n\
\x20   const [x1, x2] = this.sides(a, b);\n\
\x20   const y1 = a.y + GRAPH.height / 2 + shift;\n\
\x20   const y2 = b.y + GRAPH.height / 2 + shift;\n\
\x20   const path = `M${x1},${y1} C${x1 + 46 * side},${y1} ${x2 - 46 * side},${y2} ${x2},${y2}`;\n\
\x20   return { path, x: x1 + 24 * side, y: y1 + (y2 - y1) * 0.16 + 4 };\n\
\x20 }\n\
\n\
\x20 // Below all boxes, in a lane of its own, since other columns lie between.\n\
\x20 routeBelow(a, b, shift) {\n\
\x20   const side = b.x > a.x ? 1 : -1;\n\
\x20   const [x1, x2] = this.sides(a, b);\n\
\x20   const y = this.bottom + GRAPH.lane * this.lanes++;\n\
\x20   const out = (16 + 4 * this.lanes) * side;\n\
\x20   const y1 = a.y + GRAPH.height / 2 + shift;\n\
\x20   const y2 = b.y + GRAPH.height / 2 + shift;\n\
\x20   return { path: `M${x1},${y1} H${x1 + out} V${y} H${x2 - out} V${y2} H${x2}`, x: (x1 + x2) / 2, y: y + 4 };\n\
\x20 }\n\
\n\
\x20 sides(a, b) {\n\
\x20   return b.x > a.x ? [a.x + this.width, b.x] : [a.x, b.x + this.width];\n\
\x20 }\n\
\n\
\x20 drawEdge(edge, i) {\n\
\x20   const { path, x, y } = this.route(edge, i);\n\
\x20   const red = edge.isRed ? \" red\" : \"\";\n\
\x20   return {\n\
\x20     line: svg(\"path\", {\n\
\x20       d: path, class: \"edge\" + red, \"marker-end\": edge.isRed ? \"url(#red)\" : \"url(#grey)\",\n\
\x20       \"data-edge\": `${edge.relation} ${edge.from} ${edge.to}`,\n\
\x20     }),\n\
\x20     tag: svg(\"text\", { x, y, \"text-anchor\": \"middle\", class: \"tag\" + red }, edge.relation),\n\
\x20   };\n\
\x20 }\n\
\n\
\x20 // The missing fence, across the edge of program order that leads over its gap.\n\
\x20 drawGap() {\n\
\x20   const edge = this.edges.find(({ relation, from, to }) => relation === \"po\" && this.run.isAroundGap(from, to));\n\
\x20   if (!edge) {\n\
\x20     return [];\n\
\x20   }\n\
\x20   const { x, y: top } = this.spots.get(edge.from);\n\
\x20   const y = (top + GRAPH.height + this.spots.get(edge.to).y) / 2;\n\
\x20   return [\n\
\x20     svg(\"line\", { class: \"cut\", x1: x + 6, x2: x + this.width - 6, y1: y, y2: y }),\n\
\x20     svg(\"text\", { x: x + this.width / 2 - 8, y: y - 6, \"text-anchor\": \"end\", class: \"tag red\" }, \"no fence\"),\n\
\x20   ];\n\
\x20 }\n\
\n\
\x20 drawEvent(event, { x, y, thread }) {\n\
\x20   const middle = (width, height, text, weight) =>\n\
\x20     svg(\"text\", { x: x + width / 2, y: y + height, \"text-anchor\": \"middle\", \"font-weight\": weight }, text);\n\
\x20   if (thread < 0) {\n\
\x20     return svg(\"g\", { \"data-event\": event },\n\
\x20       svg(\"rect\", { class: \"node\", x, y, width: this.initialWidth, height: GRAPH.initialHeight, rx: 14 }),\n\
\x20       middle(this.initialWidth, 18, `W ${initialText(event)}`, null));\n\
\x20   }\n\
\x20   const inCycle = this.cycle.some(edge => edge.from === event);\n\
\x20   return svg(\"g\", { \"data-event\": event },\n\
\x20     svg(\"rect\", { class: inCycle ? \"node in\" : \"node\", x, y, width: this.width, height: GRAPH.height, rx: 6 }),\n\
\x20     middle(this.width, 19, this.run.text(event), null),\n\
\x20     middle(this.width, 37, accessText(this.run.steps[event]), 700));\n\
\x20 }\n\
\n\
\x20 draw() {\n\
\x20   const edges = this.edges.map((edge, i) => this.drawEdge(edge, i));\n\
\x20   const nodes = [...this.spots].map(([event, spot]) => this.drawEvent(event, spot));\n\
\x20   const heads = this.used.map(thread => {\n\
\x20     const x = GRAPH.left + this.columns.indexOf(thread) * (this.width + 90);\n\
\x20     return svg(\"text\", { x, y: this.top - 8, \"font-weight\": 700 }, threadName(thread));\n\
\x20   });\n\
\x20   const height = this.bottom + GRAPH.lane * this.lanes;\n\
\x20   const label = this.cycle.length > 0\n\
\x20     ? \"The candidate execution; its forbidden cycle is in words in the list beside it\"\n\
\x20     : \"The candidate execution, which has no forbidden cycle\";\n\
\x20   return svg(\"svg\", {\n\
\x20     role: \"img\", \"aria-label\": label, width: this.wide, height, viewBox: `0 0 ${this.wide} ${height}`,\n\
\x20     style: `min-width: ${Math.round(this.wide * 0.8)}px`,\n\
\x20   }, svg(\"defs\", {}, arrowHead(\"red\", \"--bad\", 11), arrowHead(\"grey\", \"--soft\", 11)),\n\
\x20   edges.map(edge => edge.line), this.drawGap(), nodes, edges.map(edge => edge.tag), heads);\n\
\x20 }\n\
}\n\
// The player: a run that a reader steps through, with what goes wrong in it, the machine, the table and the graph.\n\
\n\
const PLAY_INTERVAL = 1800;\n\
const ADDRESS_DELAY = 400;\n\
\n\
// What the table says of a step, a cell each. Where nothing waits there is no cell for it.\n\
function stepCells(run, i) {\n\
\x20 const { label, instruction, reads, stores, reaches, buffer } = run.steps[i];\n\
\x20 const source = reads && (reads.from === \"buffer\" ? \"its buffer\" : \"memory\");\n\
\x20 const jump = run.jumpLabel(i);\n\
\x20 const effects = [reads && `reads ${assignment(reads)} from ${source}`, stores && `stores ${assignment(stores)}`,\n\
\x20   jump && `jumps to ${jump}`];\n\
\x20 return [\n\
\x20   String(i + 1),\n\
\x20   label,\n\
\x20   threadName(run.threads[i]),\n\
\x20   instruction === null ? \"\xe2\x80\x93\" : run.text(i),\n\
\x20   effects.filter(Boolean).join(\", \") || \"\xe2\x80\x93\",\n\
\x20   ...run.isSequential ? [] : [buffer.map(assignment).join(\" \") || \"\xe2\x80\x93\"],\n\
\x20   reaches ? assignment(reaches) : \"\xe2\x80\x93\",\n\
\x20 ];\n\
}\n\
\n\
const tableHeads = run => [\"#\", \"step\", \"thread\", \"instruction\", \"what it does\", ...run.isSequential ? [] : [\"still waits\"],\n\
\x20 \"reaches memory\"];\n\
\n\
// A label, a thread and an instruction are not broken up to this length.\n\
const SHORT_CELL = 14;\n\
\n\
// What a place of the slider is: `step 5 of 12: P0 reads y=0`.\n\
const placeText = (run, steps) => steps === 0 ? \"start\"\n\
\x20 : `step ${steps} of ${run.last}: ${shortWords(run, steps - 1).map(part => part.textContent ?? part).join(\"\")}`;\n\
\n\
// A part of the page that a reader can scroll, also by keyboard.\n\
const region = (kind, label, ...children) =>\n\
\x20 html(\"section\", { class: `card scroll ${kind}`, role: \"region\", tabindex: 0, \"aria-label\": label }, children);\n\
\n\
class Player {\n\
\x20 constructor(run) {\n\
\x20   this.run = run;\n\
\x20   this.at = 0;\n\
\x20   this.timer = null;\n\
\x20   this.machine = new Machine(run);\n\
\x20   this.makeControls();\n\
\x20   this.rows = run.steps.map((_, i) => this.row(i));\n\
\x20   this.table = this.tableBox();\n\
\x20   this.holder = html(\"div\", { class: \"scroll\", role: \"region\", tabindex: 0, \"aria-label\": \"candidate execution\" });\n\
\x20   this.whole = html(\"input\", { type: \"checkbox\", on: { change: () => this.drawGraph() } });\n\
\x20   this.body = this.panel();\n\
\x20 }\n\
\n\
\x20 makeControls() {\n\
\x20   const button = (name, label, act) =>\n\
\x20     html(\"button\", { type: \"button\", \"aria-label\": name, on: { click: act } }, label);\n\
\x20   this.first = button(\"Start\", \"Start\", () => this.step(0));\n\
\x20   this.back = button(\"Back\", \"\xe2\x97\x80 Back\", () => this.step(this.at - 1));\n\
\x20   this.play = html(\"button\", { type: \"button\", on: { click: () => this.turnPlaying() } }, \"\xe2\x96\xb6 Play\");\n\
\x20   this.forward = button(\"Next\", \"Next \xe2\x96\xb6\", () => this.step(this.at + 1));\n\
\x20   this.final = button(\"End\", \"End\", () => this.step(this.run.last));\n\
\x20   this.slider = html(\"input\", {\n\
\x20     type: \"range\", id: \"step\", min: 0, max: this.run.last, value: 0, \"aria-label\": \"step of the run\",\n\
\x20     on: { input: () => this.step(Number(this.slider.value)), mousemove: event => this.hint(this.stepUnder(event)),\n\
\x20       mouseleave: () => this.hint(null) },\n\
\x20   });\n\
\x20   this.bubble = html(\"span\", { class: \"bubble\", \"aria-hidden\": \"true\", hidden: true });\n\
\x20   this.count = html(\"span\", { class: \"count soft\" });\n\
\x20   this.say = html(\"p\", { class: \"say\", \"aria-live\": \"polite\" });\n\
\x20 }\n\
\n\
\x20 // The step that the slider would go to from where the mouse is: its thumb is 16 pixels wide and stays inside.\n\
\x20 stepUnder({ offsetX }) {\n\
\x20   const share = (offsetX - 8) / (this.slider.clientWidth - 16);\n\
\x20   return Math.round(Math.max(0, Math.min(1, share)) * this.run.last);\n\
\x20 }\n\
\n\
\x20 // Says above the slider what a step is.\n\
\x20 hint(steps) {\n\
\x20   this.bubble.hidden = steps === null;\n\
\x20   if (steps !== null) {\n\
\x20     this.bubble.textContent = placeText(this.run, steps);\n\
\x20   }\n\
\x20 }\n\
\n\
\x20 // The parts in the order in which they are read. Where there is room, the machine fills the screen beside the texts.\n\
\x20 panel() {\n\
\x20   const buttons = [this.first, this.back, this.play, this.forward, this.final];\n\
\x20   const place = html(\"div\", { class: \"place\" }, html(\"div\", { class: \"track\" }, this.slider, this.ticks(), this.bubble), this.count);\n\
\x20   const bar = html(\"section\", { class: \"bar player\", \"aria-label\": \"player\" },\n\
\x20     html(\"div\", { class: \"controls\" }, buttons, place), this.say);\n\
\x20   this.view = html(\"div\", { class: \"card view\" }, bar, region(\"machine\", \"the machine\", this.machine.stage));\n\
\x20   const texts = html(\"div\", { class: \"texts\", role: \"region\", tabindex: 0, \"aria-label\": \"the run in words\" },\n\
\x20     this.momentBox(), this.table, this.graphBox());\n\
\x20   return html(\"div\", { class: \"panel\" }, texts, this.view);\n\
\x20 }\n\
\n\
\x20 // The moments that matter, in the order of their first steps.\n\
\x20 moments() {\n\
\x20   const { run } = this;\n\
\x20   const isCompared = run.gap !== null && !given.answer.condition;\n\
\x20   const words = isCompared ? conditionWords(run.run) : [];\n\
\x20   const end = { steps: [run.last], say: [\"The run ends with \", ...verdictWords(run), ...words] };\n\
\x20   return [...allMoments(run), end];\n\
\x20 }\n\
\n\
\x20 // Marks of the moments at the slider.\n\
\x20 ticks() {\n\
\x20   const steps = this.moments().slice(0, -1).flatMap(({ steps, isBad }) => steps.map(step => [step, isBad]));\n\
\x20   return html(\"div\", { class: \"ticks\", \"aria-hidden\": \"true\" }, steps.map(([step, isBad]) =>\n\
\x20     html(\"span\", { class: isBad ? \"tick bad\" : \"tick\", style: `--share: ${step / this.run.last}` })));\n\
\x20 }\n\
\n\
\x20 // The moments, each with buttons to its steps.\n\
\x20 momentBox() {\n\
\x20   const lines = this.moments().map(({ steps, isBad, say }) => html(\"li\", { class: isBad ? \"bad\" : \"\" },\n\
\x20     html(\"span\", { class: \"where\" }, steps.map(step => this.stepButton(step))), html(\"span\", {}, say)));\n\
\x20   const title = this.run.gap === null ? [\"How the run ends\"]\n\
\x20     : [`What goes wrong without the ${tieOf(this.run.gap).length === 1 ? \"fence\" : \"fences\"} before `,\n\
\x20       ...listed(tieOf(this.run.gap).map(gap => html(\"span\", {}, ...placeOf(gap))))];\n\
\x20   return region(\"wrong\", \"what goes wrong\", html(\"h2\", {}, title), html(\"ol\", { class: \"moments\" }, lines), this.otherGaps());\n\
\x20 }\n\
\n\
\x20 stepButton(step) {\n\
\x20   return html(\"button\", { type: \"button\", \"data-step\": step, on: { click: () => this.step(step) } }, `step ${step}`);\n\
\x20 }\n\
\n\
\x20 // The other gaps that the run passes: a fence in one of them serves too, against this run.\n\
\x20 otherGaps() {\n\
\x20   const leftOut = this.run.gap === null ? [] : tieOf(this.run.gap);\n\
\x20   const others = this.run.run.passed.filter(gap => !leftOut.includes(gap));\n\
\x20   if (this.run.isSequential) {\n\
\x20     return \"\";\n\
\x20   }\n\
\x20   if (this.run.gap === null) {\n\
\x20     const passed = others.length > 0 ? `It passes ${others.join(\", \")}.` : \"It passes no gap.\";\n\
\x20     return html(\"p\", { class: \"soft note passed\" }, passed,\n\
\x20       \" A run passes a gap where its thread goes on with a store waiting; a fence there prevents the run.\");\n\
\x20   }\n\
\x20   const places = others.map(gap => html(\"span\", {}, \"before \", ...placeOf(gap, `, cost ${gapCost(gap)}`)));\n\
\x20   return places.length === 0 ? \"\"\n\
\x20     : html(\"p\", { class: \"soft note also\" }, \"A fence \", ...listed(places, \" or \"), \" would prevent this run too.\");\n\
\x20 }\n\
\n\
\x20 row(i) {\n\
\x20   const cells = stepCells(this.run, i).map((text, column) =>\n\
\x20     html(\"td\", { class: column < 4 && text.length <= SHORT_CELL ? \"word\" : \"\" }, text));\n\
\x20   if (i === this.run.pass) {\n\
\x20     cells[cells.length - 1].append(html(\"small\", { class: \"out\" }, ` \xe2\x86\x90 ${this.run.gap}`));\n\
\x20   }\n\
\x20   return html(\"tr\", { class: i === this.run.pass ? \"pass\" : \"\", on: { click: () => this.step(i + 1) } }, cells);\n\
\x20 }\n\
\n\
\x20 tableBox() {\n\
\x20   const heads = tableHeads(this.run).map(text => html(\"th\", { scope: \"col\" }, text));\n\
\x20   const model = this.run.run.model === \"sequential\" ? \"--model sequential \" : \"\";\n\
\x20   const text = `fencer trace ${model}LITMUS ${this.run.steps.map(step => step.label).join(\" \")}`;\n\
\x20   return region(\"table\", \"the run as a table\",\n\
\x20     html(\"table\", {}, html(\"caption\", {}, \"The run, step by step\"), html(\"thead\", {}, html(\"tr\", {}, heads)),\n\
\x20       html(\"tbody\", {}, this.rows)),\n\
\x20     html(\"p\", { class: \"soft note\" }, \"e0: P0 executes its next instruction. \",\n\
\x20       this.run.isSequential ? \"\" : \"f0: the oldest store of P0's buffer reaches memory. \",\n\
\x20       this.run.gap === null ? \"\" : `\xe2\x86\x90 ${this.run.gap}: here the run passes the gap whose fence is left out. `,\n\
\x20       \"This command shows the same run, with your file as LITMUS: \", html(\"span\", { class: \"command\" }, command(text))));\n\
\x20 }\n\
\n\
\x20 graphBox() {\n\
\x20   const title = this.run.gap === null ? \"The candidate execution\" : \"Why no sequential run does this\";\n\
\x20   return region(\"graph\", \"the candidate execution in words\", html(\"h2\", {}, title),\n\
\x20     html(\"div\", { class: \"split\" }, this.holder, html(\"div\", {}, this.cycleBox(),\n\
\x20       html(\"p\", { class: \"soft\" }, \"po: program order. rf: a read reads from this write. co: the order in which \",\n\
\x20         \"stores reach memory. fr: a read comes before the write that replaces what it read.\"),\n\
\x20       html(\"label\", { class: \"pick\" }, this.whole, \" show every thread, edge and initial value\"))));\n\
\x20 }\n\
\n\
\x20 cycleBox() {\n\
\x20   const sentences = cycleWords(this.run);\n\
\x20   if (sentences.length === 0) {\n\
\x20     return [html(\"p\", { class: \"acyclic\" }, \"There is no cycle: some sequential run has the same reads and writes.\")];\n\
\x20   }\n\
\x20   const close = this.run.gap === null\n\
\x20     ? \"sequential run has these reads and writes. Another sequential run may still have the same outcome.\"\n\
\x20     : \"sequential run has these reads and writes. fencer also checked that no other sequential run has this outcome.\";\n\
\x20   const isOver = this.run.gap === null || this.run.cycle().some(({ from, to }) => this.run.isAroundGap(from, to));\n\
\x20   return [\n\
\x20     html(\"p\", {}, \"Suppose that the accesses took effect one after the other, each thread's in program order. Then:\"),\n\
\x20     html(\"ol\", { class: \"cycle\" }, sentences),\n\
\x20     html(\"p\", {}, \"So the first access would come before itself, which is impossible: no \", close),\n\
\x20     isOver ? \"\" : html(\"p\", { class: \"aside\" },\n\
\x20       \"This cycle does not lead over the fence that is left out, but over other gaps that the run passes.\"),\n\
\x20   ];\n\
\x20 }\n\
\n\
\x20 drawGraph() {\n\
\x20   this.holder.replaceChildren(new Graph(this.run, this.whole.checked).draw());\n\
\x20   this.markEvent();\n\
\x20 }\n\
\n\
\x20 markEvent() {\n\
\x20   for (const event of all(this.holder, \"[data-event]\")) {\n\
\x20     event.firstChild.classList.toggle(\"here\", event.dataset.event === String(this.at - 1));\n\
\x20   }\n\
\x20 }\n\
\n\
\x20 // Called once the body is on the page.\n\
\x20 start(steps) {\n\
\x20   this.drawGraph();\n\
\x20   this.show(steps);\n\
\x20   const redraw = () => drawArrows(this.machine, this.at, false);\n\
\x20   const resize = () => {\n\
\x20     this.machine.fit();\n\
\x20     this.machine.follow(this.at);\n\
\x20     redraw();\n\
\x20   };\n\
\x20   new ResizeObserver(resize).observe(this.machine.stage);\n\
\x20   all(this.machine.stage, \".threads, .code\").forEach(box => box.addEventListener(\"scroll\", redraw));\n\
\x20 }\n\
\n\
\x20 // Goes to a step that a reader asks for, with the machine in sight.\n\
\x20 step(steps) {\n\
\x20   this.stop();\n\
\x20   this.show(steps);\n\
\x20   this.view.scrollIntoView({ block: \"nearest\" });\n\
\x20 }\n\
\n\
\x20 stop() {\n\
\x20   clearInterval(this.timer);\n\
\x20   this.timer = null;\n\
\x20   this.play.textContent = \"\xe2\x96\xb6 Play\";\n\
\x20 }\n\
\n\
\x20 turnPlaying() {\n\
\x20   if (this.timer !== null) {\n\
\x20     return this.stop();\n\
\x20   }\n\
\x20   if (this.at === this.run.last) {\n\
\x20     this.show(0);\n\
\x20   }\n\
\x20   this.play.textContent = \"\xe2\x8f\xb8 Pause\";\n\
\x20   this.timer = setInterval(() => this.at < this.run.last ? this.show(this.at + 1) : this.stop(), PLAY_INTERVAL);\n\
\x20   return undefined;\n\
\x20 }\n\
\n\
\x20 // Shows the state after some steps.\n\
\x20 show(steps) {\n\
\x20   const target = Math.max(0, Math.min(this.run.last, steps));\n\
\x20   const flies = target === this.at + 1;\n\
\x20   this.at = target;\n\
\x20   this.showControls();\n\
\x20   this.machine.show(target);\n\
\x20   this.showRows();\n\
\x20   for (const button of all(this.body, \".moments button\")) {\n\
\x20     mark(button, Number(button.dataset.step) === target);\n\
\x20   }\n\
\x20   this.markEvent();\n\
\x20   drawArrows(this.machine, target, flies);\n\
\x20   addressLater(this.run.gap, target);\n\
\x20 }\n\
\n\
\x20 showControls() {\n\
\x20   const { at, run: { last } } = this;\n\
\x20   this.slider.value = at;\n\
\x20   this.slider.setAttribute(\"aria-valuetext\", placeText(this.run, at));\n\
\x20   this.count.textContent = at > 0 ? `Step ${at} of ${last}` : \"Start\";\n\
\x20   const look = this.run.gap === null ? \"\" : \"verdict\";\n\
\x20   const end = at === last ? [html(\"span\", { class: look }, \" The outcome is \"), ...verdictWords(this.run)] : [];\n\
\x20   this.say.replaceChildren(...stepWords(this.run, at), ...end);\n\
\x20   // A button that is disabled would lose the focus, and with it the keyboard.\n\
\x20   for (const [button, limit] of [[this.first, 0], [this.back, 0], [this.forward, last], [this.final, last]]) {\n\
\x20     button.setAttribute(\"aria-disabled\", at === limit);\n\
\x20   }\n\
\x20 }\n\
\n\
\x20 showRows() {\n\
\x20   this.rows.forEach((row, i) => {\n\
\x20     mark(row, i === this.at - 1);\n\
\x20     row.classList.toggle(\"later\", i >= this.at);\n\
\x20   });\n\
\x20   const row = this.rows[this.at - 1];\n\
\x20   const { scrollTop, clientHeight } = this.table;\n\
\x20   if (row && (row.offsetTop < scrollTop + 40 || row.offsetTop > scrollTop + clientHeight - 60)) {\n\
\x20     this.table.scrollTop = row.offsetTop - clientHeight / 2;\n\
\x20   }\n\
\x20 }\n\
}\n\
\n\
let addressTimer = null;\n\
\n\
// The page's address names the fence and the step, once stepping rests: browsers ration changes of it.\n\
function addressLater(gap, steps) {\n\
\x20 clearTimeout(addressTimer);\n\
\x20 addressTimer = setTimeout(() => history.replaceState(null, \"\", `#${gap ?? \"run\"}/${steps}`), ADDRESS_DELAY);\n\
}\n\
// The page: what the answer is, and a player for each of its fences, or for the one run of a trace or a witness.\n\
\n\
const main = document.getElementById(\"page\");\n\
\n\
const introduction = [\n\
\x20 \"On x86 a store first waits in its thread's store buffer. Until it reaches memory no other thread sees it, and the \",\n\
\x20 \"thread's later loads do not wait for it. An MFENCE makes its thread wait until the buffer is empty.\",\n\
];\n\
\n\
// What the outcomes are compared by.\n\
function comparedWords() {\n\
\x20 if (given.answer.condition) {\n\
\x20   return \", as far as the file's condition tells them apart\";\n\
\x20 }\n\
\x20 return given.answer.observed\n\
\x20   ? \" in the registers and locations that the file's condition and its locations line name\" : \"\";\n\
}\n\
\n\
// How many fences a thread gets: `2 in P0`.\n\
function fencesByThread(gaps) {\n\
\x20 const counts = given.threads.map((_, thread) => gaps.filter(gap => gapPlace(gap)[0] === thread).length);\n\
\x20 return counts.map((count, thread) => count > 0 ? `${count} in ${threadName(thread)}` : \"\").filter(Boolean);\n\
}\n\
\n\
// The answer in a sentence.\n\
function answerWords(gaps) {\n\
\x20 const isOne = gaps.length === 1;\n\
\x20 const places = gaps.length <= 3 ? listed(gaps.map(gap => html(\"span\", {}, \"before \", ...placeOf(gap))))\n\
\x20   : listed(fencesByThread(gaps));\n\
\x20 const fences = isOne ? \"an MFENCE \" : gaps.length <= 3 ? \"MFENCE \" : `${gaps.length} MFENCEs, `;\n\
\x20 const cost = `${isOne ? \"It costs\" : \"Together they cost\"} ${given.answer.cost}`;\n\
\x20 return [\"A cheapest set of fences: \", fences, ...places, `. ${cost}; no cheaper set is enough.`];\n\
}\n\
\n\
// How many fences, or with ties how many lines, the answer has: each has a run.\n\
function countWords(gaps) {\n\
\x20 const some = given.runs.length;\n\
\x20 if (given.ties) {\n\
\x20   return `${some === 1 ? \"one fenced line\" : `${some} fenced lines`} (${gaps.length} MFENCEs)`;\n\
\x20 }\n\
\x20 return some === 1 ? \"a fence\" : `${some} fences`;\n\
}\n\
\n\
// What a page is about, folded where it has a run to show.\n\
const about = (isOpen, ...says) => html(\"details\", { class: \"about soft\", open: isOpen },\n\
\x20 html(\"summary\", {}, \"What this is about, and how to read it\"), says);\n\
\n\
const howToRead = [\n\
\x20 \"Next, the Left and Right keys and the slider step through the run; Space plays it. An arrow shows what a step moves; what \",\n\
\x20 \"it changes is outlined, with the former value struck out. Executed instructions are grey, those that were jumped over are \",\n\
\x20 \"struck out. Instructions are numbered from 0 in each thread, so that gap 0:7 lies before instruction 7 of P0. A line is \",\n\
\x20 \"one of your file; \",\n\
];\n\
\n\
const gapsCommand = [command(\"fencer gaps LITMUS\"), \" lists all gaps with their lines.\"];\n\
\n\
// The program alone, with its condition.\n\
const programBox = () =>\n\
\x20 region(\"program\", \"the program\", html(\"h2\", {}, \"The program\"), threadColumns(null),\n\
\x20   html(\"p\", { class: \"note\" }, \"The file's condition: \", code(given.condition)));\n\
\n\
function showNoFence() {\n\
\x20 const heading = hasNote(\"no_fence_mends\") ? `${given.test} is wrong without store buffers too: no fence mends it`\n\
\x20   : `${given.test} needs no fence`;\n\
\x20 document.title = heading;\n\
\x20 main.replaceChildren(\n\
\x20   html(\"h1\", {}, heading),\n\
\x20   noteBox(),\n\
\x20   html(\"p\", { class: \"lead\" }, `Every outcome is sequential${comparedWords()}: store buffers show nothing here that `\n\
\x20     + \"would not happen if each instruction took effect at once.\"),\n\
\x20   about(true, html(\"p\", {}, introduction)),\n\
\x20   programBox());\n\
}\n\
\n\
function showAnswer(gaps) {\n\
\x20 const isOne = gaps.length === 1;\n\
\x20 document.title = `${given.test}: why ${isOne ? \"a fence is\" : \"fences are\"} needed`;\n\
\x20 main.replaceChildren(html(\"header\", {},\n\
\x20   html(\"h1\", {}, `Why ${given.test} needs ${countWords(gaps)}`),\n\
\x20   html(\"p\", { class: \"lead\" }, answerWords(gaps)),\n\
\x20   noteBox(),\n\
\x20   about(false,\n\
\x20     html(\"p\", {}, introduction, \" In a sequential run there are no store buffers: each instruction \",\n\
\x20       `takes effect at once. With ${isOne ? \"this fence\" : \"these fences\"} the program has exactly the outcomes of its `,\n\
\x20       `sequential runs${comparedWords()}.`),\n\
\x20     html(\"p\", {}, howToRead, gapsCommand))));\n\
\x20 showRuns(given.runs.map(run => new Run(run)));\n\
}\n\
\n\
// Tabs, one for each fence, over the player of its run.\n\
function showRuns(runs) {\n\
\x20 const panel = html(\"div\", { role: \"tabpanel\", id: \"panel\", \"aria-labelledby\": \"tab0\" });\n\
\x20 const tabs = runs.map(({ gap }, i) => html(\"button\", {\n\
\x20   type: \"button\", role: \"tab\", id: \"tab\" + i, \"aria-controls\": \"panel\",\n\
\x20   \"aria-label\": `without the fence before ${tieOf(gap).map(own => placeOf(own).map(part => part.textContent ?? part).join(\"\")).join(\" and \")}`,\n\
\x20   on: { click: () => pick(i, 0), keydown: event => pickByKey(event, i) },\n\
\x20 }, tieOf(gap).map(own => `${threadName(gapPlace(own)[0])} ${own}`).join(\", \")));\n\
\x20 let player = null;\n\
\n\
\x20 function pick(chosen, steps) {\n\
\x20   if (player !== null) {\n\
\x20     player.stop();\n\
\x20   }\n\
\x20   tabs.forEach((tab, i) => {\n\
\x20     tab.setAttribute(\"aria-selected\", i === chosen);\n\
\x20     tab.tabIndex = i === chosen ? 0 : -1;\n\
\x20   });\n\
\x20   panel.setAttribute(\"aria-labelledby\", \"tab\" + chosen);\n\
\x20   player = new Player(runs[chosen]);\n\
\x20   panel.replaceChildren(player.body);\n\
\x20   player.start(steps);\n\
\x20 }\n\
\n\
\x20 function pickByKey(event, i) {\n\
\x20   const target = { ArrowRight: i + 1, ArrowLeft: i - 1, Home: 0, End: tabs.length - 1 }[event.key];\n\
\x20   if (target !== undefined) {\n\
\x20     event.preventDefault();\n\
\x20     event.stopPropagation();\n\
\x20     const chosen = (target + tabs.length) % tabs.length;\n\
\x20     pick(chosen, 0);\n\
\x20     tabs[chosen].focus();\n\
\x20   }\n\
\x20 }\n\
\n\
\x20 main.classList.add(isBeside() ? \"framed\" : \"stacked\");\n\
\x20 main.append(html(\"div\", { class: \"choice\" }, html(\"span\", {}, \"Leave out\"),\n\
\x20   html(\"div\", { role: \"tablist\", \"aria-label\": \"the fences of the answer\" }, tabs),\n\
\x20   html(\"span\", {}, \"and a run becomes possible whose outcome no sequential run has.\")), panel);\n\
\x20 const [gap, steps] = address();\n\
\x20 const named = runs.findIndex(run => run.gap === gap);\n\
\x20 pick(Math.max(0, named), named < 0 ? 0 : steps);\n\
\x20 listenToKeys(() => player);\n\
}\n\
\n\
// One run alone, under a heading and what is said of it.\n\
function showOneRun(heading, lead) {\n\
\x20 const player = new Player(new Run(given.run));\n\
\x20 document.title = `${given.test}: a run`;\n\
\x20 main.classList.add(isBeside() ? \"framed\" : \"stacked\");\n\
\x20 main.replaceChildren(html(\"header\", {},\n\
\x20   html(\"h1\", {}, heading),\n\
\x20   html(\"p\", { class: \"lead\" }, lead),\n\
\x20   noteBox(),\n\
\x20   about(false, given.run.model === \"buffered\" ? html(\"p\", {}, introduction) : \"\", html(\"p\", {}, howToRead, gapsCommand))),\n\
\x20   player.body);\n\
\x20 player.start(address()[1]);\n\
\x20 listenToKeys(() => player);\n\
}\n\
\n\
// The one run of `fencer trace`.\n\
function showTrace() {\n\
\x20 showOneRun(`A run of ${given.test}`, given.run.model === \"buffered\" ? \"A run on the machine with store buffers.\"\n\
\x20   : \"A sequential run: each instruction takes effect at once.\");\n\
}\n\
\n\
// The machine of `fencer witness`, with the fences.\n\
function machineWords() {\n\
\x20 const machine = given.model === \"buffered\" ? \"on the machine with store buffers\" : \"on the sequential machine\";\n\
\x20 const fences = fencedGaps().map(gap => html(\"span\", {}, \"before \", ...placeOf(gap)));\n\
\x20 return fences.length === 0 ? [machine] : [machine, \", with MFENCE \", ...listed(fences)];\n\
}\n\
\n\
// What a run of `fencer witness` says of what the file's condition is about, or that there is no such run.\n\
function soughtHeading() {\n\
\x20 const { test, meets_condition: meets, run } = given;\n\
\x20 if (run !== null) {\n\
\x20   return `${subjectText()} ${happens(meets)} in a run of ${test}`;\n\
\x20 }\n\
\x20 return meets ? `${subjectText()} never ${happens(true)} in ${test}` : `${subjectText()} ${happens(true)} in every run of ${test}`;\n\
}\n\
\n\
// Whether the file's condition holds of the machine, where one run, or that there is none, decides that.\n\
function soughtVerdict() {\n\
\x20 const isSome = (given.run !== null) === given.meets_condition;\n\
\x20 const isDecided = given.run !== null ? given.meets_condition !== (quantifier() === \"forall\") : true;\n\
\x20 const holds = quantifier() === \"~exists\" ? !isSome : isSome;\n\
\x20 return isDecided ? [\" So the condition \", code(given.condition), holds ? \" holds there.\" : \" fails there.\"] : [];\n\
}\n\
\n\
// The run of `fencer witness`, or that there is none.\n\
function showWitness() {\n\
\x20 const heading = soughtHeading();\n\
\x20 if (given.run !== null) {\n\
\x20   const leaves = given.meets_condition ? \"leaves \" : \"does not leave \";\n\
\x20   return showOneRun(heading, [\"A run \", ...machineWords(), `, which ${leaves}`, code(formulaText()), \".\", ...soughtVerdict()]);\n\
\x20 }\n\
\x20 const says = given.meets_condition ? \"No run \" : \"Each run \";\n\
\x20 document.title = heading;\n\
\x20 main.replaceChildren(\n\
\x20   html(\"h1\", {}, heading),\n\
\x20   noteBox(),\n\
\x20   html(\"p\", { class: \"lead\" }, says, ...machineWords(), \" leaves \", code(formulaText()), \".\", ...soughtVerdict()),\n\
\x20   about(true, given.model === \"buffered\" ? html(\"p\", {}, introduction) : \"\"),\n\
\x20   programBox());\n\
}\n\
\n\
// The gap and the step that the page's address names.\n\
function address() {\n\
\x20 const [gap, steps] = location.hash.slice(1).split(\"/\");\n\
\x20 return [gap, Number(steps) || 0];\n\
}\n\
\n\
// Whether an element has a use of its own for a key.\n\
function hasOwnUse(element, key) {\n\
\x20 if (key === \" \") {\n\
\x20   return element.matches(\"button:not([role=tab]), summary, input[type=checkbox]\");\n\
\x20 }\n\
\x20 const isScrolled = element.matches(\".scroll\") && element.scrollWidth > element.clientWidth;\n\
\x20 return isScrolled || element.matches(\"input[type=range], [role=tab]\");\n\
}\n\
\n\
// Steps by Left and Right anywhere, and by Home and End in the player, and plays by Space, but not where the focused\n\
// element has a use of its own for them.\n\
function listenToKeys(player) {\n\
\x20 document.addEventListener(\"keydown\", event => {\n\
\x20   if (event.altKey || event.ctrlKey || event.metaKey || hasOwnUse(event.target, event.key)) {\n\
\x20     return;\n\
\x20   }\n\
\x20   const { at, run: { last } } = player();\n\
\x20   const inPlayer = event.target.closest(\".player, .moments\") !== null;\n\
\x20   const targets = { ArrowRight: at + 1, ArrowLeft: at - 1, ...(inPlayer ? { Home: 0, End: last } : {}) };\n\
\x20   const target = targets[event.key];\n\
\x20   if (event.key === \" \") {\n\
\x20     event.preventDefault();\n\
\x20     player().turnPlaying();\n\
\x20   } else if (target !== undefined) {\n\
\x20     event.preventDefault();\n\
\x20     player().step(target);\n\
\x20   }\n\
\x20 });\n\
\x20 // Some browsers press a button when Space is let go.\n\
\x20 document.addEventListener(\"keyup\", event => {\n\
\x20   if (event.key === \" \" && !hasOwnUse(event.target, \" \")) {\n\
\x20     event.preventDefault();\n\
\x20   }\n\
\x20 });\n\
}\n\
\n\
function show() {\n\
\x20 if (given.format !== \"fencer 1\" || ![\"why\", \"trace\", \"witness\"].includes(given.command)) {\n\
\x20   main.replaceChildren(html(\"p\", {}, \"This page shows documents of fencer why, trace and witness, format 1.\"));\n\
\x20 } else if (given.command === \"trace\") {\n\
\x20   showTrace();\n\
\x20 } else if (given.command === \"witness\") {\n\
\x20   showWitness();\n\
\x20 } else if (given.answer.set.length > 0) {\n\
\x20   showAnswer(given.answer.set);\n\
\x20 } else {\n\
\x20   showNoFence();\n\
\x20 }\n\
}\n\
\n\
show();\n\
</script>\n\
</body>\n\
</html>\n\
";
