// The style sheet: one column on a narrow screen, in light and in dark.

// Below 40 rem each row of a table is a block, in which each cell has its heading before it.
pub(crate) const STYLE: &[u8] = b"\
:root{color-scheme:light dark;--ink:#1a1c1e;--paper:#fff;--line:#c4c7cc;--soft:#f1f3f5;--link:#0b57d0;--good:#0a6b2d;--bad:#a3160b}\n\
@media(prefers-color-scheme:dark){:root{--ink:#e6e7e9;--paper:#15171a;--line:#43474d;--soft:#22252a;--link:#8ab4f8;--good:#7ddc9a;--bad:#ff9d8f}}\n\
*{box-sizing:border-box}\n\
body{margin:0 auto;max-width:75rem;padding:0 1rem 2rem;font:1rem/1.5 system-ui,sans-serif;color:var(--ink);background:var(--paper)}\n\
h1{font-size:1.6rem;margin:1rem 0 .5rem}\n\
h2{font-size:1.2rem;margin:1.5rem 0 .5rem}\n\
header{border-bottom:1px solid var(--line)}\n\
header p{margin:1rem 0 .25rem;font-weight:600}\n\
footer{margin-top:2rem;border-top:1px solid var(--line)}\n\
dl{margin:0}\n\
dl div{display:flex;gap:1rem;border-bottom:1px solid var(--line);padding:.25rem 0}\n\
dt{flex:0 0 16rem}\n\
dd{margin:0;flex:1;overflow-wrap:anywhere}\n\
dd,td,th,li,.found{unicode-bidi:isolate}\n\
.good{color:var(--good)}\n\
.bad{color:var(--bad)}\n\
.found{background:var(--soft);padding:.5rem .75rem;overflow-wrap:anywhere}\n\
.log{list-style:none;margin:0;padding:0;font:.85rem/1.5 ui-monospace,monospace}\n\
.log li{border-bottom:1px solid var(--line);white-space:pre-wrap;overflow-wrap:anywhere}\n\
a{color:var(--link)}\n\
nav{display:flex;flex-wrap:wrap;gap:.25rem 1rem;padding:.25rem 0 .75rem}\n\
nav a{padding:.25rem 0}\n\
nav a[aria-current]{color:var(--ink);font-weight:600}\n\
:focus-visible{outline:3px solid var(--link);outline-offset:2px}\n\
.skip{position:absolute;left:-100rem}\n\
.skip:focus{left:1rem;top:.5rem;background:var(--paper);padding:.5rem}\n\
form{display:flex;flex-wrap:wrap;gap:.5rem;align-items:center;margin:1rem 0}\n\
label{flex:1 0 100%}\n\
input{flex:1 1 16rem;min-width:0}\n\
input,button{font:inherit;padding:.4rem .6rem;color:inherit;background:var(--paper);border:1px solid var(--ink);border-radius:.25rem}\n\
table{border-collapse:collapse;width:100%}\n\
th,td{text-align:left;vertical-align:top;padding:.35rem .75rem .35rem 0;border-bottom:1px solid var(--line);overflow-wrap:anywhere}\n\
thead th{font-weight:600;background:var(--soft)}\n\
tbody th{font-weight:600}\n\
@media(max-width:40rem){thead{position:absolute;left:-100rem}table,tbody,tr,th,td{display:block}tr{border-bottom:2px solid var(--line);padding:.25rem 0}th,td{border:0;padding:.1rem 0}\n\
td::before{content:attr(data-label) \": \";font-weight:600}td:empty{display:none}dl div{display:block}dt{font-weight:600}}\n";
