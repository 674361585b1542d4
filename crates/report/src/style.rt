// How a page looks, on a light ground and on a dark one.
pub const STYLE: &str = "\
:root{color-scheme:light dark;--paper:#fbfaf7;--card:#ffffff;--ink:#1c2228;--soft:#55606b;--line:#d3d8dd;--good:#1d6b3c;--bad:#a3211b;--charge:#0b5f8a;--band:#bcdcee;--room:#e6eaee;\
--t1:#dbe8fd;--t2:#fdeac6;--t3:#d8f0de;--t4:#e9defa;--t5:#fadfe4;--t6:#d2efee;--e1:#2a5bc4;--e2:#9a6400;--e3:#1d6b3c;--e4:#6d3cbf;--e5:#b02a4c;--e6:#0c6b68}
@media(prefers-color-scheme:dark){:root{--paper:#14181c;--card:#1b2025;--ink:#e7eaed;--soft:#a7b1bb;--line:#3a424a;--good:#7ed19b;--bad:#ff9a91;--charge:#7cc4ec;--band:#1f4a63;--room:#2d343b;\
--t1:#1d3150;--t2:#46350f;--t3:#173b24;--t4:#362554;--t5:#4b1e2a;--t6:#113e3d;--e1:#8fb4ff;--e2:#f0b94e;--e3:#7ed19b;--e4:#c3a2ff;--e5:#ff9db3;--e6:#6fd5d0}}
*{box-sizing:border-box}
body{margin:0;background:var(--paper);color:var(--ink);font:16px/1.5 system-ui,sans-serif}
main{max-width:66rem;margin:0 auto;padding:1.5rem 1rem 4rem}
h1{font-size:1.7rem;line-height:1.25;margin:0 0 .75rem;overflow-wrap:anywhere}
h2{font-size:1.25rem;margin:2.5rem 0 .5rem}
p{max-width:46rem;margin:.5rem 0}
a{color:var(--charge)}
nav ul{list-style:none;padding:0;margin:.75rem 0;display:flex;flex-wrap:wrap;gap:.25rem 1.25rem}
.verdict{border-left:.4rem solid;padding:.5rem .9rem;background:var(--card)}
.verdict.good{border-color:var(--good)}.verdict.bad{border-color:var(--bad);border-left-style:double}
.good strong{color:var(--good)}.bad strong,.over strong,.here{color:var(--bad)}
.wide{overflow-x:auto;margin:.75rem 0}
table{border-collapse:collapse;background:var(--card);font-size:.94rem}
caption{text-align:left;color:var(--soft);padding:.25rem 0}
th,td{border-bottom:1px solid var(--line);padding:.28rem .7rem;text-align:left;vertical-align:top;overflow-wrap:anywhere}
thead th{color:var(--soft);font-weight:600;white-space:nowrap}
tbody th{font-weight:600}
.n{text-align:right;font-variant-numeric:tabular-nums;white-space:nowrap}
code{font:.88em ui-monospace,Menlo,Consolas,monospace;white-space:nowrap}
.region{white-space:nowrap;border-left:.4rem solid transparent}
.t1{background:var(--t1);border-left:.4rem solid var(--e1)}.t2{background:var(--t2);border-left:.4rem dashed var(--e2)}.t3{background:var(--t3);border-left:.4rem double var(--e3)}\
.t4{background:var(--t4);border-left:.4rem dotted var(--e4)}.t5{background:var(--t5);border-left:.4rem ridge var(--e5)}.t6{background:var(--t6);border-left:.4rem groove var(--e6)}
tr.over td,tr.over th{background:repeating-linear-gradient(45deg,transparent 0 6px,color-mix(in srgb,var(--bad) 12%,transparent) 6px 9px)}
svg text{fill:var(--ink);font:14px system-ui,sans-serif}
svg.bar{display:block;width:26rem;max-width:100%;height:1.3rem}
.bars{min-width:18rem}.fits{font-size:.88rem}
.room{fill:var(--room)}.paid{fill:var(--charge)}.limit{stroke:var(--ink);stroke-width:2;fill:none}
.unpaid{fill:url(#hatch);stroke:var(--bad)}.hatch{stroke:var(--bad);stroke-width:3}
svg.run{display:block;width:100%;min-width:44rem;background:var(--card);border:1px solid var(--line)}
.charge{fill:var(--band);stroke:var(--charge);stroke-width:1.5;stroke-linejoin:round}
.axis{fill:none;stroke:var(--soft)}.full{fill:none;stroke:var(--ink);stroke-dasharray:7 5}
.save{fill:var(--good)}.fall{fill:var(--bad)}.cut{fill:none;stroke:var(--ink);stroke-width:2.5}.hover{fill:transparent}
.hidden{position:absolute;width:0;height:0}
@media print{nav{display:none}.wide{overflow:visible}}
";

// The pattern of what is over budget, which the bars name.
pub const PATTERNS: &str =
    "<svg class=\"hidden\" aria-hidden=\"true\"><defs><pattern id=\"hatch\" width=\"6\" height=\"6\" patternUnits=\"userSpaceOnUse\" patternTransform=\"rotate(45)\"><path class=\"hatch\" d=\"M0,0V6\"/></pattern></defs></svg>\n";
