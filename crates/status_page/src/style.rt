//! The style sheet of the page for people.

/// It suits telephones and wide screens, by day and by night.
pub(crate) const STYLE: &str = "\
:root{color-scheme:light dark;--back:#f4f6f9;--card:#fff;--text:#1b2430;--soft:#667085;\
--line:#e4e8ee;--accent:#2563eb;--good:#16a34a;--warn:#d97706;--bad:#dc2626}\
@media(prefers-color-scheme:dark){:root{--back:#0f141b;--card:#18202a;--text:#e6ebf2;\
--soft:#93a0b3;--line:#293342;--accent:#60a5fa;--good:#4ade80;--warn:#fbbf24;--bad:#f87171}}\
*{box-sizing:border-box}\
body{margin:0;background:var(--back);color:var(--text);\
font:15px/1.5 system-ui,-apple-system,'Segoe UI',Roboto,sans-serif;\
font-variant-numeric:tabular-nums}\
header,main,footer{max-width:1160px;margin:0 auto;padding:0 16px}\
header{padding-top:28px;padding-bottom:8px}\
h1{margin:0;font-size:26px;line-height:1.25;overflow-wrap:anywhere}\
h1 small{display:block;color:var(--accent);font-size:12px;font-weight:600;\
letter-spacing:.08em;text-transform:uppercase}\
h2{margin:0 0 12px;font-size:16px}\
header p,footer{color:var(--soft)}header p{margin:6px 0 0}\
nav{margin:10px 0 0}nav a,.more a,footer a{margin-right:16px}\
h2 small,.bar small{color:var(--soft);font-size:13px;font-weight:400;margin-left:6px}\
section{background:var(--card);border:1px solid var(--line);border-radius:12px;\
padding:16px 18px;margin:16px 0}\
.tiles{display:grid;grid-template-columns:repeat(auto-fit,minmax(130px,1fr));gap:12px;\
background:none;border:0;padding:0}\
.tiles div{background:var(--card);border:1px solid var(--line);border-radius:12px;\
padding:12px 16px}\
.tiles b{display:block;font-size:28px;line-height:1.25}.tiles span{color:var(--soft)}\
.bars{display:grid;grid-template-columns:repeat(auto-fit,minmax(min(100%,300px),1fr));\
gap:18px 32px}.bar:first-child{grid-column:1/-1}\
.bar p{display:flex;flex-wrap:wrap;justify-content:space-between;gap:0 12px;margin:0}\
.bar p span{color:var(--soft);font-size:13px}\
.bar div{height:10px;margin:4px 0;border-radius:5px;background:var(--line);overflow:hidden}\
.bar i{display:block;height:100%;border-radius:5px;background:var(--good)}\
.bar i.warn{background:var(--warn)}.bar i.bad{background:var(--bad)}\
.counts{columns:4 140px;column-gap:24px}.counts>div{break-inside:avoid;padding-bottom:16px}\
.counts h3{margin:0 0 4px;padding-bottom:4px;border-bottom:1px solid var(--line);\
font-size:13px;color:var(--soft);font-weight:600}\
.counts dl{display:grid;grid-template-columns:1fr auto;gap:2px 12px;margin:0}\
.counts dt{overflow-wrap:anywhere}.counts dd{margin:0;text-align:right}\
.zero{color:var(--soft)}\
.wide{overflow-x:auto}\
table{border-collapse:collapse;width:100%;white-space:nowrap}\
th,td{text-align:left;vertical-align:baseline;padding:7px 20px 7px 0;\
border-bottom:1px solid var(--line)}th:last-child,td:last-child{padding-right:0}\
tbody tr:last-child td{border-bottom:0}tr{background:var(--card)}\
tbody tr:hover{background:var(--back)}\
th:first-child,td:first-child{position:sticky;left:0;background:inherit}\
th{color:var(--soft);font-size:12px;font-weight:600}\
td.n,th.n{text-align:right}td.a{white-space:normal;min-width:190px;overflow-wrap:anywhere}\
code{font:13px ui-monospace,SFMono-Regular,Menlo,Consolas,monospace}\
.none{color:var(--soft);margin:0}.more{margin:12px 0 0}.more:empty{display:none}\
a{color:var(--accent);text-decoration:none}a:hover{text-decoration:underline}\
footer{padding-top:4px;padding-bottom:32px;font-size:13px}footer p{margin:0 0 4px}";
