//! The style of a page.

/// The style of a page (CSS), in the element `style` (own rule).
pub(crate) const STYLE: &[u8] = b"\
\n:root{color-scheme:light dark;--bg:#fff;--fg:#1b1f24;--dim:#5b6470;--line:#dfe3e8;--soft:#f5f7f9;\
--link:#0b5cad;--open:#11692f;--grayed:#8a5300;--hidden:#6a2fa0;--disabled:#a3201d;--locked:#1f4e8c;\
--outside:#55606c}\n\
@media (prefers-color-scheme:dark){:root{--bg:#14171b;--fg:#e4e8ec;--dim:#9aa5b1;--line:#2c333b;\
--soft:#1c2127;--link:#7db7f5;--open:#6fd08c;--grayed:#f0b95c;--hidden:#c79bf2;--disabled:#ff8f88;\
--locked:#8fbcff;--outside:#a9b4c0}}\n\
*{box-sizing:border-box}\n\
body{margin:0 auto;max-width:78rem;padding:1.5rem;background:var(--bg);color:var(--fg);\
font:15px/1.45 system-ui,\"Segoe UI\",Roboto,sans-serif}\n\
h1{font-size:1.7rem;margin:0 0 .2rem}h2{font-size:1.2rem;margin:2rem 0 .3rem}\n\
a{color:var(--link);text-decoration:none}a:hover{text-decoration:underline}\n\
code{font:.86em ui-monospace,\"DejaVu Sans Mono\",monospace;overflow-wrap:anywhere}\n\
.dim{color:var(--dim)}.small{font-size:.86rem}\n\
.counts{display:flex;flex-wrap:wrap;gap:.5rem;margin:.8rem 0;padding:0;list-style:none}\n\
.badge{display:inline-block;border:1px solid currentColor;border-radius:1rem;padding:0 .55rem;\
font-size:.8rem;font-weight:600;white-space:nowrap}\n\
.open{color:var(--open)}.grayoutif{color:var(--grayed)}.suppressif{color:var(--hidden)}\
.disableif{color:var(--disabled)}.locked,.readonly{color:var(--locked)}.outside{color:var(--outside)}\n\
nav{background:var(--soft);border:1px solid var(--line);border-radius:.5rem;padding:.8rem 1rem}\
nav ol{margin:.3rem 0 0;padding-left:1.4rem;columns:20rem 3}nav li{break-inside:avoid}\n\
.q{display:grid;\
grid-template-columns:4.2rem 5.6rem minmax(11rem,1.6fr) minmax(9rem,1.2fr) minmax(14rem,2.4fr);\
gap:.2rem 1rem;padding:.55rem .3rem;border-top:1px solid var(--line);break-inside:avoid}\n\
.q:target{background:var(--soft);outline:2px solid var(--link)}\n\
.q>div{min-width:0;overflow-wrap:anywhere;max-height:22rem;overflow:auto}.head{color:var(--dim);\
font-size:.8rem;border-top:0}\n\
.prompt{font-weight:600}.value{font-weight:600}\n\
p{margin:.15rem 0}.off{text-decoration:line-through}\n\
@media (max-width:60rem){.q{grid-template-columns:3.5rem 1fr}.q>div:nth-child(n+3){grid-column:2}\
.head{display:none}}\n\
@media print{body{max-width:none;padding:0;font-size:10.5px}a{color:inherit}nav ol{columns:2}\
.q>div{max-height:none;overflow:visible}}\n\
";

/// The SHA-256 digest of the style in base64, by which the page admits it (Content Security Policy Level 3, 2.3.1 Source Lists).
pub(crate) const STYLE_DIGEST: &[u8] = b"O2ubP0CX2ZnA+ePitaHMAL/Kf1lAVyHkBFD3UnU/0YU=";
