// What stands before a page of HTML: nothing is loaded, and no script runs.

/// Up to the title.
pub(crate) const HTML_HEAD: &str = "<!DOCTYPE html>
<html lang=\"en\">
<head>
<meta charset=\"utf-8\">
<meta http-equiv=\"Content-Security-Policy\" content=\"default-src 'none'; style-src 'unsafe-inline'\">
<meta name=\"viewport\" content=\"width=device-width, initial-scale=1\">
<meta name=\"color-scheme\" content=\"light dark\">
<title>";

/// From the title to the heading.
pub(crate) const HTML_STYLE: &str = "</title>
<style>
:root { --text: #1d2329; --soft: #5a6570; --line: #d5dade; --shade: #f4f6f8; --link: #0a58a8; --ground: #fff; }
@media (prefers-color-scheme: dark) {
:root { --text: #e2e6ea; --soft: #9aa5b0; --line: #38414a; --shade: #1d242b; --link: #7db8f0; --ground: #13181d; }
}
* { box-sizing: border-box; }
body { max-width: 60rem; margin: 0 auto; padding: 1rem; background: var(--ground); color: var(--text);
font: 1rem/1.5 system-ui, sans-serif; overflow-wrap: anywhere; }
h1 { font-size: 1.6rem; line-height: 1.25; }
h2 { font-size: 1.2rem; margin-top: 2rem; border-bottom: 1px solid var(--line); }
h3 { font-size: 1rem; margin-bottom: .25rem; }
a { color: var(--link); }
span { color: var(--soft); }
ul { margin: 0; padding: 0; list-style: none; columns: 16rem; }
li { break-inside: avoid; }
details { margin: .5rem 0; border: 1px solid var(--line); border-radius: .4rem; }
summary { padding: .5rem .75rem; font-weight: 600; cursor: pointer; }
details > ul { padding: 0 .75rem .5rem; }
pre { margin: 0; padding: .75rem; background: var(--shade); font: .8rem/1.45 ui-monospace, monospace;
white-space: pre-wrap; border-top: 1px solid var(--line); }
section, pre { scroll-margin-top: 1rem; }
:target > h3, pre:target { outline: 2px solid var(--link); outline-offset: 2px; }
@media print {
:root { --text: #000; --soft: #333; --line: #999; --shade: #fff; --link: #000; --ground: #fff; }
body { max-width: none; padding: 0; font-size: 10pt; }
details { border: 0; }
details::details-content { content-visibility: visible; display: block; height: auto; }
details > pre { display: block; font-size: 8pt; }
details > ul { padding: 0; }
summary { list-style: none; padding: 0; }
h2, h3, summary { break-after: avoid; }
}
</style>
</head>
<body>
<h1>";
