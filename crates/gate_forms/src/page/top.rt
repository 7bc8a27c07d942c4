// What the page begins with.

ghost use Rattle.std.specs.Prelude.{◌≡◌, ◌++◌, OnOk};
ghost use Rattle.gate_forms.specs.Top.{page_head, page_style, page_body, page_top};

use std::alloc::AllocError;

pub(crate) fn put_top(page: &mut Vec<u8>) -> Result<(), AllocError>
    ensures { OnOk result (page.new.items ≡ page.old.items ++ page_top) }
{
    put_page_head(page)?;
    put_style(page)?;
    put_body(page)?;
    Ok(())
}

fn put_page_head(page: &mut Vec<u8>) -> Result<(), AllocError>
    ensures { OnOk result (page.new.items ≡ page.old.items ++ page_head) }
{
    page.extend_from_slice(
        b"\
<!doctype html>\n\
<html lang=\"en\">\n\
<head>\n\
<meta charset=\"utf-8\">\n\
<meta name=\"viewport\" content=\"width=device-width, initial-scale=1\">\n\
<meta http-equiv=\"Content-Security-Policy\" content=\"default-src 'none'; style-src 'unsafe-inline'\">\n\
<title>Licences of packages</title>\n\
<style>\n",
    )
}

fn put_style(page: &mut Vec<u8>) -> Result<(), AllocError>
    ensures { OnOk result (page.new.items ≡ page.old.items ++ page_style) }
{
    page.extend_from_slice(
        b"\
:root{color-scheme:light dark;--ink:#1b1b1f;--ground:#fff;--soft:#5c5f66;--line:#d5d7dc;--card:#f6f7f9;--no:#b3261e;--yes:#1b6e3c}\n\
@media (prefers-color-scheme:dark){:root{--ink:#e6e6ea;--ground:#16171a;--soft:#a3a7b0;--line:#3a3d44;--card:#1f2125;--no:#ff8a80;--yes:#7ddc9a}}\n\
body{margin:0;background:var(--ground);color:var(--ink);font:1rem/1.5 system-ui,sans-serif}\n\
main{max-width:60rem;margin:0 auto;padding:1rem}\n\
h1,h2,h3{line-height:1.25;overflow-wrap:anywhere}\n\
h2{display:inline-block;font-size:1.25rem}\n\
h3{margin:0;font-size:1.05rem}\n\
p{margin:.4rem 0;overflow-wrap:anywhere}\n\
article{margin:0 0 1rem;padding:.75rem 1rem;border:1px solid var(--line);border-left:.3rem solid var(--no);border-radius:.3rem;background:var(--card)}\n\
pre{margin:.4rem 0;white-space:pre-wrap;overflow-wrap:anywhere;font:.9rem/1.5 ui-monospace,monospace}\n\
ul{margin:.4rem 0;padding:0;list-style:none}\n\
li{padding:.1rem 0;overflow-wrap:anywhere}\n\
.tree li{padding-left:min(calc(var(--d)*1.2rem),50%);font:.9rem/1.5 ui-monospace,monospace}\n\
.yes,.yes b{color:var(--yes)}\n\
.no{color:var(--no)}\n\
.file{color:var(--soft);font-size:.9rem}\n\
.advice{font-weight:600}\n\
summary{cursor:pointer}\n\
@media print{body{font-size:.8rem}article{break-inside:avoid}main{max-width:none;padding:0}details::details-content{content-visibility:visible}}\n",
    )
}

fn put_body(page: &mut Vec<u8>) -> Result<(), AllocError>
    ensures { OnOk result (page.new.items ≡ page.old.items ++ page_body) }
{
    page.extend_from_slice(
        b"\
</style>\n\
</head>\n\
<body>\n\
<main>\n",
    )
}
