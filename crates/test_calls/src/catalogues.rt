// The catalogues of the rows.

use crate::answer::NoAnswer;
use spdx::{Catalogue, ParseMode};
use std::alloc::{AllocError, Global};

// The test catalogue K1, of the collected rows.
const K1: &str = "{\"version\":\"K1\",\"licenses\":[\
    {\"name\":\"Aladdin\",\"full_name\":\"Aladdin\",\"flags\":0},\
    {\"name\":\"Apache-2.0\",\"full_name\":\"Apache-2.0\",\"flags\":3},\
    {\"name\":\"BSD-2-Clause\",\"full_name\":\"BSD-2-Clause\",\"flags\":3},\
    {\"name\":\"BSD-3-Clause\",\"full_name\":\"BSD-3-Clause\",\"flags\":3},\
    {\"name\":\"BitTorrent-1.1\",\"full_name\":\"BitTorrent-1.1\",\"flags\":1},\
    {\"name\":\"GPL-1.0\",\"full_name\":\"GPL-1.0\",\"flags\":28},\
    {\"name\":\"GPL-2.0\",\"full_name\":\"GPL-2.0\",\"flags\":31},\
    {\"name\":\"GPL-2.0-only\",\"full_name\":\"GPL-2.0-only\",\"flags\":27},\
    {\"name\":\"GPL-2.0-or-later\",\"full_name\":\"GPL-2.0-or-later\",\"flags\":27},\
    {\"name\":\"GPL-3.0\",\"full_name\":\"GPL-3.0\",\"flags\":31},\
    {\"name\":\"GPL-3.0-only\",\"full_name\":\"GPL-3.0-only\",\"flags\":27},\
    {\"name\":\"GPL-3.0-or-later\",\"full_name\":\"GPL-3.0-or-later\",\"flags\":27},\
    {\"name\":\"LGPL-3.0-or-later\",\"full_name\":\"LGPL-3.0-or-later\",\"flags\":27},\
    {\"name\":\"MIT\",\"full_name\":\"MIT\",\"flags\":3},\
    {\"name\":\"MPL-1.1\",\"full_name\":\"MPL-1.1\",\"flags\":11},\
    {\"name\":\"MPL-2.0\",\"full_name\":\"MPL-2.0\",\"flags\":11},\
    {\"name\":\"Zlib\",\"full_name\":\"Zlib\",\"flags\":3},\
    {\"name\":\"wxWindows\",\"full_name\":\"wxWindows\",\"flags\":4}],\
    \"exceptions\":[\
    {\"name\":\"Classpath-exception-2.0\",\"flags\":0},\
    {\"name\":\"LLVM-exception\",\"flags\":0},\
    {\"name\":\"Nokia-Qt-exception-1.1\",\"flags\":4}],\
    \"imprecise\":[\
    {\"prefix\":\"simplified bsd license\",\"name\":\"BSD-2-Clause\"},\
    {\"prefix\":\"apache\",\"name\":\"Apache-2.0\"},\
    {\"prefix\":\"apache2\",\"name\":\"Apache-2.0\"},\
    {\"prefix\":\"gpl-3.0\",\"name\":\"GPL-3.0\"},\
    {\"prefix\":\"gplv2\",\"name\":\"GPL-2.0\"},\
    {\"prefix\":\"mit\",\"name\":\"MIT\"}]}";

// Versions of one family: zeros in front, a missing piece, pieces of two digits.
const K2: &str = "{\"version\":\"K2\",\"licenses\":[\
    {\"name\":\"A-00002\",\"full_name\":\"\",\"flags\":0},\
    {\"name\":\"A-1\",\"full_name\":\"\",\"flags\":0},\
    {\"name\":\"A-1.0\",\"full_name\":\"\",\"flags\":0},\
    {\"name\":\"A-1.10\",\"full_name\":\"\",\"flags\":0},\
    {\"name\":\"A-1.9\",\"full_name\":\"\",\"flags\":0}],\
    \"exceptions\":[],\"imprecise\":[]}";

// Names that look like something else: a licence named as a reference is, an exception named as
// a licence is, prefixes with a plus, a letter of two bytes and an operator in them.
const K3: &str = "{\"version\":\"K3\",\"licenses\":[\
    {\"name\":\"A\",\"full_name\":\"\",\"flags\":224},\
    {\"name\":\"LicenseRef-a\",\"full_name\":\"\",\"flags\":0},\
    {\"name\":\"Z-or-later\",\"full_name\":\"\",\"flags\":0}],\
    \"exceptions\":[{\"name\":\"A\",\"flags\":0}],\
    \"imprecise\":[\
    {\"prefix\":\"x y+\",\"name\":\"A\"},\
    {\"prefix\":\"b\u{e9}\",\"name\":\"A\"},\
    {\"prefix\":\"q) OR (\",\"name\":\"A\"}]}";

// One licence, GNU and deprecated, whose name begins as a reference does.
const REFERENCE_NAME: &str = "{\"version\":\"\",\"licenses\":[\
    {\"name\":\"LicenseRef-x\",\"full_name\":\"\",\"flags\":20}],\
    \"exceptions\":[],\"imprecise\":[]}";

// Two licences that differ in case alone.
const TWO_CASES: &str = "{\"version\":\"\",\"licenses\":[\
    {\"name\":\"MIT\",\"full_name\":\"\",\"flags\":0},\
    {\"name\":\"mit\",\"full_name\":\"\",\"flags\":0}],\
    \"exceptions\":[],\"imprecise\":[]}";

const TEXTS: [(&str, &str); 5] = [
    ("k1", K1),
    ("k2", K2),
    ("k3", K3),
    ("reference-name", REFERENCE_NAME),
    ("two-cases", TWO_CASES),
];

/// The catalogues that rows name.
#[derive(Drop)]
pub struct Catalogues {
    all: Vec<Named>,
}

#[derive(Drop)]
struct Named {
    name: &'static str,
    catalogue: Catalogue,
}

impl Catalogues {
    /// These here, and the one of the bytes of a list.
    pub(crate) fn new(alloc: Global, list: &[u8]) -> Result<Catalogues, NoAnswer> {
        let mut all = Vec::new(alloc);
        for (name, json) in &TEXTS {
            all.push(read(alloc, *name, json.as_bytes())?)?;
        }
        let versions = long_versions(alloc)?;
        all.push(read(alloc, "long-versions", versions.as_bytes())?)?;
        all.push(read(alloc, "list", list)?)?;
        Ok(Catalogues { all })
    }

    /// The catalogue of that name.
    pub(crate) fn get(&self, name: &str) -> Option<&Catalogue> {
        let found = self.all.iter().find(|one| one.name == name)?;
        Some(&found.catalogue)
    }
}

fn read(alloc: Global, name: &'static str, json: &[u8]) -> Result<Named, NoAnswer> {
    let catalogue = Catalogue::from_json(alloc, json)?;
    Ok(Named { name, catalogue })
}

// Three versions, of 100, 100 and 99 digits: ten, a power of ten, and the number before it.
fn long_versions(alloc: Global) -> Result<String, AllocError> {
    format!(in alloc;
        "{{\"version\":\"\",\"licenses\":[\
        {{\"name\":\"A-{:0>100}\",\"full_name\":\"\",\"flags\":0}},\
        {{\"name\":\"A-{:0<100}\",\"full_name\":\"\",\"flags\":0}},\
        {{\"name\":\"A-{:9<99}\",\"full_name\":\"\",\"flags\":0}}],\
        \"exceptions\":[],\"imprecise\":[]}}",
        10, 1, 9
    )
}

/// The mode of that name: `strict`, `lax`, or the permissions that it has alone.
pub(crate) fn mode_named(name: &str) -> ParseMode {
    let mut mode = ParseMode::default();
    match name {
        "lax" => return ParseMode::LAX,
        "slash" => mode.allow_slash_as_or_operator = true,
        "imprecise" => mode.allow_imprecise_license_names = true,
        "gnu plus" => mode.allow_postfix_plus_on_gpl = true,
        "deprecated" => mode.allow_deprecated = true,
        "unknown" => mode.allow_unknown = true,
        "caseless" => mode.allow_caseless_ids = true,
        "imprecise, unknown" => {
            mode.allow_imprecise_license_names = true;
            mode.allow_unknown = true;
        }
        _ => {}
    }
    mode
}
