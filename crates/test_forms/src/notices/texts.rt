// The texts of the licences, shortened.

/// The text of this name.
pub(crate) fn text_of(name: &str) -> Option<&'static str> {
    match name {
        "Apache-2.0" => Some(
            "\n                                 Apache License
                           Version 2.0, January 2004

   TERMS AND CONDITIONS FOR USE, REPRODUCTION, AND DISTRIBUTION
",
        ),
        "ISC" => Some("ISC License\n\n```\nA fence within a text, and ```` a longer one.\n```"),
        "LLVM-exception" => {
            Some(
                "---- LLVM Exceptions to the Apache 2.0 License ----\r\n\r\nAs an exception ..\r\n",
            )
        }
        "LicenseRef-\"x\"<b>" => Some("</pre><script>alert(1)</script>&amp; & 'x'\x1b[0m\n"),
        "MIT" => Some("MIT License\n\nPermission is hereby granted, free of charge, ..\n"),
        "Unicode-3.0" => Some("UNICODE LICENSE V3\n\nCopyright © 1991-2025 Unicode, Inc.\n"),
        _ => None,
    }
}
