// The labels of the encodings.

ghost use Rattle.std.specs.Prelude.{◌↔◌, map, IsTrue};
ghost use Rattle.properties_format.specs.Names.{IsOneOf};

pub const WINDOWS_1252: &[&str] = &[
    "ansi_x3.4-1968",
    "ascii",
    "cp1252",
    "cp819",
    "csisolatin1",
    "ibm819",
    "iso-8859-1",
    "iso-ir-100",
    "iso8859-1",
    "iso88591",
    "iso_8859-1",
    "iso_8859-1:1987",
    "l1",
    "latin1",
    "us-ascii",
    "windows-1252",
    "x-cp1252",
];

pub const UTF_8: &[&str] = &[
    "unicode-1-1-utf-8",
    "unicode11utf8",
    "unicode20utf8",
    "utf-8",
    "utf8",
    "x-unicode20utf8",
];

pub const UTF_16LE: &[&str] = &[
    "csunicode",
    "iso-10646-ucs-2",
    "ucs-2",
    "unicode",
    "unicodefeff",
    "utf-16",
    "utf-16le",
];

pub const UTF_16BE: &[&str] = &["unicodefffe", "utf-16be"];

/// Whether the text is one of these labels, but for ASCII case.
pub fn is_one_of(text: &str, labels: &[&str]) -> bool
    ensures { IsTrue result ↔ IsOneOf (map (λ label. label.now) labels.now) text.now }
{
    let [label, others @ ..] = labels else {
        return false;
    };
    if label.eq_ignore_ascii_case(text) {
        return true;
    }
    is_one_of(text, others)
}
