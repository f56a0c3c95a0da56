// What a command prints.

ghost use Rattle.std.specs.Prelude.{◌≡◌, ◌++◌, ◌∷◌, [], IfOk, OnOk, string_bytes};
ghost use Rattle.std.specs.Str.{chars};
ghost use Rattle.json.specs.Print.{print};
ghost use Rattle.properties_format.specs.Text.{line_feed};
ghost use Rattle.properties_tools.specs.Propedit.{printed_report, report_status};
ghost use Rattle.properties_tools.specs.Propedit.Texts.{end_byte, ended, followed_text};

use crate::propedit::request::Terminator;
use json::Writer;
use std::alloc::{AllocError, Global};

/// What a command prints, and its exit status.
#[derive(Drop)]
pub struct Answer {
    /// What it prints: texts in UTF-8, or the bytes of an edited source.
    pub text: Vec<u8>,
    /// 0, or 1 if nothing is found that was asked for, or a check finds something.
    pub status: u8,
}

/// Returns the answer that a report gives: it is printed unless the check is quiet, and the status is 1 if it says
/// anything.
pub(crate) fn reported(alloc: Global, report: String, quiet: bool) -> Answer
    ensures text { result.text.items ≡ printed_report quiet (string_bytes report) }
    ensures status { result.status ≡ report_status (string_bytes report) }
{
    let report = report.into_bytes();
    let status = if report.is_empty() { 0 } else { 1 };
    let text = if quiet { Vec::new(alloc) } else { report };
    Answer { text, status }
}

/// Appends a text and the byte that ends it.
pub(crate) fn push_ended(text: &mut Vec<u8>, word: &str, end: Terminator) -> Result<(), AllocError>
    ensures { OnOk result (text.new.items ≡ text.old.items ++ ended end (chars word.now)) }
{
    push_followed(text, word, byte_of(end))
}

/// Appends a text and a byte after it.
pub(crate) fn push_followed(text: &mut Vec<u8>, word: &str, byte: u8) -> Result<(), AllocError>
    ensures { OnOk result (text.new.items ≡ text.old.items ++ followed_text byte (chars word.now)) }
{
    text.extend_from_slice(word.as_bytes())?;
    text.push(byte)?;
    Ok(())
}

/// Returns JSON that was written, and a line feed.
pub(crate) fn json_line(writer: Writer) -> Result<Vec<u8>, AllocError>
    ensures { IfOk result (λ text. text.items ≡ (writer.before ++ print writer.tokens) ++ line_feed ∷ []) }
{
    let mut text = writer.into_inner();
    text.push(b'\n')?;
    Ok(text)
}

fn byte_of(end: Terminator) -> u8
    ensures { result ≡ end_byte end }
{
    match end {
        Terminator::LineFeed => b'\n',
        Terminator::Nul => 0,
    }
}
