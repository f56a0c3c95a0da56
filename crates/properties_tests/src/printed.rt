// Values as they print themselves, for people and for debugging, if no row of a table prints them.

use crate::same::same;
use crate::script::{TIMES_OUT, script};
use counted_io::{Counted, ScriptedSink, SinkFault};
use java_properties::ErrorKind::*;
use java_properties::{
    Cause, CopyError, Encoding, LineEnding, PropertiesError, PropertiesIter, PropertiesWriter,
    Stopped, read_lines, remove_key,
};
use std::alloc::{AllocError, Global};
use std::fmt::{Debug, Display};
use std::io;
use std::process::Abort;
use std::test::Fail;

pub fn check_debugged<T: Debug>(
    rt: &impl Abort,
    alloc: Global,
    value: &T,
    wanted: &str,
) -> Result<(), Fail> {
    same(rt, format!(in alloc; "{value:?}")?.as_str(), wanted);
    Ok(())
}

fn check_printed<T: Display>(
    rt: &impl Abort,
    alloc: Global,
    value: &T,
    wanted: &str,
) -> Result<(), Fail> {
    same(rt, format!(in alloc; "{value}")?.as_str(), wanted);
    Ok(())
}

// Each value is printed as the first text beside it, and debugged as the second.
fn check_rows<T: Debug + Display>(
    rt: &impl Abort,
    alloc: Global,
    rows: &[(T, &str, &str)],
) -> Result<(), Fail> {
    for (value, printed, debugged) in rows {
        check_printed(rt, alloc, value, printed)?;
        check_debugged(rt, alloc, value, debugged)?;
    }
    Ok(())
}

#[test]
fn kinds_of_errors_are_printed_and_debugged(rt: HostRuntime) -> Result<(), Fail> {
    let rows = [
        (Io, "I/O error", "Io"),
        (
            NotEnoughDigits,
            "Malformed \\uxxxx encoding: not enough digits.",
            "NotEnoughDigits",
        ),
        (NotHex, "Malformed \\uxxxx encoding: not hex.", "NotHex"),
        (
            InvalidCharacter,
            "Malformed \\uxxxx encoding: invalid character.",
            "InvalidCharacter",
        ),
        (BadCommentPrefix, "Bad comment prefix", "BadCommentPrefix"),
        (BadKvSeparator, "Bad key/value separator", "BadKvSeparator"),
        (
            EmptyKey,
            "Empty key with a blank key/value separator.",
            "EmptyKey",
        ),
        (TooManyLines, "Too many lines.", "TooManyLines"),
        (Failed, "The writer has failed.", "Failed"),
        (Memory, "Out of memory.", "Memory"),
        (Unsupported, "Encoding can't be edited.", "Unsupported"),
    ];
    check_rows(&rt, rt.alloc(), rows.as_slice())
}

#[test]
fn causes_and_settings_are_printed_and_debugged(rt: HostRuntime) -> Result<(), Fail> {
    let causes = [
        (Cause::None, "no other error", "None"),
        (Cause::NotHex, "not a hexadecimal digit", "NotHex"),
        (
            Cause::Io(io::Error::from(io::ErrorKind::NotFound)),
            "entity not found",
            "Io(Kind(NotFound))",
        ),
    ];
    check_rows(&rt, rt.alloc(), causes.as_slice())?;
    let line_endings = [
        (LineEnding::CR, "LineEnding::CR", "CR"),
        (LineEnding::LF, "LineEnding::LF", "LF"),
        (LineEnding::CRLF, "LineEnding::CRLF", "CRLF"),
    ];
    check_rows(&rt, rt.alloc(), line_endings.as_slice())?;
    for (encoding, wanted) in [
        (Encoding::WINDOWS_1252, "WINDOWS_1252"),
        (Encoding::UTF_8, "UTF_8"),
        (Encoding::UTF_16LE, "UTF_16LE"),
        (Encoding::UTF_16BE, "UTF_16BE"),
    ] {
        check_debugged(&rt, rt.alloc(), &encoding, wanted)?;
    }
    Ok(())
}

#[test]
fn errors_are_printed_and_debugged(rt: HostRuntime) -> Result<(), Fail> {
    let alloc = rt.alloc();
    let (fault, failed) = errors_of_a_full_sink(&rt, alloc);
    let utf_16 = remove_key(alloc, b"", Encoding::UTF_16LE, "a");
    let rows = [
        (
            PropertiesError::from(io::Error::from(io::ErrorKind::NotFound)),
            "I/O error (line_number = unknown)",
            "PropertiesError { kind: Io, line_number: None, cause: Io(Kind(NotFound)), refused: None }",
        ),
        (
            fault,
            "I/O error (line_number = 1)",
            "PropertiesError { kind: Io, line_number: Some(1), cause: None, refused: None }",
        ),
        (
            failed,
            "The writer has failed. (line_number = unknown)",
            "PropertiesError { kind: Failed, line_number: None, cause: None, refused: None }",
        ),
        (
            stopped_at(&rt, alloc, b"a\n\\uxxxx").error,
            "Malformed \\uxxxx encoding: not hex. (line_number = 2)",
            "PropertiesError { kind: NotHex, line_number: Some(2), cause: NotHex, refused: None }",
        ),
        (
            refused_separator(&rt, alloc, "\u{e9}\n"),
            "Bad key/value separator: \"\u{e9}\\n\" (line_number = unknown)",
            "PropertiesError { kind: BadKvSeparator, line_number: None, cause: None, refused: Some(\"\u{e9}\\n\") }",
        ),
        (
            error_of(&rt, utf_16),
            "Encoding can't be edited. (line_number = unknown)",
            "PropertiesError { kind: Unsupported, line_number: None, cause: None, refused: None }",
        ),
        (
            PropertiesError::from(AllocError),
            "Out of memory. (line_number = unknown)",
            "PropertiesError { kind: Memory, line_number: None, cause: None, refused: None }",
        ),
    ];
    check_rows(&rt, alloc, rows.as_slice())
}

#[test]
fn reasons_and_causes_of_errors_are_printed(rt: HostRuntime) -> Result<(), Fail> {
    let alloc = rt.alloc();
    let (fault, failed) = errors_of_a_full_sink(&rt, alloc);
    let rows = [
        (
            PropertiesError::from(io::Error::from(io::ErrorKind::NotFound)),
            "entity not found",
            "entity not found",
        ),
        (fault, "I/O error", "no other error"),
        (failed, "The writer has failed.", "no other error"),
        (
            stopped_at(&rt, alloc, b"\\uxxxx").error,
            "Malformed \\uxxxx encoding: not hex.",
            "not a hexadecimal digit",
        ),
        (
            refused_separator(&rt, alloc, "x\n"),
            "Bad key/value separator: \"x\\n\"",
            "no other error",
        ),
    ];
    for (error, reason, cause) in rows {
        check_printed(&rt, alloc, &error.reason(), reason)?;
        check_printed(&rt, alloc, &error.into_cause(), cause)?;
    }
    Ok(())
}

#[test]
fn errors_of_copying_are_printed_and_debugged(rt: HostRuntime) -> Result<(), Fail> {
    let alloc = rt.alloc();
    let text = "Empty key with a blank key/value separator. (line_number = unknown)";
    let error = error_of_copying(&rt, alloc);
    check_printed(&rt, alloc, &error, text)?;
    let debugged =
        "Write(PropertiesError { kind: EmptyKey, line_number: None, cause: None, refused: None })";
    check_debugged(&rt, alloc, &error, debugged)?;
    check_printed(&rt, alloc, &PropertiesError::from(error), text)
}

// The lines that were read show how lines and their contents are debugged.
#[test]
fn what_stopped_is_printed_and_debugged(rt: HostRuntime) -> Result<(), Fail> {
    let stopped = stopped_at(&rt, rt.alloc(), b"# \xc3\xa9\n\na=\\t\n\\u1");
    let text = "Malformed \\uxxxx encoding: not enough digits. (line_number = 4)";
    check_printed(&rt, rt.alloc(), &stopped, text)?;
    let wanted =
        "Stopped { lines: [Line { line_number: 1, content: Comment(\"\u{e9}\") }, Line { line_number: 3, content: KVPair(\"a\", \"\\t\") }], error: PropertiesError { kind: NotEnoughDigits, line_number: Some(4), cause: None, refused: None } }";
    check_debugged(&rt, rt.alloc(), &stopped, wanted)
}

#[test]
fn errors_are_printed_at_the_name_of_their_input(rt: HostRuntime) -> Result<(), Fail> {
    let rows: [(&[u8], &str, &str); 5] = [
        (
            b"\n\na=\\u12\n",
            "a.properties",
            "a.properties:3: Malformed \\uxxxx encoding: not enough digits.",
        ),
        (
            b"\\u12gh\n",
            "a.properties",
            "a.properties:1: Malformed \\uxxxx encoding: not hex.",
        ),
        // It may be a folder, so no line is named.
        (b"a", "a.properties", "a.properties: timed out"),
        (b"a\nb", "a.properties", "a.properties:2: timed out"),
        (b"a\nb", "", ":2: timed out"),
    ];
    for (bytes, name, wanted) in rows {
        let error = error_before_a_fault(&rt, rt.alloc(), bytes)?;
        check_printed(&rt, rt.alloc(), &error.at(name), wanted)?;
    }
    let refused = refused_separator(&rt, rt.alloc(), "::");
    let wanted = "a.properties: Bad key/value separator: \"::\"";
    check_printed(&rt, rt.alloc(), &refused.at("a.properties"), wanted)
}

// The error of an input that fails after these bytes.
fn error_before_a_fault(
    rt: &impl Abort,
    alloc: Global,
    bytes: &[u8],
) -> Result<PropertiesError, AllocError> {
    let mut input = script(alloc, bytes, bytes.len(), TIMES_OUT)?;
    Ok(error_of(rt, read_lines(alloc, &mut input, Encoding::UTF_8)).error)
}

fn error_of<T: Drop, E: Drop>(rt: &impl Abort, answer: Result<T, E>) -> E {
    match answer {
        Ok(_) => panic!(*rt; "there is no error"),
        Err(error) => error,
    }
}

// What is read of this input before its error, and the error.
fn stopped_at(rt: &impl Abort, alloc: Global, bytes: &[u8]) -> Stopped {
    let mut input = bytes;
    error_of(rt, read_lines(alloc, &mut input, Encoding::UTF_8))
}

// The error of a separator that is refused.
fn refused_separator(rt: &impl Abort, alloc: Global, separator: &str) -> PropertiesError {
    error_of(rt, writer_of_bytes(rt, alloc).set_kv_separator(separator))
}

fn writer_of_bytes(rt: &impl Abort, alloc: Global) -> PropertiesWriter<Counted<Vec<u8>>> {
    let output = Counted::new(Vec::new(alloc));
    PropertiesWriter::new(alloc, output).expect(rt, "a writer")
}

// The error of a line that a sink takes no byte of, and that of the line after it.
fn errors_of_a_full_sink(rt: &impl Abort, alloc: Global) -> (PropertiesError, PropertiesError) {
    let sink = ScriptedSink::new(alloc, 1, Some(1), SinkFault::Nothing);
    let mut writer = PropertiesWriter::new(alloc, sink).expect(rt, "a writer");
    let fault = error_of(rt, writer.write("a", "b"));
    let failed = error_of(rt, writer.write("a", "b"));
    (fault, failed)
}

// The error of a pair without a key that is copied to a writer of blanks.
fn error_of_copying(rt: &impl Abort, alloc: Global) -> CopyError {
    let input: &[u8] = b"=1";
    let mut items = PropertiesIter::new(alloc, input).expect(rt, "an iterator");
    let mut writer = writer_of_bytes(rt, alloc);
    writer.set_kv_separator(" ").expect(rt, "a separator");
    error_of(rt, writer.copy_pairs(&mut items))
}
