// Notes on arguments that may mean something else, printed after the result.

use crate::input::is_file;
use counted_io::CountedWrite;
use properties_tools::messages::print_line;
use properties_tools::propedit::hint::{print_misread, told};
use properties_tools::propedit::in_place::{Target, edit_file};
use properties_tools::propedit::request::{Doubt, FileEdit, Note};

/// Returns whether a note is about a file that isn't there.
pub(crate) fn lacks_file(rt: &HostRuntime, note: &Option<Note>) -> bool {
    match note.as_ref().map(|note| &note.doubt) {
        Some(Doubt::Value(Some(name))) => !is_file(rt, name.as_str()),
        _ => false,
    }
}

/// Changes a file, and prints what is said of the file as it was.
pub(crate) fn edit<E: CountedWrite>(rt: &HostRuntime, asked: &FileEdit, errors: &mut E) -> u8 {
    let line = said_of(rt, asked, errors);
    let status = edit_file(rt, rt.alloc(), &asked.file, errors);
    if let (0, Some(line)) = (status, line) {
        print_line(errors, line.as_str());
    }
    status
}

// Prints which line of a file Java reads differently, and returns the line of a note that the file bears out.
fn said_of<E: CountedWrite>(rt: &HostRuntime, asked: &FileEdit, errors: &mut E) -> Option<String> {
    let has_note = asked.note.is_some() && !lacks_file(rt, &asked.note);
    if !asked.latin_1 && !has_note {
        return None;
    }
    let (alloc, file) = (rt.alloc(), &asked.file);
    let path = file.path.as_str();
    let target = Target::read(rt, alloc, path, file.missing).ok()?;
    if asked.latin_1 {
        print_misread(alloc, errors, path, target.bytes());
    }
    if !has_note {
        return None;
    }
    told(alloc, target.bytes(), file.encoding, &asked.note).ok()?
}
