use counted_io::CountedWrite;
use java_properties::{Encoding, PropertiesError, PropertiesWriter};
use std::alloc::Global;
use std::collections::BTreeMap;

/// Writes a catalogue as people read it: in UTF-8, with a comment at its head.
pub fn write_catalogue<W: CountedWrite>(
    alloc: Global,
    output: &mut W,
    language: &str,
    messages: &BTreeMap<String, String>,
) -> Result<(), PropertiesError> {
    let mut writer = PropertiesWriter::new_with_encoding(alloc, output, Encoding::UTF_8)?;
    writer.set_readable(true);
    writer.set_kv_separator(" = ")?;
    writer.write_comment("Translate what is right of the first '='.")?;
    writer.write("language", language)?;
    for (key, message) in messages {
        writer.write(key.as_str(), message.as_str())?;
    }
    writer.finish()
}

#[cfg(test)]
mod tests {
    use super::*;
    use crate::same::same;
    use counted_io::Counted;
    use java_properties::read_sorted;
    use std::test::Fail;

    const CATALOGUE: &str = "# Translate what is right of the first '='.\n\
        language = Français\n\
        menu.open = Ouvrir : un fichier…\n\
        menu.save\\ as = \\ Enregistrer sous=#1!\\u0020\n";

    const ESCAPED: &str = "menu.open=Ouvrir\\ \\:\\ un\\ fichier…\n\
        menu.save\\ as=\\ Enregistrer\\ sous\\=\\#1\\!\\ \n";

    #[test]
    fn writes_what_people_read(rt: HostRuntime) -> Result<(), Fail> {
        let mut input = ESCAPED.as_bytes();
        let messages = read_sorted(rt.alloc(), &mut input, Encoding::UTF_8)?;
        let mut output = Counted::new(Vec::new(rt.alloc()));
        write_catalogue(rt.alloc(), &mut output, "Français", &messages)?;
        same(&rt, output.into_inner().as_slice(), CATALOGUE.as_bytes());
        Ok(())
    }
}
