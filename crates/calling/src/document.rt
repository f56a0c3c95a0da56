// A value of a document, or a default, proved.

ghost use Rattle.std.specs.Prelude.{◌≡◌, ◌⊎◌, Some, None};
ghost use Rattle.std.specs.Str.{chars};
ghost use Rattle.java_properties.specs.Documents.{HasValueAt};

use java_properties::Document;

/// Returns the value of a key, or this default if no pair has it.
pub fn value_or<'a>(document: &'a Document, key: &str, default: &'a str) -> &'a str
    ensures { HasValueAt document.now (chars key.now) (Some (chars result.now)) ⊎
        HasValueAt document.now (chars key.now) None × (result.now ≡ default.now) }
{
    match document.get(key) {
        Some(value) => value,
        None => default,
    }
}

#[cfg(test)]
mod tests {
    use super::*;
    use crate::same::same;
    use java_properties::Encoding;
    use std::test::Fail;

    #[test]
    fn falls_back_to_a_default(rt: HostRuntime) -> Result<(), Fail> {
        let document = Document::parse(rt.alloc(), b"port = 80\n", Encoding::UTF_8)?;
        for (key, value) in [("port", "80"), ("host", "none")] {
            same(&rt, value_or(&document, key, "none"), value);
        }
        Ok(())
    }
}
