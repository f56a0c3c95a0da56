// Sources with names.

/// A source with its name.
#[derive(Clone, Copy)]
pub struct NamedSource<'a> {
    /// What messages call it.
    pub name: &'a str,
    /// Its bytes.
    pub bytes: &'a [u8],
}
