// Bytes of a body: a part of them, how they end, and slices that are joined.

ghost use Rattle.std.specs.Prelude.{◌≡◌, ◌≤◌, ◌-◌, ◌++◌, take, drop, length, IfOk};
ghost use Rattle.properties_format.specs.Computed.Lines.{ends_in_cr};

use std::alloc::{AllocError, Global};

/// A part of a body, as a span of its bytes.
#[derive(Clone, Copy)]
pub struct BodySpan {
    /// The position of its first byte.
    pub start: usize,
    /// The position after its last byte.
    pub end: usize,
}

/// Returns a part of a body.
pub fn bytes_at(body: &[u8], span: BodySpan) -> &[u8]
    requires ordered { span.start ≤ span.end }
    requires within { span.end ≤ length body.now }
    ensures { result.now ≡ take (span.end - span.start) (drop span.start body.now) }
{
    &body[span.start..span.end]
}

/// Returns whether these bytes end in a CR.
pub fn ends_in_cr(bytes: &[u8]) -> bool
    ensures { result ≡ ends_in_cr bytes.now }
{
    if bytes.is_empty() {
        return false;
    }
    bytes[bytes.len() - 1] == b'\r'
}

/// Concatenates three slices. Their memory is allocated before the first of them is copied.
pub fn concatenated(
    alloc: Global,
    front: &[u8],
    middle: &[u8],
    back: &[u8],
) -> Result<Vec<u8>, AllocError>
    ensures { IfOk result (λ bytes. bytes.items ≡ front.now ++ (middle.now ++ back.now)) }
{
    let size = front
        .len()
        .saturating_add(middle.len())
        .saturating_add(back.len());
    let mut bytes = Vec::with_capacity(alloc, size)?;
    bytes.extend_from_slice(front)?;
    bytes.extend_from_slice(middle)?;
    bytes.extend_from_slice(back)?;
    Ok(bytes)
}
