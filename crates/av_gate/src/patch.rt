/// Bytes, and the place from which on they are written over those of a stream.
#[derive(Clone, Copy)]
pub struct Patch<'a> {
    pub offset: u64,
    pub bytes: &'a [u8],
}
