use thiserror::Error;

/// Why a set is not merged with those before it.
#[derive(Clone, Copy, Debug, PartialEq, Eq, Error)]
pub enum MergeFault {
    /// Signature `index` of the set, counted from 0, has the name of a signature of set `earlier`, which looks for something else.
    #[error("signature {index}: set {earlier} has another pattern under its name")]
    Clash { index: usize, earlier: usize },
    /// With the set there are more than 1,024 signatures.
    #[error("more than 1,024 signatures")]
    ManySignatures,
    /// With the set the patterns have more than 16,384 bytes in all.
    #[error("more than 16,384 bytes")]
    ManyBytes,
}
