/// What a guard knows of a content.
#[derive(Clone, Copy, Debug, PartialEq, Eq)]
pub enum Class {
    /// The filter has a verdict of it under its floor: an ask of it is told in its call, whatever waits.
    Known,
    /// An ask of it waits for a verdict, so another one needs no question.
    Asked,
    /// Neither: an ask of it needs a question.
    New,
}
