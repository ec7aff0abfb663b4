/// How the verbs of a script are chosen.
#[derive(Clone, Copy, Debug, PartialEq, Eq)]
pub enum Profile {
    /// By what there is to do, in spells of one temper each, and what was just sent or lent is often carried on at once. So
    /// long chains of deliveries come about.
    Deep,
    /// Each as often as the others.
    Uniform,
}
