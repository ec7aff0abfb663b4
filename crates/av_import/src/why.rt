/// Why a line or a rule is left out.
#[derive(Clone, Copy, Debug, PartialEq, Eq)]
pub enum Why {
    /// The file is of hashes.
    Hashes,
    /// The file's name ends in no ending that is known.
    UnknownKind,
    /// A line of an `.ndb` file has not 4 to 6 fields.
    NoNdbLine,
    /// A line of a `.db` file has no `=`.
    NoDbLine,
    /// The target isn't 1 to 19 digits.
    TargetNumber,
    /// It is meant for files of one target, which is not 0.
    Target(u64),
    /// It is meant for HTML that was normalised.
    Html,
    /// It is meant for mail.
    Mail,
    /// It is meant for text that was normalised.
    Text,
    /// The offset isn't 1 to 19 digits, or two such numbers with a comma.
    OffsetNumber,
    /// The place is counted from the end, an entry or a section.
    Counted,
    /// The last place is past 1,048,574: from 1,048,575 on a signature file has no bound.
    Far,
    /// The first place of a range is behind its last one.
    NoPlace,
    /// There are no bytes.
    NoBytes,
    /// The bytes have alternatives or gaps.
    Wildcards,
    /// What should be hexadecimal digits is something else.
    NotHexadecimal,
    /// The digits are odd in number.
    HalfByte,
    /// There are more than 64 bytes.
    TooLong,
    /// It is bound to places, and the file is to be of format 1.
    Ranged,
    /// With it there would be more than 1,024 signatures.
    ManySignatures,
    /// With it there would be more than 16,384 bytes.
    ManyBytes,
    /// A hex string of a YARA file has no end.
    HexEnd,
    /// A regular expression of a YARA file has no end.
    ExpressionEnd,
    /// A YARA rule is private.
    Private,
    /// The YARA file has a global rule.
    Global,
    /// A YARA rule has no condition.
    NoCondition,
    /// A YARA rule has more than 1,024 strings.
    ManyStrings,
    /// A condition is no `or` of strings.
    Condition,
    /// A condition names a string that the rule has not.
    NoString,
    /// A condition wants more than one string.
    Several,
    /// A place in a condition is no number.
    PlaceNumber,
    /// A string is a regular expression.
    Expression,
    /// A text has an escape that YARA has not.
    Escape,
    /// A string has this modifier.
    Nocase,
    Fullword,
    Xor,
    Base64,
}
