//! The states in which a reader of JSON can stand between two bytes.

/// The kind of a bracket: of an array or of an object.
#[derive(Clone, Copy, Debug, PartialEq, Eq)]
pub enum Kind {
    Array,
    Object,
}

/// What a string is: a member's name, or a value.
#[derive(Clone, Copy, Debug, PartialEq, Eq)]
pub enum Role {
    Key,
    Item,
}

/// Where a string's reader stands: behind a whole character, behind a backslash, or with so many
/// hexadecimal digits to come.
#[derive(Clone, Copy, Debug, PartialEq, Eq)]
pub enum StringAt {
    Plain,
    Escaped,
    Four,
    Three,
    Two,
    One,
}

/// What was last read of a number.
#[derive(Clone, Copy, Debug, PartialEq, Eq)]
pub enum NumberAt {
    AfterMinus,
    AfterZero,
    InInteger,
    AfterPoint,
    InFraction,
    AfterE,
    AfterSign,
    InExponent,
}

/// The letters of `true`, `false` or `null` that are still to come.
#[derive(Clone, Copy, Debug, PartialEq, Eq)]
pub enum LiteralAt {
    Rue,
    Ue,
    Alse,
    Lse,
    Se,
    E,
    Ull,
    Ll,
    L,
}

/// What comes next: the outermost bracket, a list's first part or its end, a part behind a comma,
/// the colon behind a name, a value, what follows a value, or the rest of a string, number or literal.
#[derive(Clone, Copy, Debug, PartialEq, Eq)]
pub enum At {
    Begin(Kind),
    Fresh,
    Part,
    Colon,
    Value,
    After,
    Text(Role, StringAt),
    Number(NumberAt),
    Literal(LiteralAt),
}
