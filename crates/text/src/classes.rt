// The class of a byte (01, "In text": each of the 256 byte values has one class).
ghost use Rattle.std.specs.Prelude.{◌≡◌};
ghost use Rattle.text.specs.Classes.{class_of, class_number};

// The classes of bytes.
#[derive(Clone, Copy, PartialEq, Eq)]
pub(crate) enum Class {
    Digit,
    Space,
    Ampersand,
    Bar,
    LeftParenthesis,
    RightParenthesis,
    LeftBracket,
    RightBracket,
    Dot,
    Other,
}

// The number of the class of each of the 256 byte values: a table is the form that it is to have (docs/DECISIONS.md, "Forms that 01 names").
static NUMBERS: [u8; 256] = [
    9, 9, 9, 9, 9, 9, 9, 9, 9, 9, 9, 9, 9, 9, 9, 9, 9, 9, 9, 9, 9, 9, 9, 9, 9, 9, 9, 9, 9, 9, 9, 9,
    1, 9, 9, 9, 9, 9, 2, 9, 4, 5, 9, 9, 9, 9, 8, 9, 0, 0, 0, 0, 0, 0, 0, 0, 0, 0, 9, 9, 9, 9, 9, 9,
    9, 9, 9, 9, 9, 9, 9, 9, 9, 9, 9, 9, 9, 9, 9, 9, 9, 9, 9, 9, 9, 9, 9, 9, 9, 9, 9, 6, 9, 7, 9, 9,
    9, 9, 9, 9, 9, 9, 9, 9, 9, 9, 9, 9, 9, 9, 9, 9, 9, 9, 9, 9, 9, 9, 9, 9, 9, 9, 9, 9, 3, 9, 9, 9,
    9, 9, 9, 9, 9, 9, 9, 9, 9, 9, 9, 9, 9, 9, 9, 9, 9, 9, 9, 9, 9, 9, 9, 9, 9, 9, 9, 9, 9, 9, 9, 9,
    9, 9, 9, 9, 9, 9, 9, 9, 9, 9, 9, 9, 9, 9, 9, 9, 9, 9, 9, 9, 9, 9, 9, 9, 9, 9, 9, 9, 9, 9, 9, 9,
    9, 9, 9, 9, 9, 9, 9, 9, 9, 9, 9, 9, 9, 9, 9, 9, 9, 9, 9, 9, 9, 9, 9, 9, 9, 9, 9, 9, 9, 9, 9, 9,
    9, 9, 9, 9, 9, 9, 9, 9, 9, 9, 9, 9, 9, 9, 9, 9, 9, 9, 9, 9, 9, 9, 9, 9, 9, 9, 9, 9, 9, 9, 9, 9,
];

// The number of a byte's class, as the table has it.
fn number(b: u8) -> u8
    ensures { result ≡ class_of b }
{
    NUMBERS[usize::from(b)]
}

impl Class {
    // The class of a byte.
    pub(crate) fn of(b: u8) -> Class
        ensures { class_number result ≡ class_of b }
    {
        match number(b) {
            0 => Class::Digit,
            1 => Class::Space,
            2 => Class::Ampersand,
            3 => Class::Bar,
            4 => Class::LeftParenthesis,
            5 => Class::RightParenthesis,
            6 => Class::LeftBracket,
            7 => Class::RightBracket,
            8 => Class::Dot,
            _ => Class::Other,
        }
    }
}
