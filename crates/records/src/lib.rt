// The records of a box: which bytes are one, and where its fields stand. A record is a code, and then fields by the shapes of its code.
#![tactic(auto)]

ghost use Rattle.std.specs.Prelude.{◌≡◌, ◌<◌, ◌≤◌, [], ◌∷◌, length, get_or};
ghost use Rattle.records.specs.Records.{most_fields, lead, size, PartedIs, AloneIs};
ghost use Rattle.records.specs.Walk.{ShapesAre, FieldIs, WalkIs};

// The most fields that a record has.
pub const MOST_FIELDS: usize = 8;

// The shape of a field: a byte; bytes after their number, in one byte or in two with the low byte first; four bytes.
#[derive(Clone, Copy, PartialEq, Eq, Debug)]
pub enum Shape {
    Byte,
    Short,
    Long,
    Quad,
}

// Where a field stands: from a place, up to another.
#[derive(Clone, Copy, PartialEq, Eq, Debug)]
pub struct Span {
    pub from: usize,
    pub to: usize,
}

// A record of the table: its code, where each of its fields stands, and where it ends. A field that it does not have is from 0 up to 0.
// (Room for the most fields: memory is fixed.)
#[derive(Clone, Copy, PartialEq, Eq, Debug)]
pub struct Record {
    pub code: u8,
    pub fields: [Span; MOST_FIELDS],
    pub end: usize,
}

// The table: the shapes of the fields of a record with this code.
fn shapes_of(code: u8) -> Option<&'static [Shape]>
    ensures { ShapesAre code result }
{
    use Shape::{Byte, Long, Short};

    match code {
        1 => Some(&[Byte, Byte]),
        2 => Some(&[Byte]),
        3 => Some(&[Byte, Byte, Byte]),
        4 => Some(&[Byte, Byte, Byte, Short, Short]),
        5 => Some(&[Byte, Byte, Byte, Short, Short]),
        6 => Some(&[Long]),
        0x10 => Some(&[Short]),
        _ => None,
    }
}

impl Shape {
    // How many bytes of number stand before a field.
    fn lead(self) -> usize
        ensures { (result ≡ lead self) × (result ≤ 2) }
    {
        match self {
            Shape::Byte | Shape::Quad => 0,
            Shape::Short => 1,
            Shape::Long => 2,
        }
    }

    // How many bytes a field has, by the first two that stand there.
    fn size(self, low: u8, high: u8) -> usize
        ensures { (result ≡ size self (low ∷ high ∷ [])) × (result < 65536) }
    {
        match self {
            Shape::Byte => 1,
            Shape::Short => low as usize,
            Shape::Long => fields::low_first(low, high),
            Shape::Quad => 4,
        }
    }
}

// The byte at a place. Past the end, 0.
fn byte_at(bytes: &[u8], at: usize) -> u8
    ensures { result ≡ get_or bytes.now at 0 }
{
    bytes.get(at).copied().unwrap_or(0)
}

// Where the field of a shape stands that begins at a place, if all of it is there.
fn read_field(bytes: &[u8], at: usize, shape: Shape) -> Option<Span>
    requires { at ≤ length bytes.now }
    ensures { FieldIs shape bytes.now at result }
{
    let lead = shape.lead();
    if bytes.len() - at < lead {
        return None;
    }
    let from = at + lead;
    let size = shape.size(byte_at(bytes, at), byte_at(bytes, at + 1));
    if bytes.len() - from < size {
        return None;
    }
    Some(Span {
        from,
        to: from + size,
    })
}

// The record with this code and fields of these shapes, one after another behind the code.
fn walk(bytes: &[u8], code: u8, shapes: &[Shape]) -> Option<Record>
    requires { (0 < length bytes.now) × (length shapes.now ≤ most_fields) }
    ensures { WalkIs bytes.now code shapes.now result }
{
    let mut fields = [Span { from: 0, to: 0 }; MOST_FIELDS];
    let mut end = 1;
    for (i, shape) in shapes.iter().enumerate() {
        let span = read_field(bytes, end, *shape)?;
        fields[i] = span;
        end = span.to;
    }
    Some(Record { code, fields, end })
}

// The record at the front of these bytes.
pub fn read_record(bytes: &[u8]) -> Option<Record>
    ensures { PartedIs bytes.now result }
{
    let &code = bytes.first()?;
    walk(bytes, code, shapes_of(code)?)
}

// The record that these bytes are, with nothing after it.
pub fn read_alone(bytes: &[u8]) -> Option<Record>
    ensures { AloneIs bytes.now result }
{
    let found = read_record(bytes)?;
    if found.end < bytes.len() {
        return None;
    }
    Some(found)
}
