// A text read byte by byte (01, "In text").
ghost use Rattle.std.specs.Prelude.{◌≡◌, ◌≤◌, ◌<◌, true, length, IfOk, IfErr};
ghost use Rattle.std.specs.List.{prefix_len};
ghost use Rattle.text.specs.Reader.{stands_next, next_byte, read_on, read_as, PastByte, Stops, Spaced, Counts, Good};
ghost use Rattle.text.specs.Reader.{Signed, Dotted, Numbered, Ranged, Item, Ands, Ors, Whole};
ghost use Rattle.text.specs.Classes.{class_number, value, is_space, lbra, digit as Classes·digit};

use crate::classes::Class;
use crate::made::Made;
use expression::{AND, ONE, OR, RANGE};

// The first place where no legal text goes on.
#[derive(Clone, Copy)]
pub(crate) struct Fault {
    pub(crate) at: usize,
}

// A text that is read up to `at`, and the bytes that it has made so far.
#[derive(Drop)]
struct Reader<'a> {
    text: &'a [u8],
    at: usize,
    made: Made,
}

impl<'a> Reader<'a> {
    // Whether a byte of the class stands next.
    fn stands(&self, class: Class) -> bool
        ensures { result ≡ stands_next self.now (class_number class) }
    {
        match self.text.get(self.at) {
            Some(b) => Class::of(*b) == class,
            None => false,
        }
    }

    // Past the next byte, which has to be of the class.
    fn byte(&mut self, class: Class) -> Result<u8, Fault>
        ensures passes { IfOk result (λ b. PastByte self.old (class_number class) self.new × (b ≡ next_byte self.old)) }
        ensures stops { IfErr result (λ f. Stops self.old (class_number class) self.new f) }
    {
        match self.text.get(self.at) {
            Some(b) if Class::of(*b) == class => {
                self.at += 1;
                Ok(*b)
            }
            _ => Err(Fault { at: self.at }),
        }
    }

    // Past the spaces that stand next.
    fn skip(&mut self)
        requires { self.old.at ≤ length self.old.text.now }
        ensures { Spaced self.old self.new }
    {
        self.at += spaces(&self.text[self.at..]);
    }

    // What the digit counts that stands next.
    fn digit(&mut self) -> Result<u8, Fault>
        ensures passes { IfOk result (λ d. PastByte self.old Classes·digit self.new × (d ≡ value (next_byte self.old)) × (d < 10)) }
        ensures stops { IfErr result (λ f. Stops self.old Classes·digit self.new f) }
    {
        let b = self.byte(Class::Digit)?;
        Ok(b - b'0')
    }

    // A number: one digit, or two, of which the first is not 0.
    fn digits(&mut self) -> Result<u8, Fault>
        ensures counts { IfOk result (λ n. Counts self.old n self.new) }
        ensures stops { IfErr result (λ f. Stops self.old Classes·digit self.new f) }
    {
        let first = self.digit()?;
        if first == 0 {
            return Ok(first);
        }
        match self.digit() {
            Ok(second) => Ok(10 * first + second),
            Err(_) => Ok(first),
        }
    }

    // The sign of the class, and the spaces after it.
    fn sign(&mut self, class: Class) -> Result<(), Fault>
        requires { self.old.at ≤ length self.old.text.now }
        ensures { Signed (read_on self.old) (class_number class) (read_as self.new result) }
    {
        self.byte(class)?;
        self.skip();
        Ok(())
    }

    // Two dots, with nothing between them.
    fn dots(&mut self) -> Result<(), Fault>
        requires { Good (read_on self.old) }
        ensures { Dotted (read_on self.old) (read_as self.new result) }
    {
        self.byte(Class::Dot)?;
        self.sign(Class::Dot)
    }

    // A number, and the spaces after it.
    fn number(&mut self) -> Result<(), Fault>
        requires { self.old.at ≤ length self.old.text.now }
        ensures { Numbered (read_on self.old) (read_as self.new result) }
    {
        let n = self.digits()?;
        self.skip();
        self.made.push(n);
        Ok(())
    }

    // The rest of number[number..number], from its bracket on.
    fn range(&mut self) -> Result<(), Fault>
        requires { Good (read_on self.old) × (stands_next self.old lbra ≡ true) }
        ensures { Ranged (read_on self.old) (read_as self.new result) }
    {
        self.sign(Class::LeftBracket)?;
        self.number()?;
        self.dots()?;
        self.number()?;
        self.sign(Class::RightBracket)
    }

    // A number, number[number..number], or parentheses round a whole text again.
    #[cycle(and_level_item_or_level)]
    fn item(&mut self) -> Result<(), Fault>
        requires { Good (read_on self.old) }
        ensures { Item (read_on self.old) (read_as self.new result) }
    {
        let start = self.made.count;
        if self.stands(Class::LeftParenthesis) {
            self.sign(Class::LeftParenthesis)?;
            self.or_level(start)?;
            return self.sign(Class::RightParenthesis);
        }
        self.number()?;
        if self.stands(Class::LeftBracket) {
            self.range()?;
            self.made.insert(start, RANGE);
        } else {
            self.made.insert(start, ONE);
        }
        Ok(())
    }

    // Items joined by &; the bytes made from start on are those to the left of the first.
    #[cycle(and_level_item_or_level)]
    fn and_level(&mut self, start: usize) -> Result<(), Fault>
        requires { Good (read_on self.old) }
        ensures { Ands start (read_on self.old) (read_as self.new result) }
    {
        self.item()?;
        if self.stands(Class::Ampersand) {
            self.sign(Class::Ampersand)?;
            self.made.insert(start, AND);
            return self.and_level(start);
        }
        Ok(())
    }

    // Those joined by |.
    #[cycle(and_level_item_or_level)]
    fn or_level(&mut self, start: usize) -> Result<(), Fault>
        requires { Good (read_on self.old) }
        ensures { Ors start (read_on self.old) (read_as self.new result) }
    {
        let right = self.made.count;
        self.and_level(right)?;
        if self.stands(Class::Bar) {
            self.sign(Class::Bar)?;
            self.made.insert(start, OR);
            return self.or_level(start);
        }
        Ok(())
    }
}

// How many spaces stand at the front of the bytes.
fn spaces(bytes: &[u8]) -> usize
    ensures { result ≡ prefix_len is_space bytes.now }
{
    bytes
        .iter()
        .take_while(|b| Class::of(**b) == Class::Space)
        .count()
}

// The bytes of a whole text: it is blank, or joined items up to its end.
pub(crate) fn read(text: &[u8]) -> Result<Made, Fault>
    ensures { Whole text.now result }
{
    let mut reader = Reader {
        text,
        at: 0,
        made: Made::new(),
    };
    reader.skip();
    if reader.at == text.len() {
        return Ok(reader.made);
    }
    reader.or_level(0)?;
    if reader.at < text.len() {
        return Err(Fault { at: reader.at });
    }
    Ok(reader.made)
}
