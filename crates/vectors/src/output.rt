// What a call tells, and the lines of output.
use answer::Answer;
use securon::SecuronSet;
use std::io::Write;
use std::{fmt, io};

#[derive(Clone, Copy)]
pub(crate) enum Told {
    Answer(Answer),
    Members(SecuronSet),
    Met(bool),
    // The numbers of five requests, and of five others.
    Numbers([u8; 5], [u8; 5]),
}

impl fmt::Display for Told {
    fn fmt<W: fmt::Write>(&self, f: &mut fmt::Formatter<W>) -> fmt::Result {
        match self {
            Told::Answer(answer) => {
                let number = answer.number;
                let place = answer.place;
                write!(f, " {number} {place}")
            }
            Told::Members(set) => {
                for (k, has) in set.has.iter().enumerate() {
                    if *has {
                        write!(f, " {k}")?;
                    }
                }
                Ok(())
            }
            Told::Met(true) => f.write_str(" met"),
            Told::Met(false) => f.write_str(" not met"),
            Told::Numbers(some, others) => {
                for number in some {
                    write!(f, " {number}")?;
                }
                f.write_str(";")?;
                for number in others {
                    write!(f, " {number}")?;
                }
                Ok(())
            }
        }
    }
}

// The line of a case: its name, and what its call tells.
pub(crate) fn write_line<W: Write>(out: &mut W, name: &[u8], told: &Told) -> io::Result<()> {
    out.write_all(name)?;
    writeln!(out, ":{told}")
}
