// Pieces of which the picture's text is made.
use std::fmt;

// How many signals there are: no `s` behind the name of one.
#[derive(Clone, Copy)]
pub struct Signals(pub u32);

impl fmt::Display for Signals {
    fn fmt<W: fmt::Write>(&self, f: &mut fmt::Formatter<W>) -> fmt::Result {
        match self.0 {
            1 => write!(f, "1 signal"),
            n => write!(f, "{n} signals"),
        }
    }
}

// A colour as red, green and blue, two digits each.
#[derive(Clone, Copy)]
pub struct Fill(pub u32);

impl fmt::Display for Fill {
    fn fmt<W: fmt::Write>(&self, f: &mut fmt::Formatter<W>) -> fmt::Result {
        write!(f, "fill=\"#{:06x}\"", self.0)
    }
}
