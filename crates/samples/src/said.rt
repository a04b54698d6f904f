// How an estimate is printed.
ghost use Rattle.std.specs.Prelude.{Some};
ghost use Rattle.samples.specs.Texts.{estimate_text};

use estimate::estimate::Estimate;
use std::fmt;

#[derive(Clone, Copy)]
pub struct Said(pub Estimate);

impl fmt::Display for Said {
    ghost output = { λ said. Some (estimate_text said.0) };

    fn fmt<W: fmt::Write>(&self, f: &mut fmt::Formatter<W>) -> fmt::Result {
        match self.0 {
            Estimate::AtLeast(n) => write!(f, "at least {n}"),
            Estimate::Dead => f.write_str("dead"),
        }
    }
}
