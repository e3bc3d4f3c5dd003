// How what a call is answered is put into words: one line, without its end.
ghost use Rattle.std.specs.Prelude.{Some};
ghost use Rattle.std.specs.List.{flat_map};
ghost use Rattle.std.specs.Fmt.{WritesOnOk};
ghost use Rattle.subject.specs.Wording.{spaced, answer_line, denial_line};

use crate::answer::Answer;
use crate::denial::Denial;
use std::fmt;

// Writes each option behind a space.
fn write_options<W: fmt::Write>(options: &[u8], f: &mut fmt::Formatter<W>) -> fmt::Result
    ensures { WritesOnOk W.write_str_gives f.old result (flat_map spaced options.now) f.new }
{
    for option in options {
        write!(f, " {option}")?;
    }
    Ok(())
}

impl fmt::Display for Answer {
    ghost output = { λ a. Some (answer_line a) };

    fn fmt<W: fmt::Write>(&self, f: &mut fmt::Formatter<W>) -> fmt::Result {
        match self {
            Answer::Count(n) => write!(f, "ok {n}"),
            Answer::Options(n) => write!(f, "ok {n}"),
            Answer::Plan(plan) => {
                write!(f, "plan")?;
                write_options(plan.as_slice(), f)
            }
            Answer::NoPlan => write!(f, "none"),
            Answer::Done => write!(f, "ok"),
        }
    }
}

impl fmt::Display for Denial {
    ghost output = { λ d. Some (denial_line d) };

    fn fmt<W: fmt::Write>(&self, f: &mut fmt::Formatter<W>) -> fmt::Result {
        let number = self.number();
        write!(f, "no {number}")
    }
}
