// The estimators that a line may name, and what they answer.
ghost use Rattle.std.specs.Prelude.{◌≡◌};
ghost use Rattle.script.specs.Asked.{basic_answer, asked_answer};
ghost use Rattle.script.specs.NamedEstimatorLemmas.{basic_sound, basic_plain, asked_sound, asked_plain};
ghost use Rattle.script.specs.Names.{basic_name, name_of, NamedBy, is_lmcut, needs_lmcut};

use crate::words::LineFault;
use estimate::estimate::Estimate;
use estimate::estimator::Estimator;
use estimate::simple::*;
use std::str::FromStr;
use task::accepted::Task;
use task::state::State;

// An estimator that is made of no others.
#[derive(Clone, Copy)]
pub enum Basic {
    Zero,
    Floor,
    LmCut,
}

// An estimator that a line names.
#[derive(Clone, Copy)]
pub enum Asked {
    One(Basic),
    Larger(Basic, Basic),
}

impl FromStr for Basic {
    type Err = LineFault;

    ghost from_str_gives = { NamedBy basic_name };

    fn from_str(name: &str) -> Result<Basic, LineFault> {
        match name {
            "zero" => Ok(Basic::Zero),
            "floor" => Ok(Basic::Floor),
            "lmcut" => Ok(Basic::LmCut),
            _ => Err(LineFault::Malformed),
        }
    }
}

impl FromStr for Asked {
    type Err = LineFault;

    ghost from_str_gives = { NamedBy name_of };

    fn from_str(name: &str) -> Result<Asked, LineFault> {
        let Some(rest) = name.strip_prefix("larger(") else {
            return Ok(Asked::One(name.parse()?));
        };
        let names = rest.strip_suffix(")").ok_or(LineFault::Malformed)?;
        let (first, second) = names.split_once(',').ok_or(LineFault::Malformed)?;
        Ok(Asked::Larger(first.parse()?, second.parse()?))
    }
}

impl Basic {
    fn is_lmcut(self) -> bool
        ensures { result ≡ is_lmcut self }
    {
        matches!(self, Basic::LmCut)
    }
}

impl Asked {
    // Whether the answer rests on LM-cut.
    pub(crate) fn needs_lmcut(self) -> bool
        ensures { result ≡ needs_lmcut self }
    {
        match self {
            Asked::One(basic) => basic.is_lmcut(),
            Asked::Larger(first, second) => first.is_lmcut() || second.is_lmcut(),
        }
    }
}

impl Estimator for Basic {
    ghost answer = { basic_answer };

    ghost sound = { basic_sound };

    ghost plain = { basic_plain };

    fn ask(&self, task: &Task, state: &State) -> Estimate {
        match self {
            Basic::Zero => Zero.ask(task, state),
            Basic::Floor => Floor.ask(task, state),
            Basic::LmCut => lmcut::estimator::LmCut.ask(task, state),
        }
    }
}

impl Estimator for Asked {
    ghost answer = { asked_answer };

    ghost sound = { asked_sound };

    ghost plain = { asked_plain };

    fn ask(&self, task: &Task, state: &State) -> Estimate {
        match *self {
            Asked::One(basic) => basic.ask(task, state),
            Asked::Larger(first, second) => LargerOf { first, second }.ask(task, state),
        }
    }
}
