//! The position of the next line in a text of a bridge.
ghost use Rattle.std.specs.Prelude.{◌≡◌};
ghost use Rattle.frame_bridge.specs.Judge.{position_of};

use crate::forms::Form;

/// The kind of the next line.
#[derive(Clone, Copy, Debug, PartialEq, Eq)]
pub enum Position {
    AtVersion,
    AtPorts,
    AtRounds,
    AtBegin,
    AtFrames,
    Ended,
}

impl Position {
    /// Returns the position at which lines of the form can be.
    pub fn of(form: Form) -> Position
        ensures { result ≡ position_of form }
    {
        match form {
            Form::Version => Position::AtVersion,
            Form::Ports => Position::AtPorts,
            Form::Rounds => Position::AtRounds,
            Form::Begin => Position::AtBegin,
            _ => Position::AtFrames,
        }
    }
}
