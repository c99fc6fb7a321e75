//! The position of the next line in a text of ports.
ghost use Rattle.std.specs.Prelude.{◌≡◌};
ghost use Rattle.port_text.specs.Judge.{position_of};

use crate::forms::Form;

/// The kind of the next line.
#[derive(Clone, Copy, Debug, PartialEq, Eq)]
pub enum Position {
    AtVersion,
    AtPeers,
    AtOut,
    AtLongest,
    AtPeer,
    AtBegin,
    AtActs,
    Ended,
}

impl Position {
    /// Returns the position at which lines of the form can be.
    pub fn of(form: Form) -> Position
        ensures { result ≡ position_of form }
    {
        match form {
            Form::Version => Position::AtVersion,
            Form::Peers => Position::AtPeers,
            Form::Out => Position::AtOut,
            Form::Longest => Position::AtLongest,
            Form::Honest | Form::Hostile => Position::AtPeer,
            Form::Begin => Position::AtBegin,
            _ => Position::AtActs,
        }
    }
}
