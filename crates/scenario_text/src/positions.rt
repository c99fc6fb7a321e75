//! The lines that can come next in a scenario's text.
ghost use Rattle.std.specs.Prelude.{◌≡◌};
ghost use Rattle.scenario_text.specs.Judge.{position_of};

use crate::forms::Form;

/// The kind of the next line: one of the head, an act or the end, or none.
#[derive(Clone, Copy, Debug, PartialEq, Eq)]
pub enum Position {
    AtVersion,
    AtPeers,
    AtTable,
    AtCommon,
    AtOut,
    AtMtu,
    AtWiring,
    AtPeer,
    AtBegin,
    AtActs,
    Ended,
}

impl Position {
    /// Returns the position at which lines of the form can be.
    pub fn of(form: Form) -> Position
        ensures { result ≡ position_of form }
    {
        match form {
            Form::Version => Position::AtVersion,
            Form::Peers => Position::AtPeers,
            Form::Table => Position::AtTable,
            Form::Common => Position::AtCommon,
            Form::Out => Position::AtOut,
            Form::Mtu => Position::AtMtu,
            Form::Msix | Form::Intx => Position::AtWiring,
            Form::Honest | Form::Hostile => Position::AtPeer,
            Form::Begin => Position::AtBegin,
            _ => Position::AtActs,
        }
    }
}
