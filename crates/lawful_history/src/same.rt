//! Whether two lines are equal.
ghost use Rattle.std.specs.Prelude.{◌≡◌, ◌↔◌, IsTrue};

use crate::line::Line;

/// Whether `$found` is a line of the same kind as `$line` with equal fields. Each kind has its
/// fields, and each field a name for that of `$found`.
macro_rules! same {
    ($line:ident, $found:ident; $($kind:ident { $($field:ident $other:ident),* })*) => {
        match $line {
            $(Line::$kind { $($field),* } => match $found {
                Line::$kind { $($field: $other),* } => true $(&& $field == $other)*,
                _ => false,
            },)*
        }
    };
}

impl Line {
    /// Whether the two lines are equal.
    // claim: Two lines are the same exactly if they are equal, field by field.
    pub fn same(&self, found: &Line) -> bool
        ensures { IsTrue result ↔ self.now ≡ found.now }
    {
        let line = self;
        same! {
            line, found;
            Read { peer p, word w, value v }
            Write { peer p, word w, value v }
            Denied { peer p, word w }
            State { peer p, value v }
            Doorbell { peer p, target t, vector v }
            Interrupt { peer p, vector v }
            Lost { peer p, vector v }
            Reset { peer p }
            Idle { peer p }
            ConfigRead { peer p, offset o, width w, value v }
            ConfigWrite { peer p, offset o, width w, value v }
            RegisterRead { peer p, offset o, value v }
            RegisterWrite { peer p, offset o, value v }
            MsixRead { peer p, offset o, value v }
            MsixWrite { peer p, offset o, value v }
            Saw { peer p, value v }
            Reclaim { peer p, count c }
            Look { peer p, count c }
            Full { peer p }
            Done { peer p }
            Over { peer p }
            Down { peer p }
            Accept { peer p, frame f }
            Deliver { peer p, frame f }
            Return { peer p }
            Refuse { peer p, refused r }
            Session { peer p, opened s, other o }
        }
    }
}
