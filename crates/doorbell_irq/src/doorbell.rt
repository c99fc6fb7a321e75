//! Offsets in the register page, and the two halves of a doorbell word.
ghost use Rattle.std.specs.Prelude.{◌≡◌, ◌<◌, ◌^◌};
ghost use Rattle.doorbell_irq.specs.Events.{doorbell_word, doorbell_target, doorbell_vector};

/// Offset of the Doorbell in the register page.
pub const REGISTER_DOORBELL: u32 = 0x0C;

/// Offset of State in the register page.
pub const REGISTER_STATE: u32 = 0x10;

/// Returns the doorbell word of a target and a vector.
// claim with doorbell_target, doorbell_vector, doorbell_words_have_two_halves.target,
//    doorbell_words_have_two_halves.vector, doorbell_words_have_two_halves.word: A word of the
//    Doorbell register has the target and the vector that it was made of, and is made of those that
//    it has.
pub fn doorbell_word(target: u32, vector: u32) -> u32
    requires target { target < 2 ^ 16 }
    requires vector { vector < 2 ^ 16 }
    ensures { result ≡ doorbell_word target vector }
{
    65536 * target + vector
}

/// Returns the target of a doorbell word. It may be no peer of the world.
pub fn doorbell_target(word: u32) -> u32
    ensures { result ≡ doorbell_target word }
{
    word / 65536
}

/// Returns the vector of a doorbell word.
pub fn doorbell_vector(word: u32) -> u32
    ensures { result ≡ doorbell_vector word }
{
    word % 65536
}
