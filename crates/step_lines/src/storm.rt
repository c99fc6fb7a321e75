//! A storm: generated writes in the turns of a hostile peer.
ghost use Rattle.std.specs.Prelude.{◌≡◌, ℕ, ◌+◌, ◌*◌, ◌/◌, ◌%◌, ◌<◌, ◌^◌};
ghost use Rattle.scenario_text.specs.Scenario.{World};
ghost use Rattle.lawful_history.specs.Storm.{next_number, draw, drawn_access, storm_step, storm_after};
ghost use Rattle.step_lines.specs.Storms.{IsStormOf, DrawsIn};

use section_map::Geometry;
use split_ring::Queue;
use split_ring::steps::Access;

/// A storm of one peer: the sizes that it draws from, and the state of its generator.
#[derive(Clone, Copy, Debug)]
pub struct Storm {
    /// The peer.
    pub peer: u32,
    /// The region.
    pub geometry: Geometry,
    /// The queue of a section.
    pub queue: Queue,
    /// The generator's state, initially the seed.
    pub at: u64,
}

/// Returns the generator's next number.
fn next(x: u64) -> u64
    ensures { result ≡ next_number x }
{
    x.wrapping_mul(6364136223846793005)
        .wrapping_add(1442695040888963407)
}

/// Returns the 32 bits that are drawn from a number.
fn drawn(x: u64) -> u32
    ensures { result ≡ draw x }
{
    (x / 0x1_0000_0000) as u32
}

impl Storm {
    /// Returns the access of three draws.
    fn access_of(&self, kind: u32, place: u32, value: u32) -> Access
        requires { (world : World) × IsStormOf world self.now }
        ensures { (world : World) → IsStormOf world self.now →
            result ≡ drawn_access world self.now.peer kind place value }
    {
        let start = self.geometry.section_start(self.peer);
        match kind % 4 {
            0 => Access::Write(start + place % self.geometry.out_words(), value),
            1 => Access::Write(start + place % (self.queue.payload() / 4), value),
            2 => Access::State(value % 8),
            _ => Access::Ring {
                target: place % self.geometry.peers(),
                vector: value % 4,
            },
        }
    }

    /// Returns the access of the next step, and advances the generator by three draws.
    // claim step, after: A storm draws its accesses by its generator.
    pub fn step(&mut self) -> Access
        requires { (world : World) × IsStormOf world self.old }
        ensures step { (world : World) → IsStormOf world self.old →
            DrawsIn world self.old.peer (storm_step world self.old.peer self.old.at) result }
        ensures after { self.new ≡ record self.old { at = storm_after self.old.at } }
    {
        let first = next(self.at);
        let second = next(first);
        let third = next(second);
        let access = self.access_of(drawn(first), drawn(second), drawn(third));
        self.at = third;
        access
    }
}
