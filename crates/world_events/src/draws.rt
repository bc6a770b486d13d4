//! Numbers that are drawn one after another.
ghost use Rattle.std.specs.Prelude.{◌≡◌};
ghost use Rattle.world_events.specs.Draws.{next_state, drawn, lot_from, state_after_lot};

/// A state of 64 bits, from which numbers are drawn.
#[derive(Clone, Copy, Debug)]
pub struct Draws {
    pub state: u64,
}

/// Four numbers, drawn in this order.
#[derive(Clone, Copy, Debug)]
pub struct Lot {
    pub folder: u64,
    pub act: u64,
    pub pick: u64,
    pub other: u64,
}

const FACTOR: u64 = 6364136223846793005;

const STEP: u64 = 1442695040888963407;

impl Draws {
    // Draws a number: the upper 31 bits of the next state.
    #[tactic(auto, using(crate::proofs::DrawLemmas::next_state_wrapped))]
    fn draw(&mut self) -> u64
        ensures state { self.new.state ≡ next_state self.old.state }
        ensures answer { result ≡ drawn (next_state self.old.state) }
    {
        self.state = self.state.wrapping_mul(FACTOR).wrapping_add(STEP);
        self.state / (1 << 33)
    }

    /// Draws four numbers.
    pub fn lot(&mut self) -> Lot
        ensures state { self.new.state ≡ state_after_lot self.old.state }
        ensures answer { result ≡ lot_from self.old.state }
    {
        Lot {
            folder: self.draw(),
            act: self.draw(),
            pick: self.draw(),
            other: self.draw(),
        }
    }
}
