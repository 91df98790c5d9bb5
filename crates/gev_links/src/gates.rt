use crate::gate::Gate;

/// A gate that nobody is held at.
#[derive(Clone, Copy, Drop)]
pub struct OpenGate;

impl Gate for OpenGate {
    fn pass(&self, _point: u8) {}
}

/// A gate that holds whoever passes one of its points, for a number of turns of an empty loop.
#[derive(Clone, Copy, Drop)]
pub struct HoldingGate {
    point: u8,
    turns: u32,
}

impl HoldingGate {
    /// A gate that holds at this point for so many turns.
    pub fn new(point: u8, turns: u32) -> HoldingGate {
        HoldingGate { point, turns }
    }
}

impl Gate for HoldingGate {
    fn pass(&self, point: u8) {
        if point == self.point {
            for _ in 0..self.turns {
                std::hint::spin_loop();
            }
        }
    }
}
