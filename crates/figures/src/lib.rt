// The worked figures: computed by the code, and proved together from the definitions that the contracts cite.

#![tactic(auto)]

ghost use Rattle.std.specs.Prelude.{◌≡◌};
ghost use Rattle.figures.specs.Figures.{Figures, the_figures};

use blend::{Body, LineUp, Quantity, Refusal, stamp_of};

#[derive(Clone, Copy, PartialEq, Eq, Debug)]
pub struct Worked {
    pub last_stamp: Result<u32, Refusal>,
    pub quantity: Result<u64, Refusal>,
    pub line_up: Result<u64, Refusal>,
    pub too_much: Result<u64, Refusal>,
}

pub fn worked_figures() -> Worked
    ensures values { result ≡ the_figures }
    ensures stand { Figures }
{
    Worked {
        last_stamp: stamp_of(15, 268_435_455),
        quantity: Quantity {
            litres: 10,
            rate: 3,
        }
        .code(),
        line_up: LineUp {
            source: 1,
            destination: 2,
            valves: 3,
        }
        .code(),
        too_much: Quantity {
            litres: 100_000_000,
            rate: 3,
        }
        .code(),
    }
}
