// The permit over what a read shows: yes exactly where a line-up, a quantity and a tank card are there, the card is of the line-up's
// destination, and the volume is at most the card's limit.
ghost use Rattle.std.specs.Prelude.{◌≡◌};
ghost use Rattle.protocol.specs.Permit.{permits as permitted, Permit};

use blend::{LineUp, Quantity, TankCard};

pub fn permits(line_up: Option<LineUp>, quantity: Option<Quantity>, card: Option<TankCard>) -> bool
    ensures value { result ≡ permitted line_up quantity card }
    ensures meaning { Permit line_up quantity card result }
{
    let (Some(line_up), Some(quantity), Some(card)) = (line_up, quantity, card) else {
        return false;
    };
    card.tank == line_up.destination && quantity.litres <= card.limit
}
