// A tank card: a tank and its limit in litres.
ghost use Rattle.std.specs.Prelude.{Some};
ghost use Rattle.blend.specs.Codes.{card_code, card_at};
ghost use Rattle.blend.specs.Texts.{card_words};
ghost use Rattle.blend.specs.declared.item.Kind.TheVariants as kind;
ghost use Rattle.std.proofs.Common.{rules};

use super::body::Body;
use super::item::Kind;
use super::quantity::MOST_LITRES;
use super::refusal::Refusal;
use std::fmt;

#[derive(Clone, Copy, PartialEq, Eq, Debug)]
pub struct TankCard {
    pub tank: u8,
    pub limit: u32,
}

// 2^54: the tank stands above the limit's 54 bits.
const TANK_UNIT: u64 = 1 << 54;

impl Body for TankCard {
    ghost kinds = { kind.TankCard };

    ghost codes = { card_code };

    ghost decodes = { card_at };

    ghost back = { Prim.search rules };

    ghost forth = { Prim.search rules };

    fn kind() -> Kind {
        Kind::TankCard
    }

    fn code(&self) -> Result<u64, Refusal> {
        if self.tank == 0 || self.limit > MOST_LITRES {
            return Err(Refusal::NoBody);
        }
        Ok(u64::from(self.tank) * TANK_UNIT + u64::from(self.limit))
    }

    fn decode(code: u64) -> Option<TankCard> {
        let tank = u8::try_from(code / TANK_UNIT).ok()?;
        let limit = u32::try_from(code % TANK_UNIT).ok()?;
        if tank == 0 || limit > MOST_LITRES {
            return None;
        }
        Some(TankCard { tank, limit })
    }
}

impl fmt::Display for TankCard {
    ghost output = { λ card. Some (card_words (Some card)) };

    fn fmt<W: fmt::Write>(&self, f: &mut fmt::Formatter<W>) -> fmt::Result {
        let TankCard { tank, limit } = *self;
        write!(f, "tank {tank} limit {limit}")
    }
}
