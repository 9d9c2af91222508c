// A quantity: a volume in litres and a rate in litres a minute.
ghost use Rattle.std.specs.Prelude.{Some};
ghost use Rattle.blend.specs.Codes.{quantity_code, quantity_at};
ghost use Rattle.blend.specs.Texts.{quantity_words};
ghost use Rattle.blend.specs.declared.item.Kind.TheVariants as kind;
ghost use Rattle.std.proofs.Common.{rules};

use super::body::Body;
use super::item::Kind;
use super::refusal::Refusal;
use std::fmt;

#[derive(Clone, Copy, PartialEq, Eq, Debug)]
pub struct Quantity {
    pub litres: u32,
    pub rate: u16,
}

pub const MOST_LITRES: u32 = 99_999_999;

impl Body for Quantity {
    ghost kinds = { kind.Quantity };

    ghost codes = { quantity_code };

    ghost decodes = { quantity_at };

    ghost back = { Prim.search rules };

    ghost forth = { Prim.search rules };

    fn kind() -> Kind {
        Kind::Quantity
    }

    fn code(&self) -> Result<u64, Refusal> {
        if self.litres > MOST_LITRES {
            return Err(Refusal::NoBody);
        }
        Ok(u64::from(self.litres) * 65536 + u64::from(self.rate))
    }

    fn decode(code: u64) -> Option<Quantity> {
        let litres = u32::try_from(code / 65536).ok()?;
        if litres > MOST_LITRES {
            return None;
        }
        Some(Quantity {
            litres,
            // The check proves that no bit is lost: `try_from` would add a case that cannot come.
            rate: (code % 65536) as u16,
        })
    }
}

impl fmt::Display for Quantity {
    ghost output = { λ quantity. Some (quantity_words (Some quantity)) };

    fn fmt<W: fmt::Write>(&self, f: &mut fmt::Formatter<W>) -> fmt::Result {
        let Quantity { litres, rate } = *self;
        write!(f, "volume {litres} rate {rate}")
    }
}
