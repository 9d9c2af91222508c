// A line-up: a source tank, a different destination tank, and 16 valve bits.
ghost use Rattle.std.specs.Prelude.{Some};
ghost use Rattle.blend.specs.Codes.{line_up_code, line_up_at};
ghost use Rattle.blend.specs.Texts.{line_up_words};
ghost use Rattle.blend.specs.declared.item.Kind.TheVariants as kind;
ghost use Rattle.std.proofs.Common.{rules};

use super::body::Body;
use super::item::Kind;
use super::refusal::Refusal;
use std::fmt;

#[derive(Clone, Copy, PartialEq, Eq, Debug)]
pub struct LineUp {
    pub source: u8,
    pub destination: u8,
    pub valves: u16,
}

impl Body for LineUp {
    ghost kinds = { kind.LineUp };

    ghost codes = { line_up_code };

    ghost decodes = { line_up_at };

    ghost back = { Prim.search rules };

    ghost forth = { Prim.search rules };

    fn kind() -> Kind {
        Kind::LineUp
    }

    fn code(&self) -> Result<u64, Refusal> {
        if self.source == 0 || self.destination == 0 || self.source == self.destination {
            return Err(Refusal::NoBody);
        }
        Ok(
            u64::from(self.source) * 16_777_216
                + u64::from(self.destination) * 65536
                + u64::from(self.valves),
        )
    }

    fn decode(code: u64) -> Option<LineUp> {
        let tanks = code / 65536;
        let source = u8::try_from(tanks / 256).ok()?;
        // The check proves that no bit is lost: `try_from` would add a case that cannot come.
        let destination = (tanks % 256) as u8;
        if source == 0 || destination == 0 || source == destination {
            return None;
        }
        Some(LineUp {
            source,
            destination,
            // The check proves that no bit is lost: `try_from` would add a case that cannot come.
            valves: (code % 65536) as u16,
        })
    }
}

impl fmt::Display for LineUp {
    ghost output = { λ line_up. Some (line_up_words (Some line_up)) };

    fn fmt<W: fmt::Write>(&self, f: &mut fmt::Formatter<W>) -> fmt::Result {
        let LineUp {
            source,
            destination,
            valves,
        } = *self;
        write!(f, "from {source} to {destination} valves {valves}")
    }
}
