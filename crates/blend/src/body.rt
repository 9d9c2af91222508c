// One interface for every kind of body: its kind, its coding as one number, its decoding.
ghost use Rattle.std.specs.Prelude.{◌≡◌, ℕ, is_some, Some, Option};
ghost use Rattle.blend.specs.declared.item.Kind.{Kind as KindOf};
ghost use Rattle.blend.specs.Codes.{coded};
ghost use Rattle.blend.specs.Fitting.{fits_kind, fits, OfABody};

use super::card::TankCard;
use super::item::{Kind, kind_of};
use super::line_up::LineUp;
use super::quantity::Quantity;
use super::refusal::Refusal;

// A code decodes to a body exactly when that body codes to it.
pub trait Body: Sized {
    ghost kinds: { KindOf };

    ghost codes: { Self → Option ℕ };

    ghost decodes: { ℕ → Option Self };

    fn kind() -> Kind
        ensures { result ≡ kinds };

    // The code of the body, or refusal 15 where its fields make no body.
    fn code(&self) -> Result<u64, Refusal>
        ensures { result ≡ coded (codes self.now) };

    // The body of a code, absent for none.
    fn decode(code: u64) -> Option<Self>
        ensures { result ≡ decodes code };

    ghost back: { (c : ℕ) (b : Self) → decodes c ≡ Some b → codes b ≡ Some c };

    ghost forth: { (c : ℕ) (b : Self) → codes b ≡ Some c → decodes c ≡ Some b };
}

// Whether a code is of a body of the kind B.
pub fn is_code_of<B: Body + Drop>(code: u64) -> bool
    ensures { result ≡ is_some (B.Body.decodes code) }
{
    B::decode(code).is_some()
}

impl Kind {
    // Whether a code is of a body of the kind.
    pub fn takes(self, code: u64) -> bool
        ensures { result ≡ fits_kind self code }
    {
        match self {
            Kind::Quantity => is_code_of::<Quantity>(code),
            Kind::LineUp => is_code_of::<LineUp>(code),
            Kind::TankCard => is_code_of::<TankCard>(code),
        }
    }
}

// Whether a code is of a body of its item's kind.
pub fn fits_item(item: u8, code: u64) -> bool
    ensures { result ≡ fits item code }
{
    kind_of(item).is_some_and(|kind| kind.takes(code))
}

// The same answer by its meaning: yes exactly where some body of the item's kind has the code.
#[tactic(auto, using(crate::proofs::Coding::fits_means))]
pub fn is_some_body(item: u8, code: u64) -> bool
    ensures { OfABody item code result }
{
    fits_item(item, code)
}
