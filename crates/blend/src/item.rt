// Items are numbered 1 to 255, and the number says the kind. Item 0 is none.
ghost use Rattle.std.specs.Prelude.{◌≡◌, Some};
ghost use Rattle.blend.specs.Items.{kind_number, kind_at, of_kind};
ghost use Rattle.blend.specs.Texts.{kind_name};

use std::fmt;

#[derive(Clone, Copy, PartialEq, Eq, Debug)]
pub enum Kind {
    Quantity = 1,
    LineUp = 2,
    TankCard = 3,
}

impl Kind {
    pub fn number(self) -> u8
        ensures { result ≡ kind_number self }
    {
        self as u8
    }

    pub fn name(self) -> &'static str
        ensures { result.now ≡ kind_name self }
    {
        match self {
            Kind::Quantity => "quantity",
            Kind::LineUp => "line-up",
            Kind::TankCard => "tank card",
        }
    }
}

impl fmt::Display for Kind {
    ghost output = { λ kind. Some (kind_name kind) };

    fn fmt<W: fmt::Write>(&self, f: &mut fmt::Formatter<W>) -> fmt::Result {
        f.write_str(self.name())
    }
}

// The kind of an item, absent for item 0.
pub fn kind_of(item: u8) -> Option<Kind>
    ensures { result ≡ kind_at item }
{
    match item {
        0 => None,
        1..=99 => Some(Kind::Quantity),
        100..=199 => Some(Kind::LineUp),
        200..=255 => Some(Kind::TankCard),
    }
}

// Whether the item is of the kind.
pub fn is_of_kind(item: u8, kind: Kind) -> bool
    ensures { result ≡ of_kind item kind }
{
    kind_of(item) == Some(kind)
}
