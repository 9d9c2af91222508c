// A line of a sheet: an item and the code of its body.
ghost use Rattle.std.specs.Prelude.{◌≡◌};
ghost use Rattle.sheet.specs.Lines.{quantity_in, line_up_in, card_in, item_in, code_in, entry_in};

use super::fault::LineFault;
use blend::{Body, Kind, LineUp, Quantity, TankCard, kind_of};
use text::{Token, Word, token_at};

#[derive(Clone, Copy, PartialEq, Eq, Debug)]
pub struct Entry {
    pub item: u8,
    pub code: u64,
}

// The code of a quantity: volume N rate N.
fn quantity(line: &[Token]) -> Result<u64, LineFault>
    ensures { result ≡ quantity_in line.now }
{
    let [
        _,
        Token::Name(Word::Volume),
        Token::Number(litres),
        Token::Name(Word::Rate),
        Token::Number(rate),
    ] = *line
    else {
        return Err(LineFault::Fields);
    };
    let litres = u32::try_from(litres).map_err(|_| LineFault::Body)?;
    let rate = u16::try_from(rate).map_err(|_| LineFault::Body)?;
    Ok(Quantity { litres, rate }.code()?)
}

// The code of a line-up: from N to N valves N.
fn line_up(line: &[Token]) -> Result<u64, LineFault>
    ensures { result ≡ line_up_in line.now }
{
    let [
        _,
        Token::Name(Word::From),
        Token::Number(source),
        Token::Name(Word::To),
        Token::Number(destination),
        Token::Name(Word::Valves),
        Token::Number(valves),
    ] = *line
    else {
        return Err(LineFault::Fields);
    };
    let source = u8::try_from(source).map_err(|_| LineFault::Body)?;
    let destination = u8::try_from(destination).map_err(|_| LineFault::Body)?;
    let valves = u16::try_from(valves).map_err(|_| LineFault::Body)?;
    Ok(LineUp {
        source,
        destination,
        valves,
    }
    .code()?)
}

// The code of a tank card: tank N limit N.
fn tank_card(line: &[Token]) -> Result<u64, LineFault>
    ensures { result ≡ card_in line.now }
{
    let [
        _,
        Token::Name(Word::Tank),
        Token::Number(tank),
        Token::Name(Word::Limit),
        Token::Number(limit),
    ] = *line
    else {
        return Err(LineFault::Fields);
    };
    let tank = u8::try_from(tank).map_err(|_| LineFault::Body)?;
    let limit = u32::try_from(limit).map_err(|_| LineFault::Body)?;
    Ok(TankCard { tank, limit }.code()?)
}

// The item at the head of a line.
fn item_of(line: &[Token]) -> Result<u8, LineFault>
    ensures { result ≡ item_in line.now }
{
    let number = token_at(line, 0).number().ok_or(LineFault::Item)?;
    u8::try_from(number).map_err(|_| LineFault::Item)
}

// The code of the body that a line gives an item of a kind.
fn code_in(kind: Kind, line: &[Token]) -> Result<u64, LineFault>
    ensures { result ≡ code_in kind line.now }
{
    match kind {
        Kind::Quantity => quantity(line),
        Kind::LineUp => line_up(line),
        Kind::TankCard => tank_card(line),
    }
}

// The item and the code of a line.
pub fn read_entry(line: &[Token]) -> Result<Entry, LineFault>
    ensures { result ≡ entry_in line.now }
{
    let item = item_of(line)?;
    let kind = kind_of(item).ok_or(LineFault::Item)?;
    let code = code_in(kind, line)?;
    Ok(Entry { item, code })
}
