// The heading of a sheet: writer N sequence N.
ghost use Rattle.std.specs.Prelude.{◌≡◌};
ghost use Rattle.sheet.specs.Headings.{sequence_in, heading_in};

use super::fault::LineFault;
use blend::stamp_of;
use text::{Token, Word, field};

// The sequence at the end of a heading; 0 where none stands there, since the writer is refused first and then a sequence of 0.
fn sequence_in(line: &[Token]) -> u64
    ensures { result ≡ sequence_in line.now }
{
    match *line {
        [_, _, Token::Name(Word::Sequence), Token::Number(sequence)] => sequence,
        _ => 0,
    }
}

// The stamp of the writer and the sequence that a heading names.
pub fn read_heading(line: &[Token]) -> Result<u32, LineFault>
    ensures { result ≡ heading_in line.now }
{
    let writer = field(line, 0, Word::Writer).ok_or(LineFault::Writer)?;
    let writer = u8::try_from(writer).map_err(|_| LineFault::Writer)?;
    // A sequence past 32 bits is refused as 0 is.
    let sequence = u32::try_from(sequence_in(line)).unwrap_or(0);
    Ok(stamp_of(writer, sequence)?)
}
