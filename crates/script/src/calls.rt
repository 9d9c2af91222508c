// A line of a script as a call.
ghost use Rattle.std.specs.Prelude.{◌≡◌};
ghost use Rattle.runs.specs.Runs.{call_of};
ghost use Rattle.script.specs.Entries.{in_terms};
ghost use Rattle.script.specs.Errors.{Reads};
ghost use Rattle.script.specs.Lines.{file_in, open_in, short_named, call_in};

use super::entries::{Lists, read_entries, read_items};
use super::fault::{ScriptError, ScriptFault};
use super::numbers::{number_in, one_byte, two_bytes};
use runs::Call;
use std::alloc::Global;
use text::{Token, Word, token_at};

// file WRITER SEQUENCE, then entries.
fn read_file(heap: Global, line: &[Token]) -> Result<Call, ScriptError>
    ensures { Reads call_of result (file_in line.now) }
{
    let [_, writer, sequence, entries @ ..] = line else {
        return Err(ScriptError::Fault(ScriptFault::Numbers));
    };
    let writer = number_in(*writer)?;
    let sequence = number_in(*sequence)?;
    let Lists { items, codes } = read_entries(heap, entries)?;
    Ok(Call::File {
        writer,
        sequence,
        items,
        codes,
    })
}

// open READER, then items.
fn read_open(heap: Global, line: &[Token]) -> Result<Call, ScriptError>
    ensures { Reads call_of result (open_in line.now) }
{
    let [_, reader, items @ ..] = line else {
        return Err(ScriptError::Fault(ScriptFault::Numbers));
    };
    let reader = number_in(*reader)?;
    let items = read_items(heap, items)?;
    Ok(Call::Open { reader, items })
}

// A call without lists, by its word.
fn named_call(word: Word, line: &[Token]) -> Result<Call, ScriptFault>
    ensures { in_terms call_of result ≡ short_named word line.now }
{
    match word {
        Word::Prepare => two_bytes(line).map(|(writer, place)| Call::Prepare { writer, place }),
        Word::Commit => two_bytes(line).map(|(writer, place)| Call::Commit { writer, place }),
        Word::Close => one_byte(line).map(|writer| Call::Close { writer }),
        Word::Withdraw => one_byte(line).map(|writer| Call::Withdraw { writer }),
        Word::First => two_bytes(line).map(|(reader, place)| Call::First { reader, place }),
        Word::Second => two_bytes(line).map(|(reader, place)| Call::Second { reader, place }),
        Word::Take => two_bytes(line).map(|(reader, place)| Call::Take { reader, place }),
        Word::Release => one_byte(line).map(|reader| Call::Release { reader }),
        _ => Err(ScriptFault::NoCall),
    }
}

// The call that a line says.
pub fn read_call(heap: Global, line: &[Token]) -> Result<Call, ScriptError>
    ensures { Reads call_of result (call_in line.now) }
{
    match token_at(line, 0) {
        Token::Name(Word::File) => read_file(heap, line),
        Token::Name(Word::Open) => read_open(heap, line),
        Token::Name(word) => Ok(named_call(word, line)?),
        Token::Number(_) | Token::Other => Err(ScriptError::Fault(ScriptFault::NoCall)),
    }
}
