// The numbers after the word of a call.
ghost use Rattle.std.specs.Prelude.{◌≡◌};
ghost use Rattle.text.specs.Tokens.{number_in as token_number};
ghost use Rattle.script.specs.Numbers.{Narrowed, one_byte, two_bytes};

use super::fault::ScriptFault;
use text::Token;

// The number that a token is, as a type that may be too small for it.
pub(super) fn number_in<T: TryFrom<u64>>(token: Token) -> Result<T, ScriptFault>
where
    T::Error: Drop,
    ensures { Narrowed T.try_from_gives (token_number token) result }
{
    let number = token.number().ok_or(ScriptFault::Numbers)?;
    T::try_from(number).map_err(|_| ScriptFault::TooLarge)
}

// One byte after the word, and no more.
#[tactic(auto, using(crate::proofs::Steps::narrowed_byte))]
pub(super) fn one_byte(line: &[Token]) -> Result<u8, ScriptFault>
    ensures { result ≡ one_byte line.now }
{
    let [_, only] = line else {
        return Err(ScriptFault::Numbers);
    };
    number_in(*only)
}

// Two bytes after the word, and no more.
#[tactic(auto, using(crate::proofs::Steps::narrowed_byte))]
pub(super) fn two_bytes(line: &[Token]) -> Result<(u8, u8), ScriptFault>
    ensures { result ≡ two_bytes line.now }
{
    let [_, first, second] = line else {
        return Err(ScriptFault::Numbers);
    };
    Ok((number_in(*first)?, number_in(*second)?))
}
