// The words that sheets and scripts use, each with its spelling.
ghost use Rattle.std.specs.Prelude.{◌≡◌};
ghost use Rattle.text.specs.Words.{index_of, spelled, word_at};

#[derive(Clone, Copy, PartialEq, Eq, Debug)]
pub enum Word {
    Writer,
    Sequence,
    Volume,
    Rate,
    From,
    To,
    Valves,
    Tank,
    Limit,
    File,
    Prepare,
    Commit,
    Close,
    Withdraw,
    Open,
    First,
    Second,
    Take,
    Release,
}

impl Word {
    // The place of the word among all words.
    pub fn index(self) -> u8
        ensures { result ≡ index_of self }
    {
        self as u8
    }

    pub fn spelling(self) -> &'static [u8]
        ensures { result.now ≡ spelled self }
    {
        match self {
            Word::Writer => b"writer",
            Word::Sequence => b"sequence",
            Word::Volume => b"volume",
            Word::Rate => b"rate",
            Word::From => b"from",
            Word::To => b"to",
            Word::Valves => b"valves",
            Word::Tank => b"tank",
            Word::Limit => b"limit",
            Word::File => b"file",
            Word::Prepare => b"prepare",
            Word::Commit => b"commit",
            Word::Close => b"close",
            Word::Withdraw => b"withdraw",
            Word::Open => b"open",
            Word::First => b"first",
            Word::Second => b"second",
            Word::Take => b"take",
            Word::Release => b"release",
        }
    }

    // The word that the text spells, if any. A match, as spelling is: a search by the spellings would want a list of all words and a loop.
    pub fn read(text: &[u8]) -> Option<Word>
        ensures { result ≡ word_at text.now }
    {
        match text {
            b"writer" => Some(Word::Writer),
            b"sequence" => Some(Word::Sequence),
            b"volume" => Some(Word::Volume),
            b"rate" => Some(Word::Rate),
            b"from" => Some(Word::From),
            b"to" => Some(Word::To),
            b"valves" => Some(Word::Valves),
            b"tank" => Some(Word::Tank),
            b"limit" => Some(Word::Limit),
            b"file" => Some(Word::File),
            b"prepare" => Some(Word::Prepare),
            b"commit" => Some(Word::Commit),
            b"close" => Some(Word::Close),
            b"withdraw" => Some(Word::Withdraw),
            b"open" => Some(Word::Open),
            b"first" => Some(Word::First),
            b"second" => Some(Word::Second),
            b"take" => Some(Word::Take),
            b"release" => Some(Word::Release),
            _ => None,
        }
    }
}
