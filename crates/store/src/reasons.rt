// The reason of each refusal of a store, in words.
ghost use Rattle.std.specs.Prelude.{◌≡◌, Some};
ghost use Rattle.store.specs.Reasons.{reason_of};

use super::StoreFault;
use std::error::Error;
use std::fmt;

impl StoreFault {
    pub fn reason(self) -> &'static str
        ensures { result.now ≡ reason_of self }
    {
        match self {
            StoreFault::NoItem => "the item is 0",
            StoreFault::NoStamp => "the stamp is 0",
            StoreFault::Clash => "this item and stamp are held with another code or mark",
            StoreFault::Full => "no space is left for the item",
            StoreFault::NotHeld => "this item and stamp are not held",
        }
    }
}

impl fmt::Display for StoreFault {
    ghost output = { λ fault. Some (reason_of fault) };

    fn fmt<W: fmt::Write>(&self, f: &mut fmt::Formatter<W>) -> fmt::Result {
        f.write_str(self.reason())
    }
}

impl Error for StoreFault {}
