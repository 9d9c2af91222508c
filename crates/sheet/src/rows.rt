// What a sheet has taken: up to eight items with their codes, from its lines one by one.
ghost use Rattle.std.specs.Prelude.{◌≡◌, ◌≤◌, []};

use super::entry::{Entry, read_entry};
use super::fault::LineFault;
use blend::has_item;
use text::Token;

// An ArrayVec is not Copy, as a sheet is, and its items and codes are lent as a slice each.
#[derive(Clone, Copy)]
pub struct Sheet {
    items: [u8; 8],
    codes: [u64; 8],
    count: usize,
    ghost few: { count ≤ 8 },
}

impl Sheet {
    ghost use Rattle.sheet.specs.Lines.{entry_in};
    ghost use Rattle.sheet.specs.Sheets.{items_of, codes_of, taken, items_after, codes_after};

    // A sheet with no item.
    pub fn new() -> Sheet
        ensures items { items_of result ≡ [] }
        ensures codes { codes_of result ≡ [] }
    {
        Sheet {
            items: [0; 8],
            codes: [0; 8],
            count: 0,
        }
    }

    pub fn items(&self) -> &[u8]
        ensures { result.now ≡ items_of self.now }
    {
        &self.items[0..self.count]
    }

    pub fn codes(&self) -> &[u64]
        ensures { result.now ≡ codes_of self.now }
    {
        &self.codes[0..self.count]
    }

    // Reads a line and takes its entry; a refused line leaves the sheet as it was.
    #[tactic(auto, using(std::proofs::lemmas::List::take_more_set))]
    pub fn take(&mut self, line: &[Token]) -> Result<Entry, LineFault>
        ensures answer { result ≡ taken (items_of self.old) (entry_in line.now) }
        ensures items { items_of self.new ≡ items_after result (items_of self.old) }
        ensures codes { codes_of self.new ≡ codes_after result (codes_of self.old) }
    {
        let entry = read_entry(line)?;
        let at = self.count;
        if at >= 8 {
            return Err(LineFault::Full);
        }
        if has_item(self.items(), entry.item) {
            return Err(LineFault::Twice);
        }
        self.items[at] = entry.item;
        self.codes[at] = entry.code;
        self.count = at + 1;
        Ok(entry)
    }
}
