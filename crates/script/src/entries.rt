// The lists of a call: entries as a sheet has them, one after another, and items.
ghost use Rattle.std.specs.Prelude.{◌≡◌, [], ◌∷◌, ◌++◌, vec_items, OnOk};
ghost use Rattle.script.specs.Entries.{width_at, part_of, entries_in, bytes_in, lists_of};
ghost use Rattle.script.specs.Errors.{Reads};

use super::fault::{ScriptError, ScriptFault};
use super::numbers::number_in;
use blend::{Kind, kind_of};
use sheet::{Entry, read_entry};
use std::alloc::{AllocError, Global};
use text::{Token, token_at};

// Two lists, as a filing and the service take them.
#[derive(Drop)]
pub struct Lists {
    pub items: Vec<u8>,
    pub codes: Vec<u64>,
}

impl Lists {
    fn add(&mut self, entry: Entry) -> Result<(), AllocError>
        ensures items { OnOk result (self.new.items.items ≡ self.old.items.items ++ entry.item ∷ []) }
        ensures codes { OnOk result (self.new.codes.items ≡ self.old.codes.items ++ entry.code ∷ []) }
    {
        self.items.push(entry.item)?;
        self.codes.push(entry.code)?;
        Ok(())
    }
}

// How many tokens an entry of an item has.
fn width(item: Result<u8, ScriptFault>) -> usize
    ensures { result ≡ width_at item }
{
    // A closure: by its name the check does not find the contract of a function of another crate.
    match item.ok().and_then(|number| kind_of(number)) {
        Some(Kind::Quantity | Kind::TankCard) => 5,
        Some(Kind::LineUp) => 7,
        None => 1,
    }
}

// How many tokens the first entry has, as far as the tokens go.
#[tactic(auto, using(crate::proofs::Steps::narrowed_byte))]
fn part(line: &[Token]) -> usize
    ensures { result ≡ part_of line.now }
{
    width(number_in(token_at(line, 0))).min(line.len())
}

// The items and codes of entries.
pub(super) fn read_entries(heap: Global, line: &[Token]) -> Result<Lists, ScriptError>
    ensures { Reads lists_of result (entries_in line.now) }
{
    let mut lists = Lists {
        items: Vec::new(heap),
        codes: Vec::new(heap),
    };
    let mut rest = line;
    while !rest.is_empty() {
        let (first, others) = rest.split_at(part(rest));
        let entry = read_entry(first)?;
        lists.add(entry)?;
        rest = others;
    }
    Ok(lists)
}

// Items, each a byte.
pub(super) fn read_items(heap: Global, line: &[Token]) -> Result<Vec<u8>, ScriptError>
    ensures { Reads vec_items result (bytes_in line.now) }
{
    let mut items = Vec::new(heap);
    for token in line {
        let item = number_in(*token)?;
        items.push(item)?;
    }
    Ok(items)
}
