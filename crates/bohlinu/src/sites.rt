// The layouts of stores that a station or a service may stand on.
use super::words::UnknownWord;
use journal::Journal;
use link::Link;
use partition::Partition;
use quota::Quota;
use std::alloc::{AllocError, Global};
use std::fmt;
use std::str::FromStr;
use store::Store;
use table::Table;

#[derive(Clone, Copy)]
pub enum Layout {
    Table,
    Journal,
    Layered,
}

impl FromStr for Layout {
    type Err = UnknownWord;

    fn from_str(word: &str) -> Result<Layout, UnknownWord> {
        match word {
            "table" => Ok(Layout::Table),
            "journal" => Ok(Layout::Journal),
            "pile" => Ok(Layout::Layered),
            _ => Err(UnknownWord("a layout is table, journal or pile")),
        }
    }
}

impl fmt::Display for Layout {
    fn fmt<W: fmt::Write>(&self, f: &mut fmt::Formatter<W>) -> fmt::Result {
        f.write_str(match self {
            Layout::Table => "table",
            Layout::Journal => "journal",
            Layout::Layered => "pile",
        })
    }
}

// What is done with a fresh store, whichever it is.
pub trait Errand {
    fn run<S: Store + Drop>(self, store: S) -> anyhow::Result<()>;
}

// A table of 64 rows.
fn new_table(heap: Global) -> Result<Table, AllocError> {
    Table::new(heap, 64)
}

// A journal with space for 64 versions.
fn new_journal(heap: Global) -> Result<Journal, AllocError> {
    Ok(Journal::new(vec![in heap; 0; 1792]?))
}

// A limit of 8 versions an item, over a table for items below 100 and a link to a journal for the others.
fn new_layered(heap: Global) -> Result<Quota<Partition<Table, Link<Journal>>>, AllocError> {
    let low = new_table(heap)?;
    let high = Link::new(new_journal(heap)?);
    Ok(Quota::new(Partition::new(low, high, 100), 8))
}

impl Layout {
    // Runs an errand on a fresh store of the layout.
    pub fn run<E: Errand + Drop>(self, heap: Global, errand: E) -> anyhow::Result<()> {
        match self {
            Layout::Table => errand.run(new_table(heap)?),
            Layout::Journal => errand.run(new_journal(heap)?),
            Layout::Layered => errand.run(new_layered(heap)?),
        }
    }
}
