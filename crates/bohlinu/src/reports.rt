// What the calls of a script came to: each answer, the reads item by item and as taken, the asks, and what is still open.
use super::scripts::Script;
use blend::{is_later, kind_of};
use runs::{Answer, Call};
use sheet::{Entry, EntryBody};

// The writers with an open order, and the items of each open read, by the numbers of writers and readers.
#[derive(Clone, Copy)]
struct Open<'a> {
    orders: [bool; 16],
    reads: [Option<&'a [u8]>; 16],
}

fn set<T: Copy + Drop>(rows: &mut [T], at: u8, value: T) {
    if let Some(row) = rows.get_mut(usize::from(at)) {
        *row = value;
    }
}

impl<'a> Open<'a> {
    fn none() -> Open<'a> {
        Open {
            orders: [false; 16],
            reads: [None; 16],
        }
    }

    // The next call: what it opened or ended, if it was accepted.
    fn follow(&mut self, call: &'a Call, answer: &Answer) {
        if matches!(answer, Answer::Refused(_)) {
            return;
        }
        match call {
            Call::File { writer, .. } => set(&mut self.orders, *writer, true),
            Call::Close { writer } | Call::Withdraw { writer } => {
                set(&mut self.orders, *writer, false);
            }
            Call::Open { reader, items } => {
                set(&mut self.reads, *reader, Some(items.as_slice()));
            }
            Call::Release { reader } => set(&mut self.reads, *reader, None),
            _ => {}
        }
    }

    // The item at a place of a read.
    fn item(&self, reader: u8, place: u8) -> Option<u8> {
        let items = (*self.reads.get(usize::from(reader))?)?;
        items.get(usize::from(place)).copied()
    }
}

// A version that a read showed, 0 for no stamp.
#[derive(Clone, Copy)]
struct Shown {
    item: u8,
    stamp: u32,
}

impl Shown {
    fn print(self, rt: &HostRuntime, code: Option<u64>) -> anyhow::Result<()> {
        let Shown { item, stamp } = self;
        match code {
            Some(code) => {
                let body = EntryBody(Entry { item, code });
                println!(rt; "  item {item} of stamp {stamp}: {body}")?;
            }
            None => println!(rt; "  item {item}: nothing")?,
        }
        Ok(())
    }
}

fn kind_name(item: u8) -> &'static str {
    kind_of(item).map_or("no item", |kind| kind.name())
}

// Two items of two orders, side by side.
fn print_mixed(rt: &HostRuntime, one: Shown, other: Shown) -> anyhow::Result<()> {
    let (new, old) = if is_later(one.stamp, other.stamp) {
        (one, other)
    } else {
        (other, one)
    };
    let new_item = new.item;
    let old_item = old.item;
    let new_kind = kind_name(new_item);
    let old_kind = kind_name(old_item);
    let age = if old.stamp == 0 { "no" } else { "the old" };
    println!(rt;
        "  the new {new_kind} of item {new_item} beside {age} {old_kind} of item {old_item}"
    )?;
    Ok(())
}

// The calls of a script with their answers. Each report goes over them once more, so that nothing is kept of them beside the calls.
#[derive(Clone, Copy)]
struct History<'a> {
    script: &'a Script,
    answers: &'a [Answer],
}

impl History<'_> {
    // The code that an order of a stamp was filed with for an item.
    fn code_filed(self, shown: Shown) -> Option<u64> {
        let mut calls = self.script.calls.iter().zip(self.answers);
        let (items, codes) = calls.find_map(|(call, answer)| match (call, answer) {
            (Call::File { items, codes, .. }, Answer::Number(n)) if *n == shown.stamp => {
                Some((items, codes))
            }
            _ => None,
        })?;
        items
            .iter()
            .zip(codes.iter())
            .find(|(item, _)| **item == shown.item)
            .map(|(_, code)| *code)
    }

    fn print_lines(self, rt: &HostRuntime) -> anyhow::Result<()> {
        let Script { calls, lines } = self.script;
        for ((call, line), answer) in calls.iter().zip(lines).zip(self.answers) {
            println!(rt; "line {line}: {call}: {answer}")?;
        }
        Ok(())
    }

    // What each first ask showed, as a read of the item alone; two orders side by side are named.
    fn print_firsts(self, rt: &HostRuntime) -> anyhow::Result<()> {
        println!(rt; "item by item, as first asked:")?;
        let mut open = Open::none();
        let mut before: Option<(u8, Shown)> = None;
        for (call, answer) in self.script.calls.iter().zip(self.answers) {
            open.follow(call, answer);
            if let (Call::First { reader, place }, Answer::Number(stamp)) = (call, answer) {
                let Some(item) = open.item(*reader, *place) else {
                    continue;
                };
                let shown = Shown {
                    item,
                    stamp: *stamp,
                };
                shown.print(rt, self.code_filed(shown))?;
                if let Some((last_reader, last)) = before {
                    if last_reader == *reader && last.stamp != *stamp {
                        print_mixed(rt, shown, last)?;
                    }
                }
                before = Some((*reader, shown));
            }
        }
        Ok(())
    }

    // What each take showed.
    fn print_takes(self, rt: &HostRuntime) -> anyhow::Result<()> {
        println!(rt; "together, as taken:")?;
        let mut open = Open::none();
        for (call, answer) in self.script.calls.iter().zip(self.answers) {
            open.follow(call, answer);
            if let (Call::Take { reader, place }, Answer::Shown { stamp, code }) = (call, answer) {
                let Some(item) = open.item(*reader, *place) else {
                    continue;
                };
                let held = if *stamp > 0 { Some(*code) } else { None };
                let shown = Shown {
                    item,
                    stamp: *stamp,
                };
                shown.print(rt, held)?;
            }
        }
        Ok(())
    }

    // How many asks each release answered, and what is open at the end.
    fn print_end(self, rt: &HostRuntime) -> anyhow::Result<()> {
        let mut open = Open::none();
        for (call, answer) in self.script.calls.iter().zip(self.answers) {
            open.follow(call, answer);
            if let (Call::Release { reader }, Answer::Number(asks)) = (call, answer) {
                println!(rt; "reader {reader} made {asks} asks")?;
            }
        }
        for (writer, _) in open.orders.iter().enumerate().filter(|(_, open)| **open) {
            println!(rt; "still open: order of writer {writer}")?;
        }
        for (reader, _) in open
            .reads
            .iter()
            .enumerate()
            .filter(|(_, read)| read.is_some())
        {
            println!(rt; "still open: read of reader {reader}")?;
        }
        Ok(())
    }
}

pub(super) fn report(rt: &HostRuntime, script: &Script, answers: &[Answer]) -> anyhow::Result<()> {
    let history = History { script, answers };
    history.print_lines(rt)?;
    history.print_firsts(rt)?;
    history.print_takes(rt)?;
    history.print_end(rt)
}
