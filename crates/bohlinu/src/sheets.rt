// Checks a sheet line by line, prints what each line comes to, and sums up.
use super::lines::{Line, TokenLine};
use sheet::{LineFault, RefusedLine, Sheet, read_heading, stamp_text};

pub const EXAMPLE: &str = "# a blend order of console 1: volume, line-up, tank card
writer 1 sequence 1
5 volume 10 rate 3
130 from 1 to 2 valves 3
202 tank 2 limit 50000
# slips that a planner makes
6 volume 100000000 rate 3
131 from 2 to 2 valves 0
5 volume 20 rate 3
300 volume 1 rate 1
";

// How far a sheet has been checked.
#[derive(Drop)]
struct Progress {
    sheet: Sheet,
    refused: u32,
}

impl Progress {
    fn refuse(&mut self, rt: &HostRuntime, line: usize, fault: LineFault) -> anyhow::Result<()> {
        self.refused = self.refused.saturating_add(1);
        rt.println(RefusedLine { line, fault })?;
        Ok(())
    }

    fn heading(&mut self, rt: &HostRuntime, line: &TokenLine) -> anyhow::Result<()> {
        match read_heading(line.tokens.as_slice()) {
            Ok(stamp) => rt.println(stamp_text(rt.alloc(), stamp)?)?,
            Err(fault) => self.refuse(rt, line.number, fault)?,
        }
        Ok(())
    }

    fn entry(&mut self, rt: &HostRuntime, line: &TokenLine) -> anyhow::Result<()> {
        match self.sheet.take(line.tokens.as_slice()) {
            Ok(entry) => rt.println(entry)?,
            Err(fault) => self.refuse(rt, line.number, fault)?,
        }
        Ok(())
    }

    fn summary(&self, rt: &HostRuntime) -> anyhow::Result<()> {
        let taken = self.sheet.items().len();
        let refused = self.refused;
        if taken == 0 {
            println!(rt; "refused 13: a sheet has one to eight items")?;
        }
        println!(rt; "{taken} items taken, {refused} lines refused")?;
        Ok(())
    }
}

// The first line with words is the heading, the others are entries.
pub(super) fn check(rt: &HostRuntime, name: &str, text: &str) -> anyhow::Result<()> {
    println!(rt; "sheet: {name}")?;
    let mut progress = Progress {
        sheet: Sheet::new(),
        refused: 0,
    };
    let mut headed = false;
    for line in text.split('\n').enumerate().map(Line::numbered) {
        let Some(line) = line.tokens(rt.alloc())? else {
            continue;
        };
        if headed {
            progress.entry(rt, &line)?;
        } else {
            progress.heading(rt, &line)?;
            headed = true;
        }
    }
    progress.summary(rt)
}
