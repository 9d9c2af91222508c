// Plays a script of calls over a layout of stores and under a naming rule.
use super::lines::Line;
use super::reports::report;
use super::sites::{Errand, Layout};
use super::words::UnknownWord;
use naming::{FilterRule, ListRule, Naming, StampRule};
use runs::{Call, run};
use script::{FaultOnLine, ScriptError, read_call};
use service::Service;
use std::alloc::AllocError;
use std::str::FromStr;
use store::Store;

pub const HEADING: &str = "a panel reads items 5, 130 and 202 while order 34 replaces order 17";

pub const EXAMPLE: &str = "# console 1 files an order, prepares, commits and closes it
file 1 1 5 volume 40000 rate 300 130 from 1 to 2 valves 3 202 tank 2 limit 50000
prepare 1 0
prepare 1 1
prepare 1 2
commit 1 0
commit 1 1
commit 1 2
close 1
# console 2 files the next one over the same items; the panel reads between its commits
file 2 2 5 volume 60000 rate 300 130 from 1 to 3 valves 5 202 tank 3 limit 90000
prepare 2 0
prepare 2 1
prepare 2 2
open 0 5 130 202
first 0 0
commit 2 1
first 0 1
first 0 2
second 0 0
second 0 1
second 0 2
take 0 0
take 0 1
take 0 2
release 0
";

// The calls of a script, and the number of each one's line: the calls stand alone because `run` takes them as one slice.
#[derive(Drop)]
pub(super) struct Script {
    pub(super) calls: Vec<Call>,
    pub(super) lines: Vec<usize>,
}

impl Script {
    fn keep(&mut self, call: Call, line: usize) -> Result<(), AllocError> {
        self.calls.push(call)?;
        self.lines.push(line)?;
        Ok(())
    }
}

// Reads the lines; one that is no call is named and left out.
fn read_script(rt: &HostRuntime, text: &str) -> anyhow::Result<Script> {
    let mut script = Script {
        calls: Vec::new(rt.alloc()),
        lines: Vec::new(rt.alloc()),
    };
    for line in text.split('\n').enumerate().map(Line::numbered) {
        let Some(line) = line.tokens(rt.alloc())? else {
            continue;
        };
        match read_call(rt.alloc(), line.tokens.as_slice()) {
            Ok(call) => script.keep(call, line.number)?,
            Err(ScriptError::Fault(fault)) => rt.println(FaultOnLine {
                line: line.number,
                fault,
            })?,
            Err(ScriptError::Memory(error)) => return Err(error.into()),
        }
    }
    Ok(script)
}

// The calls of a script, to be made on a fresh service under a rule.
#[derive(Drop)]
struct PlayErrand<'a, N> {
    rt: &'a HostRuntime,
    rule: N,
    script: &'a Script,
}

impl<N: Naming + Drop> Errand for PlayErrand<'_, N> {
    fn run<S: Store + Drop>(self, store: S) -> anyhow::Result<()> {
        let PlayErrand { rt, rule, script } = self;
        let mut service = Service::new(store, rule);
        let answers = run(rt.alloc(), &mut service, script.calls.as_slice())?;
        report(rt, script, answers.as_slice())
    }
}

// The rules under which a script is played.
#[derive(Clone, Copy)]
pub enum Rules {
    List,
    Stamp,
    Filter,
    All,
}

impl FromStr for Rules {
    type Err = UnknownWord;

    fn from_str(word: &str) -> Result<Rules, UnknownWord> {
        match word {
            "list" => Ok(Rules::List),
            "stamp" => Ok(Rules::Stamp),
            "filter" => Ok(Rules::Filter),
            "all" => Ok(Rules::All),
            _ => Err(UnknownWord("a rule is list, stamp, filter or all")),
        }
    }
}

fn play_under<N: Naming + Drop>(
    rt: &HostRuntime,
    layout: Layout,
    name: &str,
    rule: N,
    script: &Script,
) -> anyhow::Result<()> {
    println!(rt; "layout {layout}, rule {name}")?;
    layout.run(rt.alloc(), PlayErrand { rt, rule, script })
}

// Plays the calls of a text, each rule on a service of its own.
pub(super) fn play(
    rt: &HostRuntime,
    layout: Layout,
    rules: Rules,
    name: &str,
    text: &str,
) -> anyhow::Result<()> {
    println!(rt; "script: {name}")?;
    let script = read_script(rt, text)?;
    if matches!(rules, Rules::List | Rules::All) {
        play_under(rt, layout, "list", ListRule, &script)?;
    }
    if matches!(rules, Rules::Stamp | Rules::All) {
        play_under(rt, layout, "stamp", StampRule, &script)?;
    }
    if matches!(rules, Rules::Filter | Rules::All) {
        play_under(rt, layout, "filter", FilterRule, &script)?;
    }
    Ok(())
}
