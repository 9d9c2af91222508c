// Serves frames to a station, prints what each asked and what was replied, and sums up what the station holds.
use super::lines::Line;
use super::sites::{Errand, Layout};
use frames::{Reply, read_reply, reply_frame};
use station::{HexError, hex_bytes, hex_text, reply_meaning, request_meaning};
use store::Store;

pub const EXAMPLE: &str =
    "# item 5: a version, the same again, another with its stamp, then the commit
01 05 00000011 00000000000a0003 0000000000000000
01 05 00000011 00000000000A0003 0000000000000000
01 05 00000011 00000000000a0004 0000000000000000
02 05 00000011
# a later version waits for its commit: a pick finds it, the last is as it was
01 05 00000021 0000000000140003 0000000000000000
04 05 00000011 00000021 00000000 00000000 00000000 00000000 00000000 00000000
03 05
02 05 00000031
# item 130 lives in the other store
01 82 00000011 0000000001020003 0000000000000005
02 82 00000011
# no item, no stamp, a frame too long, an unknown kind
03 00
01 05 00000000 00000000000a0003 0000000000000000
03 05 05
09 05
# no frames
03 0
03 0g
";

// Prints a frame and what it means.
fn show(rt: &HostRuntime, word: &str, frame: &[u8], meaning: &str) -> anyhow::Result<()> {
    let hex = hex_text(rt.alloc(), frame)?;
    println!(rt; "{word}{hex}: {meaning}")?;
    Ok(())
}

// A station at work: its store, and how many lines came to what.
#[derive(Drop)]
struct Station<'a, S> {
    rt: &'a HostRuntime,
    store: S,
    served: u32,
    refused: u32,
    bad: u32,
}

impl<S: Store + Drop> Station<'_, S> {
    fn count(&mut self, reply: &[u8]) {
        match read_reply(reply) {
            Ok(Reply::Refused(_)) => self.refused = self.refused.saturating_add(1),
            _ => self.served = self.served.saturating_add(1),
        }
    }

    fn answer(&mut self, frame: &[u8]) -> anyhow::Result<()> {
        let rt = self.rt;
        let asked = request_meaning(rt.alloc(), frame)?;
        show(rt, "frame", frame, asked.as_str())?;
        let reply = reply_frame(&mut self.store, frame);
        let replied = reply_meaning(rt.alloc(), reply.frame())?;
        show(rt, "reply", reply.frame(), replied.as_str())?;
        self.count(reply.frame());
        Ok(())
    }

    // One line: a frame that is served, or no frame.
    fn take(&mut self, line: Line) -> anyhow::Result<()> {
        let rt = self.rt;
        match hex_bytes(rt.alloc(), line.text.as_bytes()) {
            Ok(frame) => self.answer(frame.as_slice()),
            Err(HexError::Memory(error)) => Err(error.into()),
            Err(HexError::Fault(fault)) => {
                self.bad = self.bad.saturating_add(1);
                let number = line.number;
                let reason = fault.reason();
                println!(rt; "line {number}: no frame: {reason}")?;
                Ok(())
            }
        }
    }

    // Prints the last version of each item that has one, and the counts.
    fn summary(&self) -> anyhow::Result<()> {
        let rt = self.rt;
        for item in 1..=255u8 {
            if let Ok((stamp, code, mark)) = self.store.last(item) {
                if stamp != 0 {
                    println!(rt; "item {item} last stamp {stamp} code {code} mark {mark}")?;
                }
            }
        }
        let served = self.served;
        let refused = self.refused;
        let bad = self.bad;
        println!(rt; "{served} frames served, {refused} refused, {bad} lines without a frame")?;
        Ok(())
    }
}

// Frames, to be served to a fresh station.
#[derive(Clone, Copy)]
struct ServeErrand<'a> {
    rt: &'a HostRuntime,
    text: &'a str,
}

impl Errand for ServeErrand<'_> {
    fn run<S: Store + Drop>(self, store: S) -> anyhow::Result<()> {
        let ServeErrand { rt, text } = self;
        let mut station = Station {
            rt,
            store,
            served: 0,
            refused: 0,
            bad: 0,
        };
        for line in text.split('\n').enumerate().map(Line::numbered) {
            if line.speaks() {
                station.take(line)?;
            }
        }
        station.summary()
    }
}

// Serves the frames of a text to a new station.
pub(super) fn serve(
    rt: &HostRuntime,
    layout: Layout,
    name: &str,
    text: &str,
) -> anyhow::Result<()> {
    println!(rt; "station {layout}: {name}")?;
    layout.run(rt.alloc(), ServeErrand { rt, text })
}
