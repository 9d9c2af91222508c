// Bohlinu: plays scripts of calls, checks order sheets, and serves request frames to a station.

#![tactic(auto)]

mod lines;
mod reports;
mod scripts;
mod sheets;
mod sites;
mod stations;
mod words;

use anyhow::anyhow;
use scripts::Rules;
use sites::Layout;
use std::{env, fs, io};

// What the next word of the command line is.
#[derive(Clone, Copy)]
enum Mode {
    Start,
    Script,
    Ruling(Layout),
    Playing(Layout, Rules),
    Sheet,
    Station,
    Serving(Layout),
}

// The text of an input: a file, standard input as -, or the example.
fn read_input(rt: &HostRuntime, input: &str, example: &str) -> anyhow::Result<String> {
    if input == "example" {
        return Ok(String::from_str(rt.alloc(), example)?);
    }
    if input == "-" {
        return Ok(io::read_to_string(rt.alloc(), rt.stdin())?);
    }
    Ok(fs::read_to_string(rt, input)?)
}

fn title(input: &str) -> &str {
    if input == "-" {
        "standard input"
    } else {
        input
    }
}

fn play_script(rt: &HostRuntime, layout: Layout, rules: Rules, input: &str) -> anyhow::Result<()> {
    let text = read_input(rt, input, scripts::EXAMPLE)?;
    let name = if input == "example" {
        scripts::HEADING
    } else {
        title(input)
    };
    scripts::play(rt, layout, rules, name, text.as_str())
}

fn check_sheet(rt: &HostRuntime, input: &str) -> anyhow::Result<()> {
    let text = read_input(rt, input, sheets::EXAMPLE)?;
    sheets::check(rt, title(input), text.as_str())
}

fn serve_station(rt: &HostRuntime, layout: Layout, input: &str) -> anyhow::Result<()> {
    let text = read_input(rt, input, stations::EXAMPLE)?;
    stations::serve(rt, layout, title(input), text.as_str())
}

fn command_of(word: &str) -> Option<Mode> {
    match word {
        "run" => Some(Mode::Script),
        "sheet" => Some(Mode::Sheet),
        "station" => Some(Mode::Station),
        _ => None,
    }
}

// Takes one word: run LAYOUT RULE INPUT.., sheet INPUT.. or station LAYOUT INPUT.., as often as wanted.
fn take(rt: &HostRuntime, mode: Mode, word: &str) -> anyhow::Result<Mode> {
    if let Some(command) = command_of(word) {
        return Ok(command);
    }
    match mode {
        Mode::Start => return Err(anyhow!(
            "usage: bohlinu [run LAYOUT RULE INPUT..] [sheet INPUT..] [station LAYOUT INPUT..] .."
        )),
        Mode::Script => return Ok(Mode::Ruling(word.parse()?)),
        Mode::Ruling(layout) => return Ok(Mode::Playing(layout, word.parse()?)),
        Mode::Station => return Ok(Mode::Serving(word.parse()?)),
        Mode::Playing(layout, rules) => play_script(rt, layout, rules, word)?,
        Mode::Sheet => check_sheet(rt, word)?,
        Mode::Serving(layout) => serve_station(rt, layout, word)?,
    }
    Ok(mode)
}

fn run(rt: &HostRuntime) -> anyhow::Result<()> {
    let mut mode = Mode::Start;
    for word in env::args(rt)?.skip(1) {
        mode = take(rt, mode, word.as_str())?;
    }
    if matches!(mode, Mode::Start) {
        play_script(rt, Layout::Layered, Rules::All, "example")?;
        check_sheet(rt, "example")?;
        serve_station(rt, Layout::Layered, "example")?;
    }
    Ok(())
}

fn main(rt: HostRuntime) -> anyhow::Result<()> {
    run(&rt)
}
