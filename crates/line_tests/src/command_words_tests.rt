//! What words ask for, command by command, and words that ask for nothing.

use crate::rows::{assert_row, assert_rows};
use command_words::{Asked, LiveSettings, Settings, WordsFault, read_words};
use std::alloc::Global;
use std::process::Abort;

// The words of a line, which are separated by single spaces.
pub(crate) fn split(rt: &impl Abort, alloc: Global, line: &str) -> Vec<String> {
    let mut words = Vec::new(alloc);
    for word in line.split(' ') {
        let word = String::from_str(alloc, word).expect(rt, "memory");
        words.push(word).expect(rt, "memory");
    }
    words
}

// Whether the words of a line have this answer.
fn is_answered(
    rt: &impl Abort,
    alloc: Global,
    line: &str,
    answer: Result<Asked, WordsFault>,
) -> bool {
    let words = split(rt, alloc, line);
    read_words(alloc, &words) == answer
}

// The words of a line, and what they ask for.
#[derive(Drop)]
enum Row {
    // Of a run (also up to a mark and from one on) or a drill: the workers, batch, slice and periods, and a drill's
    // seed and calls.
    Run(&'static str, [u32; 4], [u32; 2]),
    // Of a live drill: its seed, calls, periods, callers and inbox.
    Live(&'static str, [u32; 5]),
    Tool(&'static str, Asked),
}

static RUNS: [Row; 17] = [
    Row::Run("run", [4, 50, 5, 4_294_967_295], [0, 0]),
    Row::Run(
        "run --workers 64 --batch 250 --slice 1 --periods 9",
        [64, 250, 1, 9],
        [0, 0],
    ),
    Row::Run(
        "run --periods=1 --slice=250 --batch=1 --workers=1",
        [1, 1, 250, 1],
        [0, 0],
    ),
    Row::Run(
        "run --periods 4294967295 --batch=7",
        [4, 7, 5, 4_294_967_295],
        [0, 0],
    ),
    Row::Run("run --", [4, 50, 5, 4_294_967_295], [0, 0]),
    Row::Run("run --slice 2 --", [4, 50, 2, 4_294_967_295], [0, 0]),
    Row::Run("save --periods 3", [4, 50, 5, 3], [0, 0]),
    Row::Run(
        "save --slice=1 --periods=4294967295 --workers 2 --batch 9",
        [2, 9, 1, 4_294_967_295],
        [0, 0],
    ),
    Row::Run("save --periods 1 --", [4, 50, 5, 1], [0, 0]),
    Row::Run("resume", [4, 50, 5, 4_294_967_295], [0, 0]),
    Row::Run(
        "resume --periods 9 --slice 250 --workers=64 --batch=1",
        [64, 1, 250, 9],
        [0, 0],
    ),
    Row::Run("drill", [4, 50, 5, 200], [1, 64]),
    Row::Run(
        "drill --seed 0 --calls 1 --periods 1",
        [4, 50, 5, 1],
        [0, 1],
    ),
    Row::Run(
        "drill --seed=4294967295 --calls=256 --periods=1000 --workers=64 --batch=250 --slice=250",
        [64, 250, 250, 1000],
        [4_294_967_295, 256],
    ),
    Row::Run(
        "drill --slice 9 --calls 2 --workers 5 --seed 7",
        [5, 50, 9, 200],
        [7, 2],
    ),
    Row::Run("drill --", [4, 50, 5, 200], [1, 64]),
    Row::Run("drill --batch 7 --", [4, 7, 5, 200], [1, 64]),
];

static LIVES: [Row; 5] = [
    Row::Live("live", [1, 64, 200, 4, 8]),
    Row::Live("live --", [1, 64, 200, 4, 8]),
    Row::Live(
        "live --seed 0 --calls 1 --periods 1 --callers 1 --inbox 1",
        [0, 1, 1, 1, 1],
    ),
    Row::Live(
        "live --inbox=1024 --callers=64 --periods=1000 --calls=256 --seed=4294967295",
        [4_294_967_295, 256, 1000, 64, 1024],
    ),
    Row::Live("live --calls 2 --callers=3 --", [1, 2, 200, 3, 8]),
];

static TOOLS: [Row; 8] = [
    Row::Tool("relay 7", Asked::Relay(7)),
    Row::Tool("frames 1", Asked::Frames(1)),
    Row::Tool("encode 4096", Asked::Encode(4096)),
    Row::Tool("decode 10", Asked::Decode(10)),
    Row::Tool("follow 7 316", Asked::Follow { call: 7, want: 316 }),
    Row::Tool(
        "follow 4096 0",
        Asked::Follow {
            call: 4096,
            want: 0,
        },
    ),
    Row::Tool("split 4093", Asked::Split(4093)),
    Row::Tool("merge 1", Asked::Merge(1)),
];

// What a command's word asks for, with these settings.
fn asked_by(word: &str, settings: Settings, made_of: [u32; 2]) -> Asked {
    let [seed, calls] = made_of;
    match word {
        "save" => Asked::Save(settings),
        "resume" => Asked::Resume(settings),
        "drill" => Asked::Drill {
            seed,
            calls,
            settings,
        },
        _ => Asked::Run(settings),
    }
}

// Whether a line asks for a run or a drill with these settings.
fn is_run(
    rt: &impl Abort,
    alloc: Global,
    line: &str,
    settings: [u32; 4],
    made_of: [u32; 2],
) -> bool {
    let [workers, batch, slice, periods] = settings;
    let settings = Settings {
        workers,
        batch,
        slice,
        periods,
    };
    let word = line.split(' ').next().unwrap_or("");
    is_answered(rt, alloc, line, Ok(asked_by(word, settings, made_of)))
}

// Whether a line asks for a live drill with these settings.
fn is_live(rt: &impl Abort, alloc: Global, line: &str, made_of: [u32; 5]) -> bool {
    let [seed, calls, periods, callers, inbox] = made_of;
    let settings = LiveSettings {
        seed,
        calls,
        periods,
        callers,
        inbox,
    };
    is_answered(rt, alloc, line, Ok(Asked::Live(settings)))
}

// Whether the words of a row ask for what it has.
fn is_asked(rt: &impl Abort, alloc: Global, row: &Row) -> bool {
    match row {
        Row::Run(line, settings, made_of) => is_run(rt, alloc, line, *settings, *made_of),
        Row::Live(line, made_of) => is_live(rt, alloc, line, *made_of),
        Row::Tool(line, tool) => is_answered(rt, alloc, line, Ok(*tool)),
    }
}

// How many rows hold before the first that doesn't.
fn asked(rt: &impl Abort, alloc: Global, rows: &[Row]) -> usize {
    let mut asked = 0usize;
    for row in rows {
        if !is_asked(rt, alloc, row) {
            return asked;
        }
        asked = asked.saturating_add(1);
    }
    asked
}

#[test]
fn options_of_runs_and_drills(rt: HostRuntime) {
    assert_rows(&rt, asked(&rt, rt.alloc(), &RUNS), 17);
}

#[test]
fn options_of_live_drills(rt: HostRuntime) {
    assert_rows(&rt, asked(&rt, rt.alloc(), &LIVES), 5);
}

#[test]
fn calls_of_tools(rt: HostRuntime) {
    assert_rows(&rt, asked(&rt, rt.alloc(), &TOOLS), 8);
}

// Lines whose words ask for nothing; the last is empty.
static OTHER_WORDS: &str = "run --workers 0
run --workers 65
run --workers 04
run --workers +4
run --workers -1
run --workers
run --workers=
run --workers --
run --work 4
run --batch 251
run --batch 2 --batch 3
run --batch=2 --batch=2
run --batch 2 3
run --slice 251
run --periods 0
run --periods 4294967296
run -- x
run -- --batch
run 7
run --help
run -h
run --version
run help
Run
--workers 4
relay
relay 07
relay 0
relay 4097
relay 7 --
relay -- 7
relay 7 7
relays 7
follow
follow 7
follow 7 6
follow 7 320
follow 7 04
follow 07 4
follow 0 0
follow 4097 0
follow 7 0 0
follow 7 x
split 4094
merge 0
run --seed 1
run --calls 2
save
save --
save --workers 4
save 3
save --periods
save --periods 0
save --periods 03
save --periods 4294967296
save --periods 3 --periods 3
save --periods 3 4
save --seed 1 --periods 3
saves --periods 3
resume 3
resume --periods 0
resume --seed 1
resumes
drill 7
drill --calls 0
drill --calls 257
drill --calls 02
drill --periods 0
drill --periods 1001
drill --seed 4294967296
drill --seed -1
drill --seed 00
drill --seed 1 --seed=1
drill --seed
drill --workers 65
drill --call 2
drill --help
drills
live 7
live --seed 01
live --calls 0
live --calls 257
live --periods 0
live --periods 1001
live --callers 0
live --callers 65
live --inbox 0
live --inbox 1025
live --workers 4
lives
7
";

// How many lines ask for nothing before the first that asks for something.
fn usages(rt: &impl Abort, alloc: Global, lines: &str) -> usize {
    let mut usages = 0usize;
    for line in lines.split('\n') {
        if !is_answered(rt, alloc, line, Err(WordsFault::Usage)) {
            return usages;
        }
        usages = usages.saturating_add(1);
    }
    usages
}

#[test]
fn other_words_are_usage(rt: HostRuntime) {
    assert_rows(&rt, usages(&rt, rt.alloc(), OTHER_WORDS), 92);
    assert_row(
        &rt,
        92,
        read_words(rt.alloc(), &[]) == Err(WordsFault::Usage),
    );
}
