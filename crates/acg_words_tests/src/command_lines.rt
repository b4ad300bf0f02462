//! Command lines, and what is printed for `help` and `version`.

use acg_base::{Capacity, ListSink, Name, Status, Words};
use acg_words::{Act, Command, Line, Perform, Run, parse_command, print_usage, print_version};
use rv_code::Cause;
use std::alloc::Global;
use std::test::Fail;

// The words of a command line.
fn words(alloc: Global, list: &[&str]) -> Result<Words, Fail> {
    let mut words = Vec::new(alloc);
    for word in list {
        words.push(String::from_str(alloc, word)?)?;
    }
    Ok(Words::new(words))
}

// Whether the words are no command.
fn is_refused(alloc: Global, list: &[&str]) -> Result<bool, Fail> {
    let words = words(alloc, list)?;
    Ok(parse_command(&words).is_none())
}

#[test]
fn command_lines(rt: HostRuntime) -> Result<(), Fail> {
    let alloc = rt.alloc();
    let perform = words(alloc, &["perform", "9223372036854775807", "a", "help"])?;
    assert_eq!(rt;
        parse_command(&perform),
        Some(Command::Perform(Perform {
            number: 9_223_372_036_854_775_807,
            action: "a",
            input: Some("help"),
        }))
    );
    assert_eq!(rt;
        parse_command(&words(alloc, &["help"])?),
        Some(Command::Help)
    );
    assert_eq!(rt;
        parse_command(&words(alloc, &["version"])?),
        Some(Command::Version)
    );
    assert!(rt; is_refused(alloc, &[])?);
    assert!(rt; is_refused(alloc, &[""])?);
    assert!(rt; is_refused(alloc, &["Act", "a"])?);
    assert!(rt; is_refused(alloc, &["act"])?);
    assert!(rt; is_refused(alloc, &["act", ""])?);
    assert!(rt; is_refused(alloc, &["act", "a", "i", "i"])?);
    assert!(rt; is_refused(alloc, &["act", "a", ""])?);
    assert!(rt; is_refused(alloc, &["help", "act"])?);
    assert!(rt; is_refused(alloc, &["version", ""])?);
    assert!(rt; is_refused(alloc, &["perform", "0"])?);
    assert!(rt; is_refused(alloc, &["perform", "x", "a"])?);
    assert!(rt; is_refused(alloc, &["perform", "-0", "a"])?);
    assert!(rt; is_refused(alloc, &["perform", "9223372036854775808", "a"])?);
    assert!(rt; is_refused(alloc, &["perform", "0", "a", ""])?);
    assert!(rt; is_refused(alloc, &["perform", "0", "a", "i", "i"])?);
    Ok(())
}

// The command with which the image of an action is run.
fn act<'a>(
    stack: u64,
    units: u64,
    budget: u64,
    action: &'a str,
    input: Option<&'a str>,
) -> Option<Command<'a>> {
    Some(Command::Act(Act {
        capacity: Capacity { stack, units },
        budget,
        action,
        input,
    }))
}

// Each option may be said, in one order; the first word that begins with no sign ends them.
#[rattlefmt::skip]
const ACTS: [(&[&str], u64, u64, u64, &str, Option<&str>); 12] = [
    (&["act", "a"], 1_048_576, 262_144, 10_000_000, "a", None),
    (&["act", "a", "i"], 1_048_576, 262_144, 10_000_000, "a", Some("i")),
    (&["act", "stack=40", "a"], 40, 262_144, 10_000_000, "a", None),
    (&["act", "units=1", "a", "i"], 1_048_576, 1, 10_000_000, "a", Some("i")),
    (&["act", "budget=10", "a"], 1_048_576, 262_144, 10, "a", None),
    (&["act", "stack=1", "units=2", "budget=3", "a", "i"], 1, 2, 3, "a", Some("i")),
    (&["act", "stack=1", "budget=3", "a"], 1, 262_144, 3, "a", None),
    (&["act", "stack=16777216", "units=4194304", "budget=1000000000", "a"],
        16_777_216, 4_194_304, 1_000_000_000, "a", None),
    (&["act", "stack=0001", "a"], 1, 262_144, 10_000_000, "a", None),
    (&["act", "a", "stack=1"], 1_048_576, 262_144, 10_000_000, "a", Some("stack=1")),
    (&["act", "Stack=1", "stack=1"], 1_048_576, 262_144, 10_000_000, "Stack=1", Some("stack=1")),
    (&["act", "units=3", "stack", "budget="], 1_048_576, 3, 10_000_000, "stack", Some("budget=")),
];

#[test]
fn acts(rt: HostRuntime) -> Result<(), Fail> {
    for (list, stack, units, budget, action, input) in ACTS {
        assert_eq!(rt;
            parse_command(&words(rt.alloc(), list)?),
            act(stack, units, budget, action, input)
        );
    }
    Ok(())
}

#[rattlefmt::skip]
const NO_ACTS: [&[&str]; 16] = [
    &["act", "stack=1"],
    &["act", "stack=0", "a"],
    &["act", "stack=16777217", "a"],
    &["act", "units=0", "a"],
    &["act", "units=4194305", "a"],
    &["act", "budget=0", "a"],
    &["act", "budget=1000000001", "a"],
    &["act", "stack=", "a"],
    &["act", "stack=+1", "a"],
    &["act", "stack=-1", "a"],
    &["act", "stack=1 ", "a"],
    &["act", "stack=1", "stack=1", "a"],
    &["act", "units=1", "stack=1", "a"],
    &["act", "budget=1", "units=1", "a"],
    &["act", "budget=1", "stack=1", "a"],
    &["act", "stack=99999999999999999999", "a"],
];

#[test]
fn no_acts(rt: HostRuntime) -> Result<(), Fail> {
    for list in NO_ACTS {
        assert!(rt; is_refused(rt.alloc(), list)?);
    }
    Ok(())
}

// The command with which an image is run.
fn run<'a>(budget: u64, image: &'a str, input: Option<&'a str>) -> Option<Command<'a>> {
    Some(Command::Run(Run {
        budget,
        image,
        input,
    }))
}

// Behind the option every word is an operand, and only a first word is an option.
#[rattlefmt::skip]
const RUNS: [(&[&str], u64, &str, Option<&str>); 7] = [
    (&["run", "o"], 10_000_000, "o", None),
    (&["run", "o", "i"], 10_000_000, "o", Some("i")),
    (&["run", "budget=1", "o"], 1, "o", None),
    (&["run", "budget=1000000000", "o", "i"], 1_000_000_000, "o", Some("i")),
    (&["run", "budget=0010", "o"], 10, "o", None),
    (&["run", "o", "budget=1"], 10_000_000, "o", Some("budget=1")),
    (&["run", "stack=1", "budget="], 10_000_000, "stack=1", Some("budget=")),
];

#[test]
fn runs(rt: HostRuntime) -> Result<(), Fail> {
    let alloc = rt.alloc();
    for (list, budget, image, input) in RUNS {
        assert_eq!(rt;
            parse_command(&words(alloc, list)?),
            run(budget, image, input)
        );
    }
    Ok(())
}

#[rattlefmt::skip]
const NO_RUNS: [&[&str]; 12] = [
    &["run"],
    &["run", ""],
    &["run", "o", ""],
    &["run", "o", "i", "i"],
    &["run", "budget=1"],
    &["run", "budget=0", "o"],
    &["run", "budget=1000000001", "o"],
    &["run", "budget=9223372036854775808", "o"],
    &["run", "budget=-1", "o"],
    &["run", "budget=", "o"],
    &["run", "budget=1", "budget=1", "o"],
    &["run", "budget=1x", "o"],
];

#[test]
fn no_runs(rt: HostRuntime) -> Result<(), Fail> {
    for list in NO_RUNS {
        assert!(rt; is_refused(rt.alloc(), list)?);
    }
    Ok(())
}

// A sink with room for the usage.
fn sink(alloc: Global) -> Result<ListSink, Fail> {
    Ok(
        ListSink::new(alloc, 4096, Vec::new(alloc))
            .ok()
            .ok_or("memory")?,
    )
}

const USAGE: &[u8] = b"acg act [stack=N] [units=N] [budget=N] ACTION [INPUT]
    compiles the action in the file ACTION, and runs its image
acg run [budget=N] IMAGE [INPUT]
    runs the image in the file IMAGE
acg perform N ACTION [INPUT]
    performs the action; N, a number below 2^63, chooses each step
acg help
    prints this
acg version
    prints the version
option stack=N: words of 8 bytes for the frames of a run, from 1 to 16777216, or 1048576 where none are said
option units=N: units of 16 bytes for the cells and closures of a run, from 1 to 4194304, or 262144 where none are said
option budget=N: instructions that are run at most, from 1 to 1000000000, or 10000000 where none are said
status 0: done, or the action has completed
status 1: the action has failed
status 2: the action has escaped
status 3: the run needs more memory than it has
status 4: the instructions or steps of a run were taken without an end
status 5: the image has exited with a code above 3
status 10: the words are no command line
status 11: a file can't be read
status 12: the output can't be written
status 17: the action isn't well-sorted
status 18: a file or an action is too large
status 19: memory ran out
status 20: the image is refused
status 21: the machine has trapped on the image
status 22: the file holds no action, or one that can't be compiled
";

#[test]
fn usage(rt: HostRuntime) -> Result<(), Fail> {
    let mut out = sink(rt.alloc())?;
    assert_eq!(rt; print_usage(&mut out), Ok(()));
    assert_eq!(rt; out.bytes(), USAGE);
    let mut out = sink(rt.alloc())?;
    assert_eq!(rt; print_version(&mut out), Ok(()));
    assert_eq!(rt; out.bytes(), b"acg 0.2.0\n".as_slice());
    Ok(())
}

#[test]
fn lines(rt: HostRuntime) -> Result<(), Fail> {
    let alloc = rt.alloc();
    let name = Name::new(alloc, "a b").ok().ok_or("memory")?;
    let mut out = sink(alloc)?;
    assert_eq!(rt;
        Line::ReadFault { name }.answer(&mut out),
        Status::ReadFault
    );
    assert_eq!(rt;
        Line::ActionByte { offset: 1_048_575 }.answer(&mut out),
        Status::Action
    );
    assert_eq!(rt; Line::LimitNodes.answer(&mut out), Status::Limit);
    assert_eq!(rt;
        out.bytes(),
        b"read fault a b\naction byte 1048575\nlimit nodes 65536\n".as_slice()
    );
    Ok(())
}

// Lines of descriptions and sources, each with its text and its status.
#[rattlefmt::skip]
const SOURCES: [(Line, &[u8], Status); 11] = [
    (Line::LimitDescription, b"limit description 1048576\n", Status::Limit),
    (Line::LimitSource, b"limit source 1048576\n", Status::Limit),
    (Line::LimitLexemes, b"limit lexemes 4096\n", Status::Limit),
    (Line::DescriptionByte { offset: 0 }, b"description byte 0\n", Status::Description),
    (Line::DescriptionItem { index: 7 }, b"description item 7\n", Status::Description),
    (Line::DescriptionRule { rule: 6, item: 7 }, b"description rule 6 item 7\n", Status::Description),
    (Line::DescriptionRule { rule: 9, item: 4_294_967_295 },
        b"description rule 9 item 4294967295\n", Status::Description),
    (Line::SourceByte { offset: 2 }, b"source byte 2\n", Status::Source),
    (Line::NoTree, b"source no tree\n", Status::Source),
    (Line::Ambiguous, b"source ambiguous\n", Status::Source),
    (Line::Numeral { offset: 2 }, b"numeral 2\n", Status::Numeral),
];

#[test]
fn lines_of_sources(rt: HostRuntime) -> Result<(), Fail> {
    for (line, text, status) in SOURCES {
        let mut out = sink(rt.alloc())?;
        assert_eq!(rt; line.answer(&mut out), status);
        assert_eq!(rt; out.bytes(), text);
    }
    Ok(())
}

// The line of a function and a production.
fn uncovered(alloc: Global, function: &[u8], production: &[u8]) -> Result<Line, Fail> {
    Ok(Line::Uncovered {
        function: Vec::from_slice(alloc, function)?,
        production: Vec::from_slice(alloc, production)?,
        alternative: 1,
    })
}

#[test]
fn lines_of_names(rt: HostRuntime) -> Result<(), Fail> {
    let alloc = rt.alloc();
    let mut out = sink(alloc)?;
    let line = uncovered(alloc, b"execute", b"S")?;
    assert_eq!(rt; line.answer(&mut out), Status::Uncovered);
    let name = Name::new(alloc, "o").ok().ok_or("memory")?;
    assert_eq!(rt;
        Line::WriteFault { name }.answer(&mut out),
        Status::WriteFault
    );
    assert_eq!(rt;
        out.bytes(),
        b"uncovered execute S 1\nwrite fault o\n".as_slice()
    );
    Ok(())
}

// Lines of images, each with its text and its status.
#[rattlefmt::skip]
const IMAGES: [(Line, &[u8], Status); 16] = [
    (Line::LimitImage, b"limit image 536870912\n", Status::Limit),
    (Line::ImageShort, b"image short\n", Status::Image),
    (Line::ImageMagic, b"image magic\n", Status::Image),
    (Line::ImageClass, b"image class\n", Status::Image),
    (Line::ImageMachine, b"image machine\n", Status::Image),
    (Line::ImageKind, b"image kind\n", Status::Image),
    (Line::ImageHeader, b"image header\n", Status::Image),
    (Line::ImageSegment { index: 15 }, b"image segment 15\n", Status::Image),
    (Line::Exited { code: 0 }, b"exited 0\n", Status::Done),
    (Line::Exited { code: 1 }, b"exited 1\n", Status::Failed),
    (Line::Exited { code: 2 }, b"exited 2\n", Status::Escaped),
    (Line::Exited { code: 3 }, b"exited 3\n", Status::Full),
    (Line::Exited { code: 4 }, b"exited 4\n", Status::ExitAbove),
    (Line::Exited { code: 255 }, b"exited 255\n", Status::ExitAbove),
    (Line::Trapped { cause: Cause::Ebreak, pc: 65536 }, b"trapped ebreak 65536\n", Status::Trapped),
    (Line::Trapped { cause: Cause::Fetch, pc: 18_446_744_073_709_551_615 },
        b"trapped fetch 18446744073709551615\n", Status::Trapped),
];

#[test]
fn lines_of_images(rt: HostRuntime) -> Result<(), Fail> {
    for (line, text, status) in IMAGES {
        let mut out = sink(rt.alloc())?;
        assert_eq!(rt; line.answer(&mut out), status);
        assert_eq!(rt; out.bytes(), text);
    }
    Ok(())
}

// The causes of traps, as they are printed.
#[rattlefmt::skip]
const CAUSES: [(Cause, &[u8]); 8] = [
    (Cause::Fetch, b"trapped fetch 4\n"),
    (Cause::Undefined, b"trapped undefined 4\n"),
    (Cause::Load, b"trapped load 4\n"),
    (Cause::Store, b"trapped store 4\n"),
    (Cause::Target, b"trapped target 4\n"),
    (Cause::Ebreak, b"trapped ebreak 4\n"),
    (Cause::Call, b"trapped call 4\n"),
    (Cause::Buffer, b"trapped buffer 4\n"),
];

#[test]
fn causes(rt: HostRuntime) -> Result<(), Fail> {
    for (cause, text) in CAUSES {
        let mut out = sink(rt.alloc())?;
        assert_eq!(rt;
            Line::Trapped { cause, pc: 4 }.answer(&mut out),
            Status::Trapped
        );
        assert_eq!(rt; out.bytes(), text);
    }
    Ok(())
}
