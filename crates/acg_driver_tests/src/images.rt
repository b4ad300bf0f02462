//! Images that are run.

ghost use Rattle.std.specs.Prelude.{◌<◌, length};

use crate::tools::{CALLS, answers, image_of};
use acg_base::{Capacity, DEFAULT_STACK, DEFAULT_UNITS, Status};
use acg_driver::compile_action;
use action_text::action_reader::read_action;
use bumpalo::Bump;
use std::alloc::Global;
use std::test::Fail;

// Exits with 7.
const EXIT: [u32; 3] = [0x05d0_0893, 0x0070_0513, 0x0000_0073];

// Words of code, the words of the command line before the image, what is printed, and the status.
#[rattlefmt::skip]
const ROWS: [(&[u32], &[&str], &[u8], Status); 11] = [
    (&EXIT, &["run", "a"], b"exited 7\n", Status::ExitAbove),
    (&EXIT, &["run", "budget=3", "a"], b"exited 7\n", Status::ExitAbove),
    (&EXIT, &["run", "budget=2", "a"], b"running\n", Status::Running),
    (&[0x0010_0073], &["run", "a"], b"trapped ebreak 65536\n", Status::Trapped),
    (&[0x0000_006f], &["run", "budget=10", "a"], b"running\n", Status::Running),
    (&[0x0000_0000], &["run", "a"], b"trapped undefined 65536\n", Status::Trapped),
    (&[0x0001_02b7, 0x0002_b023], &["run", "a"], b"trapped store 65540\n", Status::Trapped),
    (&[0x0010_0893, 0x0000_0073], &["run", "a"], b"trapped call 65540\n", Status::Trapped),
    (&[0x05d0_0893, 0x0000_0073], &["run", "a", "i"], b"exited 0\n", Status::Done),
    (&CALLS, &["run", "a"], b"\x93\x08\x00\x04exited 4\n", Status::ExitAbove),
    (&CALLS, &["run", "budget=5", "a"], b"\x93\x08\x00\x04running\n", Status::Running),
];

#[test]
fn code_is_run(rt: HostRuntime) -> Result<(), Fail> {
    let alloc = rt.alloc();
    for (code, list, printed, status) in ROWS {
        let image = image_of(alloc, code)?;
        assert!(rt; answers(alloc, list, &image, b"", printed, status)?);
    }
    Ok(())
}

// The image that exits with 7, with another byte at a place, and what is printed for it.
#[rattlefmt::skip]
const CHANGED: [(usize, u8, &[u8], Status); 10] = [
    (0, 0, b"image magic\n", Status::Image),
    (4, 1, b"image class\n", Status::Image),
    (18, 62, b"image machine\n", Status::Image),
    (16, 3, b"image kind\n", Status::Image),
    (56, 17, b"image header\n", Status::Image),
    (96, 13, b"image segment 0\n", Status::Image),
    (24, 2, b"trapped fetch 65538\n", Status::Trapped),
    (60, 5, b"exited 7\n", Status::ExitAbove),
    (68, 4, b"trapped fetch 65536\n", Status::Trapped),
    (4096, 0x13, b"trapped call 65544\n", Status::Trapped),
];

#[test]
fn changed_images(rt: HostRuntime) -> Result<(), Fail> {
    let alloc = rt.alloc();
    for (at, byte, printed, status) in CHANGED {
        let mut image = image_of(alloc, &EXIT)?;
        assert!(rt; at < image.len());
        image[at] = byte;
        assert!(rt; answers(alloc, &["run", "a"], &image, b"", printed, status)?);
    }
    let image = front(alloc, &image_of(alloc, &EXIT)?)?;
    assert!(rt;
        answers(
            alloc,
            &["run", "a"],
            &image,
            b"",
            b"image short\n",
            Status::Image
        )?
    );
    assert!(rt;
        answers(
            alloc,
            &["run", "a"],
            b"",
            b"",
            b"image short\n",
            Status::Image
        )?
    );
    Ok(())
}

// Reads at most 8 bytes of the input over its own code, and sends them.
#[rattlefmt::skip]
const ECHO: [u32; 9] = [
    0x03f0_0893, 0x0001_05b7, 0x0080_0613, 0x0000_0073,
    0x0005_0613, 0x0400_0893, 0x0010_0513, 0x0000_0073,
    0x0010_0073,
];

// The input, and what is printed.
#[rattlefmt::skip]
const INPUTS: [(&[u8], &[u8], Status); 4] = [
    (b"", b"trapped ebreak 65568\n", Status::Trapped),
    (b"a", b"atrapped ebreak 65568\n", Status::Trapped),
    (b"a\xff\n", b"a\xff\ntrapped ebreak 65568\n", Status::Trapped),
    (b"123456789", b"12345678trapped ebreak 65568\n", Status::Trapped),
];

#[test]
fn input_is_read(rt: HostRuntime) -> Result<(), Fail> {
    let alloc = rt.alloc();
    let mut image = image_of(alloc, &ECHO)?;
    assert!(rt; image.len() == 4132);
    image[68] = 7;
    for (input, printed, status) in INPUTS {
        assert!(rt; answers(alloc, &["run", "a", "i"], &image, input, printed, status)?);
    }
    assert!(rt;
        answers(
            alloc,
            &["run", "a"],
            &image,
            b"a",
            b"trapped ebreak 65568\n",
            Status::Trapped
        )?
    );
    Ok(())
}

#[test]
fn refusals_of_files(rt: HostRuntime) -> Result<(), Fail> {
    let alloc = rt.alloc();
    let image = image_of(alloc, &EXIT)?;
    let rows = [
        (&["run", "x"] as &[&str], b"read fault x\n".as_slice()),
        (&["run", "a", "x"], b"read fault x\n"),
        (&["run", "budget=1", "x", "y"], b"read fault x\n"),
    ];
    for (list, printed) in rows {
        assert!(rt; answers(alloc, list, &image, b"", printed, Status::ReadFault)?);
    }
    // what is no image is refused before the input is read
    assert!(rt;
        answers(
            alloc,
            &["run", "i", "x"],
            &image,
            b"",
            b"image short\n",
            Status::Image
        )?
    );
    let mut long = Vec::new(alloc);
    long.resize(8_388_609, 0)?;
    assert!(rt;
        answers(
            alloc,
            &["run", "a", "i"],
            &image,
            &long,
            b"limit input 8388608\n",
            Status::Limit
        )?
    );
    Ok(())
}

// The bytes of the image of the action that the bytes spell.
fn compiled(alloc: Global, action: &[u8]) -> Result<Vec<u8>, Fail>
    requires { length action.now < 65536 }
{
    let arena = Bump::new(alloc);
    let graph = read_action(alloc, &arena, action).ok().ok_or("no action")?;
    let capacity = Capacity {
        stack: DEFAULT_STACK,
        units: DEFAULT_UNITS,
    };
    let built = compile_action(alloc, &graph, capacity)
        .ok()
        .ok_or("not compiled")?;
    Ok(built.image)
}

// The first 63 bytes.
fn front(alloc: Global, bytes: &[u8]) -> Result<Vec<u8>, Fail> {
    let mut front = Vec::from_slice(alloc, bytes)?;
    front.truncate(63);
    Ok(front)
}

// Whether the image of `send 42` runs, and is refused where it is cut short or for another machine.
fn send_42_runs(alloc: Global) -> Result<bool, Fail> {
    let mut image = compiled(alloc, b"send 42")?;
    let printed = b"\x2a\x00\x00\x00\x00\x00\x00\x00exited 0\n";
    let runs = answers(alloc, &["run", "a"], &image, b"", printed, Status::Done)?;
    let first = front(alloc, &image)?;
    let short = answers(
        alloc,
        &["run", "a"],
        &first,
        b"",
        b"image short\n",
        Status::Image,
    )?;
    let Some(machine) = image.get_mut(18) else {
        return Ok(false);
    };
    *machine = 62;
    let other = answers(
        alloc,
        &["run", "a"],
        &image,
        b"",
        b"image machine\n",
        Status::Image,
    )?;
    Ok(runs && short && other)
}

#[test]
fn compiled_actions_are_run(rt: HostRuntime) -> Result<(), Fail> {
    let alloc = rt.alloc();
    assert!(rt; send_42_runs(alloc)?);
    let image = compiled(alloc, b"fail")?;
    assert!(rt;
        answers(
            alloc,
            &["run", "a"],
            &image,
            b"",
            b"exited 1\n",
            Status::Failed
        )?
    );
    let image = compiled(alloc, b"escape")?;
    assert!(rt;
        answers(
            alloc,
            &["run", "a"],
            &image,
            b"",
            b"exited 2\n",
            Status::Escaped
        )?
    );
    Ok(())
}
