//! Images of compiled actions, as bytes.

ghost use Rattle.std.specs.Prelude.{◌<◌, length};
ghost use Rattle.acg_words.specs.Settings.{IsCapacity};

use acg_base::{Capacity, DEFAULT_STACK, DEFAULT_UNITS, ListSink};
use acg_driver::{Built, CompileError, compile_action};
use action_text::action_reader::read_action;
use bumpalo::Bump;
use elf_image::{ImageError, read_image};
use rv_machine::{Input, Machine, Run};
use std::alloc::Global;
use std::test::Fail;

const DEFAULT: Capacity = Capacity {
    stack: DEFAULT_STACK,
    units: DEFAULT_UNITS,
};

const LEAST: Capacity = Capacity { stack: 1, units: 1 };

const MOST: Capacity = Capacity {
    stack: 16777216,
    units: 4194304,
};

// Compiles the action that the bytes spell.
fn compiled(
    alloc: Global,
    action: &[u8],
    capacity: Capacity,
) -> Result<Result<Built, CompileError>, Fail>
    requires capacity { IsCapacity capacity }
    requires short { length action.now < 65536 }
{
    let arena = Bump::new(alloc);
    let graph = read_action(alloc, &arena, action).ok().ok_or("no action")?;
    Ok(compile_action(alloc, &graph, capacity))
}

#[test]
fn the_region_has_the_capacity(rt: HostRuntime) -> Result<(), Fail> {
    let least = compiled(rt.alloc(), b"send 42", LEAST)?
        .ok()
        .ok_or("memory")?;
    let most = compiled(rt.alloc(), b"send 42", MOST)?
        .ok()
        .ok_or("memory")?;
    for (built, size) in [(&least, 4120), (&most, 201_330_688)] {
        assert_eq!(rt; built.factor, 448);
        let image = read_image(rt.alloc(), &built.image).ok().ok_or("read")?;
        assert_eq!(rt; image.entry, 65536);
        assert_eq!(rt; image.segments.len(), 2);
        let code = image.segments.first().ok_or("code")?;
        assert_eq!(rt; code.address, 65536);
        assert_eq!(rt; code.flags, 1);
        assert_eq!(rt; code.size, code.bytes.len() as u64);
        let region = image.segments.get(1).ok_or("region")?;
        assert_eq!(rt; region.address, 69632);
        assert_eq!(rt; region.flags, 6);
        assert_eq!(rt; region.size, size);
        assert!(rt; region.bytes.is_empty());
    }
    Ok(())
}

#[test]
fn the_image_runs(rt: HostRuntime) -> Result<(), Fail> {
    let built = compiled(rt.alloc(), b"send 42", DEFAULT)?
        .ok()
        .ok_or("memory")?;
    let image = read_image(rt.alloc(), &built.image).ok().ok_or("read")?;
    let mut machine = Machine::load(rt.alloc(), image).ok().ok_or("memory")?;
    let mut input = Input { bytes: b"", at: 0 };
    let mut sink = ListSink::new(rt.alloc(), 8, Vec::new(rt.alloc()))
        .ok()
        .ok_or("memory")?;
    assert_eq!(rt;
        machine.run(10000, &mut input, &mut sink),
        Run::Exited { code: 0 }
    );
    assert_eq!(rt; sink.bytes(), [42, 0, 0, 0, 0, 0, 0, 0].as_slice());
    Ok(())
}

// Whether the first 63 bytes are refused as too few.
fn is_short(alloc: Global, bytes: &[u8]) -> bool {
    bytes.len() >= 63 && read_image(alloc, &bytes[..63]).err() == Some(ImageError::Short)
}

#[test]
fn changed_images_are_refused(rt: HostRuntime) -> Result<(), Fail> {
    let built = compiled(rt.alloc(), b"send 42", DEFAULT)?
        .ok()
        .ok_or("memory")?;
    let mut bytes = built.image;
    assert!(rt; is_short(rt.alloc(), &bytes));
    assert!(rt; bytes.len() >= 120);
    bytes[18] = 62;
    assert_eq!(rt;
        read_image(rt.alloc(), &bytes).err(),
        Some(ImageError::Machine)
    );
    Ok(())
}

#[test]
fn ill_sorted_actions_are_not_compiled(rt: HostRuntime) -> Result<(), Fail> {
    let built = compiled(
        rt.alloc(),
        b"give () and then give (0, the given cell)",
        DEFAULT,
    )?;
    assert_eq!(rt; built.err(), Some(CompileError::IllSorted { node: 2 }));
    Ok(())
}

#[test]
fn nodes_without_code_are_told(rt: HostRuntime) -> Result<(), Fail> {
    let built = compiled(rt.alloc(), b"complete and bind \"x\" to 1", LEAST)?;
    assert_eq!(rt; built.err(), Some(CompileError::Unbuilt { node: 2 }));
    Ok(())
}
