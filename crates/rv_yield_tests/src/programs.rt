//! Programs whose code is that of a yielder, and what they do on the machine.

ghost use Rattle.std.specs.Prelude.{◌≡◌, ◌≢◌, ◌<◌, ◌≤◌, ◌+◌, ◌*◌, true, [], All, length, OnOk, IfOk};
ghost use Rattle.rv_asm.specs.Assembly.{total};
ghost use Rattle.action_terms.specs.Forms.{IsDatum, yielder_at};
ghost use Rattle.action_terms.specs.Need.{yielder_count};
ghost use Rattle.action_terms.specs.Numbering.{node_limit};
ghost use Rattle.rv_yield.specs.Holding.{slots_of};
ghost use Rattle.rv_yield.specs.Registers.{AreNeeds, is_built};

use acg_base::{LIMIT_NODES, ListSink, Memory};
use action_terms::{
    Graph, GraphBuilder, Kind, NewAction, NewYielder, NodeView, PrimitiveView, YKind,
};
use bumpalo::Bump;
use rv_asm::pieces::{exit_with, load_constant, send_word};
use rv_asm::{Asm, Code, Label};
use rv_code::{Inst, LoadOp, Reg, StoreOp};
use rv_machine::{Image, Input, Machine, Run, Segment};
use rv_yield::{
    Slots, Source, condition_code, registers_needed, registers_of, yield_code, yielder_counts,
};
use std::alloc::Global;
use std::process::Abort;
use std::test::Fail;

/// The address of the region, behind all code, at which the frame begins.
pub(crate) const REGION: u64 = 33554432;

/// The bytes of the region.
const REGION_SIZE: u64 = 8192;

/// A datum that is given: its word, and the offset of the frame at which it stands.
pub(crate) type Placed = (u32, i64);

/// What code is asked for.
#[derive(Clone, Copy)]
pub(crate) enum Asked {
    /// The value of the yielder, at an offset of the frame; the program sends it.
    Value(u32),
    /// Where a truth-value leads: the program exits with 3 where it is true, with 2 where it is
    /// false.
    Condition,
}

/// The token that each `bound to` names, and where the tokens `x` and `y` have their slots; no other
/// token has one.
#[derive(Clone, Copy)]
pub(crate) struct Bound {
    pub(crate) token: &'static [u8],
    pub(crate) x: u32,
    pub(crate) y: u32,
}

/// The tokens have slots at the front of the frame, and none is named.
const NONE_BOUND: Bound = Bound {
    token: b"",
    x: 0,
    y: 1,
};

fn push(builder: &mut GraphBuilder<'_>, kind: YKind, named: &'static [u8]) -> Result<(), Fail> {
    let token = match kind {
        YKind::Bound { .. } => named,
        _ => b"",
    };
    let _number = builder.push_yielder(NewYielder { kind, token })?;
    Ok(())
}

// Registers 2 and 3 hold the region's address, at which the frame begins.
fn append_start(asm: &mut Asm) -> Result<(), Memory>
    ensures labels { OnOk result (asm.new.labels ≡ asm.old.labels) }
    ensures short { OnOk result (total asm.new.items ≤ total asm.old.items + 16) }
{
    load_constant(asm, Reg(2), REGION)?;
    load_constant(asm, Reg(3), REGION)
}

// A word stands at an offset of the frame.
fn append_word(asm: &mut Asm, offset: u32, word: i64) -> Result<(), Memory>
    ensures labels { OnOk result (asm.new.labels ≡ asm.old.labels) }
    ensures short { OnOk result (total asm.new.items ≤ total asm.old.items + 17) }
{
    load_constant(asm, Reg(10), word.cast_unsigned())?;
    load_constant(asm, Reg(11), REGION + 8 * u64::from(offset))?;
    asm.emit(Inst::Store {
        op: StoreOp::Sd,
        rs1: Reg(11),
        rs2: Reg(10),
        imm: 0,
    })
}

// The words of data stand at their offsets.
fn append_words(asm: &mut Asm, given: &[Placed]) -> Result<(), Memory>
    requires few { length given.now ≤ 8 }
    ensures labels { OnOk result (asm.new.labels ≡ asm.old.labels) }
    ensures short { OnOk result (total asm.new.items ≤ total asm.old.items + 136) }
{
    for i in 0..given.len() {
        let (offset, word) = given[i];
        append_word(asm, offset, word)?;
    }
    Ok(())
}

// Sends the word at an address, and exits with 0.
fn append_end(asm: &mut Asm, address: u64) -> Result<(), Memory>
    ensures labels { OnOk result (asm.new.labels ≡ asm.old.labels) }
    ensures short { OnOk result (total asm.new.items ≤ total asm.old.items + 18) }
{
    load_constant(asm, Reg(11), address)?;
    asm.emit(Inst::Load {
        op: LoadOp::Ld,
        rd: Reg(10),
        rs1: Reg(11),
        imm: 0,
    })?;
    send_word(asm, Reg(10), 0)?;
    exit_with(asm, 0)
}

// Where the yielder yields nothing, the program exits with 1, and with 2 at another label.
fn append_failures(
    asm: &mut Asm,
    start: Label,
    nothing: Label,
    otherwise: Label,
) -> Result<(), Memory>
    requires empty { asm.old.items ≡ [] }
    requires made { (start < asm.old.labels) × (nothing < asm.old.labels)
        × (otherwise < asm.old.labels) }
    requires differ { (nothing ≢ start) × (otherwise ≢ start) × (otherwise ≢ nothing) }
    ensures labels { OnOk result (asm.new.labels ≡ asm.old.labels) }
    ensures short { OnOk result (total asm.new.items ≤ 8) }
{
    asm.jump(start)?;
    asm.place(nothing);
    exit_with(asm, 1)?;
    asm.place(otherwise);
    exit_with(asm, 2)?;
    asm.place(start);
    Ok(())
}

// The offsets at which data stand, where all of them are in the region.
fn offsets_of(alloc: Global, given: &[Placed]) -> Result<Vec<u32>, Fail>
    ensures { IfOk result (λ offsets. All (λ offset. offset < 33554432) offsets.items) }
{
    let mut offsets = Vec::new(alloc);
    for i in 0..given.len() {
        let (offset, _word) = given[i];
        if offset >= 1024 {
            return Err("far".into());
        }
        offsets.push(offset)?;
    }
    Ok(offsets)
}

// Appends what the program does where a yielder is asked for its value or for where it leads.
fn append_asked(
    alloc: Global,
    asm: &mut Asm,
    source: &Source<'_>,
    yielder: u32,
    asked: Asked,
    otherwise: Label,
) -> Result<(), Memory>
    requires datum { IsDatum source.now.graph.now.yielders yielder }
    requires built { is_built (yielder_at source.now.graph.now.yielders yielder) ≡ true }
    requires few { yielder_count (yielder_at source.now.graph.now.yielders yielder) < node_limit }
    requires made { (source.now.nothing < asm.old.labels) × (otherwise < asm.old.labels) }
    ensures labels { OnOk result (asm.new.labels ≡ asm.old.labels) }
    ensures short { OnOk result (total asm.new.items ≤ total asm.old.items + 1441810) }
{
    match asked {
        Asked::Condition => {
            condition_code(alloc, asm, source, yielder, otherwise)?;
            exit_with(asm, 3)
        }
        Asked::Value(offset) => {
            let slots = Slots {
                given: source.given,
                bound: source.bound,
                target: offset % 1024,
                nothing: source.nothing,
            };
            yield_code(alloc, asm, source.graph, yielder, &slots)?;
            append_end(asm, REGION + 8 * u64::from(offset % 1024))
        }
    }
}

// The code of a program of a yielder.
fn assembled<'a>(
    alloc: Global,
    graph: &'a Graph<'a>,
    needs: &'a [usize],
    yielder: u32,
    offsets: &'a [u32],
    slots: &'a [(&'a [u8], u32)],
    given: &[Placed],
    asked: Asked,
) -> Result<Code, Memory>
    requires datum { IsDatum graph.now.yielders yielder }
    requires built { is_built (yielder_at graph.now.yielders yielder) ≡ true }
    requires few { yielder_count (yielder_at graph.now.yielders yielder) < node_limit }
    requires needs { AreNeeds graph.now.yielders needs.now }
    requires near { All (λ offset. offset < 33554432) offsets.now }
    requires given { length given.now ≤ 8 }
    requires slots { All (λ slot. slot.offset < 33554432) (slots_of slots.now) }
{
    let mut asm = Asm::new(alloc)?;
    let start = asm.label()?;
    let nothing = asm.label()?;
    let otherwise = asm.label()?;
    append_failures(&mut asm, start, nothing, otherwise)?;
    append_start(&mut asm)?;
    append_words(&mut asm, given)?;
    let source = Source {
        graph,
        needs,
        given: offsets,
        bound: slots,
        nothing,
    };
    append_asked(alloc, &mut asm, &source, yielder, asked, otherwise)?;
    asm.finish()
}

// The code of a program of the only yielder of an action.
fn code_of(
    alloc: Global,
    graph: &Graph<'_>,
    given: &[Placed],
    bound: Bound,
    asked: Asked,
) -> Result<Code, Fail> {
    let needs = registers_needed(alloc, graph)?;
    let counts = yielder_counts(alloc, graph)?;
    let offsets = offsets_of(alloc, given)?;
    if graph.nodes().is_empty() || given.len() > 8 {
        return Err("no node".into());
    }
    if bound.x >= 1024 || bound.y >= 1024 {
        return Err("far".into());
    }
    let NodeView::Simple(PrimitiveView::Send { yielder }) = graph.view(0) else {
        return Err("no send".into());
    };
    if counts[yielder as usize] >= LIMIT_NODES as usize
        || registers_of(graph, &needs, yielder).is_none()
    {
        return Err("no code".into());
    }
    let slots: [(&[u8], u32); 2] = [(b"y", bound.y), (b"x", bound.x)];
    Ok(assembled(
        alloc, graph, &needs, yielder, &offsets, &slots, given, asked,
    )?)
}

// The image of code, with a region far behind it.
fn image_of(rt: &impl Abort, alloc: Global, words: &[u32]) -> Result<Image, Fail> {
    let mut bytes = Vec::new(alloc);
    for word in words {
        bytes.extend_from_slice(&word.to_le_bytes())?;
    }
    let size = bytes.len() as u64;
    assert!(rt; size <= 16777216);
    let mut segments = Vec::new(alloc);
    segments.push(Segment {
        address: 65536,
        flags: 1,
        bytes,
        size,
    })?;
    segments.push(Segment {
        address: REGION,
        flags: 6,
        bytes: Vec::new(alloc),
        size: REGION_SIZE,
    })?;
    Ok(Image {
        entry: 65536,
        segments,
    })
}

// Runs the program of the yielder whose nodes these are, in preorder.
fn ended(
    rt: &impl Abort,
    alloc: Global,
    kinds: &[YKind],
    given: &[Placed],
    bound: Bound,
    asked: Asked,
) -> Result<(Run, Option<i64>), Fail> {
    let arena = Bump::new(alloc);
    let graph = graph_of(rt, alloc, &arena, kinds, bound.token)?;
    let code = code_of(alloc, &graph, given, bound, asked)?;
    let image = image_of(rt, alloc, code.words.as_slice())?;
    let mut machine = Machine::load(alloc, image).ok().ok_or("memory")?;
    let mut input = Input { bytes: b"", at: 0 };
    let mut sink = ListSink::new(alloc, 8, Vec::new(alloc))
        .ok()
        .ok_or("memory")?;
    let end = machine.run(4000000, &mut input, &mut sink);
    let sent = sink.bytes();
    if sent.is_empty() {
        return Ok((end, None));
    }
    let word = i64::from_le_bytes(sent.try_into().ok().ok_or("no word")?);
    Ok((end, Some(word)))
}

// The graph of an action that sends a yielder, whose nodes these are, in preorder.
fn graph_of<'a>(
    rt: &impl Abort,
    alloc: Global,
    arena: &'a Bump,
    kinds: &[YKind],
    named: &'static [u8],
) -> Result<Graph<'a>, Fail> {
    let mut builder = GraphBuilder::new(alloc, arena)?;
    let _root = builder.push_action(NewAction {
        kind: Kind::Send,
        items: 0,
        token: b"",
    })?;
    for kind in kinds {
        push(&mut builder, *kind, named)?;
    }
    assert!(rt; builder.is_whole());
    Ok(builder.seal()?)
}

/// What the yielder yields whose nodes these are, in preorder, by its code: the word of its datum,
/// which it leaves at an offset below 1024.
pub(crate) fn value_of(
    rt: &impl Abort,
    alloc: Global,
    kinds: &[YKind],
    given: &[Placed],
    offset: u32,
) -> Result<Option<i64>, Fail> {
    value_bound(rt, alloc, kinds, given, NONE_BOUND, offset)
}

/// The same, where tokens are bound.
pub(crate) fn value_bound(
    rt: &impl Abort,
    alloc: Global,
    kinds: &[YKind],
    given: &[Placed],
    bound: Bound,
    offset: u32,
) -> Result<Option<i64>, Fail> {
    let (end, word) = ended(rt, alloc, kinds, given, bound, Asked::Value(offset))?;
    if end == (Run::Exited { code: 1 }) {
        assert!(rt; word.is_none());
    } else {
        assert_eq!(rt; end, Run::Exited { code: 0 });
    }
    Ok(word)
}

/// Where the condition leads whose nodes these are, in preorder: by `true`, by `false`, or by
/// nothing.
pub(crate) fn truth_of(
    rt: &impl Abort,
    alloc: Global,
    kinds: &[YKind],
    given: &[Placed],
) -> Result<Option<bool>, Fail> {
    truth_bound(rt, alloc, kinds, given, NONE_BOUND)
}

/// The same, where tokens are bound.
pub(crate) fn truth_bound(
    rt: &impl Abort,
    alloc: Global,
    kinds: &[YKind],
    given: &[Placed],
    bound: Bound,
) -> Result<Option<bool>, Fail> {
    let (end, word) = ended(rt, alloc, kinds, given, bound, Asked::Condition)?;
    assert!(rt; word.is_none());
    match end {
        Run::Exited { code: 3 } => Ok(Some(true)),
        Run::Exited { code: 2 } => Ok(Some(false)),
        Run::Exited { code: 1 } => Ok(None),
        _ => Err("no end".into()),
    }
}
