//! The prelude of the code, and the marks between the code of nodes.

ghost use Rattle.std.specs.Prelude.{◌≡◌, ◌+◌, ◌*◌, ◌<◌, ◌≤◌, [], ◌++◌, ◌∷◌, OnOk, length};
ghost use Rattle.rv_asm.specs.Assembly.{total};
ghost use Rattle.rv_asm.specs.declared.item.Item.TheVariants.{Mark};
ghost use Rattle.rv_prelude.specs.Items.{entries_from, prelude_items};
ghost use Rattle.rv_codegen.specs.Blocks.{completed_label, full_label, fail_label, escape_label, send_label, receive_label, allocate_label, start_label, end_label, first_label, opening, ending};
ghost use Rattle.rv_codegen.specs.Marks.{extended, AreFresh};

use crate::calls::append_return;
use crate::labels::NodeLabels;
use acg_base::{Capacity, Memory};
use rv_asm::{Asm, Label};
use rv_code::Reg;
use rv_prelude::prelude;

/// Holds the address to return to.
pub(crate) const RETURN: Reg = Reg(1);

/// Holds the address of the frame.
pub(crate) const FRAME: Reg = Reg(2);

/// Holds the first argument of a call, and the integer to be sent.
pub(crate) const ARGUMENT: Reg = Reg(10);

/// The labels of the entries that nodes go to, and that of the end of the code.
#[derive(Clone, Copy)]
pub(crate) struct Entries {
    pub(crate) completed: Label,
    pub(crate) full: Label,
    pub(crate) fail: Label,
    pub(crate) escape: Label,
    pub(crate) send: Label,
    pub(crate) receive: Label,
    pub(crate) allocate: Label,
    pub(crate) end: Label,
    ghost completed_is: { completed ≡ completed_label },
    ghost full_is: { full ≡ full_label },
    ghost fail_is: { fail ≡ fail_label },
    ghost escape_is: { escape ≡ escape_label },
    ghost send_is: { send ≡ send_label },
    ghost receive_is: { receive ≡ receive_label },
    ghost allocate_is: { allocate ≡ allocate_label },
    ghost end_is: { end ≡ end_label },
}

/// Appends the first instructions and the entries for a capacity, behind which the nodes stand.
pub(crate) fn append_prelude(asm: &mut Asm, capacity: Capacity) -> Result<Entries, Memory>
    requires empty { asm.old.items ≡ [] }
    requires first { asm.old.labels ≡ 0 }
    requires stack_some { 1 ≤ capacity.stack }
    requires stack_few { capacity.stack ≤ 16777216 }
    requires units_some { 1 ≤ capacity.units }
    requires units_few { capacity.units ≤ 4194304 }
    ensures asm { OnOk result
        (asm.new ≡ record {
          items = prelude_items (entries_from 0) capacity.stack capacity.units
              ++ (Mark start_label ∷ []);
          labels = first_label;
        }) }
    ensures short { OnOk result (total asm.new.items ≤ 4096) }
    ensures fresh { OnOk result (AreFresh 0 asm.new.items) }
{
    let entries = prelude(asm, capacity)?;
    asm.place(entries.start);
    Ok(Entries {
        completed: entries.completed,
        full: entries.full,
        fail: entries.fail,
        escape: entries.escape,
        send: entries.send,
        receive: entries.receive,
        allocate: entries.allocate,
        end: entries.code_end,
    })
}

/// Appends the marks before the code of node k, or before what stands behind the last node.
#[tactic(auto, using(crate::proofs::Fresh::freshness))]
pub(crate) fn append_opening(asm: &mut Asm, labels: NodeLabels<'_>, k: usize)
    requires within { 4 * k + 3 < length labels.row.now }
    requires made { first_label + length labels.row.now ≤ asm.old.labels }
    requires fresh { AreFresh k asm.old.items }
    ensures { asm.new ≡ extended asm.old (opening k) }
{
    asm.place(labels.front(k));
    asm.place(labels.start(k));
}

/// Appends what stands behind the last node, whose number is one below this: the end of the action,
/// and the way back of bodies.
pub(crate) fn append_ending(
    asm: &mut Asm,
    labels: NodeLabels<'_>,
    nodes: usize,
    entries: &Entries,
) -> Result<(), Memory>
    requires within { 4 * nodes + 3 < length labels.row.now }
    requires made { first_label + length labels.row.now ≤ asm.old.labels }
    requires fresh { AreFresh nodes asm.old.items }
    ensures { OnOk result (asm.new ≡ extended asm.old (ending nodes)) }
{
    append_opening(asm, labels, nodes);
    asm.jump(entries.completed)?;
    asm.place(labels.stop(nodes));
    append_return(asm)?;
    asm.place(entries.end);
    Ok(())
}
