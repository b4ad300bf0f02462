//! The machine.

use crate::answers::{Quiet, QuietEnd, Run, Step, Turn};
use crate::block::Block;
use crate::input::Input;
use crate::{arithmetic, block, registers, table};
use acg_base::{Memory, Sink, SinkError};
use elf_image::Image;
use rv_code::{BranchOp, Cause, Inst, LoadOp, Reg, StoreOp, decode};
use std::alloc::Global;
use std::marker::Model;

/// A machine of this project's profile: RV64IM, memory in segments, and the calls 63 (read), 64 (write) and 93
/// (exit). Contracts see it as its pc, its registers, its memory and the number of instructions that it ran; its
/// input and its output stand outside.
#[derive(Debug, Drop)]
pub struct Machine {
    pc: u64,
    registers: [u64; 32],
    blocks: Vec<Block>,
    taken: u64,
    // The instructions of the words from an address on, decoded once: of the first segment with the flag X, where it can't
    // be written.
    code: Vec<Option<Inst>>,
    code_address: u64,
}

impl Model for Machine {
    ghost use Rattle.rv_machine.specs.Machines.{MachineValue};

    ghost Value = { MachineValue };

    ghost view = { λ machine. record {
      pc = machine.pc;
      registers = machine.registers;
      segments = machine.blocks.items;
      taken = machine.taken;
    } };

    ghost use Rattle.rv_machine.specs.Kept.{IsKept};

    ghost invariant = { λ machine. IsKept machine.registers machine.blocks.items
        machine.code_address machine.code.items };
}

impl Machine {
    ghost use Rattle.std.specs.Prelude.{◌≡◌, ◌≢◌, ℕ, ◌+◌, ◌-◌, ◌*◌, ◌%◌, ◌^◌, ◌<◌, ◌≤◌, ◌&&◌, min, nat_eq, if◌then◌else◌, IfSome, IfNone, option_map, take, length, IfOk, IfErr, OnOk, OnErr, Ok, List, [], Some, None};
    ghost use Rattle.std.specs.Bool.{OnTrue, OnFalse};
    ghost use Rattle.std.specs.Borrow.{sem};
    ghost use Rattle.rv_machine.specs.Borrowed.{MachineStays};
    ghost use Rattle.acg_base.specs.Outside.{counted};
    ghost use Rattle.rv_code.specs.Arithmetic.{wrap, unsigned, load_size, extended, store_size};
    ghost use Rattle.rv_code.specs.Bytes.{number_of, bytes_of};
    ghost use Rattle.rv_code.specs.Machine.{register, with_register, read_bytes, write_bytes, written_in, holder, jumps, loads, stores, execute, step, Ran, Trapped};
    ghost use Rattle.rv_code.specs.Images.{started};
    ghost use Rattle.rv_code.specs.declared.cause.Cause.{Cause as CauseValue};
    ghost use Rattle.rv_machine.specs.Machines.{left, state_of, loaded_machine, sent, Steps, StepTraps};
    ghost use Rattle.rv_machine.specs.Effects.{Does, Fetches, AtCall, AtReceive, AtSend, IsSend, AmountFits, Turns, RunsPlainly};
    ghost use Rattle.rv_machine.specs.Memory.{IsSize};
    ghost use Rattle.rv_machine.specs.Stepping.{Stepped, RanWithin, RanQuietly, PassedOver};

    /// The machine before the first instruction of an image. Takes all memory of the run.
    pub fn load(alloc: Global, image: Image) -> Result<Machine, Memory>
        ensures loaded { IfOk result (λ machine. machine ≡ loaded_machine image) }
        ensures started { IfOk result (λ machine. (input : List ℕ) → state_of machine input [] ≡ started image input) }
    {
        let blocks = block::filled_all(alloc, image.segments)?;
        let (code_address, code) = table::decoded(alloc, blocks.as_slice());
        Ok(Machine {
            pc: image.entry,
            registers: [0; 32],
            blocks,
            taken: 0,
            code,
            code_address,
        })
    }

    /// How many steps of this machine answered `Ran`. It stays at the greatest value of 64 bits.
    pub fn taken(&self) -> u64
        ensures { result ≡ self.now.taken }
    {
        self.taken
    }

    #[inline(always)]
    fn register(&self, number: Reg) -> u64
        ensures { result ≡ register self.now.registers number }
    {
        registers::register(&self.registers, number)
    }

    // The address at an offset from what a register holds.
    #[inline(always)]
    fn address(&self, base: Reg, imm: i32) -> u64
        ensures { result ≡ wrap (register self.now.registers base + unsigned imm) }
    {
        arithmetic::offset(self.register(base), imm)
    }

    // Goes on behind the instruction.
    #[inline(always)]
    fn go_on(&mut self)
        ensures { self.new ≡ record self.old { pc = wrap (self.old.pc + 4) } }
    {
        self.pc = self.pc.wrapping_add(4);
    }

    // Goes on behind the instruction, with a register set.
    #[inline(always)]
    fn set(&mut self, rd: Reg, value: u64)
        ensures { self.new ≡ record self.old {
          pc = wrap (self.old.pc + 4);
          registers = with_register self.old.registers rd value;
        } }
    {
        registers::set_register(&mut self.registers, rd, value);
        self.pc = self.pc.wrapping_add(4);
    }

    // Goes to a target, with a register set to the address behind the instruction.
    #[inline(always)]
    fn jump(&mut self, rd: Reg, target: u64) -> Result<(), Cause>
        ensures { Does result self.old self.new (λ s. jumps s rd target) }
    {
        if target % 4 != 0 {
            return Err(Cause::Target);
        }
        let behind = self.pc.wrapping_add(4);
        registers::set_register(&mut self.registers, rd, behind);
        self.pc = target;
        Ok(())
    }

    // The number that the bytes from an address on spell, where they can be read.
    #[inline(always)]
    fn number_at(&self, address: u64, size: u64) -> Option<u64>
        requires { IsSize size }
        ensures number { result ≡ option_map number_of (read_bytes self.now.segments 4 address size) }
        ensures small { IfSome result (λ number. number < 2 ^ (8 * size)) }
    {
        block::read_sized(self.blocks.as_slice(), address, size)
    }

    // Writes the bytes that spell a number from an address on. False where they can't be written.
    #[inline(always)]
    fn write_number(&mut self, address: u64, size: u64, number: u64) -> bool
        requires { IsSize size }
        ensures written { OnTrue result
            (write_bytes self.old.segments address (bytes_of size number) ≡ Some self.new.segments) }
        ensures others { self.new ≡ record self.old { segments = self.new.segments } }
        ensures missing { OnFalse result
            (write_bytes self.old.segments address (bytes_of size number) ≡ None) }
        ensures stays { OnFalse result (self.new ≡ self.old) }
    {
        block::write_sized(self.blocks.as_mut_slice(), address, size, number)
    }

    #[inline(always)]
    fn load_at(&mut self, op: LoadOp, rd: Reg, address: u64) -> Result<(), Cause>
        ensures { Does result self.old self.new (λ s. if nat_eq (address % load_size op) 0
            then loads s rd (extended op) (read_bytes s.segments 4 address (load_size op)) else Trapped CauseValue.Load) }
    {
        let size = arithmetic::load_size(op);
        if address % size != 0 {
            return Err(Cause::Load);
        }
        match self.number_at(address, size) {
            None => Err(Cause::Load),
            Some(number) => {
                self.set(rd, arithmetic::extended(op, number));
                Ok(())
            }
        }
    }

    #[inline(always)]
    fn store_at(&mut self, op: StoreOp, address: u64, value: u64) -> Result<(), Cause>
        ensures { Does result self.old self.new (λ s. if nat_eq (address % store_size op) 0
            then stores s (write_bytes s.segments address (bytes_of (store_size op) value)) else Trapped CauseValue.Store) }
    {
        let size = arithmetic::store_size(op);
        if address % size != 0 {
            return Err(Cause::Store);
        }
        if !self.write_number(address, size, value) {
            return Err(Cause::Store);
        }
        self.pc = self.pc.wrapping_add(4);
        Ok(())
    }

    // The instruction at the pc, decoded from its word.
    #[tactic(auto, unfolding(rv_code::specs::Machine::step))]
    #[inline(never)]
    fn decode_next(&self) -> Result<Inst, Cause>
        ensures next { Fetches result self.now }
        ensures amount { IfOk result (λ inst. AmountFits inst) }
    {
        if self.pc % 4 != 0 {
            return Err(Cause::Fetch);
        }
        match block::read_word(self.blocks.as_slice(), self.pc) {
            None => Err(Cause::Fetch),
            Some(word) => match decode(word) {
                None => Err(Cause::Undefined),
                Some(inst) => Ok(inst),
            },
        }
    }

    // The instruction at the pc, where the table has its word.
    #[inline(always)]
    fn known(&self) -> Option<Result<Inst, Cause>>
        ensures next { IfSome result (λ known. Fetches known self.now) }
        ensures amount { IfSome result (λ known. IfOk known AmountFits) }
    {
        match table::place(self.pc, self.code_address, self.code.len()) {
            None => None,
            Some(place) => match self.code[place] {
                None => Some(Err(Cause::Undefined)),
                Some(inst) => Some(Ok(inst)),
            },
        }
    }

    // The instruction at the pc.
    fn fetch(&self) -> Result<Inst, Cause>
        ensures next { Fetches result self.now }
        ensures amount { IfOk result (λ inst. AmountFits inst) }
    {
        match self.known() {
            None => self.decode_next(),
            Some(known) => known,
        }
    }

    // Does a branch.
    #[inline(always)]
    fn branch(&mut self, op: BranchOp, rs1: Reg, rs2: Reg, imm: i32) -> Result<(), Cause>
        ensures { Does result self.old self.new (λ s. execute (Inst.Branch op rs1 rs2 imm) s) }
    {
        if arithmetic::is_taken(op, self.register(rs1), self.register(rs2)) {
            let target = arithmetic::offset(self.pc, imm);
            self.jump(Reg(0), target)
        } else {
            self.go_on();
            Ok(())
        }
    }

    // Does an instruction that isn't a call: `call` does those.
    #[inline(always)]
    fn execute(&mut self, inst: Inst) -> Result<(), Cause>
        requires plain { inst ≢ Inst.Ecall }
        requires amount { AmountFits inst }
        ensures { Does result self.old self.new (λ s. execute inst s) }
    {
        match inst {
            Inst::Op { op, rd, rs1, rs2 } => {
                let value = arithmetic::operation(op, self.register(rs1), self.register(rs2));
                self.set(rd, value);
            }
            Inst::OpImm { op, rd, rs1, imm } => {
                let value = arithmetic::immediate_operation(op, self.register(rs1), imm);
                self.set(rd, value);
            }
            Inst::Shift {
                op,
                rd,
                rs1,
                amount,
            } => {
                let value = arithmetic::shift_operation(op, self.register(rs1), amount);
                self.set(rd, value);
            }
            Inst::Upper { op, rd, imm } => self.set(rd, arithmetic::upper_value(op, self.pc, imm)),
            Inst::Load { op, rd, rs1, imm } => return self.load_at(op, rd, self.address(rs1, imm)),
            Inst::Store { op, rs1, rs2, imm } => {
                return self.store_at(op, self.address(rs1, imm), self.register(rs2));
            }
            Inst::Branch { op, rs1, rs2, imm } => return self.branch(op, rs1, rs2, imm),
            Inst::Jal { rd, imm } => return self.jump(rd, arithmetic::offset(self.pc, imm)),
            Inst::Jalr { rd, rs1, imm } => {
                let target = self.address(rs1, imm);
                return self.jump(rd, target - target % 2);
            }
            Inst::Fence { .. } => self.go_on(),
            Inst::Ecall | Inst::Ebreak => return Err(Cause::Ebreak),
        }
        Ok(())
    }

    // Takes the next `size` bytes of the input, or as many as are left, to an address, and answers how many.
    fn take_input(&mut self, address: u64, size: u64, input: &mut Input<'_>) -> Option<u64>
        ensures count { IfSome result (λ count. count ≡ min size (length (left input.old))) }
        ensures written { IfSome result (λ count. option_map (written_in self.old.segments address (take count (left input.old)))
            (holder self.old.segments 2 address size) ≡ Some self.new.segments) }
        ensures input { IfSome result (λ count. input.new ≡ record input.old { at = input.old.at + count }) }
        ensures others { self.new ≡ record self.old { segments = self.new.segments } }
        ensures missing { IfNone result (holder self.old.segments 2 address size ≡ None) }
        ensures stays { IfNone result ((self.new ≡ self.old) × (input.new ≡ input.old)) }
    {
        block::receive(self.blocks.as_mut_slice(), address, size, input)
    }

    // Lends the bytes from an address on, where they lie in one segment with the flag R, and stays what it is.
    fn readable(&mut self, address: u64, size: u64) -> Option<&[u8]>
        ensures* stays { sem 𝓛 (MachineStays self.entry) }
        ensures bytes { option_map (λ bytes. bytes.now) result ≡ read_bytes self.old.segments 4 address size }
        ensures length { IfSome result (λ bytes. length bytes.now ≡ size) }
    {
        match block::find(self.blocks.as_slice(), 4, address, size) {
            None => None,
            Some(index) => Some(self.blocks[index].lent(address, size)),
        }
    }

    // Does the call 63.
    fn receive(&mut self, address: u64, size: u64, input: &mut Input<'_>) -> Result<(), Cause>
        requires { AtReceive self.old address size }
        ensures ran { OnOk result (Steps self.old (left input.old) self.new (left input.new)) }
        ensures trapped { IfErr result (λ cause. StepTraps self.old (left input.old) cause) }
        ensures stays { OnErr result ((self.new ≡ self.old) × (input.new ≡ input.old)) }
        ensures taken { self.new.taken ≡ self.old.taken }
        ensures bytes { input.new.bytes ≡ input.old.bytes }
        ensures silent { sent self.old ≡ [] }
    {
        if size == 0 {
            self.set(Reg(10), 0);
            return Ok(());
        }
        match self.take_input(address, size, input) {
            None => Err(Cause::Buffer),
            Some(count) => {
                self.set(Reg(10), count);
                Ok(())
            }
        }
    }

    // Does the call 64, but doesn't send.
    fn send(&mut self, address: u64, size: u64, input: &mut Input<'_>) -> Turn
        requires { AtSend self.old address size }
        ensures { Turns result self.old input.old self.new input.new }
    {
        if size == 0 {
            self.set(Reg(10), 0);
            return Turn::Ran;
        }
        if !block::can_read(self.blocks.as_slice(), address, size) {
            return Turn::Trapped {
                cause: Cause::Buffer,
            };
        }
        Turn::Sends { address, size }
    }

    // Does a call, but doesn't send.
    fn call(&mut self, input: &mut Input<'_>) -> Turn
        requires { AtCall self.old }
        ensures { Turns result self.old input.old self.new input.new }
    {
        let number = self.registers[17];
        let first = self.registers[10];
        let address = self.registers[11];
        let size = self.registers[12];
        match (number, first) {
            (93, _) => Turn::Exited {
                code: (first % 256) as u8,
            },
            (63, 0) => match self.receive(address, size, input) {
                Ok(()) => Turn::Ran,
                Err(cause) => Turn::Trapped { cause },
            },
            (64, 1) => self.send(address, size, input),
            _ => Turn::Trapped { cause: Cause::Call },
        }
    }

    // Does one instruction that sends nothing, and doesn't count it.
    #[inline(never)]
    fn turn(&mut self, input: &mut Input<'_>) -> Turn
        ensures { Turns result self.old input.old self.new input.new }
    {
        match self.fetch() {
            Err(cause) => Turn::Trapped { cause },
            Ok(Inst::Ecall) => self.call(input),
            Ok(inst) => match self.execute(inst) {
                Ok(()) => Turn::Ran,
                Err(cause) => Turn::Trapped { cause },
            },
        }
    }

    // Counts an instruction that ran.
    fn count(&mut self)
        ensures { self.new ≡ record self.old { taken = counted self.old.taken } }
    {
        self.taken = self.taken.saturating_add(1);
    }

    // Does and counts the next instruction, where the table has it, it isn't a call and doesn't trap. False where nothing
    // was done.
    #[inline(always)]
    fn plain(&mut self) -> bool
        ensures ran { OnTrue result (RunsPlainly self.old self.new) }
        ensures stays { OnFalse result (self.new ≡ self.old) }
    {
        match self.known() {
            None => false,
            Some(Err(_cause)) => false,
            Some(Ok(Inst::Ecall)) => false,
            Some(Ok(inst)) => match self.execute(inst) {
                Err(_cause) => false,
                Ok(()) => {
                    self.count();
                    true
                }
            },
        }
    }

    // Lends the bytes that the next instruction sends.
    fn lent(&mut self, address: u64, size: u64) -> &[u8]
        requires { IsSend self.old address size }
        ensures* stays { sem 𝓛 (MachineStays self.entry) }
        ensures bytes { result.now ≡ sent self.old }
    {
        match self.readable(address, size) {
            None => unreachable!(),
            Some(bytes) => bytes,
        }
    }

    // Whether a call would be a call 64 to the output.
    fn calls_send(&self) -> bool
        ensures { result ≡ (nat_eq (register self.now.registers 17) 64
            && nat_eq (register self.now.registers 10) 1) }
    {
        self.registers[17] == 64 && self.registers[10] == 1
    }

    // Whether the next instruction is a call 64 to the output.
    fn is_at_send(&self) -> bool
        ensures yes { OnTrue result
            (AtSend self.now (register self.now.registers 11) (register self.now.registers 12)) }
        ensures no { OnFalse result (sent self.now ≡ []) }
    {
        match self.fetch() {
            Err(_cause) => false,
            Ok(Inst::Ecall) => self.calls_send(),
            Ok(_inst) => false,
        }
    }

    /// Lends the bytes that the next instruction sends: none, unless it is a call 64 that runs. The machine stays what
    /// it is. It takes no memory.
    pub fn sending(&mut self) -> &[u8]
        ensures* stays { sem 𝓛 (MachineStays self.entry) }
        ensures bytes { result.now ≡ sent self.old }
    {
        if !self.is_at_send() {
            return &[];
        }
        let address = self.register(Reg(11));
        let size = self.register(Reg(12));
        match self.readable(address, size) {
            None => &[],
            Some(bytes) => bytes,
        }
    }

    /// Does the next instruction, which sends bytes, without a sink: whoever calls takes them from `sending` first.
    pub fn pass_over(&mut self)
        requires { sent self.old ≢ [] }
        ensures { PassedOver self.old self.new }
    {
        let size = self.register(Reg(12));
        self.set(Reg(10), size);
        self.count();
    }

    /// Does one instruction. It takes no memory.
    ///
    /// `Ran`: the machine and the input are those behind the instruction, and the sink got what it sends. `Exited`
    /// and `Trapped`: nothing has changed, so a further call answers the same. `SinkFault`: the sink failed at the
    /// bytes of a call 64 and may have got a front of them; the machine and the input haven't changed.
    pub fn step<K: Sink>(&mut self, input: &mut Input<'_>, out: &mut K) -> Step
        ensures { Stepped K.written K.faults K.writes K.tells K.last_failed result
            self.old input.old out.old self.new input.new out.new }
    {
        match self.turn(input) {
            Turn::Ran => {
                self.count();
                Step::Ran
            }
            Turn::Exited { code } => Step::Exited { code },
            Turn::Trapped { cause } => Step::Trapped { cause, pc: self.pc },
            Turn::Sends { address, size } => match out.write(self.lent(address, size)) {
                Err(SinkError::Failed) => Step::SinkFault,
                Ok(()) => {
                    self.pass_over();
                    Step::Ran
                }
            },
        }
    }

    /// Does at most `budget` instructions. It takes no memory.
    ///
    /// `Budget` comes exactly where all of them ran. Otherwise the machine and the input stand before the
    /// instruction that exited, trapped or met a fault of the sink, as `step` leaves them.
    pub fn run<K: Sink>(&mut self, budget: u64, input: &mut Input<'_>, out: &mut K) -> Run
        ensures { RanWithin K.written K.faults K.writes K.tells K.last_failed budget result
            self.old input.old out.old self.new input.new out.new }
    {
        for _i in 0..budget {
            if self.plain() {
                continue;
            }
            match self.step(input, out) {
                Step::Ran => {}
                Step::Exited { code } => return Run::Exited { code },
                Step::Trapped { cause, pc } => return Run::Trapped { cause, pc },
                Step::SinkFault => return Run::SinkFault,
            }
        }
        Run::Budget
    }

    /// Does at most `budget` instructions, up to the first one that sends bytes. It takes no memory.
    ///
    /// `Sends` comes where the next instruction is a call 64 that runs and sends at least one byte: `sending` lends
    /// them, and `pass_over` or `step` does it. The machine and the input stand behind the instructions that ran.
    pub fn run_quietly(&mut self, budget: u64, input: &mut Input<'_>) -> Quiet
        ensures { RanQuietly budget result self.old input.old self.new input.new }
    {
        for ran in 0..budget {
            if self.plain() {
                continue;
            }
            match self.turn(input) {
                Turn::Ran => self.count(),
                Turn::Exited { code } => return QuietEnd::Exited { code }.behind(ran),
                Turn::Trapped { cause } => {
                    return QuietEnd::Trapped { cause, pc: self.pc }.behind(ran);
                }
                Turn::Sends { .. } => return QuietEnd::Sends.behind(ran),
            }
        }
        QuietEnd::Budget.behind(budget)
    }
}
