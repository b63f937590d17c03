//! What one thread does next, apart from memory.
ghost use Rattle.std.specs.Prelude.{◌≡◌, ◌<◌};
ghost use Rattle.tso_program.specs.Actions.{act, onward, value_in, loaded, compared, jumped};

use crate::{Instr, REGISTERS, Reg};

/// What belongs to one thread alone: the number of its next instruction, its registers, its zero
/// flag.
#[derive(Clone, Copy, Debug)]
pub struct Local {
    pub place: u8,
    pub registers: [u32; REGISTERS],
    pub flag: bool,
}

/// What a thread does next, each with its own state afterwards.
#[derive(Clone, Copy, Debug)]
pub enum Action {
    /// Nothing: the thread is at its end.
    Stop,
    /// A step that touches the thread alone.
    Go(Local),
    /// MFENCE.
    Wait(Local),
    /// A load of a location, whose value goes into a register.
    Read(u8, Reg, Local),
    /// A store of a value to a location.
    Write(u8, u32, Local),
    /// XCHG: a value is stored to a location, whose value before goes into a register.
    Swap(u8, u32, Reg, Local),
}

impl Local {
    fn value(self, r: Reg) -> u32
        ensures { result ≡ value_in self r }
    {
        self.registers[r.index()]
    }

    /// The state with a value put into a register.
    pub fn with(self, r: Reg, v: u32) -> Local
        ensures { result ≡ loaded r v self }
    {
        let mut local = self;
        local.registers[r.index()] = v;
        local
    }

    fn next(self) -> Local
        requires { self.place < 255 }
        ensures { result ≡ onward self }
    {
        let mut local = self;
        local.place += 1;
        local
    }

    fn flagged(self, flag: bool) -> Local
        requires { self.place < 255 }
        ensures { result ≡ record (onward self) { flag = flag } }
    {
        let mut local = self.next();
        local.flag = flag;
        local
    }

    fn jump(self, taken: bool, k: u8) -> Local
        requires { self.place < 255 }
        ensures { result ≡ jumped taken k self }
    {
        if !taken {
            return self.next();
        }
        let mut local = self;
        local.place = k;
        local
    }
}

/// What an instruction does in a thread's state; past the last one the thread stands still.
pub(crate) fn act(instr: Option<Instr>, local: Local) -> Action
    requires { local.place < 255 }
    ensures { result ≡ act instr local }
{
    let Some(instr) = instr else {
        return Action::Stop;
    };
    match instr {
        Instr::LoadImm(r, v) => Action::Go(local.next().with(r, v)),
        Instr::Copy(r, from) => Action::Go(local.next().with(r, local.value(from))),
        Instr::Load(r, l) => Action::Read(l, r, local.next()),
        Instr::StoreImm(l, v) => Action::Write(l, v, local.next()),
        Instr::Store(l, r) => Action::Write(l, local.value(r), local.next()),
        Instr::Xchg(l, r) => Action::Swap(l, local.value(r), r, local.next()),
        Instr::Fence => Action::Wait(local.next()),
        Instr::CmpImm(r, v) => Action::Go(local.flagged(local.value(r) == v)),
        Instr::CmpReg(r, from) => Action::Go(local.flagged(local.value(r) == local.value(from))),
        Instr::Je(k) => Action::Go(local.jump(local.flag, k)),
        Instr::Jne(k) => Action::Go(local.jump(!local.flag, k)),
        Instr::Jmp(k) => Action::Go(local.jump(true, k)),
    }
}
