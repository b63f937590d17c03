//! Registers and instructions.
ghost use Rattle.std.specs.Prelude.{◌≡◌, ◌<◌};
ghost use Rattle.tso_program.specs.declared.instruction.TheConstants.{REGISTERS};
ghost use Rattle.tso_program.specs.Instructions.{number, location_of, target_of};

/// How many registers a thread has.
pub const REGISTERS: usize = 6;

/// A register.
#[derive(Clone, Copy, PartialEq, Eq, PartialOrd, Ord, Debug)]
pub enum Reg {
    Eax,
    Ebx,
    Ecx,
    Edx,
    Esi,
    Edi,
}

impl Reg {
    /// The six registers, in the order of their numbers.
    pub const ALL: [Reg; REGISTERS] = [Reg::Eax, Reg::Ebx, Reg::Ecx, Reg::Edx, Reg::Esi, Reg::Edi];

    /// The register's number, from 0 for EAX to 5 for EDI.
    pub fn index(self) -> usize
        ensures value { result ≡ number self }
        ensures small { result < REGISTERS }
    {
        self as usize
    }
}

/// An instruction. A location is its number in the program; a jump leads to an instruction's number
/// in its own thread, or to the end.
#[derive(Clone, Copy, PartialEq, Eq, Debug)]
pub enum Instr {
    /// Puts a number into a register.
    LoadImm(Reg, u32),
    /// Puts the second register's value into the first.
    Copy(Reg, Reg),
    /// Loads a location into a register.
    Load(Reg, u8),
    /// Stores a number to a location.
    StoreImm(u8, u32),
    /// Stores a register to a location.
    Store(u8, Reg),
    /// Exchanges a location and a register in one step, while the thread's buffer is empty.
    Xchg(u8, Reg),
    /// MFENCE: executes only while the thread's buffer is empty.
    Fence,
    /// Sets the zero flag exactly when the register has the number.
    CmpImm(Reg, u32),
    /// Sets the zero flag exactly when the registers are equal.
    CmpReg(Reg, Reg),
    /// Jumps when the zero flag is set.
    Je(u8),
    /// Jumps when the zero flag is clear.
    Jne(u8),
    /// Jumps.
    Jmp(u8),
}

impl Instr {
    /// The location that the instruction reads or writes.
    pub fn location(self) -> Option<u8>
        ensures { result ≡ location_of self }
    {
        match self {
            Instr::Load(_, location)
            | Instr::StoreImm(location, _)
            | Instr::Store(location, _)
            | Instr::Xchg(location, _) => Some(location),
            _ => None,
        }
    }

    /// Where the instruction may jump to.
    pub fn target(self) -> Option<u8>
        ensures { result ≡ target_of self }
    {
        match self {
            Instr::Je(k) | Instr::Jne(k) | Instr::Jmp(k) => Some(k),
            _ => None,
        }
    }
}
