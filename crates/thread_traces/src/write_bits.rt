//! Which values a thread writes, as bits: several values share a bit.
ghost use Rattle.std.specs.Prelude.{◌≡◌, ◌<◌, ℕ, Some, length};
ghost use Rattle.candidate_executions.specs.declared.access.Access.{Access};
ghost use Rattle.thread_traces.specs.WriteBits as bits;

use candidate_executions::Access;

/// How many bits there are.
pub(crate) const WRITE_BITS: usize = 32;

/// The bit of a value that is written to a location.
pub(crate) fn write_bit(location: u8, value: u32) -> usize
    ensures value { result ≡ bits.write_bit location value }
    ensures below { result < WRITE_BITS }
{
    ((u64::from(value) + 8 * u64::from(location)) % WRITE_BITS as u64) as usize
}

/// The bits of all that the accesses write.
pub(crate) fn write_bits(accesses: &[Access]) -> [bool; WRITE_BITS]
    ensures { bits.HaveBits accesses.now result }
{
    let mut written = [false; WRITE_BITS];
    for access in accesses {
        set_bit(&mut written, *access);
    }
    written
}

/// Sets the bit of what the access writes.
fn set_bit(written: &mut [bool], access: Access)
    requires { length written.old ≡ WRITE_BITS }
    ensures kept { (k : ℕ) → bits.HasBit written.old k → bits.HasBit written.new k }
    ensures added { (v : ℕ) → access.written ≡ Some v → bits.HasBit written.new (bits.write_bit access.location v) }
{
    if let Some(value) = access.written {
        written[write_bit(access.location, value)] = true;
    }
}
