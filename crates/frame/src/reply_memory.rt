//! Memory that frames are written into.
ghost use Rattle.std.specs.Prelude.{◌≡◌, ◌+◌, ◌≤◌, length};
ghost use Rattle.frame.specs.Memory.{written};

/// Writes a run of bytes at an offset, and keeps all others.
pub(crate) fn put(memory: &mut [u8], at: usize, run: &[u8])
    requires { at + length run.now ≤ length memory.old }
    ensures { memory.new ≡ written memory.old at run.now }
{
    memory[at..at + run.len()].copy_from_slice(run);
}
