// Copies of parts of a buffer.
#![tactic(auto)]

ghost use Rattle.std.specs.Prelude.{◌≡◌, ◌+◌, ◌≤◌, length, take, drop};

// Copies count entries from `at` on to the front of a buffer. One by one: `copy_from_slice` calls `memmove`, which who links the archive
// need not have.
pub fn copy(to: &mut [u64], from: &[u64], at: usize, count: usize)
    requires { (at + count ≤ length from.now) × (count ≤ length to.old) }
    ensures { take count to.new ≡ take count (drop at from.now) }
{
    for j in 0..count {
        to[j] = from[at + j];
    }
}
