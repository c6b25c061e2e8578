// Buffers that become copies of others.
ghost use Rattle.std.specs.Prelude.{◌≡◌};

use circular_buffer::HeapCircularBuffer;

/// Makes a buffer a copy of another of the same capacity. It takes no memory.
pub fn copy_buffer<T: Copy>(buffer: &mut HeapCircularBuffer<T>, other: &HeapCircularBuffer<T>)
    requires { buffer.old.capacity ≡ other.now.capacity }
    ensures { buffer.new ≡ other.now }
{
    let (front, back) = other.as_slices();
    prove!(other.len() <= other.capacity());
    buffer.clear();
    buffer.extend_from_slice(front);
    buffer.extend_from_slice(back);
}
