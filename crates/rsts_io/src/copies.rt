//! What sources and sinks in memory do with their bytes.

ghost use Rattle.std.specs.Prelude.{◌≡◌, ◌+◌, ◌-◌, ◌≤◌, ◌++◌, min, length, take, drop, vec_len};
ghost use Rattle.std.specs.Prelude.{vec_capacity};
ghost use Rattle.rsts_io.specs.Memory.{sink_room, is_listed};

/// The number of bytes that a sink in memory can hold.
pub const SINK_ROOM: usize = 16_777_216;

/// Copies the bytes from `at` on to the start of the buffer, as many as fit, and returns how many.
pub(crate) fn copy_next(bytes: &[u8], at: usize, buffer: &mut [u8]) -> usize
    requires { at ≤ length bytes.now }
    ensures count { result ≡ min (length bytes.now - at) (length buffer.old) }
    ensures next { drop at bytes.now ≡ take result buffer.new ++ drop (at + result) bytes.now }
{
    let rest = &bytes[at..];
    let count = rest.len().min(buffer.len());
    buffer[..count].copy_from_slice(&rest[..count]);
    count
}

/// Returns whether a call is among those that fail.
pub(crate) fn is_listed(call: u64, failing: &[u64]) -> bool
    ensures { result ≡ is_listed call failing.now }
{
    failing.contains(&call)
}

/// Keeps as much of the start of the piece as fits, and returns how many bytes. It takes no memory.
pub(crate) fn keep_front(kept: &mut Vec<u8>, piece: &[u8]) -> usize
    requires length { vec_len kept.old ≤ sink_room }
    requires room { sink_room ≤ vec_capacity kept.old }
    ensures count { result ≡ min (length piece.now) (sink_room - vec_len kept.old) }
    ensures kept { kept.new.items ≡ kept.old.items ++ take result piece.now }
    ensures length { vec_len kept.new ≤ sink_room }
    ensures room { sink_room ≤ vec_capacity kept.new }
{
    let count = piece.len().min(SINK_ROOM - kept.len());
    match kept.extend_from_slice(&piece[..count]) {
        Ok(()) => count,
        Err(_) => unreachable!(),
    }
}
