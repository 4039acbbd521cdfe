//! Sources of bytes.

ghost use Rattle.std.specs.Prelude.{◌<◌, length};
ghost use Rattle.rsts_io.specs.Ends.{SourceState, IsTaken};

/// The result of taking bytes from a source.
#[derive(Clone, Copy, Debug, PartialEq, Eq)]
pub enum Took {
    /// This many bytes are at the start of the buffer.
    Bytes(usize),
    /// There are no more.
    End,
    /// The source failed this time.
    Failed,
}

/// An origin of bytes.
pub trait Source {
    /// The bytes that are left, if the source reports them; how many were taken; how often it
    /// failed, up to the largest number of 64 bits.
    ghost state: { Self → SourceState };

    /// Puts the next bytes into the buffer: at least one, unless it is at its end or fails.
    fn take(&mut self, buffer: &mut [u8]) -> Took
        requires { 0 < length buffer.old }
        ensures { IsTaken result buffer.new (state self.old) (state self.new) };
}
