//! Sinks for bytes.

ghost use Rattle.std.specs.Prelude.{◌<◌, length};
ghost use Rattle.rsts_io.specs.Ends.{SinkState, Accepts};

/// The result of giving bytes to a sink.
#[derive(Clone, Copy, Debug, PartialEq, Eq)]
pub enum Gave {
    /// It took this many bytes from the start of the piece.
    Bytes(usize),
    /// The sink failed this time.
    Failed,
}

/// A destination of bytes.
pub trait Sink {
    /// The bytes that it was given, if the sink reports them; how often it failed, up to the
    /// largest number of 64 bits.
    ghost state: { Self → SinkState };

    /// Takes at least one byte from the start of the piece, unless it fails.
    fn give(&mut self, piece: &[u8]) -> Gave
        requires { 0 < length piece.now }
        ensures { Accepts result piece.now (state self.old) (state self.new) };
}
