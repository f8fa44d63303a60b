// A piece of at most 512 bytes.
ghost use Rattle.std.specs.Prelude.{◌≡◌, ◌≤◌, length, take, true};
ghost use Rattle.cases.specs.Piece.{IsPrefixLen};
ghost use Rattle.cases.specs.Run.{SameStart};

// Its bytes, with zeros behind them, since the program has no heap to hold a piece of any length.
#[derive(Clone, Copy)]
pub struct Small {
    pub bytes: [u8; 512],
    pub length: usize,
    ghost prefix_len: { IsPrefixLen length bytes },
    ghost length_bound: { length ≤ 512 },
}

impl Small {
    // The piece alone.
    pub fn as_slice(&self) -> &[u8]
        ensures { result.now ≡ take self.now.length self.now.bytes }
    {
        &self.bytes[..self.length]
    }

    // Does the output begin with the piece?
    pub fn begins(&self, out: &[u8]) -> bool
        ensures { result ≡ true → SameStart out.now self.now.bytes self.now.length }
    {
        out.starts_with(self.as_slice())
    }
}
