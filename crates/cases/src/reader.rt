// A file's parts, read one behind the other: slices of bytes in short form, a pattern that is repeated, then changed at single
// places. From u32 to usize there is only a cast, and `try_from` with a branch that no run takes.
ghost use Rattle.std.specs.Prelude.{◌≡◌, ◌+◌, ◌<◌, ◌≤◌, length, take, drop, IfSome};
ghost use Rattle.slices.specs.Slices.{number as number_of};
ghost use Rattle.cases.specs.Piece.{IsPrefixLen, Placed};

use crate::small::Small;

// The bytes of a patch, four for its offset.
const PATCH: usize = 5;

// What is left of a file.
#[derive(Clone, Copy)]
pub struct Reader<'a> {
    pub rest: &'a [u8],
}

// The parts of a piece, and the length that it expands to.
#[derive(Clone, Copy)]
struct Piece<'a> {
    length: usize,
    pattern: &'a [u8],
    patches: &'a [u8],
}

impl<'a> Reader<'a> {
    // The next `count` bytes, if there are as many.
    pub fn bytes(&mut self, count: usize) -> Option<&'a [u8]>
        ensures taken { IfSome result (λ s. (s.now ≡ take «count» self.old.rest.now) × (self.new.rest.now ≡ drop «count» self.old.rest.now)) }
        ensures left { IfSome result (λ _. length self.new.rest.now + «count» ≡ length self.old.rest.now) }
    {
        self.rest.split_off(..count)
    }

    // The next four bytes as a number, the lowest first.
    pub fn number(&mut self) -> Option<usize>
        ensures taken { IfSome result (λ n. (n ≡ number_of (take 4 self.old.rest.now)) × (n < 4294967296) × (self.new.rest.now ≡ drop 4 self.old.rest.now)) }
        ensures left { IfSome result (λ _. length self.new.rest.now + 4 ≡ length self.old.rest.now) }
    {
        let bytes = self.bytes(4)?;
        Some(slices::number(bytes) as usize)
    }

    // Expands the next piece into the start of the buffer, and answers it.
    pub fn load<'b>(&mut self, buffer: &'b mut [u8]) -> Option<&'b [u8]>
        ensures { IfSome result (λ s. IsPrefixLen (length s.now) buffer.old) }
    {
        let piece = self.piece()?;
        let out = buffer.get_mut(..piece.length)?;
        if expand(piece, out) { Some(out) } else { None }
    }

    // Passes over the next pieces. Only that they are whole is looked at.
    pub fn skip(&mut self, count: usize) -> Option<()>
        ensures { IfSome result (λ _. length self.new.rest.now ≤ length self.old.rest.now) }
    {
        for _ in 0..count {
            self.piece()?;
        }
        Some(())
    }

    // A short piece.
    pub fn small(&mut self) -> Option<Small> {
        let mut bytes = [0u8; 512];
        let length = self.load(&mut bytes)?.len();
        Some(Small { bytes, length })
    }

    // A piece of one byte.
    pub fn byte(&mut self) -> Option<u8> {
        match self.small()?.as_slice() {
            [byte] => Some(*byte),
            _ => None,
        }
    }

    fn piece(&mut self) -> Option<Piece<'a>>
        ensures placed { IfSome result (λ p. Placed p self.old.rest.now self.new.rest.now) }
        ensures shorter { IfSome result (λ _. length self.new.rest.now ≤ length self.old.rest.now) }
    {
        let length = self.number()?;
        let period = self.number()?;
        let patches = self.number()?;
        Some(Piece {
            length,
            pattern: self.bytes(period)?,
            patches: self.bytes(PATCH * patches)?,
        })
    }
}

// Fills `out` from the two parts of a piece. Answers whether they are right for its length.
fn expand(piece: Piece, out: &mut [u8]) -> bool {
    repeat(piece.pattern, out) && patch(piece.patches, out)
}

// Fills `out` with the pattern over and over. Answers whether there is a pattern, no longer than `out`; an empty one is right
// for an empty `out`.
fn repeat(pattern: &[u8], out: &mut [u8]) -> bool {
    if pattern.is_empty() {
        return out.is_empty();
    }
    for part in out.chunks_mut(pattern.len()) {
        for (byte, value) in part.iter_mut().zip(pattern) {
            *byte = *value;
        }
    }
    pattern.len() <= out.len()
}

// Changes single bytes: each patch is an offset and the byte. Answers whether all lie inside.
fn patch(patches: &[u8], out: &mut [u8]) -> bool {
    let (patches, _) = patches.as_chunks::<PATCH>();
    for [a, b, c, d, value] in patches {
        let offset = u32::from_le_bytes([*a, *b, *c, *d]) as usize;
        let Some(byte) = out.get_mut(offset) else {
            return false;
        };
        *byte = *value;
    }
    true
}
