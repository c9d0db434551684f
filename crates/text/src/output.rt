//! Writing into a caller's output.
//!
//! Each text is written from a place on, as far as the output reaches. So a first writing into an empty output measures
//! a text, and a second one writes it.
ghost use Rattle.std.specs.Prelude.{◌≡◌, [], ◌∷◌, decimal};
ghost use Rattle.text.specs.Output.{Appends};

/// A caller's output, and the place from which the next text is written on. Past the end nothing is written, but the
/// place goes on.
#[derive(Debug, Drop)]
pub struct Output<'a> {
    pub bytes: &'a mut [u8],
    pub end: usize,
}

impl<'a> Output<'a> {
    /// A caller's output, from its front on.
    pub fn new(bytes: &'a mut [u8]) -> Output<'a>
        ensures place { result.end ≡ 0 }
        ensures same { result.bytes.now ≡ bytes.old }
        ensures reference { result.bytes.ghost_name ≡ bytes.entry.ghost_name }
    {
        Output { bytes, end: 0 }
    }

    /// Appends one byte.
    pub fn put_byte(&mut self, byte: u8)
        ensures { Appends self.old (byte ∷ []) self.new }
    {
        if self.end < self.bytes.len() {
            self.bytes[self.end] = byte;
        }
        self.end = self.end.wrapping_add(1);
    }

    /// Appends some bytes.
    pub fn put_bytes(&mut self, bytes: &[u8])
        ensures { Appends self.old bytes.now self.new }
    {
        for b in bytes {
            self.put_byte(*b);
        }
    }

    /// Appends a number in decimal.
    pub fn put_number(&mut self, n: u64)
        ensures { Appends self.old (decimal n) self.new }
    {
        if n >= 10 {
            self.put_number(n / 10);
        }
        self.put_byte(b'0' + (n % 10) as u8);
    }
}
