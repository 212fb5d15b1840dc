// Texts as bytes in a lent buffer. Each method puts a piece behind the text so far, so that a whole text is a line of
// such calls behind `begin`; specs/Buffer.antt says what a call does.
#![tactic(auto)]

ghost use Rattle.std.specs.Prelude.{◌≡◌, [], ◌∷◌};
ghost use Rattle.text.specs.Decimal.{decimal, integer};
ghost use Rattle.text.specs.Buffer.{Begins, Puts};

// A text that goes into a lent buffer.
#[derive(Drop)]
pub struct Text<'a> {
    pub out: &'a mut [u8],
    // How many bytes from the front are written; none where the buffer is shorter than the text.
    pub written: Option<usize>,
}

impl<'a> Text<'a> {
    // No text yet.
    pub fn begin(out: &'a mut [u8]) -> Text<'a>
        ensures same { result.out.ghost_name ≡ out.entry.ghost_name }
        ensures begins { Begins out.old result }
    {
        Text {
            out,
            written: Some(0),
        }
    }

    // Puts a byte behind the text so far. A byte that has no room is the end of it: all that follow are dropped too.
    pub fn put(&mut self, b: u8)
        ensures { Puts (b ∷ []) self.old self.new }
    {
        let Some(at) = self.written else {
            return;
        };
        if at < self.out.len() {
            self.out[at] = b;
            self.written = Some(at + 1);
        } else {
            self.written = None;
        }
    }

    // Puts a text behind the text so far.
    pub fn literal(&mut self, s: &[u8])
        ensures { Puts s.now self.old self.new }
    {
        for &b in s {
            self.put(b);
        }
    }

    // A number in decimal. Calls itself on the digits before the last. The digits are put here and not by `write!`: an `impl fmt::Write` of this
    // type would have to say in definitions of its own what `Puts` says in one.
    pub fn decimal(&mut self, n: u64)
        ensures { Puts (decimal n) self.old self.new }
    {
        if n < 10 {
            self.put(b'0' + n as u8);
        } else {
            self.decimal(n / 10);
            self.put(b'0' + (n % 10) as u8);
        }
    }

    // A number in decimal, with its sign where it is below 0.
    pub fn integer(&mut self, v: i64)
        ensures { Puts (integer v) self.old self.new }
    {
        if v < 0 {
            self.put(b'-');
        }
        self.decimal(v.unsigned_abs());
    }
}
