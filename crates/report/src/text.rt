// A line in a lent buffer.
ghost use Rattle.std.specs.Prelude.{◌≡◌, ◌+◌, ◌≤◌, [], ◌∷◌, length};
ghost use Rattle.report.specs.Added.{Adds};
ghost use Rattle.report.specs.Text.{decimal};

// A line, written from the start of a lent buffer on. What has no room in the buffer is left out, and counts all the
// same.
#[derive(Drop)]
pub(crate) struct Line<'a> {
    space: &'a mut [u8],
    length: usize,
}

impl<'a> Line<'a> {
    pub(crate) fn new(space: &'a mut [u8]) -> Line<'a>
        ensures same_buffer { result.space.ghost_name ≡ space.entry.ghost_name }
        ensures as_lent { result.space.now ≡ space.old }
        ensures empty { result.length ≡ 0 }
    {
        Line { space, length: 0 }
    }

    pub(crate) fn length(&self) -> usize
        ensures { result ≡ self.now.length }
    {
        self.length
    }

    fn byte(&mut self, byte: u8)
        requires { self.old.length ≤ 200 }
        ensures { Adds self.old (byte ∷ []) self.new }
    {
        if self.length < self.space.len() {
            self.space[self.length] = byte;
        }
        self.length += 1;
    }

    // A short fixed text.
    pub(crate) fn text(&mut self, text: &[u8])
        requires { (self.old.length ≤ 100) × (length text.now ≤ 100) }
        ensures { Adds self.old text.now self.new }
    {
        for byte in text {
            self.byte(*byte);
        }
    }

    // A number in decimal.
    pub(crate) fn number(&mut self, n: usize)
        requires { self.old.length ≤ 100 }
        ensures adds { Adds self.old (decimal n) self.new }
        ensures short { self.new.length ≤ self.old.length + 20 }
    {
        if n >= 10 {
            self.number(n / 10);
        }
        self.byte(b'0' + (n % 10) as u8);
    }
}
