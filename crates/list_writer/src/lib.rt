// The writer: it holds a slice of the line buffer, and the place of the next byte. What it puts, it puts by list_text's functions over both.
#![tactic(auto)]

ghost use Rattle.std.specs.Prelude.{◌≡◌, ◌++◌};
ghost use Rattle.list_text.specs.Text.{decimal, line_feed};
ghost use Rattle.list_writer.specs.Written.{written};

#[derive(Drop)]
pub struct Writer<'a> {
    pub buffer: &'a mut [u8],
    pub at: usize,
}

impl<'a> Writer<'a> {
    // At the start of the buffer.
    pub fn new(buffer: &'a mut [u8]) -> Writer<'a>
        ensures { (result.buffer ≡ buffer.entry) × (result.at ≡ 0) }
    {
        Writer { buffer, at: 0 }
    }

    pub fn put_bytes(&mut self, bytes: &[u8])
        ensures { self.new ≡ written self.old bytes.now }
    {
        self.at = list_text::bytes_at(&mut *self.buffer, self.at, bytes);
    }

    pub fn put_number(&mut self, n: u64)
        ensures { self.new ≡ written self.old (decimal n) }
    {
        self.at = list_text::number_at(&mut *self.buffer, self.at, n);
    }

    // A number behind its word.
    pub fn figure(&mut self, name: &[u8], n: u64)
        ensures { self.new ≡ written self.old (name.now ++ decimal n) }
    {
        self.put_bytes(name);
        self.put_number(n);
    }

    pub fn end(&mut self)
        ensures { self.new ≡ written self.old line_feed }
    {
        self.put_bytes(b"\n");
    }
}
