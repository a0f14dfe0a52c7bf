// The text of a sheet, read byte by byte as it comes.
ghost use Rattle.std.specs.Prelude.{◌≡◌, ℕ, ◌≤◌, ◌<◌};
ghost use Rattle.text.specs.Readers.{fresh, broken, after_blank, after_digit, after_byte, after_bytes, finished};

use sheet::SHEET_WORDS;

// A word more than any sheet has is kept: a text that says too many is known by its length.
pub const HELD: usize = SHEET_WORDS + 1;

// What has been read so far: the numbers that have ended, the number in hand if one has begun, and
// whether the text is no text of numbers. How many words there are stands beside them, since a vector would be on the heap.
#[derive(Clone, Copy)]
pub struct Reader {
    pub words: [u64; HELD],
    pub many: usize,
    pub number: Option<u64>,
    pub failed: bool,
}

impl Reader {
    pub fn new() -> Self
        ensures { result ≡ fresh }
    {
        Self {
            words: [0u64; HELD],
            many: 0,
            number: None,
            failed: false,
        }
    }

    fn broken(mut self) -> Self
        ensures { result ≡ broken self }
    {
        self.number = None;
        self.failed = true;
        self
    }

    // The number in hand has ended, and is kept while there is room.
    fn take_blank(mut self) -> Self
        ensures { result ≡ after_blank self }
    {
        let Some(number) = self.number else {
            return self;
        };
        self.number = None;
        let many = self.many;
        if HELD <= many {
            return self;
        }
        self.words[many] = number;
        self.many = many + 1;
        self
    }

    fn take_digit(mut self, d: u64) -> Self
        ensures { result ≡ after_digit self d }
    {
        let number = self.number.unwrap_or(0);
        if (u64::MAX - d) / 10 < number {
            return self.broken();
        }
        self.number = Some(number * 10 + d);
        self
    }

    pub fn take_byte(self, b: u8) -> Self
        ensures { result ≡ after_byte self b }
    {
        if self.failed {
            return self;
        }
        match b {
            b' ' | b'\n' => self.take_blank(),
            b'0'..=b'9' => self.take_digit((b - b'0') as u64),
            _ => self.broken(),
        }
    }

    pub fn take_chunk(mut self, chunk: &[u8]) -> Self
        ensures { result ≡ after_bytes self chunk.now }
    {
        for &byte in chunk {
            self = self.take_byte(byte);
        }
        self
    }

    // The end of the text ends the number in hand, as a newline does.
    pub fn finish(self) -> Self
        ensures { result ≡ finished self }
    {
        self.take_byte(b'\n')
    }
}
