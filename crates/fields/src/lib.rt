// The fields of received application data: numbers of 1 to 8 bytes, high byte first, read through one reader. A byte
// past the end reads as 0, so every read has a value.
#![tactic(auto)]

ghost use Rattle.std.specs.Prelude.{◌≡◌, ◌+◌, ◌^◌, ◌<◌, take, drop, get_or};
ghost use Rattle.base.specs.Bytes.{number_at};
ghost use Rattle.fields.specs.Fields.{width8};

// The reader: the unstuffed application data and an index into them.
#[derive(Clone, Copy)]
pub struct Reader<'a> {
    pub src: &'a [u8],
    pub at: usize,
}

impl<'a> Reader<'a> {
    // A reader at the start of the data.
    pub fn new(src: &'a [u8]) -> Self
        ensures src { result.src ≡ src.entry }
        ensures at { result.at ≡ 0 }
    {
        Reader { src, at: 0 }
    }

    // The same reader at another index: a field's position in the tables.
    pub fn at(self, at: usize) -> Self
        ensures src { result.src ≡ self.entry.src }
        ensures at { result.at ≡ at }
    {
        Reader { src: self.src, at }
    }

    // The data from the index on.
    fn rest(self) -> &'a [u8]
        ensures { result.now ≡ drop self.entry.at self.entry.src.now }
    {
        self.src.get(self.at..).unwrap_or(&[])
    }

    // The core of the reader: the byte `off` after the index.
    fn byte(self, off: usize) -> u8
        ensures { result ≡ get_or self.entry.src.now (self.entry.at + off) 0 }
    {
        self.rest().get(off).copied().unwrap_or(0)
    }

    // `len` bytes, or as many as there are.
    pub fn bytes(self, len: usize) -> &'a [u8]
        ensures { result.now ≡ take len (drop self.entry.at self.entry.src.now) }
    {
        let rest = self.rest();
        rest.get(..len).unwrap_or(rest)
    }

    // The number in `width` bytes, at most 8.
    #[tactic(auto, using(base::proofs::Numbers::number_more, base::proofs::Numbers::more_below, crate::proofs::Widths::width_small, crate::proofs::Widths::width_large, crate::proofs::Widths::width_most), unfolding(base::specs::Bytes::number_at))]
    pub fn number(self, width: usize) -> u64
        ensures number { result ≡ number_at self.entry.src.now self.entry.at (width8 width) }
        ensures below { result < 256 ^ width8 width }
    {
        let w = if width < 8 { width } else { 8 };
        let mut n: u64 = 0;
        for off in 0..w {
            let b = u64::from(self.byte(off));
            n = n * 256 + b;
        }
        n
    }

    // The same for each width in use.
    #[tactic(auto, unfolding(base::specs::Bytes::number_at))]
    pub fn u8(self) -> u8
        ensures { result ≡ number_at self.entry.src.now self.entry.at 1 }
    {
        self.byte(0)
    }

    #[tactic(auto, unfolding(base::specs::Bytes::number_at))]
    pub fn u16(self) -> u16
        ensures { result ≡ number_at self.entry.src.now self.entry.at 2 }
    {
        u16::from_be_bytes([self.byte(0), self.byte(1)])
    }

    #[tactic(auto, unfolding(base::specs::Bytes::number_at))]
    pub fn u24(self) -> u32
        ensures number { result ≡ number_at self.entry.src.now self.entry.at 3 }
        ensures below { result < 2 ^ 24 }
    {
        u32::from_be_bytes([0, self.byte(0), self.byte(1), self.byte(2)])
    }

    #[tactic(auto, unfolding(base::specs::Bytes::number_at))]
    pub fn u32(self) -> u32
        ensures { result ≡ number_at self.entry.src.now self.entry.at 4 }
    {
        u32::from_be_bytes([self.byte(0), self.byte(1), self.byte(2), self.byte(3)])
    }

    #[tactic(auto, unfolding(base::specs::Bytes::number_at))]
    pub fn u64(self) -> u64
        ensures { result ≡ number_at self.entry.src.now self.entry.at 8 }
    {
        u64::from_be_bytes([
            self.byte(0),
            self.byte(1),
            self.byte(2),
            self.byte(3),
            self.byte(4),
            self.byte(5),
            self.byte(6),
            self.byte(7),
        ])
    }
}
