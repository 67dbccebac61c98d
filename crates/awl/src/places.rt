// The places that an operand may name. A place out of its range cannot be made.
// It knows nothing of what stands in a place.
ghost use Rattle.std.specs.Prelude.{◌≡◌, ◌+◌, ◌≤◌, ◌&&◌, is_some, IfSome, nat_le};
ghost use Rattle.awl.specs.Reach.{free_bytes, bytes_of, words_of};

#[derive(Clone, Copy)]
pub enum Area {
    Input, // E
    Output, // A
    Flag, // M
}

#[derive(Clone, Copy)]
pub enum Width {
    Byte, // one byte
    Word, // two bytes, the low one first
    Double, // four bytes, the lowest first
}

#[derive(Clone, Copy)]
pub enum DataPart {
    Left, // DL: the high byte of a data word
    Right, // DR: the low byte of a data word
    Word, // DW
    Double, // DD: two data words, the low one first
}

// One bit of the image: E 0.0
#[derive(Clone, Copy)]
pub struct Bit {
    pub area: Area,
    pub byte: u8,
    pub bit: u8,
    ghost free: { byte + 1 ≤ free_bytes area },
    ghost weighted: { bit ≤ 7 },
}

// A byte, word or double word of the image by its first byte: MW 10
#[derive(Clone, Copy)]
pub struct Span {
    pub area: Area,
    pub width: Width,
    pub first: u8,
    ghost free: { first + bytes_of width ≤ free_bytes area },
}

// A timer: T 1
#[derive(Clone, Copy)]
pub struct TimerName {
    pub number: u8,
    ghost few: { number ≤ 63 },
}

// A counter: Z 1
// A type of its own beside the timer's, alike but for its name: one type over a marker would tell them apart by a
// PhantomData in every literal and pattern, and one over a constant by a number for its kind: neither is plainer.
#[derive(Clone, Copy)]
pub struct CounterName {
    pub number: u8,
    ghost few: { number ≤ 63 },
}

// A place in the chosen data block by its first word: DW 3
#[derive(Clone, Copy)]
pub struct DataPlace {
    pub part: DataPart,
    pub word: u8,
    ghost within: { word + words_of part ≤ 256 },
}

impl Width {
    // How many bytes it takes.
    pub fn bytes(self) -> u8
        ensures value { result ≡ bytes_of self }
    {
        match self {
            Width::Byte => 1,
            Width::Word => 2,
            Width::Double => 4,
        }
    }
}

impl Bit {
    // The bit, where its byte is free in its area and its number is 0 to 7.
    pub fn new(area: Area, byte: u64, bit: u64) -> Option<Bit>
        ensures test { is_some result ≡ (nat_le (byte + 1) (free_bytes area) && nat_le bit 7) }
        ensures value { IfSome result (λ b. (b.area ≡ area) × (b.byte ≡ byte) × (b.bit ≡ bit)) }
    {
        match (area, byte, bit) {
            (Area::Input | Area::Output, 0..=127, 0..=7) | (Area::Flag, 0..=191, 0..=7) => {
                Some(Bit {
                    area,
                    byte: byte as u8,
                    bit: bit as u8,
                })
            }
            _ => None,
        }
    }
}

impl Span {
    // The place, where all of its bytes are free in its area: 0 to 127 of E and A, 0 to 191 of M.
    pub fn new(area: Area, width: Width, first: u64) -> Option<Span>
        ensures test { is_some result ≡ nat_le (first + bytes_of width) (free_bytes area) }
        ensures value { IfSome result (λ s. (s.area ≡ area) × (s.width ≡ width) × (s.first ≡ first)) }
    {
        let more = width.bytes() as u64 - 1;
        match (area, first) {
            (Area::Input | Area::Output, 0..=127) if first + more <= 127 => Some(Span {
                area,
                width,
                first: first as u8,
            }),
            (Area::Flag, 0..=191) if first + more <= 191 => Some(Span {
                area,
                width,
                first: first as u8,
            }),
            _ => None,
        }
    }
}

impl TimerName {
    // The timer of a number from 0 to 63.
    pub fn new(number: u64) -> Option<TimerName>
        ensures test { is_some result ≡ nat_le number 63 }
        ensures value { IfSome result (λ t. t.number ≡ number) }
    {
        match number {
            0..=63 => Some(TimerName {
                number: number as u8,
            }),
            _ => None,
        }
    }
}

impl CounterName {
    // The counter of a number from 0 to 63.
    pub fn new(number: u64) -> Option<CounterName>
        ensures test { is_some result ≡ nat_le number 63 }
        ensures value { IfSome result (λ z. z.number ≡ number) }
    {
        if number <= 63 {
            Some(CounterName {
                number: number as u8,
            })
        } else {
            None
        }
    }
}

impl DataPlace {
    // The place, where its words lie in 0 to 255: the last double word is DD 254.
    pub fn new(part: DataPart, word: u64) -> Option<DataPlace>
        ensures test { is_some result ≡ nat_le (word + words_of part) 256 }
        ensures value { IfSome result (λ d. (d.part ≡ part) × (d.word ≡ word)) }
    {
        match (part, word) {
            (DataPart::Left | DataPart::Right | DataPart::Word, 0..=255)
            | (DataPart::Double, 0..=254) => Some(DataPlace {
                part,
                word: word as u8,
            }),
            _ => None,
        }
    }
}
