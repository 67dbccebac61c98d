// Classes of bytes, and how many bytes of one class stand in front. It knows nothing of lines or words.
ghost use Rattle.std.specs.Prelude.{◌≡◌, ◌-◌, ◌≤◌, length, drop};
ghost use Rattle.std.specs.List.{prefix_len, take_while};
ghost use Rattle.awl.specs.Alphabet.{in_class};

#[derive(Clone, Copy)]
pub enum ByteClass {
    Printable, // 32 to 126: what a line may hold
    InLine, // any byte but 10, which ends a line
    Space, // 32
    Ink, // any byte but a space: what words are made of
    BeforeComment, // any byte but ;
    BeforeColon, // any byte but :
    BeforePoint, // any byte but .
    Digit, // 0 to 9
    Capital, // A to Z
    MarkByte, // A to Z and 0 to 9
}

impl ByteClass {
    // Whether the class has the byte.
    pub fn has(self, byte: u8) -> bool
        ensures value { result ≡ in_class self byte }
    {
        match self {
            ByteClass::Printable => 32 <= byte && byte <= 126,
            ByteClass::InLine => byte != 10,
            ByteClass::Space => byte == b' ',
            ByteClass::Ink => byte != b' ',
            ByteClass::BeforeComment => byte != b';',
            ByteClass::BeforeColon => byte != b':',
            ByteClass::BeforePoint => byte != b'.',
            ByteClass::Digit => b'0' <= byte && byte <= b'9',
            ByteClass::Capital => b'A' <= byte && byte <= b'Z',
            ByteClass::MarkByte => b'A' <= byte && byte <= b'Z' || b'0' <= byte && byte <= b'9',
        }
    }

    // How many bytes in front are of the class: all of them where none is of another.
    pub fn front(self, bytes: &[u8]) -> usize
        ensures value { result ≡ prefix_len (in_class self) bytes.now }
        ensures bound { result ≤ length bytes.now }
    {
        counted_front(self, bytes)
    }
}

// What stands in the bytes behind the first `count`.
pub fn tail(bytes: &[u8], count: usize) -> &[u8]
    ensures value { result.now ≡ drop count bytes.now }
    ensures len { length result.now ≡ length bytes.now - count }
{
    bytes.get(count..).unwrap_or(&[])
}

// The bytes of the class in front, counted.
fn counted_front(class: ByteClass, bytes: &[u8]) -> usize
    ensures value { result ≡ length (take_while (in_class class) bytes.now) }
{
    bytes
        .iter()
        .copied()
        .take_while(|byte| class.has(*byte))
        .count()
}
