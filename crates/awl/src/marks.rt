// A mark: the name of a statement that a jump can go to. It knows nothing of where a mark stands.
ghost use Rattle.std.specs.Prelude.{◌≡◌, ◌-◌, ◌≤◌, true, length, take, drop, replicate, is_some, IfSome};
ghost use Rattle.std.specs.Str.{bytes_eq};
ghost use Rattle.awl.specs.MarkText.{is_mark};

use crate::bytes::ByteClass;

// A capital, then up to five capitals or digits: the first `size` of its bytes. The others are 0. A row with its size, since
// statements are copied with their marks and nothing is allocated.
#[derive(Clone, Copy, PartialEq, Eq)]
pub struct Mark {
    pub bytes: [u8; 6],
    pub size: u8,
    ghost six: { length bytes ≡ 6 },
    ghost few: { size ≤ 6 },
    ghost lawful: { is_mark (take size bytes) ≡ true },
    ghost padded: { drop size bytes ≡ replicate (6 - size) 0 },
}

impl Mark {
    // The mark that is spelled so, or none where no mark is.
    pub fn new(text: &[u8]) -> Option<Mark>
        ensures test { is_some result ≡ is_mark text.now }
        ensures value { IfSome result (λ m. take m.size m.bytes ≡ text.now) }
    {
        if !spells_mark(text) {
            return None;
        }
        let bytes = with_zeros(text);
        Some(Mark {
            bytes,
            size: text.len() as u8,
        })
    }

    // The bytes that spell it.
    pub fn text(&self) -> &[u8]
        ensures value { result.now ≡ take self.now.size self.now.bytes }
    {
        &self.bytes[0..self.size as usize]
    }

    // Whether the two are one mark.
    #[tactic(auto, using(crate::proofs::Padded::texts_equal))]
    pub fn is(&self, other: &Mark) -> bool
        ensures value { result ≡ bytes_eq (take self.now.size self.now.bytes) (take other.now.size other.now.bytes) }
    {
        self == other
    }
}

// Whether the bytes spell a mark.
fn spells_mark(text: &[u8]) -> bool
    ensures value { result ≡ is_mark text.now }
{
    if text.is_empty() || text.len() > 6 {
        return false;
    }
    let spelled = ByteClass::MarkByte.front(text);
    ByteClass::Capital.has(text[0]) && spelled == text.len()
}

// The bytes, with zeros behind to make six.
fn with_zeros(text: &[u8]) -> [u8; 6]
    requires { length text.now ≤ 6 }
    ensures value { take (length text.now) result ≡ text.now }
    ensures zeros { drop (length text.now) result ≡ replicate (6 - length text.now) 0 }
    ensures size { length result ≡ 6 }
{
    let mut bytes = [0; 6];
    bytes[..text.len()].copy_from_slice(text);
    bytes
}
