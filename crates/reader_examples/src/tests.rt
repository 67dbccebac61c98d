// Texts with the refusal, line and column that the rules give them; none for a text that is read. Refusals stand by the
// numbers by which users know them, so that these are tried too. It knows nothing of how a text is read.
ghost use Rattle.std.specs.Prelude.{◌≡◌, ◌++◌, IfOk, string_bytes, codes};
ghost use Rattle.std.specs.List.{repeat};
ghost use Rattle.reader.specs.Reading.{reading};
ghost use Rattle.reader_examples.specs.Told.{told};

use reader::blocks::read;
use std::alloc::{AllocError, Global};
use std::process::Abort;
use std::test::Fail;

// Refusal number, line and column.
type Told = (u8, usize, usize);

// The last address of each area and the first behind it, and the ends of the numbers.
const ENDS: [(&str, Option<Told>); 64] = [
    (":L MB 191", None),
    (":L MB 192", Some((4, 1, 7))),
    (":L MW 190", None),
    (":L MW 191", Some((4, 1, 7))),
    (":L MD 188", None),
    (":L MD 189", Some((4, 1, 7))),
    (":L EB 127", None),
    (":L EB 128", Some((4, 1, 7))),
    (":L EW 126", None),
    (":L EW 127", Some((4, 1, 7))),
    (":L ED 124", None),
    (":L ED 125", Some((4, 1, 7))),
    (":T AB 127", None),
    (":T AB 128", Some((4, 1, 7))),
    (":T AW 126", None),
    (":T AW 127", Some((4, 1, 7))),
    (":T AD 124", None),
    (":T AD 125", Some((4, 1, 7))),
    (":SE T 63", None),
    (":SE T 64", Some((4, 1, 7))),
    (":ZV Z 63", None),
    (":ZV Z 64", Some((4, 1, 7))),
    (":L DW 255", None),
    (":L DW 256", Some((4, 1, 7))),
    (":L DL 255", None),
    (":L DL 256", Some((4, 1, 7))),
    (":L DR 255", None),
    (":L DR 256", Some((4, 1, 7))),
    (":L DD 254", None),
    (":L DD 255", Some((4, 1, 7))),
    (":U E 127.7", None),
    (":U E 127.8", Some((4, 1, 6))),
    (":U E 128.0", Some((4, 1, 6))),
    (":= A 127.7", None),
    (":= A 127.8", Some((4, 1, 6))),
    (":= A 128.0", Some((4, 1, 6))),
    (":S M 191.7", None),
    (":S M 191.8", Some((4, 1, 6))),
    (":S M 192.0", Some((4, 1, 6))),
    (":L KB 255", None),
    (":L KB 256", Some((4, 1, 7))),
    (":SPA OB 255", None),
    (":SPA PB 256", Some((4, 1, 9))),
    (":SPB FB 256", Some((4, 1, 9))),
    (":A DB 255", None),
    (":A DB 256", Some((4, 1, 7))),
    (":L KD 2147483647", None),
    (":L KD 2147483648", Some((4, 1, 7))),
    (":L KD -2147483648", None),
    (":L KD -2147483649", Some((4, 1, 7))),
    (":L KD 0000000001", None),
    (":L KD 00000000001", Some((4, 1, 7))),
    (":L KD -0000000001", None),
    (":L KD -00000000001", Some((4, 1, 7))),
    (":L KD -0", None),
    (":L KD +1", Some((4, 1, 7))),
    (":L KD - 5", Some((4, 1, 7))),
    (":L KB -1", Some((4, 1, 7))),
    (":U E 0000000000.0000000007", None),
    (":U E 00000000000.0", Some((4, 1, 6))),
    ("RECHTS:BE", None),
    ("RECHTSX:BE", Some((5, 1, 1))),
    (":SPA = RECHTS", None),
    (":SPA = RECHTSX", Some((5, 1, 8))),
];

// Each refusal where it stands, in one line.
const FAULTS: [(&str, Option<Told>); 47] = [
    (":U E 0.0", None),
    (":O", None),
    (":L KB 5;five", None),
    ("U:U E 0.0", None),
    (" M1 :BE", None),
    ("  :  U   E   0.0  ", None),
    (":U\tE 0.0", Some((1, 1, 3))),
    (";ready\r", Some((1, 1, 7))),
    (":BE\r\n", Some((1, 1, 4))),
    (":BE ;\u{7f}", Some((1, 1, 6))),
    (":BE ;~", None),
    ("U E 0.0", Some((2, 1, 8))),
    ("U E 0.0 ;a:b", Some((2, 1, 13))),
    (":", Some((2, 1, 2))),
    ("M1:   ;later", Some((2, 1, 13))),
    (":u E 0.0", Some((2, 1, 2))),
    (":SPB= M1", Some((2, 1, 2))),
    (":=A 0.0", Some((2, 1, 2))),
    (":U(E 0.0", Some((2, 1, 2))),
    ("M1:M2:BE", Some((2, 1, 4))),
    (":U", Some((3, 1, 3))),
    (":U  ; nothing", Some((3, 1, 14))),
    (":U X 0.0", Some((3, 1, 4))),
    (":U E0.0", Some((3, 1, 4))),
    (":S Z 1", Some((3, 1, 4))),
    (":= T 1", Some((3, 1, 4))),
    (":T T 1", Some((3, 1, 4))),
    (":A E 0.0", Some((3, 1, 4))),
    (":SPA M1", Some((3, 1, 6))),
    (":SPZ PB 1", Some((3, 1, 6))),
    (":U( E 0.0", Some((3, 1, 5))),
    (":U E 0.0 X", Some((3, 1, 10))),
    (":O E", Some((4, 1, 5))),
    (":L KB 0.0", Some((4, 1, 7))),
    (":U E 1", Some((4, 1, 6))),
    (":U E 1.", Some((4, 1, 6))),
    (":U E .1", Some((4, 1, 6))),
    (":U E 0.0.0", Some((4, 1, 6))),
    ("M1 M2:BE", Some((5, 1, 1))),
    ("  1M:BE", Some((5, 1, 3))),
    (":SPA =", Some((5, 1, 7))),
    (":SPA = ;M1", Some((5, 1, 11))),
    (":SPA = m1", Some((5, 1, 8))),
    (":SPA = M1 M2", Some((3, 1, 11))),
    ("", Some((6, 0, 0))),
    ("\n\n", Some((6, 0, 0))),
    ("   ;x", Some((6, 0, 0))),
];

// Which fault is told where a text has several, and where lines begin and end.
const ORDER: [(&str, Option<Told>); 22] = [
    ("XX:YY ;\t", Some((1, 1, 8))),
    ("M1:BE\nM1:XX", Some((5, 2, 1))),
    ("M1:BE\n M1 :XX\n", Some((5, 2, 2))),
    ("M1:BE\nm1:XX", Some((5, 2, 1))),
    ("M1:BE\nM1 XX", Some((2, 2, 6))),
    ("m1 XX", Some((2, 1, 6))),
    ("m1:XX 5", Some((5, 1, 1))),
    (":XX Y 9 Z", Some((2, 1, 2))),
    (":U Y 9 Z", Some((3, 1, 4))),
    (":U E 9.9 X", Some((4, 1, 6))),
    (":SPA = m M2", Some((5, 1, 8))),
    (":SPA = M1 m", Some((3, 1, 11))),
    (":U E 0.0 X\n:\t", Some((3, 1, 10))),
    (":BE\n;\t\n:XX", Some((1, 2, 2))),
    ("\n;\u{1}", Some((1, 2, 2))),
    (";x\n\n:XX", Some((2, 3, 2))),
    (";x\n\n:BE", None),
    (":BE\n", None),
    (":BE\n\n", None),
    (":BE\nU\n", Some((2, 2, 2))),
    (":SPA = M1\n:SPB = M2\nM1:BE", None),
    ("U:U E 0.0\nU1:U E 0.0", None),
];

// What the reader tells of the text.
fn reader_tells(text: &[u8]) -> Option<Told>
    ensures value { result ≡ told (reading text.now) }
{
    let fault = read(text).err()?;
    Some((fault.refusal().number(), fault.line(), fault.column()))
}

// Checks each text of a table.
fn check_all(rt: &impl Abort, cases: &[(&str, Option<Told>)]) {
    for (text, expected) in cases {
        assert_eq!(rt; reader_tells(text.as_bytes()), *expected, "{}", *text);
    }
}

// A text of so many statements, each on a line of its own, and something behind.
fn statements(heap: Global, count: usize, behind: &str) -> Result<String, AllocError>
    ensures value { IfOk result (λ s. string_bytes s ≡ repeat count (codes ":BE\n") ++ behind.now) }
{
    let mut text = ":BE\n".repeat(heap, count)?;
    text.push_str(behind)?;
    Ok(text)
}

// Checks a text of so many statements and something behind.
fn check_count(
    rt: &impl Abort,
    heap: Global,
    count: usize,
    behind: &str,
    expected: Option<Told>,
) -> Result<(), Fail> {
    let text = statements(heap, count, behind)?;
    assert_eq!(rt; reader_tells(text.as_bytes()), expected, "{}", behind);
    Ok(())
}

#[test]
fn boundaries(rt: HostRuntime) -> Result<(), Fail> {
    check_all(&rt, &ENDS);
    check_all(&rt, &FAULTS);
    check_all(&rt, &ORDER);
    let heap = rt.alloc();
    check_count(&rt, heap, 255, "", None)?;
    check_count(&rt, heap, 255, ";x\n\n   ", None)?;
    check_count(&rt, heap, 256, "", Some((6, 256, 1)))?;
    check_count(&rt, heap, 255, ";x\n\n\t", Some((6, 258, 1)))?;
    check_count(&rt, heap, 255, "XX", Some((6, 256, 1)))?;
    check_count(&rt, heap, 255, ";\t", Some((1, 256, 2)))
}
