// Project files with what is said of them. It knows nothing of how a file is judged.
use std::alloc::{AllocError, Global};
use std::test::Fail;
use verdicts::pages::Page;

// The foil printer's case, as examples/web-break.prj has it, but for the command in the comment.
const WEB_BREAK: &str = "; The foil printer's case: a press that stood for a shift.
;
; Count the brackets of PB 2 down the page: three are opened, one inside the other, and three are closed. Five may be
; open, so the check of the day found nothing wrong.
;
; But look at the jump. While the web is broken it goes back to AGAIN, to look at the eyes once more, and at that moment
; three brackets are open. The second time round the fourth and the fifth are opened, and then a sixth: the controller
; goes to ERROR. Nobody sees it in a test, since the jump is taken only during a web break.
;
; The check follows the jump. Try it:  target/bin/verdict < examples/web-break.prj

* OB 1
     :SPA PB 1
     :SPA PB 2
     :BE

* PB 1
; Web break: both eyes are empty for 200 ms, until somebody acknowledges.
     :U   A 0.0
     :UN  E 0.4
     :UN  E 0.5
     :L   KD 200
     :SE  T 1
     :U   T 1
     :S   M 10.0
     :U   E 1.0
     :R   M 10.0
     :BE

* PB 2
; Infeed: the drive runs where it is started, and both eyes see the web, or the crew threads a new one.
AGAIN:U(                 ; first bracket, or fourth
     :O   E 0.0          ; started now,
     :O   A 0.0          ; or running already
     :U(                 ; second bracket, or fifth
     :U   E 0.4
     :U   E 0.5
     :O(                 ; third bracket, or sixth
     :U   M 10.0         ; the web is broken:
     :SPB = AGAIN        ; look once more
     :U   E 1.3          ; threading by hand
     :)
     :)
     :)
     :=   A 0.0
     :BE
";

// Files that cannot be cut, and files with a section that is refused.
const REFUSED: [(&str, &str); 14] = [
    (
        ":BE\n* OB 1\n:BE\n",
        "no block at line 1: no head of a block, such as * OB 1, stands above it\n:BE\n^\n",
    ),
    (
        "* DB 5 1\n\n:BE\n",
        "no block at line 3: no head of a block, such as * OB 1, stands above it\n:BE\n^\n",
    ),
    (
        "; a press\n\n  *  XB 1\n",
        "no head at line 3, column 6: OB, PB, FB or DB has to stand here\n  *  XB 1\n     ^\n",
    ),
    (
        "*",
        "no head at line 1, column 2: OB, PB, FB or DB has to stand here\n*\n ^\n",
    ),
    (
        "*PB 256",
        "no head at line 1, column 5: a number from 0 to 255 has to stand here\n*PB 256\n    ^\n",
    ),
    (
        "* DB 5 ; words",
        "no head at line 1, column 15: a number of words has to stand here\n* DB 5 ; words\n              ^\n",
    ),
    (
        "* OB 1 2\n:BE",
        "no head at line 1, column 8: a word too many\n* OB 1 2\n       ^\n",
    ),
    (
        "* OB 1\t\n:BE",
        "no head at line 1, column 7: a byte that is no printable character\n* OB 1?\n      ^\n",
    ),
    (
        "* OB 1\n:BE\n* PB 1\n:BE\n* OB 01 ; again\n:BE\n",
        "twice at line 5: OB 1 is given at line 1 already\n* OB 01 ; again\n^\n",
    ),
    (
        "* OB 1\n:BE\n\n* PB 3\n:L KB 1\n:L KB 256\n",
        "PB 3: refused 4 at line 6, column 7: no number that fits here\n:L KB 256\n      ^\n",
    ),
    (
        "* OB 1\n; nothing yet\n* PB 1\n:BE\n",
        "OB 1: refused 6 at line 1, column 1: no statement in the text\n* OB 1\n^\n",
    ),
    (
        "* DB 5 0\n",
        "DB 5: refused 7 at line 1, column 1: a data block has 1 to 256 words\n* DB 5 0\n^\n",
    ),
    (
        "* DB 5 99999\n",
        "DB 5: refused 7 at line 1, column 1: a data block has 1 to 256 words\n* DB 5 99999\n^\n",
    ),
    (
        "* DB 5 256\n* DB 5 1\n",
        "DB 5: refused 14 at line 2, column 1: the data block is laid already\n* DB 5 1\n^\n",
    ),
];

// Projects with a fault.
const FAULTY: [(&str, &str); 4] = [
    (
        "* OB 1\n:SPA = M1\n",
        "K1 at line 2, OB 1, statement 1: no statement of the block carries the mark of this jump\n:SPA = M1\n",
    ),
    (
        "* OB 1\n:SPA PB 9\n:BE\n",
        "K2 at line 2, OB 1, statement 1: the block that is called here is not in the project\n:SPA PB 9\n",
    ),
    (
        "* OB 1\n; data first\n\n:A DB 5\n:BE\n* DB 4 1\n",
        "K7 at line 4, OB 1, statement 1: the data block that is chosen here is not in the project\n:A DB 5\n",
    ),
    (
        "* PB 1\n:BE\n",
        "K9: there is no OB 1, so no scan can start\n",
    ),
];

// Whether a page that does not pass is written of the file.
fn fails(heap: Global, file: &str, page: &str) -> Result<bool, AllocError> {
    let made = Page::new(heap, file.as_bytes())?;
    Ok(!made.passed && made.text.as_str() == page)
}

// Whether that is so for each pair of a file and a page.
fn all_fail(heap: Global, pairs: &[(&str, &str)]) -> Result<bool, AllocError> {
    for (file, page) in pairs {
        if !fails(heap, file, page)? {
            return Ok(false);
        }
    }
    Ok(true)
}

#[test]
fn a_sixth_bracket_on_the_way_round(rt: HostRuntime) -> Result<(), Fail> {
    assert!(rt;
        fails(
            rt.alloc(),
            WEB_BREAK,
            "K3 at line 38, PB 2, statement 7: a sixth bracket can be opened here, and five is the most\n     :O(                 ; third bracket, or sixth\n",
        )?
    );
    Ok(())
}

#[test]
fn files_that_are_refused(rt: HostRuntime) -> Result<(), Fail> {
    assert!(rt; all_fail(rt.alloc(), &REFUSED)?);
    Ok(())
}

#[test]
fn projects_with_a_fault(rt: HostRuntime) -> Result<(), Fail> {
    assert!(rt; all_fail(rt.alloc(), &FAULTY)?);
    Ok(())
}
