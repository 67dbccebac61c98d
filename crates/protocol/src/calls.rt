// The calls that a line can ask for. It knows nothing of how they are written.
use awl::names::BlockName;

// A call. The bytes that a line spells in hexadecimal are held as a `Text`.
#[derive(Drop)]
pub enum Call<Text> {
    Project(ProjectCall<Text>),
    NewHost(NewHost<Text>),
    Host(HostCall),
}

// A call of the project.
#[derive(Drop)]
pub enum ProjectCall<Text> {
    // open 0 7 8160 4096: the tables' lengths in entries
    Open {
        number: u32,
        statements: u32,
        words: u32,
    },
    // write 0 OB 1 3a42450a
    Write {
        block: BlockName,
        text: Text,
    },
    // erase 0 OB 1
    Erase {
        block: BlockName,
    },
    // lay 0 5 256
    Lay {
        number: u8,
        length: u16,
    },
    // check 0
    Check,
    // word 0 5 255
    Word {
        data_block: u8,
        number: u8,
    },
    // data 0 5
    Data {
        data_block: u8,
    },
}

// A host that is to take the place of the old one; the bits of its mask, if it is to have one.
#[derive(Drop)]
pub enum NewHost<Text> {
    // host 0 bench 00.. 00.., host 0 maskbench 4 00.. 00..
    Bench {
        mask: Option<u32>,
        inputs: [u8; 128],
        outputs: [u8; 128],
    },
    // host 0 feed 3030.., host 0 maskfeed 4 3030..
    Feed {
        mask: Option<u32>,
        frames: Text,
    },
}

// A call of the host that is there.
#[derive(Clone, Copy)]
pub enum HostCall {
    // setd 0 20
    SetElapsed { elapsed: u32 },
    // seti 0 127 255
    SetInput { number: u8, value: u8 },
    // input 0 127
    Input { number: u8 },
    // output 0 127
    Output { number: u8 },
    // elapsed 0
    Elapsed,
    // taken 0 127
    Taken { number: u8 },
    // outputs 0
    Outputs,
    // give 0 127 255
    Give { number: u8, value: u8 },
    // advance 0
    Advance,
}
