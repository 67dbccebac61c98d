// The bytes of a host each way, and the time that elapsed. It knows nothing of where inputs come from.

ghost use Rattle.std.specs.Prelude.{◌≡◌, nat_lt};
ghost use Rattle.hosts.specs.Meaning.{below, given, image_of};

// WIDTH bytes each way; every output byte is taken.
#[derive(Drop)]
pub(crate) struct Image<const WIDTH: usize> {
    pub(crate) inputs: [u8; WIDTH],
    pub(crate) elapsed: u32,
    pub(crate) outputs: [u8; WIDTH],
}

impl<const WIDTH: usize> Image<WIDTH> {
    // Input byte n; from the width on 0.
    pub(crate) fn input(&self, n: u8) -> u8
        ensures value { result ≡ below WIDTH self.now.inputs n }
    {
        self.inputs.get(n as usize).copied().unwrap_or(0)
    }

    // Whether output byte n is there to be taken.
    pub(crate) fn takes(&self, n: u8) -> bool
        ensures value { result ≡ nat_lt n WIDTH }
    {
        usize::from(n) < WIDTH
    }

    // Output byte n; from the width on 0.
    pub(crate) fn output(&self, n: u8) -> u8
        ensures value { result ≡ below WIDTH self.now.outputs n }
    {
        self.outputs.get(n as usize).copied().unwrap_or(0)
    }

    // Sets output byte n; from the width on nothing changes.
    pub(crate) fn give(&mut self, n: u8, b: u8)
        ensures after { image_of WIDTH self.new.inputs self.new.elapsed self.new.outputs ≡ given (image_of WIDTH self.old.inputs self.old.elapsed self.old.outputs) n b }
        ensures inputs { self.new.inputs ≡ self.old.inputs }
        ensures elapsed { self.new.elapsed ≡ self.old.elapsed }
    {
        if self.takes(n) {
            self.outputs[n as usize] = b;
        }
    }
}
