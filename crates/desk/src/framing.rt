// The framing reader (RFC 4571): a frame is a length of two bytes, big end first, and a packet. It takes the bytes of an input as they come,
// however they are split. Its state is a value and the first bytes of a packet that is not too long.
ghost use Rattle.std.specs.Prelude.{◌≡◌, List, [], ℕ, ◌+◌, ◌*◌, ◌%◌, ◌≤◌, ◌<◌, leb, length, drop};
ghost use Rattle.desk.specs.Reads.{Holds, Steps, found_length, Takes};

// The longest packet that is kept: 2,048 bytes and a tag of 10.
pub const MAX_FRAME_LEN: usize = 2058;

// What stands of a frame: how many bytes, and the length that the first two tell.
#[derive(Clone, Copy)]
pub struct Reader {
    pub got: usize,
    pub len: u16,
}

// What stands of a frame between two reads: also the first bytes of its packet, if that is not too long. They lie in an array, and the reader
// has their number: there is no heap.
#[derive(Clone, Copy)]
pub struct Frame {
    pub reader: Reader,
    pub kept: [u8; MAX_FRAME_LEN],
}

// What stands of a frame with more of its bytes; the place in the input up to which bytes were taken; and, where a packet is complete, its
// length: it is the first bytes of those kept.
#[derive(Clone, Copy)]
pub struct Taken {
    pub next: Reader,
    pub at: usize,
    pub found: Option<usize>,
}

impl Frame {
    // Nothing of a frame.
    pub fn start() -> Frame
        ensures { Holds result.reader result.kept [] }
    {
        Frame {
            reader: Reader::start(),
            kept: [0; MAX_FRAME_LEN],
        }
    }
}

// The kept bytes go in beside the reader, and each contract asks for their room: `Reader::take` is public and takes any slice that has it, which
// a struct of the two would not.
impl Reader {
    // Nothing of a frame.
    pub fn start() -> Reader
        ensures { result ≡ record { got = 0; len = 0 } }
    {
        Reader { got: 0, len: 0 }
    }

    // One byte more of the length.
    fn with_length_byte(self, byte: u8) -> Reader
        requires { self.got < 2 }
        ensures { result ≡ record { got = self.got + 1; len = self.len % 256 * 256 + byte } }
    {
        let high = self.len % 0x100;
        let low = u16::from(byte);
        let told = high * 0x100 + low;
        Reader {
            got: self.got + 1,
            len: told,
        }
    }

    // As many bytes of the packet as `input` has; their number. Those of a packet that is too long are counted and not kept.
    fn fill(&mut self, input: &[u8], kept: &mut [u8]) -> usize
        requires { (2 ≤ self.old.got) × (self.old.got < 2 + self.old.len) × (0 < length input.now) × (2058 ≤ length kept.old) }
        ensures progress { (0 < result) × (result ≤ length input.now) }
        ensures steps { (f : List ℕ) → Holds self.old kept.old f → Steps f input.now self.new kept.new (drop result input.now) }
    {
        let told = usize::from(self.len);
        let left = 2 + told - self.got;
        let n = left.min(input.len());
        if told > MAX_FRAME_LEN {
            let skipped = self.got + n;
            self.got = skipped;
            return n;
        }
        let from = self.got - 2;
        octets::copy_over(&input[..n], &mut kept[from..]);
        self.got += n;
        n
    }

    // A byte of the length, or as many bytes of the packet as there are; their number.
    fn step(&mut self, input: &[u8], kept: &mut [u8]) -> usize
        requires { (self.old.got ≤ 1 + self.old.len) × (0 < length input.now) × (2058 ≤ length kept.old) }
        ensures progress { (0 < result) × (result ≤ length input.now) }
        ensures steps { (f : List ℕ) → Holds self.old kept.old f → Steps f input.now self.new kept.new (drop result input.now) }
    {
        if self.got >= 2 {
            return self.fill(input, kept);
        }
        *self = self.with_length_byte(input[0]);
        1
    }

    // Whether the frame is whole.
    pub fn is_whole(self) -> bool
        ensures { result ≡ leb (2 + self.len) self.got }
    {
        2 + usize::from(self.len) <= self.got
    }

    // Takes the bytes of `input` from `from` on, up to the end of the first frame whose packet is not too long, or all of them.
    pub fn take(self, input: &[u8], from: usize, kept: &mut [u8]) -> Taken
        requires { (self.got ≤ 1 + self.len) × (from < length input.now) × (2058 ≤ length kept.old) }
        ensures progress { (from < result.at) × (result.at ≤ length input.now) × (found_length result.found ≤ 2058) × (result.next.got ≤ 1 + result.next.len) }
        ensures takes { (f : List ℕ) → Holds self kept.old f → Takes f (drop from input.now) input.now result kept.new }
    {
        let mut reader = self;
        let mut at = from;
        // A step takes one byte or many, so no `for` counts them.
        while at < input.len() {
            at += reader.step(&input[at..], kept);
            if reader.is_whole() {
                let len = usize::from(reader.len);
                reader = Reader::start();
                let is_taken = len <= MAX_FRAME_LEN;
                if is_taken {
                    return Taken {
                        next: reader,
                        at,
                        found: Some(len),
                    };
                }
            }
        }
        Taken {
            next: reader,
            at,
            found: None,
        }
    }
}
