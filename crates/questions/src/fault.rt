// The questions that a step asks, each by what its no says. As a number a variant is its question's.
ghost use Rattle.std.specs.Prelude.{◌≡◌};
ghost use Rattle.questions.specs.Numbers.{fault_number};

#[derive(Clone, Copy, PartialEq, Eq)]
pub enum Fault {
    // Of a segment's descriptor, whatever the use.
    NoDescriptor = 11,
    NotValid = 12,
    RingsOutOfOrder = 13,
    SegmentOutsideMemory = 14,
    WordOutsideSegment = 15,
    // By use.
    NotFetchable = 21,
    NotReadable = 22,
    NotWritable = 23,
    TransferFromOtherRing = 24,
    TransferNotExecutable = 25,
    CallNotExecutable = 26,
    CallNotToGate = 27,
    CallAboveGates = 28,
    CallBelowBracket = 29,
    CallRaisesRing = 30,
    // Of an instruction.
    TooManyPointerWords = 31,
    UnknownOpcode = 32,
    Privileged = 33,
    // Of what a register is to become.
    BaseOutsideMemory = 34,
    FrameRingsBelow = 52,
}

impl Fault {
    pub fn number(self) -> u8
        ensures { result ≡ fault_number self }
    {
        self as u8
    }
}

impl From<Fault> for u8 {
    ghost from_gives = { λ fault n. n ≡ fault_number fault };

    fn from(fault: Fault) -> u8 {
        fault.number()
    }
}
