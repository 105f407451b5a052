// Words of 32 bits: bits 31 to 28 are the kind, the other 28 the payload, which has fields.
ghost use Rattle.std.specs.Prelude.{◌≡◌};
ghost use Rattle.words.specs.Words.{kind as kind_of, payload as payload_of, upper as upper_of, lower as lower_of};
ghost use Rattle.words.specs.Words.{set_field, tag_field, i_field, j_field, minus_bit, unused_bits, top_field};

// The sixteen kinds. `Reserved` is kind 0, which no word of a list has.
#[derive(Clone, Copy, PartialEq, Eq, Debug)]
pub enum Kind {
    Reserved,
    Head,
    Block,
    LBlock,
    Cost,
    Edge,
    Loop,
    Back,
    Fact,
    Claim,
    High,
    Low,
    Start,
    Step,
    Finish,
    End,
}

impl From<u32> for Kind {
    ghost from_gives = { λ word kind. kind ≡ kind_of word };

    fn from(word: u32) -> Kind {
        match word >> 28 {
            0 => Kind::Reserved,
            1 => Kind::Head,
            2 => Kind::Block,
            3 => Kind::LBlock,
            4 => Kind::Cost,
            5 => Kind::Edge,
            6 => Kind::Loop,
            7 => Kind::Back,
            8 => Kind::Fact,
            9 => Kind::Claim,
            10 => Kind::High,
            11 => Kind::Low,
            12 => Kind::Start,
            13 => Kind::Step,
            14 => Kind::Finish,
            _ => Kind::End,
        }
    }
}

// The payload of a word: its low 28 bits.
#[derive(Clone, Copy, PartialEq, Eq, Debug)]
pub struct Payload(pub u32);

impl From<u32> for Payload {
    ghost from_gives = { λ word payload. payload.0 ≡ payload_of word };

    fn from(word: u32) -> Payload {
        Payload(word % 0x1000_0000)
    }
}

impl Payload {
    // Kept: nine fields that each are one shift, one remainder or both are plainer so than as calls of one `bits::<LOW, COUNT>()`.

    // Bits 27 to 14.
    pub fn upper(self) -> u32
        ensures { result ≡ upper_of self.0 }
    {
        self.0 >> 14
    }

    // Bits 13 to 0.
    pub fn lower(self) -> u32
        ensures { result ≡ lower_of self.0 }
    {
        self.0 % 0x4000
    }

    // The cache set of an LBLOCK: bits 27 to 20.
    pub fn set(self) -> u32
        ensures { result ≡ set_field self.0 }
    {
        self.0 >> 20
    }

    // The tag of an LBLOCK: bits 19 to 0.
    pub fn tag(self) -> u32
        ensures { result ≡ tag_field self.0 }
    {
        self.0 % 0x10_0000
    }

    // The first block of a FACT: bits 27 to 21.
    pub fn first_block(self) -> u32
        ensures { result ≡ i_field self.0 }
    {
        self.0 >> 21
    }

    // The second block of a FACT: bits 20 to 14.
    pub fn second_block(self) -> u32
        ensures { result ≡ j_field self.0 }
    {
        (self.0 >> 14) % 0x80
    }

    // Whether a HIGH is minus: bit 27.
    pub fn minus(self) -> bool
        ensures { result ≡ minus_bit self.0 }
    {
        self.0 >> 27 == 1
    }

    // The bits of a HIGH that no field has: 26 to 12.
    pub fn unused(self) -> u32
        ensures { result ≡ unused_bits self.0 }
    {
        (self.0 >> 12) % 0x8000
    }

    // The upper 12 bits of the magnitude, in a HIGH: bits 11 to 0.
    pub fn top(self) -> u32
        ensures { result ≡ top_field self.0 }
    {
        self.0 % 0x1000
    }
}

// A word taken apart.
#[derive(Clone, Copy, PartialEq, Eq, Debug)]
pub struct Word {
    pub kind: Kind,
    pub payload: Payload,
}

impl From<u32> for Word {
    ghost from_gives = { λ word parts. (parts.kind ≡ kind_of word) × (parts.payload.0 ≡ payload_of word) };

    fn from(word: u32) -> Word {
        Word {
            kind: Kind::from(word),
            payload: Payload::from(word),
        }
    }
}
