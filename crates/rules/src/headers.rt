// A chart's header: its counts, each in its range.
ghost use Rattle.std.specs.Prelude.{◌≡◌, leb};
ghost use Rattle.rules.specs.Chart.{header_size};
ghost use Rattle.rules.specs.Types.{fits_of, made_of};

#[derive(Clone, Copy, PartialEq, Eq, Debug)]
pub struct Header {
    pub states: u8,
    pub junctions: u8,
    pub segments: u16,
    pub variables: u8,
    pub events: u8,
    pub outputs: u8,
    pub instructions: u16,
}

impl Header {
    pub const SIZE: usize = 12;

    pub const MOST_STATES: u8 = 64;

    pub const MOST_JUNCTIONS: u8 = 64;

    pub const MOST_SEGMENTS: u16 = 256;

    pub const MOST_VARIABLES: u8 = 32;

    pub const MOST_EVENTS: u8 = 32;

    pub const MOST_OUTPUTS: u8 = 32;

    pub const MOST_INSTRUCTIONS: u16 = 1024;

    // The bytes of a variable's record, and of an instruction's.
    pub const VARIABLE: u32 = 6;

    pub const INSTRUCTION: u32 = 6;

    // Whether that many bytes hold a header.
    pub fn is_whole(bytes: usize) -> bool
        ensures { result ≡ leb header_size bytes }
    {
        Header::SIZE <= bytes
    }

    // The header, where each count is in its range.
    pub fn checked(self) -> Option<Header>
        ensures { result ≡ made_of self }
    {
        self.fits().then_some(self)
    }

    #[tactic(auto, unfolding(crate::specs::Accept::counts_right, crate::specs::Lists::all, crate::specs::Lists::every))]
    fn fits(self) -> bool
        ensures { result ≡ fits_of self }
    {
        (1..=Header::MOST_STATES).contains(&self.states)
            && self.junctions <= Header::MOST_JUNCTIONS
            && self.segments <= Header::MOST_SEGMENTS
            && self.variables <= Header::MOST_VARIABLES
            && (1..=Header::MOST_EVENTS).contains(&self.events)
            && self.outputs <= Header::MOST_OUTPUTS
            && self.instructions <= Header::MOST_INSTRUCTIONS
    }
}
