// The numbers of states, junctions and segments, kept apart so that a junction is never taken for a state.

#[derive(Clone, Copy, PartialEq, Eq, Debug)]
pub struct StateNo(pub u8);

impl StateNo {
    // The bytes of a state's record.
    pub const RECORD: u32 = 16;

    // The numbers that a byte can name: a table with so many places has one for every parent field.
    pub const PLACES: usize = 256;

    // The depth of the deepest state, the root's being 0.
    pub const DEEPEST: u8 = 8;

    // The root and the levels below it.
    pub const LEVELS: u8 = StateNo::DEEPEST + 1;
}

#[derive(Clone, Copy, PartialEq, Eq, Debug)]
pub struct JunctionNo(pub u8);

impl JunctionNo {
    // The bytes of a junction's record.
    pub const RECORD: u32 = 4;

    // The numbers that a byte can name.
    pub const PLACES: usize = 256;
}

#[derive(Clone, Copy, PartialEq, Eq, Debug)]
pub struct SegmentNo(pub u16);

impl SegmentNo {
    // The bytes of a segment's record.
    pub const RECORD: u32 = 18;

    // The segments of the longest path.
    pub const LONGEST_PATH: usize = 128;
}
