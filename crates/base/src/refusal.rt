// Refusals: which fault was found, and where.
ghost use Rattle.std.specs.Prelude.{◌≡◌};
ghost use Rattle.base.specs.Refusals.{number, refusal};

// What a refusal is for. Other programs are told its number.
#[derive(Clone, Copy, PartialEq, Eq)]
pub enum Fault {
    // Of a table, in the order in which they are judged: fewer bytes than a header, another mark, version or length;
    TableShort,
    Mark,
    TableVersion,
    Length,
    // in the reading, a record that runs past the end, a field outside its range, a constant that is not finite, bytes
    // left over;
    Truncated,
    Field,
    Constant,
    Leftover,
    // in each function, an id that was there before, a call of no earlier function, a reference to no node or port or to
    // one of another type, a loop.
    Repeated,
    Callee,
    NoPort,
    WrongType,
    Loop,
    // Of a compilation: no such function, a sum above its limit, a code buffer that is too short, no such version.
    NoFunction,
    Operations,
    Words,
    CodeRoom,
    ListVersion,
    // Of a run: a code that is not well formed, arguments of another count or not finite, a buffer that is too short,
    // too many points.
    Malformed,
    ArgumentCount,
    Argument,
    Room,
    PointCount,
    // Of a router's list: other counts than version 1's, an instruction that does not carry out its own.
    Counts,
    Placement,
}

// The first fault that was found, and its place.
#[derive(Clone, Copy, PartialEq, Eq)]
pub struct Refusal {
    pub fault: Fault,
    pub place: usize,
}

impl Fault {
    // The number that other programs are told.
    pub fn number(self) -> u8
        ensures { result ≡ number self }
    {
        match self {
            Fault::TableShort => 1,
            Fault::Mark => 2,
            Fault::TableVersion => 3,
            Fault::Length => 4,
            Fault::Truncated => 5,
            Fault::Field => 6,
            Fault::Constant => 7,
            Fault::Leftover => 8,
            Fault::Repeated => 9,
            Fault::Callee => 10,
            Fault::NoPort => 11,
            Fault::WrongType => 12,
            Fault::Loop => 13,
            Fault::NoFunction => 14,
            Fault::Operations => 15,
            Fault::Words => 16,
            Fault::CodeRoom => 17,
            Fault::Malformed => 18,
            Fault::ArgumentCount => 19,
            Fault::Argument => 20,
            Fault::Room => 21,
            Fault::PointCount => 22,
            Fault::Placement => 29,
            Fault::ListVersion => 31,
            Fault::Counts => 33,
        }
    }

    // The refusal for this fault at a place.
    pub fn at(self, place: usize) -> Refusal
        ensures { result ≡ refusal self place }
    {
        Refusal { fault: self, place }
    }
}
