ghost use Rattle.std.specs.Prelude.{◌≡◌};
ghost use Rattle.words.specs.Refusals.{number};

// Why a call was refused: name, number and sentence of each refusal of docs/REQUIREMENTS.md R11.
// They are told here alone. tools/refusals makes specs/Refusals.antt and the tables in include/light_tree.h,
// rust/light_tree/src/refusal.rs and README.md of them, and fails where one differs.
#[derive(Clone, Copy, Debug, PartialEq, Eq)]
pub enum Refusal {
    // a length or layout is wrong, a kind or side unknown, or lights and records differ in number
    Ragged = 1,
    // over 4,096 lamps (columns: 512), weights or table words, 8,191 nodes, or 2^20 words
    Crowded = 2,
    // a slice that is lent for output or for work is shorter than its reserve
    ShortTray = 3,
    // a handle is not its lamp's place
    Misplaced = 4,
    // a coordinate or a value of a record is infinite or NaN, such as a power that overflows
    NotFinite = 5,
    // a box has a min above its max
    Inverted = 6,
    // a direction, normal or way from a box's centre to the point has no length to divide by
    NoDirection = 7,
    // an emission, intensity, scale, weight, power or cosine is out of its range
    OutOfRange = 8,
    // a triangle's area is not a finite number above 0, or a group has no triangle
    NoArea = 9,
    // bounds of lamps or triangles cannot be joined, since some fail their check
    LostUnion = 10,
    // u is not a number from 0 to 1
    BadU = 11,
    // the nodes are no tree (wrong kind, side, index or child, endless walk), or k or box differs
    BrokenTree = 12,
    // a packed handle or child is above 2^31 - 1
    TooWide = 13,
}

impl Refusal {
    // The refusal's number, under the name that its definition has.
    pub fn number(self) -> u32
        ensures { result ≡ number self }
    {
        self as u32
    }
}
