// Why a call is refused.

// A call's first no, named by what its question asks: the questions of documents 01 and 02, by their numbers.
#[derive(Clone, Copy, PartialEq, Eq)]
pub enum Refusal {
    TooShort,
    FrameCount,
    MapSides,
    LabelSides,
    PointCount,
    SheetLength,
    CallNumber,
    OffMap,
    SameCallNumber,
    SamePixel,
    OutputRoom,
    WorkspaceRoom,
    ListLength,
    ListPosition,
    ListOrder,
    PlateSections,
    InsideOrder,
    OutsidePairs,
    PlateClash,
    NoSheet,
    NoNumberLeft,
    NoValidChoice,
    RankCount,
    RankRange,
}

// The number that a refusal carries.
impl From<Refusal> for u8 {
    ghost use Rattle.std.specs.Prelude.{◌≡◌};
    ghost use Rattle.format.specs.Answers.{number};

    ghost from_gives = { λ refusal no. no ≡ number refusal };

    fn from(refusal: Refusal) -> u8 {
        match refusal {
            Refusal::TooShort => 11,
            Refusal::FrameCount => 12,
            Refusal::MapSides => 13,
            Refusal::LabelSides => 14,
            Refusal::PointCount => 15,
            Refusal::SheetLength => 16,
            Refusal::CallNumber => 17,
            Refusal::OffMap => 18,
            Refusal::SameCallNumber => 19,
            Refusal::SamePixel => 20,
            Refusal::OutputRoom => 21,
            Refusal::WorkspaceRoom => 22,
            Refusal::ListLength => 31,
            Refusal::ListPosition => 32,
            Refusal::ListOrder => 33,
            Refusal::PlateSections => 41,
            Refusal::InsideOrder => 42,
            Refusal::OutsidePairs => 43,
            Refusal::PlateClash => 44,
            Refusal::NoSheet => 51,
            Refusal::NoNumberLeft => 52,
            Refusal::NoValidChoice => 61,
            Refusal::RankCount => 62,
            Refusal::RankRange => 63,
        }
    }
}
