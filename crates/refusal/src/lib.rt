// Why a case, a request or a buffer is refused.
#![tactic(auto)]

ghost use Rattle.std.specs.Prelude.{◌≡◌};
ghost use Rattle.refusal.specs.Number.{number};

// Each refusal of 01 and 02, and 21 of include/hookyellow.h, in the order of their numbers.
#[derive(Clone, Copy, Debug, PartialEq, Eq)]
pub enum Refusal {
    // 1: the trailer, or an argument that it would be written from
    WrongTrailer,
    // 2
    CountOverLimit,
    // 3
    WrongDefinitions,
    // 4
    ShortWorkArea,
    // 5
    ShortMarks,
    // 6
    WrongRequestBytes,
    // 7
    ShortAnswers,
    // 8
    NoCells,
    // 9
    CoordinateNotFinite,
    // 10
    CoordinateTooLarge,
    // 11
    WrongKind,
    // 12
    NoSuchPoint,
    // 13
    DegenerateFace,
    // 14
    ThirdUser,
    // 15
    NoVolume,
    // 16
    WrongOrientation,
    // 17
    NotConnected,
    // 18
    FlatBounds,
    // 19
    TooManyBins,
    // 20
    FileTooLong,
    // 21
    TooFewPlaces,
    // 30
    IllFormed,
    // 31
    OtherDimension,
    // 32
    TooFewSeeds,
    // 33
    TooManySteps,
    // 34
    WrongOptions,
    // 35
    SeedNowhere,
    // 36
    WrongPlane,
    // 37
    OriginTooLarge,
    // 38
    NoSuchField,
    // 39
    SampleNotFinite,
    // 40
    FluxNotFinite,
    // 41
    NoStatistics,
    // 42
    InvalidSample,
    // 43
    NoIntegrals,
    // 44
    AnswerTooLong,
    // 45
    ZoneTooLarge,
    // 46
    ZonesLost,
    // 47
    ShortOutput,
}

impl Refusal {
    // The number that 01 and 02 give it.
    pub fn number(self) -> u64
        ensures { result ≡ number self }
    {
        match self {
            Refusal::WrongTrailer => 1,
            Refusal::CountOverLimit => 2,
            Refusal::WrongDefinitions => 3,
            Refusal::ShortWorkArea => 4,
            Refusal::ShortMarks => 5,
            Refusal::WrongRequestBytes => 6,
            Refusal::ShortAnswers => 7,
            Refusal::NoCells => 8,
            Refusal::CoordinateNotFinite => 9,
            Refusal::CoordinateTooLarge => 10,
            Refusal::WrongKind => 11,
            Refusal::NoSuchPoint => 12,
            Refusal::DegenerateFace => 13,
            Refusal::ThirdUser => 14,
            Refusal::NoVolume => 15,
            Refusal::WrongOrientation => 16,
            Refusal::NotConnected => 17,
            Refusal::FlatBounds => 18,
            Refusal::TooManyBins => 19,
            Refusal::FileTooLong => 20,
            Refusal::TooFewPlaces => 21,
            Refusal::IllFormed => 30,
            Refusal::OtherDimension => 31,
            Refusal::TooFewSeeds => 32,
            Refusal::TooManySteps => 33,
            Refusal::WrongOptions => 34,
            Refusal::SeedNowhere => 35,
            Refusal::WrongPlane => 36,
            Refusal::OriginTooLarge => 37,
            Refusal::NoSuchField => 38,
            Refusal::SampleNotFinite => 39,
            Refusal::FluxNotFinite => 40,
            Refusal::NoStatistics => 41,
            Refusal::InvalidSample => 42,
            Refusal::NoIntegrals => 43,
            Refusal::AnswerTooLong => 44,
            Refusal::ZoneTooLarge => 45,
            Refusal::ZonesLost => 46,
            Refusal::ShortOutput => 47,
        }
    }
}
