// Why a packet, a sheet or a change is refused, and where. C sees the number, as vmti.h lists it.
ghost use Rattle.std.specs.Prelude.{◌≡◌};
ghost use Rattle.coding.specs.Refusals.{number, fault, placed, later, Short};

#[derive(Clone, Copy, Debug, PartialEq, Eq)]
pub enum Refusal {
    OverLimit,
    NotTheKey,
    CutOff,
    BadTag,
    BadLength,
    PastEnd,
    EmptyValue,
    BadId,
    TagRepeated,
    IdRepeated,
    LengthNotAllowed,
    PixelZero,
    MayNotStand,
    Missing,
    ChecksumDiffers,
    RoomTooShort,
    BadRecord,
    Absent,
    NotEditable,
    HalfCentroid,
}

impl Refusal {
    pub fn number(self) -> u64
        ensures { result ≡ number self }
    {
        match self {
            Refusal::OverLimit => 1,
            Refusal::NotTheKey => 2,
            Refusal::CutOff => 3,
            Refusal::BadTag => 4,
            Refusal::BadLength => 5,
            Refusal::PastEnd => 6,
            Refusal::EmptyValue => 7,
            Refusal::BadId => 8,
            Refusal::TagRepeated => 9,
            Refusal::IdRepeated => 10,
            Refusal::LengthNotAllowed => 11,
            Refusal::PixelZero => 12,
            Refusal::MayNotStand => 13,
            Refusal::Missing => 14,
            Refusal::ChecksumDiffers => 15,
            Refusal::RoomTooShort => 16,
            Refusal::BadRecord => 17,
            Refusal::Absent => 18,
            Refusal::NotEditable => 19,
            Refusal::HalfCentroid => 20,
        }
    }

    pub fn at(self, place: usize) -> Fault
        ensures { result ≡ fault self place }
    {
        Fault {
            refusal: self,
            place,
        }
    }
}

// A refusal and its place, counted from where what was read begins.
#[derive(Clone, Copy, Debug, PartialEq, Eq)]
pub struct Fault {
    pub refusal: Refusal,
    pub place: usize,
}

// The same, with a refusal's place.
pub fn placed<T>(r: Result<T, Refusal>, place: usize) -> Result<T, Fault>
    ensures { result ≡ placed place r }
{
    match r {
        Ok(x) => Ok(x),
        Err(refusal) => Err(refusal.at(place)),
    }
}

// The same, with a refusal k bytes further on.
pub fn later<T>(r: Result<T, Fault>, k: usize) -> Result<T, Fault>
    requires { Short r k }
    ensures { result ≡ later k r }
{
    match r {
        Ok(x) => Ok(x),
        Err(fault) => Err(fault.refusal.at(k + fault.place)),
    }
}
