// Refusals, by their causes.
ghost use Rattle.std.specs.Prelude.{◌≡◌};
ghost use Rattle.answer.specs.Refusals.{number};

// Why a call gives no answer.
#[derive(Clone, Copy, PartialEq, Eq, Debug)]
pub enum Refusal {
    // not 1 ≤ k ≤ ℓ ≤ m
    Parameters,
    // too few rows, or the number's rows are not the reduced form that the session holds
    Rows,
    // a block number above 7
    BlockNumber,
    // open of an open number
    AlreadyOpen,
    // another call on a shut number
    NotOpen,
    // a header's code from q^ℓ on
    Header,
    // a payload's code from q^m on
    Payload,
    // the list of packets would pass its limit
    ListFull,
    // the output has too few places
    OutputShort,
    // the dimension r is below k
    DimensionLow(usize),
    // the dimension r is above 2ℓ − k
    DimensionHigh(usize),
    // no codeword space lies within ℓ − k of the space of dimension r
    NoneNear(usize),
    // the message is not k symbols long
    MessageLength,
    // a log of more bytes than the limit
    LogLong,
    // a first line that is missing, or a line that is not of its shape
    LineShape,
    // division by zero
    DivisorZero,
}

impl Refusal {
    // The refusal's number, by which users know it.
    pub fn number(self) -> u8
        ensures { result ≡ number self }
    {
        match self {
            Refusal::Parameters => 1,
            Refusal::Rows => 2,
            Refusal::BlockNumber => 3,
            Refusal::AlreadyOpen => 4,
            Refusal::NotOpen => 5,
            Refusal::Header => 6,
            Refusal::Payload => 7,
            Refusal::ListFull => 8,
            Refusal::OutputShort => 9,
            Refusal::DimensionLow(_) => 10,
            Refusal::DimensionHigh(_) => 11,
            Refusal::NoneNear(_) => 12,
            Refusal::MessageLength => 13,
            Refusal::LogLong => 14,
            Refusal::LineShape => 15,
            Refusal::DivisorZero => 16,
        }
    }
}
