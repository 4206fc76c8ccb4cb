// Why a call is refused, and the number that it answers then (document 01, "Who causes which number").
ghost use Rattle.std.specs.Prelude.{◌≡◌};
ghost use Rattle.agent_state.specs.Refusing.{answer_of, of_line, of_frame};

use frame_forms::FrameFault;
use wire::LineFault;

#[derive(Clone, Copy, Debug, PartialEq, Eq)]
pub enum Refusal {
    // the body's length
    BodyLength,
    // stuffing
    Stuffing,
    // the length without stuffing
    UnstuffedLength,
    // FCS
    Fcs,
    // a reserved address
    Reserved,
    // another station's address
    Elsewhere,
    // a TYP that is not served
    Typ,
    // the form of the application data
    Form,
    // their CRC
    Crc,
    // source FFFFFFh or not recorded
    Source,
    // SID, MAC or IID not the module's
    Addressee,
    // a CYC that does not fit
    Cycle,
    // a copy of a sync accepted before, or a SEQ taken or skipped before
    Repeat,
    // a SEQ more than three ahead
    OutOfOrder,
    // past the limit of requests
    TooMany,
    // a write outside the rules
    OutsideRules,
    // a TID or SID not allowed
    NotAllowed,
    // eight others are recorded
    EightOthers,
    // the state is unsound
    Unsound,
    // too small a reply buffer
    ReplyRoom,
    // not 64 inputs, or not a port
    HostInput,
    // a sync in RUN, outside its window
    OutsideWindow,
}

impl Refusal {
    ghost use Rattle.agent_state.specs.Refusing.{number_of};

    pub fn number(self) -> u8
        ensures { result ≡ number_of self }
    {
        match self {
            Refusal::BodyLength => 1,
            Refusal::Stuffing => 2,
            Refusal::UnstuffedLength => 3,
            Refusal::Fcs => 4,
            Refusal::Reserved => 5,
            Refusal::Elsewhere => 6,
            Refusal::Typ => 7,
            Refusal::Form => 8,
            Refusal::Crc => 9,
            Refusal::Source => 10,
            Refusal::Addressee => 11,
            Refusal::Cycle => 12,
            Refusal::Repeat => 13,
            Refusal::OutOfOrder => 14,
            Refusal::TooMany => 15,
            Refusal::OutsideRules => 16,
            Refusal::NotAllowed => 17,
            Refusal::EightOthers => 18,
            Refusal::Unsound => 19,
            Refusal::ReplyRoom => 20,
            Refusal::HostInput => 21,
            Refusal::OutsideWindow => 22,
        }
    }
}

impl From<LineFault> for Refusal {
    ghost from_gives = { λ fault result. result ≡ of_line fault };

    fn from(fault: LineFault) -> Self {
        match fault {
            LineFault::Length => Refusal::BodyLength,
            LineFault::Stuffing => Refusal::Stuffing,
            LineFault::Size => Refusal::UnstuffedLength,
            LineFault::Check => Refusal::Fcs,
            LineFault::Reserved => Refusal::Reserved,
        }
    }
}

impl From<FrameFault> for Refusal {
    ghost from_gives = { λ fault result. result ≡ of_frame fault };

    fn from(fault: FrameFault) -> Self {
        match fault {
            FrameFault::Kind => Refusal::Typ,
            FrameFault::Form => Refusal::Form,
            FrameFault::Check => Refusal::Crc,
        }
    }
}

// A call's answer: 0, or the number of its refusal.
pub fn answer<T>(judged: &Result<T, Refusal>) -> u8
    ensures { result ≡ answer_of judged.now }
{
    match judged {
        Ok(_) => 0,
        Err(refusal) => refusal.number(),
    }
}
