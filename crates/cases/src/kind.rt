// The calls that cases are of.

// The call that a case is of. Card and carrier are a session's.
#[derive(Clone, Copy, PartialEq, Eq)]
pub enum Kind {
    CheckSystem,
    Evaluate,
    Polar,
    Digest,
    Commit,
    Answer,
    Reply,
    Judge,
    Simulate,
    ReadRecord,
    WriteRecord,
    Report,
    CardOpen,
    CardCommit,
    CardAnswer,
    CardReply,
    CarrierOpen,
    CarrierTake,
    CarrierAlpha,
    CarrierMiddle,
    CarrierAsk,
    CarrierJudge,
    AuditThree,
    AuditFive,
    ReadBook,
    WriteBook,
    LookUp,
}

// A number that no call has.
#[derive(Clone, Copy, PartialEq, Eq)]
pub struct UnknownKind(pub u8);

impl TryFrom<u8> for Kind {
    type Error = UnknownKind;

    fn try_from(number: u8) -> Result<Kind, UnknownKind> {
        match number {
            0 => Ok(Kind::CheckSystem),
            1 => Ok(Kind::Evaluate),
            2 => Ok(Kind::Polar),
            3 => Ok(Kind::Digest),
            4 => Ok(Kind::Commit),
            5 => Ok(Kind::Answer),
            6 => Ok(Kind::Reply),
            7 => Ok(Kind::Judge),
            8 => Ok(Kind::Simulate),
            9 => Ok(Kind::ReadRecord),
            10 => Ok(Kind::WriteRecord),
            11 => Ok(Kind::Report),
            12 => Ok(Kind::CardOpen),
            13 => Ok(Kind::CardCommit),
            14 => Ok(Kind::CardAnswer),
            15 => Ok(Kind::CardReply),
            16 => Ok(Kind::CarrierOpen),
            17 => Ok(Kind::CarrierTake),
            18 => Ok(Kind::CarrierAlpha),
            19 => Ok(Kind::CarrierMiddle),
            20 => Ok(Kind::CarrierAsk),
            21 => Ok(Kind::CarrierJudge),
            22 => Ok(Kind::AuditThree),
            23 => Ok(Kind::AuditFive),
            24 => Ok(Kind::ReadBook),
            25 => Ok(Kind::WriteBook),
            26 => Ok(Kind::LookUp),
            _ => Err(UnknownKind(number)),
        }
    }
}

impl Kind {
    // How many pieces a case has, its outputs among them.
    pub fn pieces(self) -> usize {
        match self {
            Kind::CheckSystem
            | Kind::CarrierTake
            | Kind::CarrierAlpha
            | Kind::CarrierMiddle
            | Kind::CarrierAsk => 1,
            Kind::Digest | Kind::ReadRecord | Kind::Report | Kind::CardReply | Kind::ReadBook => 2,
            Kind::Evaluate
            | Kind::CardCommit
            | Kind::CardAnswer
            | Kind::CarrierJudge
            | Kind::LookUp => 3,
            Kind::Polar | Kind::Answer | Kind::CarrierOpen => 4,
            Kind::Commit
            | Kind::WriteRecord
            | Kind::CardOpen
            | Kind::AuditThree
            | Kind::WriteBook => 5,
            Kind::Reply | Kind::AuditFive => 6,
            Kind::Judge | Kind::Simulate => 7,
        }
    }
}
