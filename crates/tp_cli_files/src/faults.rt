//! The table of faults: part, number and word of each line, and its exit status.

ghost use Rattle.std.specs.Prelude.{◌≡◌};
ghost use Rattle.tp_cli_files.specs.Faults.{part_text, row};

/// The input is refused.
pub const REFUSED: u8 = 2;

/// Memory or a device is wanting.
pub const OUT_OF_ORDER: u8 = 3;

/// A part of the input, or of a call, of which several faults tell, or that may lack memory.
#[derive(Clone, Copy)]
pub enum Part {
    Domain,
    Problem,
    Ground,
    Plan,
    Check,
    Search,
    Net,
    Run,
    Split,
    Journal,
    Draw,
}

impl Part {
    /// Its word in a line.
    fn word(self) -> &'static str
        ensures { result.now ≡ part_text self }
    {
        match self {
            Part::Domain => "domain",
            Part::Problem => "problem",
            Part::Ground => "ground",
            Part::Plan => "plan",
            Part::Check => "check",
            Part::Search => "search",
            Part::Net => "net",
            Part::Run => "run",
            Part::Split => "split",
            Part::Journal => "journal",
            Part::Draw => "draw",
        }
    }
}

/// A fault, named after the part and the word of its line. That of a domain or a problem has its
/// part with it, and so has a want of memory.
#[derive(Clone, Copy)]
pub enum Fault {
    ArgumentsWords,
    ArgumentsMemory,
    FileRead,
    FileUtf8,
    FileTooLong,
    TextMemory(Part),
    TextTooLong(Part),
    TextBadByte(Part),
    TextUnclosed(Part),
    TextExtra(Part),
    TextDepth(Part),
    TextEmpty(Part),
    Shape(Part),
    Unknown(Part),
    Twice(Part),
    Types(Part),
    LeftOut(Part),
    GroundTooMany,
    GroundRange,
    PlanLine,
    PlanNoAction,
    PlanNotTicks,
    PlanTooMany,
    PlanNoDuration,
    PlanHorizon,
    CheckRange,
    SearchRange,
    NetTooMany,
    SplitOwner,
    SplitConflict,
    SplitAgent,
    SplitTooMany,
    ScriptRead,
    ScriptWrite,
    ScriptMemory,
    ScriptTooLong,
    ScriptHead,
    ScriptLog,
    JournalRead,
    JournalLine,
    JournalHead,
    Memory(Part),
}

impl Fault {
    /// The part, the number and the word of its line, and the exit status.
    pub fn row(self) -> (&'static str, &'static str, u8)
        ensures part { result.0.now ≡ (row self).part }
        ensures words { result.1.now ≡ (row self).words }
        ensures status { result.2 ≡ (row self).status }
    {
        match self {
            Fault::ArgumentsWords => ("arguments", "1 words", REFUSED),
            Fault::ArgumentsMemory => ("arguments", "2 memory", OUT_OF_ORDER),
            Fault::FileRead => ("file", "1 read", OUT_OF_ORDER),
            Fault::FileUtf8 => ("file", "2 utf8", REFUSED),
            Fault::FileTooLong => ("file", "3 too-long", REFUSED),
            Fault::TextMemory(part) => (part.word(), "2 text 1 memory", OUT_OF_ORDER),
            Fault::TextTooLong(part) => (part.word(), "2 text 2 too-long", REFUSED),
            Fault::TextBadByte(part) => (part.word(), "2 text 3 bad-byte", REFUSED),
            Fault::TextUnclosed(part) => (part.word(), "2 text 4 unclosed", REFUSED),
            Fault::TextExtra(part) => (part.word(), "2 text 5 extra", REFUSED),
            Fault::TextDepth(part) => (part.word(), "2 text 6 depth", REFUSED),
            Fault::TextEmpty(part) => (part.word(), "2 text 7 empty", REFUSED),
            Fault::Shape(part) => (part.word(), "3 shape", REFUSED),
            Fault::Unknown(part) => (part.word(), "4 unknown", REFUSED),
            Fault::Twice(part) => (part.word(), "5 twice", REFUSED),
            Fault::Types(part) => (part.word(), "6 types", REFUSED),
            Fault::LeftOut(part) => (part.word(), "7 left-out", REFUSED),
            Fault::GroundTooMany => ("ground", "2 too-many", REFUSED),
            Fault::GroundRange => ("ground", "3 range", REFUSED),
            Fault::PlanLine => ("plan", "2 line", REFUSED),
            Fault::PlanNoAction => ("plan", "3 no-action", REFUSED),
            Fault::PlanNotTicks => ("plan", "4 not-ticks", REFUSED),
            Fault::PlanTooMany => ("plan", "5 too-many", REFUSED),
            Fault::PlanNoDuration => ("plan", "6 no-duration", REFUSED),
            Fault::PlanHorizon => ("plan", "7 horizon", REFUSED),
            Fault::CheckRange => ("check", "2 range", REFUSED),
            Fault::SearchRange => ("search", "2 range", REFUSED),
            Fault::NetTooMany => ("net", "2 too-many", REFUSED),
            Fault::SplitOwner => ("split", "2 owner", REFUSED),
            Fault::SplitConflict => ("split", "3 conflict", REFUSED),
            Fault::SplitAgent => ("split", "4 agent", REFUSED),
            Fault::SplitTooMany => ("split", "5 too-many", REFUSED),
            Fault::ScriptRead => ("script", "1 read", OUT_OF_ORDER),
            Fault::ScriptWrite => ("script", "2 write", OUT_OF_ORDER),
            Fault::ScriptMemory => ("script", "3 memory", OUT_OF_ORDER),
            Fault::ScriptTooLong => ("script", "4 too-long", REFUSED),
            Fault::ScriptHead => ("script", "5 head", REFUSED),
            Fault::ScriptLog => ("script", "6 log", OUT_OF_ORDER),
            Fault::JournalRead => ("journal", "2 read", OUT_OF_ORDER),
            Fault::JournalLine => ("journal", "3 line", REFUSED),
            Fault::JournalHead => ("journal", "5 head", REFUSED),
            Fault::Memory(part) => (part.word(), "1 memory", OUT_OF_ORDER),
        }
    }
}
