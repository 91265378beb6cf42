//! What holds of what a journal writes, whatever run it is of. These calls do nothing: their
//! contracts are the laws.

ghost use Rattle.tp_journal.specs.Laws.{AnswersHaveTheForm, QuestionsAreRead, PairsHaveTheForm, HeadsAreRead, JournalsHaveTheForm, JournalsBreakNowhere, TextsLeadToOneState, JournalsAreNeverWrong, JournalsHaveTheirHead, JournalsHaveShortLines, JournalsAreAccepted, WrittenJournalsAreAccepted, WrittenJournalsHaveShortLines};

/// Each answer of the machine, as a journal writes it, has the form of an answer.
pub fn answers_have_the_form()
    ensures { AnswersHaveTheForm }
{}

/// Each question, as a journal writes it, is read as its command.
pub fn questions_are_read()
    ensures { QuestionsAreRead }
{}

/// The pairs of a run, as a journal writes them, are questions of the format, each with a line
/// behind it that has the form of an answer.
pub fn pairs_have_the_form()
    ensures { PairsHaveTheForm }
{}

/// The head of a journal, as it is written, is read line by line as a head of the format.
pub fn heads_are_read()
    ensures { HeadsAreRead }
{}

/// The lines of a journal, as they are written, stand each where the format has it, and end where
/// they may end.
pub fn journals_have_the_form()
    ensures { JournalsHaveTheForm }
{}

/// No line of a journal that was written whole breaks the format.
pub fn journals_break_nowhere()
    ensures { JournalsBreakNowhere }
{}

/// Whatever may be answered to a command by one text leads to one state.
pub fn texts_lead_to_one_state()
    ensures { TextsLeadToOneState }
{}

/// The machine allows each answer in a journal that was written whole.
pub fn journals_are_never_wrong()
    ensures { JournalsAreNeverWrong }
{}

/// The head of a journal that was written whole is not taken for that of another executive.
pub fn journals_have_their_head()
    ensures { JournalsHaveTheirHead }
{}

/// No line of a journal that was written whole has more than 16,384 bytes.
pub fn journals_have_short_lines()
    ensures { JournalsHaveShortLines }
{}

/// The journal of a run gets a yes from an audit with an executive in the state in which the run
/// began, or `Memory`, or `Read` where the reader fails.
pub fn journals_are_accepted()
    ensures { JournalsAreAccepted }
{}

/// What `journal` wrote to an empty log, where it met no fault, gets a yes from an audit with an
/// executive in the state in which the journal's began, or `Memory`, or `Read` where the reader
/// fails.
pub fn written_journals_are_accepted()
    ensures { WrittenJournalsAreAccepted }
{}

/// No line of the journal that `journal` writes has more than 16,384 bytes, however it ends.
pub fn written_journals_have_short_lines()
    ensures { WrittenJournalsHaveShortLines }
{}
