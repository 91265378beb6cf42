//! The command of a call, its files, and how its time is measured.

use tp_text::Scale;

/// What words of a call name. What is not named is empty.
#[derive(Clone, Copy)]
pub struct Call<'w> {
    pub command: &'w str,
    pub domain: &'w str,
    pub problem: &'w str,
    pub plan: &'w str,
    pub owners: &'w str,
    /// The journal that is audited.
    pub log: &'w str,
    /// The journal that is kept.
    pub journal: &'w str,
    pub scale: Scale,
    /// The same as it is written.
    pub scale_word: &'w str,
    pub horizon: u32,
    pub resumes: bool,
    /// How many words are neither options nor their values, and how many of them are `-`.
    pub words: usize,
    pub inputs: usize,
}

/// Whether an option has its value in the next word.
fn has_value(word: &str) -> bool {
    matches!(
        word.as_bytes(),
        b"--scale" | b"--horizon" | b"--budget" | b"--journal" | b"--resume" | b"--part"
    )
}

/// Takes the value of an option.
fn take_option<'w>(call: &mut Call<'w>, option: &str, value: &'w str) {
    match option.as_bytes() {
        b"--journal" => call.journal = value,
        b"--resume" => call.resumes = true,
        b"--scale" => {
            let ticks = value.parse::<u32>().unwrap_or(1);
            call.scale = Scale::from_number(ticks).unwrap_or(Scale::One);
            call.scale_word = value;
        }
        b"--horizon" => call.horizon = value.parse::<u32>().unwrap_or(call.horizon),
        _ => {}
    }
}

/// Takes a word that is neither an option nor the value of one: the command, or a file.
fn take_word<'w>(call: &mut Call<'w>, word: &'w str) {
    let skipped = if call.command == "audit" { 0 } else { 1 };
    match call.words.saturating_add(skipped) {
        _ if call.words == 0 => call.command = word,
        1 => call.log = word,
        2 => call.domain = word,
        3 => call.problem = word,
        4 => call.plan = word,
        5 => call.owners = word,
        _ => {}
    }
    call.words = call.words.saturating_add(1);
    if word == "-" {
        call.inputs = call.inputs.saturating_add(1);
    }
}

/// A call, and the option whose value is the next word, if one is.
#[derive(Drop)]
struct Reading<'w> {
    call: Call<'w>,
    option: &'w str,
}

/// Takes the next word of a call.
fn take_next<'w>(reading: &mut Reading<'w>, word: &'w str) {
    if !reading.option.is_empty() {
        take_option(&mut reading.call, reading.option, word);
        reading.option = "";
    } else if has_value(word) {
        reading.option = word;
    } else if !word.starts_with("--") {
        take_word(&mut reading.call, word);
    } else if let Some((name, value)) = word.split_once('=') {
        take_option(&mut reading.call, name, value);
    }
}

/// What the words of a call name.
pub fn call_of(words: &[String]) -> Call<'_> {
    let mut reading = Reading {
        call: Call {
            command: "bare",
            domain: "",
            problem: "",
            plan: "",
            owners: "",
            log: "",
            journal: "",
            scale: Scale::One,
            scale_word: "",
            horizon: 1_000_000,
            resumes: false,
            words: 0,
            inputs: 0,
        },
        option: "",
    };
    for word in words {
        take_next(&mut reading, word.as_str());
    }
    reading.call
}
