//! The reading of the words of a call.

ghost use Rattle.std.specs.Prelude.{◌≡◌, ◌≢◌, ◌⊎◌, ◌<◌, ◌≤◌, ◌^◌, ℕ, ◌∷◌, [], List, true, false, Option, Some, None, Ok, Err, IfOk, IfErr, IfSome, IfNone, map, count_by, option_map, codes};
ghost use Rattle.std.specs.Bool.{Decides};
ghost use Rattle.std.specs.List.{list_any};
ghost use Rattle.std.specs.Str.{bytes_eq};
ghost use Rattle.std.specs.String.{string_bytes};
ghost use Rattle.clap.specs.Words.{Text, Row, fault_of, first_of, found_of, kind_of, one_of, rows_of, subcommand_rows_of};
ghost use Rattle.clap.specs.declared.error.kind.ErrorKind.TheVariants as kinds;
ghost use Rattle.tp_text.specs.Scales.{scale_ticks};
ghost use Rattle.tp_text.specs.declared.number.Scale.{Scale};
ghost use Rattle.tp_cli_inputs.specs.declared.plan_words.PlanWords.{PlanWords};
ghost use Rattle.tp_cli_inputs.specs.declared.draw_words.DrawWords.{DrawWords};
ghost use Rattle.tp_cli_plan.specs.declared.search_words.SearchWords.{SearchWords};
ghost use Rattle.tp_solve.specs.declared.solving.Wishes.{Wishes};
ghost use Rattle.tp_cli_args.specs.Commands.{tempo_app};
ghost use Rattle.tp_cli_args.specs.Refusals.{NoAudit, NoBare, NoDraw, NoPlanOf, NoRun, NoSearch, NoSplit};
ghost use Rattle.tp_cli_args.specs.Requests.{AskForOneThing, AsksBy, AsksFor, AsksForNothing, AsksNothing, CallsForText, HasOwnFiles, IsDrawWords, IsFlag, IsPlanWords, IsSearchWords, IsUntil, NamesBare, Spells, TellsText, file_names, inputs};

use crate::commands::tempo_command;
use crate::requests::Request;
use clap::error::ErrorKind;
use clap::{ArgMatches, Error};
use std::alloc::{AllocError, Global};
use tp_cli_files::STANDARD_INPUT;
use tp_cli_inputs::{DrawWords, PlanWords};
use tp_cli_plan::{Order, SearchWords, Wishes};
use tp_text::Scale;

/// Why a call's words ask for nothing.
#[derive(Drop)]
pub enum NoRequest {
    /// Out of memory.
    Memory,
    /// They are no words of a command. The text says more, where there is one.
    Words(Option<String>),
}

impl From<AllocError> for NoRequest {
    ghost use Rattle.tp_cli_args.specs.declared.arguments.NoRequest.TheVariants.{Memory};

    ghost from_gives = { λ _ e. e ≡ Memory };

    fn from(_e: AllocError) -> NoRequest {
        NoRequest::Memory
    }
}

/// The greatest horizon.
const GREATEST_HORIZON: u32 = 1_000_000_000;

/// The greatest budget of a search.
const GREATEST_BUDGET: u32 = 1_000_000;

/// The greatest budget of a guided search.
const GREATEST_GUIDED_BUDGET: u32 = 1_000_000_000;

/// The greatest number of an agent.
const GREATEST_AGENT: u32 = 1023;

/// How many of these files are the standard input.
fn inputs(files: &[&str]) -> usize
    ensures { result ≡ count_by (λ name. bytes_eq name.now (codes "-")) files.now }
{
    files.iter().filter(|name| **name == STANDARD_INPUT).count()
}

/// Whether one of these files has a name.
fn is_among(name: &str, files: &[&str]) -> bool
    ensures { result ≡ list_any (λ file. bytes_eq file.now name.now) files.now }
{
    files.iter().any(|file| *file == name)
}

/// The value of a word.
fn word<'w>(matches: &ArgMatches<'w>, id: &str) -> Option<&'w str>
    ensures { option_map (λ s. s.now) result ≡ first_of id.now (rows_of (found_of matches.now)) }
{
    matches.get_str(id)
}

/// The number that the value of a word spells.
fn number(matches: &ArgMatches<'_>, id: &str) -> Option<u32>
    ensures spelled { IfSome result (Spells (one_of id.now (rows_of (found_of matches.now)))) }
    ensures refused { IfNone result ((n : ℕ) → n < 2 ^ 32
        → Spells (one_of id.now (rows_of (found_of matches.now))) n → ⊥) }
{
    matches.get_one::<u32>(id)
}

/// The scale that `--scale` asks for, if there is such a one.
fn scale(matches: &ArgMatches<'_>) -> Option<Scale>
    ensures spelled { IfSome result
        (λ s. Spells (one_of (codes "scale") (rows_of (found_of matches.now))) (scale_ticks s)) }
    ensures refused { IfNone result ((s : Scale)
        → Spells (one_of (codes "scale") (rows_of (found_of matches.now))) (scale_ticks s) → ⊥) }
{
    Scale::from_number(number(matches, "scale")?)
}

/// The files of a plan and how its time is measured. At most so many of the files may be the
/// standard input.
fn plan_words<'w>(matches: &ArgMatches<'w>, most: usize) -> Option<PlanWords<'w>>
    ensures words { IfSome result (IsPlanWords (rows_of (found_of matches.now))) }
    ensures own { IfSome result
        (λ w. inputs (w.domain.now ∷ w.problem.now ∷ w.plan.now ∷ []) ≤ most) }
    ensures refused { IfNone result ((w : PlanWords)
        → IsPlanWords (rows_of (found_of matches.now)) w
        → most < inputs (w.domain.now ∷ w.problem.now ∷ w.plan.now ∷ [])) }
{
    let domain = word(matches, "DOMAIN")?;
    let problem = word(matches, "PROBLEM")?;
    let plan = word(matches, "PLAN")?;
    let scale = scale(matches)?;
    let horizon = number(matches, "horizon")?;
    if horizon > GREATEST_HORIZON || inputs(&[domain, problem, plan]) > most {
        return None;
    }
    Some(PlanWords {
        domain,
        problem,
        plan,
        scale,
        horizon,
    })
}

/// The files of a problem, how time is measured, and the budget of a search of an order, up to the
/// greatest one.
fn search_words<'w>(
    matches: &ArgMatches<'w>,
    greatest: u32,
    order: Order,
) -> Option<SearchWords<'w>>
    ensures words { IfSome result (IsSearchWords greatest (rows_of (found_of matches.now))) }
    ensures order { IfSome result (λ w. w.order ≡ order) }
    ensures own { IfSome result (λ w. inputs (w.domain.now ∷ w.problem.now ∷ []) ≤ 1) }
    ensures refused { IfNone result ((w : SearchWords)
        → IsSearchWords greatest (rows_of (found_of matches.now)) w
        → 1 < inputs (w.domain.now ∷ w.problem.now ∷ [])) }
{
    let domain = word(matches, "DOMAIN")?;
    let problem = word(matches, "PROBLEM")?;
    let scale = scale(matches)?;
    let horizon = number(matches, "horizon")?;
    let budget = number(matches, "budget")?;
    if horizon > GREATEST_HORIZON || budget > greatest {
        return None;
    }
    if inputs(&[domain, problem]) > 1 {
        return None;
    }
    Some(SearchWords {
        domain,
        problem,
        scale,
        horizon,
        budget,
        order,
    })
}

/// Whether an option is given that has no value.
fn flag(matches: &ArgMatches<'_>, id: &str) -> bool
    ensures { IsFlag (one_of id.now (rows_of (found_of matches.now))) result }
{
    matches.get_one::<bool>(id).unwrap_or(false)
}

/// What `plan` asks for.
fn plan_asked<'w>(matches: &ArgMatches<'w>) -> Option<Request<'w>>
    ensures asked { IfSome result (AsksBy (Some (codes "plan", rows_of (found_of matches.now)))) }
    ensures own { IfSome result HasOwnFiles }
    ensures refused { IfNone result (NoSearch 1000000 (rows_of (found_of matches.now))) }
{
    let progress = flag(matches, "progress");
    let words = search_words(matches, GREATEST_BUDGET, Order::Lacking { progress })?;
    Some(Request::Plan(words))
}

/// What `solve` asks for.
fn solve_asked<'w>(matches: &ArgMatches<'w>) -> Option<Request<'w>>
    ensures asked { IfSome result (AsksBy (Some (codes "solve", rows_of (found_of matches.now)))) }
    ensures own { IfSome result HasOwnFiles }
    ensures refused { IfNone result (NoSearch 1000000000 (rows_of (found_of matches.now))) }
{
    let wishes = Wishes {
        improve: flag(matches, "improve"),
        progress: flag(matches, "progress"),
    };
    let words = search_words(matches, GREATEST_GUIDED_BUDGET, Order::Guided(wishes))?;
    Some(Request::Plan(words))
}

/// The request of `bare` without `--resume`: with a journal, where a file is named for it.
fn bare_begun<'w>(matches: &ArgMatches<'w>) -> Option<Request<'w>>
    requires { first_of (codes "resume") (rows_of (found_of matches.now)) ≡ None }
    ensures asked { IfSome result (AsksBy (Some (codes "bare", rows_of (found_of matches.now)))) }
    ensures own { IfSome result HasOwnFiles }
    ensures refused { IfNone result (NoBare (rows_of (found_of matches.now))) }
    ensures bare { first_of (codes "journal") (rows_of (found_of matches.now)) ≡ None
        → result ≡ Some Request.Bare }
{
    match word(matches, "journal") {
        None => Some(Request::Bare),
        Some(log) => {
            if is_among(log, &[STANDARD_INPUT]) {
                return None;
            }
            Some(Request::BareLog(log))
        }
    }
}

/// What `bare` asks for that goes on from the journal in a file: it goes to another.
fn bare_resumed<'w>(matches: &ArgMatches<'w>, old: &'w str) -> Option<Request<'w>>
    requires { first_of (codes "resume") (rows_of (found_of matches.now)) ≡ Some old.now }
    ensures asked { IfSome result (AsksBy (Some (codes "bare", rows_of (found_of matches.now)))) }
    ensures own { IfSome result HasOwnFiles }
    ensures refused { IfNone result (NoBare (rows_of (found_of matches.now))) }
{
    let log = word(matches, "journal")?;
    if inputs(&[old]) > 0 || is_among(log, &[STANDARD_INPUT, old]) {
        return None;
    }
    Some(Request::BareResume(old, log))
}

/// What `bare` asks for.
fn bare_asked<'w>(matches: &ArgMatches<'w>) -> Option<Request<'w>>
    ensures asked { IfSome result (AsksBy (Some (codes "bare", rows_of (found_of matches.now)))) }
    ensures own { IfSome result HasOwnFiles }
    ensures refused { IfNone result (NoBare (rows_of (found_of matches.now))) }
    ensures bare { NamesBare (Some (codes "bare", rows_of (found_of matches.now)))
        → result ≡ Some Request.Bare }
{
    match word(matches, "resume") {
        None => bare_begun(matches),
        Some(old) => bare_resumed(matches, old),
    }
}

/// What `run` asks for that does not go on from a journal: a journal too, where a file is named for
/// it.
fn run_begun<'w>(matches: &ArgMatches<'w>, plan: PlanWords<'w>) -> Option<Request<'w>>
    requires resume { first_of (codes "resume") (rows_of (found_of matches.now)) ≡ None }
    requires plan { IsPlanWords (rows_of (found_of matches.now)) plan }
    ensures asked { IfSome result (AsksBy (Some (codes "run", rows_of (found_of matches.now)))) }
    ensures own { inputs
        (plan.entry.domain.now ∷ plan.entry.problem.now ∷ plan.entry.plan.now ∷ []) ≤ 0
        → IfSome result HasOwnFiles }
    ensures refused { IfNone result (NoRun (rows_of (found_of matches.now))) }
{
    match word(matches, "journal") {
        None => Some(Request::Run(plan)),
        Some(log) => {
            if is_among(log, &[STANDARD_INPUT, plan.domain, plan.problem, plan.plan]) {
                return None;
            }
            Some(Request::RunLog(plan, log))
        }
    }
}

/// What `run` asks for that goes on from the journal in a file: it goes to another.
fn run_resumed<'w>(
    matches: &ArgMatches<'w>,
    plan: PlanWords<'w>,
    old: &'w str,
) -> Option<Request<'w>>
    requires resume { first_of (codes "resume") (rows_of (found_of matches.now)) ≡ Some old.now }
    requires plan { IsPlanWords (rows_of (found_of matches.now)) plan }
    ensures asked { IfSome result (AsksBy (Some (codes "run", rows_of (found_of matches.now)))) }
    ensures own { inputs
        (plan.entry.domain.now ∷ plan.entry.problem.now ∷ plan.entry.plan.now ∷ []) ≤ 0
        → IfSome result HasOwnFiles }
    ensures refused { IfNone result (NoRun (rows_of (found_of matches.now))) }
{
    let log = word(matches, "journal")?;
    let files = [STANDARD_INPUT, old, plan.domain, plan.problem, plan.plan];
    if inputs(&[old]) > 0 || is_among(log, &files) {
        return None;
    }
    Some(Request::RunResume(plan, old, log))
}

/// What `run` asks for.
fn run_asked<'w>(matches: &ArgMatches<'w>) -> Option<Request<'w>>
    ensures asked { IfSome result (AsksBy (Some (codes "run", rows_of (found_of matches.now)))) }
    ensures own { IfSome result HasOwnFiles }
    ensures refused { IfNone result (NoRun (rows_of (found_of matches.now))) }
{
    let plan = plan_words(matches, 0)?;
    match word(matches, "resume") {
        None => run_begun(matches, plan),
        Some(old) => run_resumed(matches, plan, old),
    }
}

/// What `audit` asks for: that of a plan's run, where its files are named.
fn audit_asked<'w>(matches: &ArgMatches<'w>) -> Option<Request<'w>>
    ensures asked { IfSome result (AsksBy (Some (codes "audit", rows_of (found_of matches.now)))) }
    ensures own { IfSome result HasOwnFiles }
    ensures refused { IfNone result (NoAudit (rows_of (found_of matches.now))) }
{
    let log = word(matches, "LOG")?;
    match word(matches, "DOMAIN") {
        None => {
            let _scale = scale(matches)?;
            Some(Request::Audit(log))
        }
        Some(_) => {
            let plan = plan_words(matches, 1)?;
            if inputs(&[log, plan.domain, plan.problem, plan.plan]) > 1 {
                return None;
            }
            Some(Request::PlanAudit(log, plan))
        }
    }
}

/// What `split` asks for: the network of one agent, where it is named.
fn split_asked<'w>(matches: &ArgMatches<'w>) -> Option<Request<'w>>
    ensures asked { IfSome result (AsksBy (Some (codes "split", rows_of (found_of matches.now)))) }
    ensures own { IfSome result HasOwnFiles }
    ensures refused { IfNone result (NoSplit (rows_of (found_of matches.now))) }
{
    let plan = plan_words(matches, 1)?;
    let owners = word(matches, "OWNERS")?;
    if inputs(&[plan.domain, plan.problem, plan.plan, owners]) > 1 {
        return None;
    }
    match word(matches, "part") {
        None => Some(Request::Split(plan, owners)),
        Some(_) => {
            let agent = number(matches, "part")?;
            if agent > GREATEST_AGENT {
                return None;
            }
            Some(Request::Part(plan, owners, agent))
        }
    }
}

/// The files of a plan that is drawn, and how.
fn draw_words<'w>(matches: &ArgMatches<'w>) -> Option<DrawWords<'w>>
    ensures words { IfSome result (IsDrawWords (rows_of (found_of matches.now))) }
    ensures refused { IfNone result ((w : DrawWords)
        → IsDrawWords (rows_of (found_of matches.now)) w → ⊥) }
{
    let domain = word(matches, "DOMAIN")?;
    let problem = word(matches, "PROBLEM")?;
    let plan = word(matches, "PLAN")?;
    let scale = scale(matches)?;
    let horizon = until(matches)?;
    let journal = word(matches, "journal");
    Some(DrawWords {
        domain,
        problem,
        plan,
        scale,
        horizon,
        journal,
    })
}

/// The tick that `--horizon` gives, if it is there.
fn until(matches: &ArgMatches<'_>) -> Option<Option<u32>>
    ensures given { IfSome result (IsUntil
        (first_of (codes "horizon") (rows_of (found_of matches.now)))
        (one_of (codes "horizon") (rows_of (found_of matches.now)))) }
    ensures refused { IfNone result ((horizon : Option ℕ) → IsUntil
        (first_of (codes "horizon") (rows_of (found_of matches.now)))
        (one_of (codes "horizon") (rows_of (found_of matches.now))) horizon → ⊥) }
{
    match word(matches, "horizon") {
        None => Some(None),
        Some(_) => {
            let horizon = number(matches, "horizon")?;
            if horizon > GREATEST_HORIZON {
                return None;
            }
            Some(Some(horizon))
        }
    }
}

/// Whether one file at most of those for a picture is the standard input.
fn draws_apart(words: DrawWords<'_>) -> bool
    ensures { Decides result (inputs (words.entry.domain.now ∷ words.entry.problem.now
        ∷ words.entry.plan.now ∷ file_names words.entry.journal) ≤ 1) }
{
    match words.journal {
        None => inputs(&[words.domain, words.problem, words.plan]) <= 1,
        Some(log) => inputs(&[words.domain, words.problem, words.plan, log]) <= 1,
    }
}

/// What `draw` asks for.
fn draw_asked<'w>(matches: &ArgMatches<'w>) -> Option<Request<'w>>
    ensures asked { IfSome result (AsksBy (Some (codes "draw", rows_of (found_of matches.now)))) }
    ensures own { IfSome result HasOwnFiles }
    ensures refused { IfNone result (NoDraw (rows_of (found_of matches.now))) }
{
    let words = draw_words(matches)?;
    if !draws_apart(words) {
        return None;
    }
    Some(Request::Draw(words))
}

/// What `check` asks for.
fn check_asked<'w>(matches: &ArgMatches<'w>) -> Option<Request<'w>>
    ensures asked { IfSome result (AsksBy (Some (codes "check", rows_of (found_of matches.now)))) }
    ensures own { IfSome result HasOwnFiles }
    ensures refused { IfNone result (NoPlanOf (rows_of (found_of matches.now))) }
{
    Some(Request::Check(plan_words(matches, 1)?))
}

/// What `net` asks for.
fn net_asked<'w>(matches: &ArgMatches<'w>) -> Option<Request<'w>>
    ensures asked { IfSome result (AsksBy (Some (codes "net", rows_of (found_of matches.now)))) }
    ensures own { IfSome result HasOwnFiles }
    ensures refused { IfNone result (NoPlanOf (rows_of (found_of matches.now))) }
{
    Some(Request::Net(plan_words(matches, 1)?))
}

/// What a command with its values asks for.
fn asked_by<'w>(name: &str, matches: &ArgMatches<'w>) -> Option<Request<'w>>
    ensures asked { IfSome result (AsksBy (Some (name.now, rows_of (found_of matches.now)))) }
    ensures own { IfSome result HasOwnFiles }
    ensures refused { IfNone result
        (AsksNothing (Some (name.now, rows_of (found_of matches.now)))) }
    ensures bare { NamesBare (Some (name.now, rows_of (found_of matches.now)))
        → result ≡ Some Request.Bare }
{
    match name {
        "bare" => bare_asked(matches),
        "check" => check_asked(matches),
        "net" => net_asked(matches),
        "run" => run_asked(matches),
        "plan" => plan_asked(matches),
        "solve" => solve_asked(matches),
        "audit" => audit_asked(matches),
        "split" => split_asked(matches),
        "draw" => draw_asked(matches),
        _ => None,
    }
}

/// What a parse asks for.
fn asked<'w>(matches: &ArgMatches<'w>) -> Option<Request<'w>>
    ensures asked { IfSome result (AsksBy (subcommand_rows_of matches.now)) }
    ensures own { IfSome result HasOwnFiles }
    ensures refused { IfNone result (AsksNothing (subcommand_rows_of matches.now)) }
    ensures bare { NamesBare (subcommand_rows_of matches.now) → result ≡ Some Request.Bare }
{
    match matches.subcommand() {
        None => Some(Request::Bare),
        Some((name, inner)) => asked_by(name, inner),
    }
}

/// The text that a parse gave in place of matches.
fn text_of<'w>(alloc: Global, error: &Error) -> Result<Request<'w>, NoRequest>
    ensures help { IfOk result (λ r. (text : _) × (r ≡ Request.Help text)) }
    ensures memory { IfErr result (λ e. e ≡ NoRequest.Memory) }
{
    Ok(Request::Help(format!(in alloc; "{error}")?))
}

/// What is left where a parse gave no matches: help or the version that was called for, or a
/// refusal.
fn without_matches<'w>(alloc: Global, error: &Error) -> Result<Request<'w>, NoRequest>
    ensures help { IfOk result (λ r.
        ((text : _) × (r ≡ Request.Help text)) × TellsText (kind_of error.now)) }
    ensures memory { kind_of error.now ≡ kinds.OutOfMemory → result ≡ Err NoRequest.Memory }
    ensures refused { IfErr result
        (λ e. (e ≡ NoRequest.Memory) ⊎ (TellsText (kind_of error.now) → ⊥)) }
{
    match error.kind() {
        ErrorKind::OutOfMemory => Err(NoRequest::Memory),
        ErrorKind::DisplayHelp => text_of(alloc, error),
        ErrorKind::DisplayVersion => text_of(alloc, error),
        _ => Err(NoRequest::Words(Some(format!(in alloc; "{error}")?))),
    }
}

/// Reads the words of a call.
pub fn read_words<'w>(alloc: Global, words: &'w [String]) -> Result<Request<'w>, NoRequest>
    ensures asked { IfOk result (AsksFor (map string_bytes words.now)) }
    ensures own { IfOk result HasOwnFiles }
    ensures refused { IfErr result
        (λ e. (e ≡ NoRequest.Memory) ⊎ AsksForNothing (map string_bytes words.now)) }
    ensures bare { AsksFor (map string_bytes words.now) Request.Bare
        → (result ≡ Ok Request.Bare) ⊎ (result ≡ Err NoRequest.Memory) }
{
    let command = tempo_command(alloc)?;
    match command.try_get_matches_from(words) {
        Ok(matches) => asked(&matches).ok_or(NoRequest::Words(None)),
        Err(error) => without_matches(alloc, &error),
    }
}

/// A call without words, and one with the word `bare` alone, ask for the same.
pub fn bare_calls()
    ensures none { AsksFor [] Request.Bare }
    ensures bare { AsksFor (codes "bare" ∷ []) Request.Bare }
{}

/// Words that call for help, of the program or of a command, or for the version, and nothing else.
pub fn help_calls()
    ensures help { CallsForText (fault_of tempo_app (codes "--help" ∷ [])) }
    ensures version { CallsForText (fault_of tempo_app (codes "--version" ∷ [])) }
    ensures command { CallsForText (fault_of tempo_app (codes "check" ∷ codes "--help" ∷ [])) }
{}

/// The file for a journal behind `bare`.
pub fn bare_log_calls()
    ensures { (w : PlanWords) → w.plan.now ≡ codes "l"
        → AsksFor (codes "bare" ∷ codes "--journal" ∷ codes "l" ∷ []) (Request.BareLog w.plan) }
{}

/// The files of two journals behind `bare`.
pub fn bare_resume_calls()
    ensures { (w : PlanWords) → w.plan.now ≡ codes "l" → w.domain.now ≡ codes "o"
        → AsksFor (codes "bare" ∷ codes "--journal" ∷ codes "l" ∷ codes "--resume" ∷ codes "o" ∷ [])
        (Request.BareResume w.domain w.plan) }
{}

/// Files and options of `check`, in the order in which they may stand, with a horizon of 1000000
/// where none is given.
pub fn check_calls()
    ensures { (w : PlanWords) → w.domain.now ≡ codes "d" → w.problem.now ≡ codes "p"
        → w.plan.now ≡ codes "l"
        → scale_ticks w.scale ≡ 1000 → w.horizon ≡ 1000000
        → AsksFor (codes "check" ∷ codes "d" ∷ codes "p" ∷ codes "--scale" ∷ codes "1000"
        ∷ codes "l" ∷ []) (Request.Check w) }
{}

/// The same of `net`.
pub fn net_calls()
    ensures { (w : PlanWords) → w.domain.now ≡ codes "d" → w.problem.now ≡ codes "p"
        → w.plan.now ≡ codes "l"
        → scale_ticks w.scale ≡ 1000 → w.horizon ≡ 1000000
        → AsksFor (codes "net" ∷ codes "d" ∷ codes "p" ∷ codes "--scale" ∷ codes "1000" ∷ codes "l"
        ∷ []) (Request.Net w) }
{}

/// The same of `run`.
pub fn run_calls()
    ensures { (w : PlanWords) → w.domain.now ≡ codes "d" → w.problem.now ≡ codes "p"
        → w.plan.now ≡ codes "l"
        → scale_ticks w.scale ≡ 1000 → w.horizon ≡ 1000000
        → AsksFor (codes "run" ∷ codes "d" ∷ codes "p" ∷ codes "--scale" ∷ codes "1000" ∷ codes "l"
        ∷ []) (Request.Run w) }
{}

/// The file for a journal behind the others of `run`.
pub fn run_log_calls()
    ensures { (w : PlanWords) → (v : SearchWords) → w.domain.now ≡ codes "d"
        → w.problem.now ≡ codes "p" → w.plan.now ≡ codes "l"
        → scale_ticks w.scale ≡ 1 → w.horizon ≡ 1000000 → v.domain.now ≡ codes "j"
        → AsksFor (codes "run" ∷ codes "d" ∷ codes "p" ∷ codes "l" ∷ codes "--journal" ∷ codes "j"
        ∷ []) (Request.RunLog w v.domain) }
{}

/// The files of two journals behind the others of `run`.
pub fn run_resume_calls()
    ensures { (w : PlanWords) → (v : SearchWords) → w.domain.now ≡ codes "d"
        → w.problem.now ≡ codes "p" → w.plan.now ≡ codes "l" → scale_ticks w.scale ≡ 1
        → w.horizon ≡ 1000000 → v.domain.now ≡ codes "j" → v.problem.now ≡ codes "o"
        → AsksFor (codes "run" ∷ codes "d" ∷ codes "p" ∷ codes "l" ∷ codes "--journal" ∷ codes "j"
        ∷ codes "--resume" ∷ codes "o" ∷ []) (Request.RunResume w v.problem v.domain) }
{}

/// Files and options of `plan`, with a horizon of 1000000 where none is given.
pub fn plan_calls()
    ensures { (w : SearchWords) → w.domain.now ≡ codes "d" → w.problem.now ≡ codes "p"
        → scale_ticks w.scale ≡ 1 → w.horizon ≡ 1000000 → w.budget ≡ 7
        → w.order ≡ Order.Lacking false
        → AsksFor (codes "plan" ∷ codes "d" ∷ codes "p" ∷ codes "--budget" ∷ codes "7" ∷ [])
        (Request.Plan w) }
{}

/// The same where `plan` is to tell how far it is.
pub fn plan_progress_calls()
    ensures { (w : SearchWords) → w.domain.now ≡ codes "d" → w.problem.now ≡ codes "p"
        → scale_ticks w.scale ≡ 1 → w.horizon ≡ 1000000 → w.budget ≡ 7
        → w.order ≡ Order.Lacking true
        → AsksFor (codes "plan" ∷ codes "d" ∷ codes "p" ∷ codes "--budget" ∷ codes "7"
        ∷ codes "--progress" ∷ []) (Request.Plan w) }
{}

/// The same of `solve`, with a budget of 1000000 where none is given, and one of its two wishes.
pub fn solve_calls()
    ensures { (w : SearchWords) (wishes : Wishes)
        → w.domain.now ≡ codes "d" → w.problem.now ≡ codes "p" → scale_ticks w.scale ≡ 1
        → w.horizon ≡ 1000000 → w.budget ≡ 1000000 → w.order ≡ Order.Guided wishes
        → wishes.improve ≡ true → wishes.progress ≡ false
        → AsksFor (codes "solve" ∷ codes "d" ∷ codes "p" ∷ codes "--improve" ∷ [])
        (Request.Plan w) }
{}

/// The file of a journal behind `audit`.
pub fn audit_calls()
    ensures { (w : PlanWords) → w.plan.now ≡ codes "l"
        → AsksFor (codes "audit" ∷ codes "l" ∷ []) (Request.Audit w.plan) }
{}

/// The files of a plan behind that of a journal.
pub fn plan_audit_calls()
    ensures { (w : PlanWords) → (v : SearchWords) → w.domain.now ≡ codes "d"
        → w.problem.now ≡ codes "p" → w.plan.now ≡ codes "l"
        → scale_ticks w.scale ≡ 1000 → w.horizon ≡ 1000000 → v.domain.now ≡ codes "j"
        → AsksFor (codes "audit" ∷ codes "j" ∷ codes "d" ∷ codes "p" ∷ codes "l" ∷ codes "--scale"
        ∷ codes "1000" ∷ []) (Request.PlanAudit v.domain w) }
{}

/// The file of the agents behind those of a plan.
pub fn split_calls()
    ensures { (w : PlanWords) → (v : SearchWords) → w.domain.now ≡ codes "d"
        → w.problem.now ≡ codes "p" → w.plan.now ≡ codes "l"
        → scale_ticks w.scale ≡ 1000 → w.horizon ≡ 1000000 → v.domain.now ≡ codes "o"
        → AsksFor (codes "split" ∷ codes "d" ∷ codes "p" ∷ codes "--scale" ∷ codes "1000"
        ∷ codes "l" ∷ codes "o" ∷ []) (Request.Split w v.domain) }
{}

/// The agent behind these files.
pub fn part_calls()
    ensures { (w : PlanWords) → (v : SearchWords) → w.domain.now ≡ codes "d"
        → w.problem.now ≡ codes "p" → w.plan.now ≡ codes "l"
        → scale_ticks w.scale ≡ 1 → w.horizon ≡ 1000000 → v.domain.now ≡ codes "o"
        → AsksFor (codes "split" ∷ codes "d" ∷ codes "p" ∷ codes "l" ∷ codes "o" ∷ codes "--part"
        ∷ codes "2" ∷ []) (Request.Part w v.domain 2) }
{}

/// The files of a plan behind `draw`, and its options.
pub fn draw_calls()
    ensures { (w : DrawWords) → (v : PlanWords) → w.domain.now ≡ codes "d"
        → w.problem.now ≡ codes "p" → w.plan.now ≡ codes "l" → scale_ticks w.scale ≡ 1
        → w.horizon ≡ Some 9 → w.journal ≡ Some v.plan → v.plan.now ≡ codes "j"
        → AsksFor (codes "draw" ∷ codes "d" ∷ codes "p" ∷ codes "l" ∷ codes "--horizon"
        ∷ codes "9" ∷ codes "--journal" ∷ codes "j" ∷ []) (Request.Draw w) }
{}

/// Words ask for one kind of thing at most: for one command, with one file for a journal or none,
/// one to go on from or none, one of a domain or none, and one of agents or none, or for help.
pub fn requests_are_distinct()
    ensures { (words : List (List ℕ)) → AskForOneThing words }
{}
