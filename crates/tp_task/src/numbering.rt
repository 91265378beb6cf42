//! The numbers of names, atoms and fluents.

ghost use Rattle.std.specs.Prelude.{◌≡◌, ◌∷◌, [], ◌++◌, ◌<◌, ◌≤◌, Some, map, length, slice_get, option_map, IfOk, OnOk, IfErr, OnErr, string_bytes, IfSome, ◌+◌, ◌^◌};
ghost use Rattle.std.specs.List.{IsDistinct, position_from};
ghost use Rattle.std.specs.Str.{bytes_eq};
ghost use Rattle.tp_task.specs.Words.{same_words, with_words, text_of_words};
ghost use Rattle.tp_task.specs.Labels.{named, with_label, Grows, AreNamed};
ghost use Rattle.tp_task.specs.Tables.{words_at, IsFull, CannotNumber};

use crate::fault::{GroundFault, TooManyKind};
use crate::labels::{Label, Labels, label_at};
use crate::lookup::{find, known_number, text_of, word_of};
use indexmap::IndexSet;
use smallvec::SmallVec;
use std::alloc::{AllocError, Global};
use std::marker::Model;

/// Atoms, fluents and actions by number, each told by its name and its objects.
#[derive(Drop)]
pub struct Numbering {
    names: IndexSet<String>,
    atoms: IndexSet<Label>,
    fluents: IndexSet<Label>,
    actions: Labels,
    most: u32,
}

impl Model for Numbering {
    ghost use Rattle.std.specs.Prelude.{map, string_bytes};
    ghost use Rattle.tp_task.specs.Tables.{Tables, coded_tables};

    ghost Value = { Tables };

    ghost coded = { coded_tables };

    ghost use Rattle.tp_task.specs.Labels.{named, IsNumbering};

    ghost view = { λ n. record {
      atoms = map (named (map string_bytes n.names.keys)) (map (λ l. l.items) n.atoms.keys);
      fluents = map (named (map string_bytes n.names.keys)) (map (λ l. l.items) n.fluents.keys);
      actions = map (named (map string_bytes n.names.keys)) n.actions;
      most = n.most;
    } };

    ghost invariant = { λ n.
        IsNumbering (map string_bytes n.names.keys) (map (λ l. l.items) n.atoms.keys)
        (map (λ l. l.items) n.fluents.keys) n.actions n.most };
}

// The number of a name, which gets the next one if it has none.
fn name_number(names: &mut IndexSet<String>, name: &str) -> Result<usize, AllocError>
    requires { IsDistinct bytes_eq (map string_bytes names.old.keys) }
    ensures number { IfOk result
        (λ i. slice_get (map string_bytes names.new.keys) i ≡ Some name.now) }
    ensures grows { Grows (map string_bytes names.old.keys) (map string_bytes names.new.keys) }
    ensures distinct { IsDistinct bytes_eq (map string_bytes names.new.keys) }
{
    if let Some(number) = known_number(names, name) {
        return Ok(number);
    }
    let owned = String::from_str(*names.allocator(), name)?;
    let (number, _) = names.insert_full(owned)?;
    Ok(number)
}

// The label of words, of which each gets a number if it has none.
fn label_of(names: &mut IndexSet<String>, words: &[&str]) -> Result<Label, AllocError>
    requires { IsDistinct bytes_eq (map string_bytes names.old.keys) }
    ensures label { IfOk result
        (λ l. named (map string_bytes names.new.keys) l.items ≡ map (λ w. w.now) words.now) }
    ensures in_range { IfOk result
        (λ l. AreNamed (length (map string_bytes names.new.keys)) l.items) }
    ensures grows { Grows (map string_bytes names.old.keys) (map string_bytes names.new.keys) }
    ensures distinct { IsDistinct bytes_eq (map string_bytes names.new.keys) }
{
    let mut label = SmallVec::new(*names.allocator());
    for word in words {
        let number = name_number(names, word)?;
        label.push(number)?;
    }
    Ok(label)
}

// The place of a label, which gets one if there are fewer labels than so many.
fn place_of(
    labels: &mut IndexSet<Label>,
    most: u32,
    label: Label,
    kind: TooManyKind,
) -> Result<u32, GroundFault>
    requires { length (map (λ l. l.items) labels.old.keys) ≤ most }
    ensures place { IfOk result
        (λ i. slice_get (map (λ l. l.items) labels.new.keys) i ≡ Some label.items) }
    ensures added { OnOk result (map (λ l. l.items) labels.new.keys
        ≡ with_label (map (λ l. l.items) labels.old.keys) label.items) }
    ensures unchanged { OnErr result (labels.new.keys ≡ labels.old.keys) }
    ensures few { length (map (λ l. l.items) labels.new.keys) ≤ most }
    ensures err { IfErr result (IsFull kind most (map (λ l. l.items) labels.old.keys) label.items) }
{
    if labels.len() >= most as usize && !labels.contains(&label) {
        return Err(GroundFault::TooMany(kind));
    }
    let (place, _) = labels.insert_full(label)?;
    Ok(place as u32)
}

impl Numbering {
    /// No atoms, fluents and actions, of the first two at most so many each.
    pub fn new(alloc: Global, most: u32) -> Self
        ensures { result ≡ record { atoms = []; fluents = []; actions = []; most = most } }
    {
        Numbering {
            names: IndexSet::new(alloc),
            atoms: IndexSet::new(alloc),
            fluents: IndexSet::new(alloc),
            actions: Labels::new(alloc),
            most,
        }
    }

    /// How many atoms there are.
    pub fn atom_count(&self) -> usize
        ensures count { result ≡ length self.now.atoms }
        ensures few { result ≤ self.now.most }
    {
        self.atoms.len()
    }

    /// How many fluents there are.
    pub fn fluent_count(&self) -> usize
        ensures count { result ≡ length self.now.fluents }
        ensures few { result ≤ self.now.most }
    {
        self.fluents.len()
    }

    /// The number of an atom, which gets the next one if it has none.
    pub fn atom(&mut self, words: &[&str]) -> Result<u32, GroundFault>
        ensures atoms { OnOk result
            (self.new.atoms ≡ with_words self.old.atoms (map (λ w. w.now) words.now)) }
        ensures place { IfOk result
            (λ i. slice_get self.new.atoms i ≡ Some (map (λ w. w.now) words.now)) }
        ensures unchanged { OnErr result (self.new.atoms ≡ self.old.atoms) }
        ensures fluents { self.new.fluents ≡ self.old.fluents }
        ensures actions { self.new.actions ≡ self.old.actions }
        ensures most { self.new.most ≡ self.old.most }
        ensures err { IfErr result (CannotNumber self.old.most
            (with_words self.old.atoms (map (λ w. w.now) words.now)) self.old.fluents) }
    {
        let label = label_of(&mut self.names, words)?;
        place_of(&mut self.atoms, self.most, label, TooManyKind::Atoms)
    }

    /// The number of a fluent, which gets the next one if it has none.
    pub fn fluent(&mut self, words: &[&str]) -> Result<u32, GroundFault>
        ensures fluents { OnOk result
            (self.new.fluents ≡ with_words self.old.fluents (map (λ w. w.now) words.now)) }
        ensures place { IfOk result
            (λ i. slice_get self.new.fluents i ≡ Some (map (λ w. w.now) words.now)) }
        ensures unchanged { OnErr result (self.new.fluents ≡ self.old.fluents) }
        ensures atoms { self.new.atoms ≡ self.old.atoms }
        ensures actions { self.new.actions ≡ self.old.actions }
        ensures most { self.new.most ≡ self.old.most }
        ensures err { IfErr result (CannotNumber self.old.most self.old.atoms
            (with_words self.old.fluents (map (λ w. w.now) words.now))) }
    {
        let label = label_of(&mut self.names, words)?;
        place_of(&mut self.fluents, self.most, label, TooManyKind::Fluents)
    }

    /// Numbers one more action.
    pub fn push_action(&mut self, words: &[&str]) -> Result<(), AllocError>
        ensures actions { OnOk result
            (self.new.actions ≡ self.old.actions ++ map (λ w. w.now) words.now ∷ []) }
        ensures unchanged { OnErr result (self.new.actions ≡ self.old.actions) }
        ensures atoms { self.new.atoms ≡ self.old.atoms }
        ensures fluents { self.new.fluents ≡ self.old.fluents }
        ensures most { self.new.most ≡ self.old.most }
    {
        let label = label_of(&mut self.names, words)?;
        self.actions.push(label)?;
        Ok(())
    }

    /// Where the first action of these words stands.
    pub fn find_action(&self, name: &str, args: &[&str]) -> Option<usize>
        ensures { result
            ≡ position_from (same_words (name.now ∷ map (λ a. a.now) args.now)) 0 self.now.actions }
    {
        find(&self.names, &self.actions, name, args)
    }

    /// An atom as text.
    pub fn atom_text(&self, number: u32) -> Result<String, AllocError>
        ensures { IfOk result
            (λ s. string_bytes s ≡ text_of_words (words_at self.now.atoms number)) }
    {
        let label = label_at(self.atoms.as_slice(), number as usize);
        text_of(&self.names, label)
    }

    /// An action as text.
    pub fn action_text(&self, number: u32) -> Result<String, AllocError>
        ensures { IfOk result
            (λ s. string_bytes s ≡ text_of_words (words_at self.now.actions number)) }
    {
        text_of(&self.names, self.actions.at(number as usize))
    }

    /// A word of an action: its name at 0, and then its objects.
    pub fn action_word(&self, number: u32, place: usize) -> Option<&str>
        ensures few { IfSome result (λ _. place + 1 < 2 ^ 64) }
        ensures word { option_map (λ w. w.now) result
            ≡ slice_get (words_at self.now.actions number) place }
    {
        word_of(&self.names, self.actions.at(number as usize), place)
    }
}
