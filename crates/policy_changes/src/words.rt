//! The words of keys, persons, patterns and rules.

ghost use Rattle.std.specs.Prelude.{◌≡◌, ◌++◌, ◌∷◌, IfOk, OnOk, map};
ghost use Rattle.hex.specs.Hex.{encode_lower};
ghost use Rattle.octets.specs.Escaped.{escaped};
ghost use Rattle.policy_changes.specs.Words.{each_words, key_words, named_words, openness, pattern_words, person_words};
ghost use Rattle.policy_changes.specs.Words.{role_threshold, role_words, rule_threshold, rule_words};

use git_object::KeyId;
use itoa::Buffer;
use octets::{Items, Memory, Octets, escaped_text};
use ref_patterns::Pattern;
use root_metadata::{Key, Person, Role};
use rule_files::Rule;
use std::alloc::Global;

/// All that is told of a value.
pub struct Whole;

/// A person as roles and rules list one.
pub struct Named;

/// How many persons a rule asks for.
pub struct Threshold;

/// A type whose values are told in words, in this form.
pub trait Worded<Form>: Sized {
    ghost use Rattle.std.specs.Prelude.{ℕ, List};

    /// The words of a value.
    ghost words: { Self → List ℕ };

    /// Adds the words of a value at the end.
    fn add_words(&self, alloc: Global, text: &mut Octets) -> Result<(), Memory>
        ensures { OnOk result (text.new ≡ text.old ++ words self.now) };
}

// Adds the printable word of some bytes.
fn add_escaped(alloc: Global, text: &mut Octets, bytes: &[u8]) -> Result<(), Memory>
    ensures { OnOk result (text.new ≡ text.old ++ escaped bytes.now) }
{
    let word = escaped_text(alloc, bytes)?;
    text.append(word.as_slice())
}

// Adds an id in lower-case hexadecimal.
fn add_id(alloc: Global, text: &mut Octets, id: &KeyId) -> Result<(), Memory>
    ensures { OnOk result (text.new ≡ text.old ++ encode_lower id.now) }
{
    let digits = hex::encode(alloc, id.as_bytes())?;
    text.append(digits.as_bytes())
}

// Adds the words of an item behind a space.
fn add_behind<Form, T: Worded<Form>>(
    alloc: Global,
    text: &mut Octets,
    item: &T,
) -> Result<(), Memory>
    ensures { OnOk result (text.new ≡ text.old ++ 32 ∷ T.words item.now) }
{
    text.append(b" ")?;
    item.add_words(alloc, text)
}

// Adds the words of items, each behind a space.
fn add_each<Form, T: Worded<Form>>(
    alloc: Global,
    text: &mut Octets,
    items: &[T],
) -> Result<(), Memory>
    ensures { OnOk result (text.new ≡ text.old ++ each_words T.words items.now) }
{
    'items: for item in items {
        match add_behind::<Form, T>(alloc, text, item) {
            Ok(()) => {}
            Err(memory) => return Err(memory),
        }
    }
    Ok(())
}

impl Worded<Whole> for KeyId {
    ghost words = { encode_lower };

    fn add_words(&self, alloc: Global, text: &mut Octets) -> Result<(), Memory> {
        add_id(alloc, text, self)
    }
}

impl Worded<Whole> for Key {
    ghost words = { key_words };

    fn add_words(&self, alloc: Global, text: &mut Octets) -> Result<(), Memory> {
        add_id(alloc, text, &self.id)
    }
}

// The text of a pattern.
fn pattern_text(alloc: Global, pattern: &Pattern) -> Result<Octets, Memory>
    ensures { IfOk result (λ text. escaped text ≡ pattern_words pattern.now) }
{
    let mut text = Octets::from_slice(alloc, pattern.space().prefix())?;
    text.append(pattern.glob())?;
    Ok(text)
}

impl Worded<Whole> for Pattern {
    ghost words = { pattern_words };

    fn add_words(&self, alloc: Global, text: &mut Octets) -> Result<(), Memory> {
        let pattern = pattern_text(alloc, self)?;
        add_escaped(alloc, text, pattern.as_slice())
    }
}

impl Worded<Named> for Person {
    ghost words = { named_words };

    fn add_words(&self, alloc: Global, text: &mut Octets) -> Result<(), Memory> {
        add_escaped(alloc, text, self.name.as_slice())
    }
}

impl Worded<Whole> for Person {
    ghost words = { person_words };

    fn add_words(&self, alloc: Global, text: &mut Octets) -> Result<(), Memory> {
        add_escaped(alloc, text, self.name.as_slice())?;
        add_each::<Whole, KeyId>(alloc, text, self.keyids.as_slice())
    }
}

fn openness(terminating: bool) -> &'static [u8]
    ensures { result.now ≡ openness terminating }
{
    if terminating {
        b" terminating"
    } else {
        b" open"
    }
}

impl Worded<Whole> for Rule {
    ghost words = { rule_words };

    fn add_words(&self, alloc: Global, text: &mut Octets) -> Result<(), Memory> {
        text.append(b"rule ")?;
        add_escaped(alloc, text, self.name.as_slice())?;
        add_each::<Whole, Pattern>(alloc, text, self.patterns.as_slice())?;
        text.append(b" by")?;
        add_each::<Named, Person>(alloc, text, self.persons.as_slice())?;
        text.append(openness(self.terminating))
    }
}

impl Worded<Threshold> for Rule {
    ghost words = { rule_threshold };

    fn add_words(&self, alloc: Global, text: &mut Octets) -> Result<(), Memory> {
        let mut digits = Buffer::new();
        text.append(b"rule ")?;
        add_escaped(alloc, text, self.name.as_slice())?;
        text.append(b" ")?;
        text.append(digits.format(self.threshold).as_bytes())
    }
}

/// Who is asked by a role of this name.
pub fn role_text(alloc: Global, name: &[u8], role: &Role) -> Result<Octets, Memory>
    ensures { IfOk result (λ text. text ≡ role_words name.now role.now) }
{
    let mut text = Octets::from_slice(alloc, b"role ")?;
    text.append(name)?;
    text.append(b" by")?;
    add_each::<Named, Person>(alloc, &mut text, role.persons.as_slice())?;
    Ok(text)
}

/// How many persons a role of this name asks for.
pub fn role_count(alloc: Global, name: &[u8], role: &Role) -> Result<Octets, Memory>
    ensures { IfOk result (λ text. text ≡ role_threshold name.now role.now) }
{
    let mut digits = Buffer::new();
    let mut text = Octets::from_slice(alloc, b"role ")?;
    text.append(name)?;
    text.append(b" ")?;
    text.append(digits.format(role.threshold).as_bytes())?;
    Ok(text)
}

// The words of an item.
fn text_of<Form, T: Worded<Form>>(alloc: Global, item: &T) -> Result<Octets, Memory>
    ensures { IfOk result (λ text. text ≡ T.words item.now) }
{
    let mut text = Octets::new(alloc);
    match item.add_words(alloc, &mut text) {
        Ok(()) => Ok(text),
        Err(memory) => Err(memory),
    }
}

/// Adds the words of items at the end, a text for each.
pub fn add_texts<Form, T: Worded<Form>>(
    alloc: Global,
    texts: &mut Items<Octets>,
    items: &[T],
) -> Result<(), Memory>
    ensures { OnOk result (texts.new ≡ texts.old ++ map T.words items.now) }
{
    'items: for item in items {
        let text = match text_of::<Form, T>(alloc, item) {
            Ok(text) => text,
            Err(memory) => return Err(memory),
        };
        texts.push(text)?;
    }
    Ok(())
}
